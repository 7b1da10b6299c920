// The reply to a request.
ghost use Rattle.nbd_session.specs.Answers.{answer_in, reply_of};
ghost use Rattle.nbd_session.specs.Headers.{reply_head};
ghost use Rattle.std.specs.Prelude.{◌≡◌, ◌≤◌, ◌++◌, ◌^◌, length, OnErr, OnOk, IfOk, Ok, Err};
ghost use Rattle.wol_disk.specs.Disk.{Rose};
ghost use Rattle.wol_io.specs.Streams.{SinkTakes};

use crate::error::NbdError;
use byteorder::{BigEndian, ByteOrder};
use wol_disk::Failed;
use wol_io::Sink;

const REPLY_MAGIC: u32 = 0x6744_6698;

// What a reply begins with.
fn head(error: u32, cookie: u64) -> [u8; 16]
    ensures { result ≡ reply_head error cookie }
{
    let mut bytes = [0; 16];
    BigEndian::write_u32(&mut bytes, REPLY_MAGIC);
    BigEndian::write_u32(&mut bytes[4..], error);
    BigEndian::write_u64(&mut bytes[8..], cookie);
    bytes
}

/// Sends the reply to the request with this cookie. Where the answer has data, these are the bytes in front.
pub(crate) fn send<K: Sink>(
    out: &mut K,
    cookie: u64,
    answer: Result<usize, NbdError>,
    bytes: &[u8],
) -> Result<(), Failed>
    requires data { IfOk answer (λ n. n ≤ length bytes.now) }
    ensures content { SinkTakes (K.taken out.old) (K.taken out.new) result
        (reply_of cookie (answer_in bytes.now answer)) }
    ensures later { K.faults out.old ≤ K.faults out.new }
    ensures cause { OnErr result (Rose (K.faults out.old) (K.faults out.new)) }
    ensures calm { OnOk result (K.faults out.new ≡ K.faults out.old) }
{
    match answer {
        Ok(0) => out.write(&head(0, cookie)),
        Ok(count) => {
            out.write(&head(0, cookie))?;
            out.write(&bytes[..count])
        }
        Err(error) => out.write(&head(error.code(), cookie)),
    }
}
