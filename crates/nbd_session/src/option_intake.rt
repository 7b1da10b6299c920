// What is taken from a source: the client's flags, and its options.
ghost use Rattle.nbd_session.specs.Options.{HasMagic};
ghost use Rattle.nbd_session.specs.OptionTaking.{TakesFlags, TakesGiven, TakesOption};
ghost use Rattle.std.specs.Prelude.{◌≡◌, ◌≤◌, ◌↔◌, IsTrue, length, OnErr, OnOk};
ghost use Rattle.wol_disk.specs.Disk.{Rose};

use crate::ending::Unagreed;
use crate::{fill_room, take_data};
use byteorder::{BigEndian, ByteOrder};
use wol_disk::Failed;
use wol_io::Source;

/// The most bytes of an option's data.
pub(crate) const MOST_BYTES: usize = 4096;

const FLAGS_BYTES: usize = 4;

const HEAD_BYTES: usize = 16;

/// The bytes `IHAVEOPT`.
const OPTION_MAGIC: u64 = 0x4948_4156_454f_5054;

/// What comes next of a source.
pub(crate) enum Next {
    /// An option, with so many bytes of data.
    Asked { number: u32, length: usize },
    /// Something else, or nothing.
    Ended(Unagreed),
}

/// Takes the client's flags. Answers whether it wants zeroes behind an export.
pub(crate) fn take_flags<S: Source>(input: &mut S) -> Result<Result<bool, Unagreed>, Failed>
    ensures content { TakesFlags (S.left input.old) (S.left input.new) result }
    ensures later { S.faults input.old ≤ S.faults input.new }
    ensures cause { OnErr result (Rose (S.faults input.old) (S.faults input.new)) }
    ensures calm { OnOk result (S.faults input.new ≡ S.faults input.old) }
{
    let mut bytes = [0; FLAGS_BYTES];
    let count = fill_room(input, &mut bytes)?;
    if count == 0 {
        return Ok(Err(Unagreed::End));
    }
    if count < FLAGS_BYTES {
        return Ok(Err(Unagreed::Cut));
    }
    let flags = BigEndian::read_u32(&bytes);
    if flags > 3 {
        return Ok(Err(Unagreed::BadFlags));
    }
    Ok(Ok(flags < 2))
}

// Whether the bytes begin as an option does.
fn has_magic(bytes: &[u8]) -> bool
    requires { 8 ≤ length bytes.now }
    ensures { IsTrue result ↔ HasMagic bytes.now }
{
    BigEndian::read_u64(bytes) == OPTION_MAGIC
}

// Takes the data of the option with this head into the front of a room.
fn take_given<S: Source>(input: &mut S, head: &[u8], room: &mut [u8]) -> Result<Next, Failed>
    requires head { length head.now ≡ 16 }
    requires room { length room.old ≡ 4096 }
    requires magic { HasMagic head.now }
    ensures content { TakesGiven head.now (S.left input.old) (S.left input.new) room.new result }
    ensures later { S.faults input.old ≤ S.faults input.new }
    ensures cause { OnErr result (Rose (S.faults input.old) (S.faults input.new)) }
    ensures calm { OnOk result (S.faults input.new ≡ S.faults input.old) }
{
    let length = BigEndian::read_u32(&head[12..]) as usize;
    if length > MOST_BYTES {
        return Ok(Next::Ended(Unagreed::TooLong));
    }
    if !take_data(input, room, length)? {
        return Ok(Next::Ended(Unagreed::Cut));
    }
    let number = BigEndian::read_u32(&head[8..]);
    Ok(Next::Asked { number, length })
}

/// Takes the next option, whose data stand in front in the room then.
pub(crate) fn next_option<S: Source>(input: &mut S, room: &mut [u8]) -> Result<Next, Failed>
    requires { length room.old ≡ 4096 }
    ensures content { TakesOption (S.left input.old) (S.left input.new) room.new result }
    ensures later { S.faults input.old ≤ S.faults input.new }
    ensures cause { OnErr result (Rose (S.faults input.old) (S.faults input.new)) }
    ensures calm { OnOk result (S.faults input.new ≡ S.faults input.old) }
{
    let mut head = [0; HEAD_BYTES];
    let count = fill_room(input, &mut head)?;
    if count == 0 {
        return Ok(Next::Ended(Unagreed::End));
    }
    if count < HEAD_BYTES {
        return Ok(Next::Ended(Unagreed::Cut));
    }
    if !has_magic(&head) {
        return Ok(Next::Ended(Unagreed::BadMagic));
    }
    take_given(input, &head, room)
}
