// The bytes that answer an option.
ghost use Rattle.byteorder.specs.Endian.{big_bytes};
ghost use Rattle.nbd_session.specs.Options.{code_of, export_bytes, export_replies, info_or_not, info_replies, name_bytes, replies_of, reply, reply_head, size_bytes, told_bytes};
ghost use Rattle.std.specs.Prelude.{◌≡◌, ◌++◌, ◌<◌, ◌≤◌, ◌^◌, [], length, IfOk, OnOk};

use crate::asked::{Kind, asks_for_export, is_asking, is_offered};
use crate::export::Export;
use byteorder::{BigEndian, ByteOrder};
use std::alloc::Global;
use wol_disk::NoMemory;

const REPLY_MAGIC: u64 = 0x3_e889_0455_65a9;

/// What kind of reply to an option it is.
#[derive(Clone, Copy)]
pub(crate) enum ReplyKind {
    /// The option was done.
    Ack,
    /// A name of an export follows.
    Server,
    /// A fact on an export follows.
    Info,
    /// The option isn't known.
    Unsupported,
    /// Its data aren't as they should be.
    Invalid,
    /// No export has the name.
    Unknown,
}

impl ReplyKind {
    // Its number.
    fn code(self) -> u32
        ensures { result ≡ code_of self }
    {
        match self {
            ReplyKind::Ack => 1,
            ReplyKind::Server => 2,
            ReplyKind::Info => 3,
            ReplyKind::Unsupported => 0x8000_0001,
            ReplyKind::Invalid => 0x8000_0003,
            ReplyKind::Unknown => 0x8000_0006,
        }
    }
}

/// What may be asked of an export: it has flags, FLUSH, and writes that are durable before their reply.
const FLAGS: u16 = 13;

/// Zeroes behind an export, for clients that want them.
const ZEROES: [u8; 124] = [0; 124];

// What each reply begins with.
fn reply_head(number: u32, kind: ReplyKind, length: u32) -> [u8; 20]
    ensures { result ≡ reply_head number (code_of kind) length }
{
    let mut bytes = [0; 20];
    BigEndian::write_u64(&mut bytes, REPLY_MAGIC);
    BigEndian::write_u32(&mut bytes[8..], number);
    BigEndian::write_u32(&mut bytes[12..], kind.code());
    BigEndian::write_u32(&mut bytes[16..], length);
    bytes
}

// Appends a reply of this kind with these data.
fn append_reply(
    to: &mut Vec<u8>,
    number: u32,
    kind: ReplyKind,
    given: &[u8],
) -> Result<(), NoMemory>
    requires { length given.now < 2 ^ 32 }
    ensures { OnOk result (to.new.items ≡ to.old.items ++ reply number (code_of kind) given.now) }
{
    to.extend_from_slice(&reply_head(number, kind, given.len() as u32))?;
    to.extend_from_slice(given)?;
    Ok(())
}

// The size of an export in bytes, and what may be asked of it.
fn export_bytes(blocks: u64) -> [u8; 10]
    requires { blocks ≤ 2 ^ 32 }
    ensures { result ≡ export_bytes blocks }
{
    let mut bytes = [0; 10];
    BigEndian::write_u64(&mut bytes, 512 * blocks);
    BigEndian::write_u16(&mut bytes[8..], FLAGS);
    bytes
}

// The same as a fact.
fn told_bytes(blocks: u64) -> [u8; 12]
    requires { blocks ≤ 2 ^ 32 }
    ensures { result ≡ told_bytes blocks }
{
    let mut bytes = [0; 12];
    BigEndian::write_u16(&mut bytes, 0);
    BigEndian::write_u64(&mut bytes[2..], 512 * blocks);
    BigEndian::write_u16(&mut bytes[10..], FLAGS);
    bytes
}

// The least, the best and the greatest length of a request, as a fact.
fn size_bytes() -> [u8; 14]
    ensures { result ≡ size_bytes }
{
    let mut bytes = [0; 14];
    BigEndian::write_u16(&mut bytes, 3);
    BigEndian::write_u32(&mut bytes[2..], 512);
    BigEndian::write_u32(&mut bytes[6..], 4096);
    BigEndian::write_u32(&mut bytes[10..], 33_554_432);
    bytes
}

// Appends the export itself.
fn append_export(to: &mut Vec<u8>, export: &Export<'_>, zeroes: bool) -> Result<(), NoMemory>
    ensures { OnOk result (to.new.items ≡ to.old.items ++ export_replies export.now.blocks zeroes) }
{
    to.extend_from_slice(&export_bytes(export.blocks))?;
    if zeroes {
        to.extend_from_slice(&ZEROES)?;
    }
    Ok(())
}

// The length of a name.
fn length_bytes(length: u32) -> [u8; 4]
    ensures { result ≡ big_bytes 4 length }
{
    let mut bytes = [0; 4];
    BigEndian::write_u32(&mut bytes, length);
    bytes
}

// Appends the name of the export, with its length before it.
fn append_name(to: &mut Vec<u8>, export: &Export<'_>) -> Result<(), NoMemory>
    ensures { OnOk result (to.new.items ≡ to.old.items ++ name_bytes export.now.name.now) }
{
    to.extend_from_slice(&length_bytes(export.name.len() as u32))?;
    to.extend_from_slice(export.name)?;
    Ok(())
}

// Appends the names of all exports, which are one.
fn append_names(to: &mut Vec<u8>, export: &Export<'_>, number: u32) -> Result<(), NoMemory>
    ensures { OnOk result (to.new.items
        ≡ to.old.items
        ++ (reply number 2 (name_bytes export.now.name.now) ++ reply number 1 [])) }
{
    let length = 4 + export.name.len() as u32;
    to.extend_from_slice(&reply_head(number, ReplyKind::Server, length))?;
    append_name(to, export)?;
    append_reply(to, number, ReplyKind::Ack, &[])
}

// Appends what there is to know of the export.
fn append_info(to: &mut Vec<u8>, export: &Export<'_>, number: u32) -> Result<(), NoMemory>
    ensures { OnOk result (to.new.items ≡ to.old.items ++ info_replies export.now.blocks number) }
{
    append_reply(to, number, ReplyKind::Info, &told_bytes(export.blocks))?;
    append_reply(to, number, ReplyKind::Info, &size_bytes())?;
    append_reply(to, number, ReplyKind::Ack, &[])
}

// Appends the replies to INFO or GO with these data.
fn append_asked(
    to: &mut Vec<u8>,
    export: &Export<'_>,
    number: u32,
    given: &[u8],
) -> Result<(), NoMemory>
    ensures { OnOk result (to.new.items
        ≡ to.old.items ++ info_or_not export.now.name.now export.now.blocks number given.now) }
{
    if asks_for_export(export, given) {
        append_info(to, export, number)
    } else if is_asking(given) {
        append_reply(to, number, ReplyKind::Unknown, &[])
    } else {
        append_reply(to, number, ReplyKind::Invalid, &[])
    }
}

/// The replies to an option of this kind.
pub(crate) fn replies_of(
    alloc: Global,
    kind: Kind,
    export: &Export<'_>,
    zeroes: bool,
    number: u32,
    given: &[u8],
) -> Result<Vec<u8>, NoMemory>
    ensures { IfOk result (λ v.
        v.items ≡ replies_of kind export.now.name.now export.now.blocks zeroes number given.now) }
{
    let mut to = Vec::new(alloc);
    match kind {
        Kind::ExportName if is_offered(export, given) => append_export(&mut to, export, zeroes)?,
        Kind::ExportName => {}
        Kind::Abort => append_reply(&mut to, number, ReplyKind::Ack, &[])?,
        Kind::List if given.is_empty() => append_names(&mut to, export, number)?,
        Kind::List => append_reply(&mut to, number, ReplyKind::Invalid, &[])?,
        Kind::Info | Kind::Go => append_asked(&mut to, export, number, given)?,
        Kind::Other => append_reply(&mut to, number, ReplyKind::Unsupported, &[])?,
    }
    Ok(to)
}
