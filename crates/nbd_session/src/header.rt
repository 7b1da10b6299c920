// The header of a request.
ghost use Rattle.nbd_session.specs.Headers.{HasMagic, command_of, header_of, payload_of, reply_head};
ghost use Rattle.std.specs.Prelude.{◌≡◌, ◌≤◌, ◌↔◌, IsTrue, length, ◌++◌};

use byteorder::{BigEndian, ByteOrder};

/// The bytes of a header.
pub(crate) const HEADER_BYTES: usize = 28;

/// The bytes that a header begins with.
pub(crate) const MAGIC_BYTES: usize = 4;

const REQUEST_MAGIC: u32 = 0x2560_9513;

/// What a request asks for.
#[derive(Clone, Copy, Debug, PartialEq, Eq)]
pub enum Command {
    Read,
    Write,
    /// The client goes away. This has no reply.
    Disc,
    Flush,
    /// A type that isn't served.
    Unknown,
}

/// The header of a request.
#[derive(Clone, Copy, Debug, PartialEq, Eq)]
pub struct Header {
    /// 1 asks that a write be durable before its reply, as each is; 0 asks for nothing. No other flags are known.
    pub flags: u16,
    pub command: Command,
    /// What the client knows the reply by.
    pub cookie: u64,
    /// Where the range begins, in bytes.
    pub offset: u64,
    /// The length of the range in bytes.
    pub length: u32,
}

impl Header {
    /// How many bytes follow it.
    pub(crate) fn payload(&self) -> usize
        ensures { result ≡ payload_of self.now.command self.now.length }
    {
        match self.command {
            Command::Write => self.length as usize,
            Command::Read | Command::Disc | Command::Flush | Command::Unknown => 0,
        }
    }
}

// What a number asks for.
fn command_of(number: u16) -> Command
    ensures { result ≡ command_of number }
{
    match number {
        0 => Command::Read,
        1 => Command::Write,
        2 => Command::Disc,
        3 => Command::Flush,
        _ => Command::Unknown,
    }
}

/// Whether the bytes begin as a request does.
pub(crate) fn has_magic(bytes: &[u8]) -> bool
    requires { 4 ≤ length bytes.now }
    ensures { IsTrue result ↔ HasMagic bytes.now }
{
    BigEndian::read_u32(bytes) == REQUEST_MAGIC
}

/// The header in these bytes.
pub(crate) fn header_of(bytes: &[u8]) -> Header
    requires { 28 ≤ length bytes.now }
    ensures { result ≡ header_of bytes.now }
{
    Header {
        flags: BigEndian::read_u16(&bytes[4..]),
        command: command_of(BigEndian::read_u16(&bytes[6..])),
        cookie: BigEndian::read_u64(&bytes[8..]),
        offset: BigEndian::read_u64(&bytes[16..]),
        length: BigEndian::read_u32(&bytes[24..]),
    }
}
