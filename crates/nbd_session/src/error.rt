// The errors of replies.
ghost use Rattle.nbd_session.specs.Errors.{code_of, error_of, known_error, is_uneven, passes_end, range_error};
ghost use Rattle.std.specs.Prelude.{◌≡◌};

use crate::header::{Command, Header};
use crate::volume::Refusal;

/// The most bytes of one range.
pub(crate) const MOST_BYTES: usize = 33_554_432;

/// The error of a reply.
#[derive(Clone, Copy, Debug, PartialEq, Eq)]
pub enum NbdError {
    /// The volume is down, or a call of a disk failed and brought it down.
    Io,
    /// There was no memory.
    NoMemory,
    /// The type or a flag is unknown, the range isn't one of whole blocks or is longer than 32 MiB, or a read passes the
    /// volume's end.
    Invalid,
    /// A write passes the volume's end, or the volume has no version left to give.
    NoSpace,
}

impl NbdError {
    /// Its number in a reply.
    pub fn code(self) -> u32
        ensures { result ≡ code_of self }
    {
        match self {
            NbdError::Io => 5,
            NbdError::NoMemory => 12,
            NbdError::Invalid => 22,
            NbdError::NoSpace => 28,
        }
    }
}

/// The error where a volume refused.
pub(crate) fn error_of(refusal: Refusal) -> NbdError
    ensures { result ≡ error_of refusal }
{
    match refusal {
        Refusal::Down => NbdError::Io,
        Refusal::VersionsSpent => NbdError::NoSpace,
        Refusal::NoMemory => NbdError::NoMemory,
        Refusal::Broke => NbdError::Io,
    }
}

// Whether the range isn't one of whole blocks, or is longer than 32 MiB.
fn is_uneven(header: &Header) -> bool
    ensures { result ≡ is_uneven header.now }
{
    header.offset % 512 != 0 || header.length % 512 != 0 || header.length > 33_554_432
}

// Whether the range passes the end of a volume of so many blocks.
fn passes_end(home: u64, header: &Header) -> bool
    ensures { result ≡ passes_end home header.now }
{
    512 * u128::from(home) < u128::from(header.offset) + u128::from(header.length)
}

// The error of a request for this range.
fn range_error(home: u64, header: &Header) -> Option<NbdError>
    ensures { result ≡ range_error header.now.command home header.now }
{
    match header.command {
        Command::Read if is_uneven(header) || passes_end(home, header) => Some(NbdError::Invalid),
        Command::Write if is_uneven(header) => Some(NbdError::Invalid),
        Command::Write if passes_end(home, header) => Some(NbdError::NoSpace),
        Command::Unknown => Some(NbdError::Invalid),
        Command::Read | Command::Write | Command::Disc | Command::Flush => None,
    }
}

/// The error that a request has whatever a volume of so many blocks holds, if it has one.
pub(crate) fn known_error(home: u64, header: &Header) -> Option<NbdError>
    ensures { result ≡ known_error home header.now }
{
    if header.flags > 1 {
        return Some(NbdError::Invalid);
    }
    range_error(home, header)
}
