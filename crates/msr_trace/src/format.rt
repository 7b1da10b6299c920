// What a line of a trace has, and why bytes are none.
use crate::host::HostName;
use thiserror::Error;
use wol_model::Kind;

/// A line of a trace: one request to a disk of a host.
#[derive(Drop)]
pub struct Line {
    /// When the request was issued, in units of 100 ns.
    pub time: u64,
    pub host: HostName,
    /// Which of the host's disks.
    pub disk: u32,
    pub kind: Kind,
    /// Where the request begins, in bytes.
    pub offset: u64,
    /// How many bytes it moves.
    pub size: u64,
    /// How long it took, in units of 100 ns.
    pub response: u64,
}

/// Why bytes are no line of a trace. Of several reasons the first in the order of `read_line` is told.
#[derive(Clone, Copy, Debug, PartialEq, Eq, Error)]
pub enum BadLine {
    /// There aren't seven fields.
    #[error("fields")]
    FieldCount,
    /// This field, counted from 1, is no number in its range.
    #[error("number {0}")]
    Number(u8),
    /// The fourth field is neither `Read` nor `Write`.
    #[error("kind")]
    Kind,
    /// The size is over 67,108,864 bytes.
    #[error("too large")]
    TooLarge,
    /// The request ends after byte 2^64 - 1.
    #[error("past end")]
    PastEnd,
    /// The line has over 4,096 bytes.
    #[error("too long")]
    LineTooLong,
    /// A quotation mark stands in the line, or a carriage return before its last byte.
    #[error("quote")]
    Quote,
}

/// Why a line was not read.
#[derive(Clone, Copy, Debug, PartialEq, Eq, Error)]
pub enum LineFault {
    #[error("{0}")]
    Bad(BadLine),
    #[error("memory")]
    NoMemory,
}

/// Why no line was given.
#[derive(Clone, Copy, Debug, PartialEq, Eq, Error)]
pub enum TraceFault {
    /// The source failed.
    #[error("source")]
    Source,
    /// The line with this number, counted from 1 with blank lines, is refused.
    #[error("line {line} {why}")]
    Bad { line: u64, why: BadLine },
    /// There are more than 2^32 lines.
    #[error("lines")]
    Spent,
    /// There was no memory. The next call gives the same line.
    #[error("memory")]
    NoMemory,
}
