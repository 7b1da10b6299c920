// A request.
use wol_model::Kind;

/// What one piece of a trace line asks of a volume.
#[derive(Clone, Copy, Debug, PartialEq, Eq)]
pub struct Request {
    /// Its number in the trace, counted from 0.
    pub number: u64,
    /// The number of its line, counted from 1 with blank lines. Its payload is made of it.
    pub line: u64,
    pub volume: u32,
    pub kind: Kind,
    /// The first block.
    pub lbn: u64,
    /// How many blocks.
    pub count: u32,
}
