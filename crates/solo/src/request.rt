// A request of the volume.
use msr_trace::Kind;

/// Blocks in a row that a line of the trace reads or writes.
#[derive(Clone, Copy)]
pub struct Request {
    /// The number of the line, counted from 1.
    pub line: u64,
    pub kind: Kind,
    /// The number of the first block.
    pub first: u64,
    /// How many blocks.
    pub count: u32,
}
