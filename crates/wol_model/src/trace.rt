// What a line of a trace asks for, and one request of it.

/// What a line of a block trace asks of its disk.
#[derive(Clone, Copy, Debug, PartialEq, Eq)]
pub enum Kind {
    Read,
    Write,
}

/// Blocks in a row that one request reads or writes.
#[derive(Clone, Copy, Debug, PartialEq, Eq)]
pub struct Piece {
    /// The number of the first block; a block has 512 bytes.
    pub lbn: u64,
    /// How many blocks.
    pub count: u32,
}
