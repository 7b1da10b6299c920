// What the steps of reclaim answer.

/// What was fetched.
#[derive(Clone, Copy, Debug, PartialEq, Eq)]
pub enum Fetched {
    /// The record of this version, with so many blocks.
    Some { version: u64, count: u32 },
    /// No record within reach has a due block, or home is asleep.
    Nothing,
}

/// What was given up.
#[derive(Clone, Copy, Debug, PartialEq, Eq)]
pub enum Gone {
    /// All that the record of this version kept: it is gone.
    Version(u64),
    /// Some blocks of the record of this version, which keeps others.
    Trimmed(u64),
    /// No record within reach has a block that may go.
    Nothing,
}

/// What a step of a drain did.
#[derive(Clone, Copy, Debug, PartialEq, Eq)]
pub enum Drain {
    /// No record is left.
    Bare,
    /// So many blocks went home, and so many records are gone.
    Moved { blocks: u32, records: u32 },
}
