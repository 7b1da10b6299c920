// What a pool began with, as contracts see it. No value of it is made.
use std::collections::LinkedList;

/// Who has a segment of the volume.
pub enum Holder {
    /// Neither the pool nor one of its lock's passes.
    Elsewhere,
    /// The pool: the segment is free.
    InPool,
    /// The pass with this number.
    HeldBy(u64),
}

/// The base of a pool's lock.
pub struct PoolBase {
    pub volume: u32,
    /// The number of blocks of each segment.
    pub blocks: u32,
    /// Who has each segment, by its index. There are as many as the pool has room for.
    pub holders: LinkedList<Holder>,
}
