//! Reading a segment back: who owns it and where the heads of its records stand, or the first block that is damaged.
//!
//! `log_scan` reads them back: `calls.rt` the scan, `reading.rt` its loop over heads, `ahead.rt` reads of many blocks
//! at a time, `adopted.rt` a part as the segment that it is.
#![tactic(auto)]

use log_layout::RecHead;

mod adopted;
mod ahead;
pub mod calls;
mod reading;

pub use adopted::{Adopted, adopt};

/// The head of a record, and its position in its segment.
#[derive(Clone, Copy, Debug, PartialEq, Eq)]
pub struct Found {
    pub pos: u32,
    pub head: RecHead,
}

/// What was found in a segment.
#[derive(Drop)]
pub struct Scan {
    /// The volume that owns it, or `None` where it is free.
    pub owner: Option<u32>,
    /// The heads of its records, in the order in which they stand.
    pub records: Vec<Found>,
    /// The position behind its last record; 1 where it is free.
    pub end: u32,
}

/// Why a segment could not be read.
#[derive(Clone, Copy, Debug, PartialEq, Eq)]
pub enum ScanFault {
    /// It is neither free nor a log, and no call of its disk failed. `block` is the first block at fault: one in the
    /// place of a head that is none, or a record's head of another owner or of more blocks than follow it.
    Damaged { block: u32 },
    /// A call of its disk failed.
    Failed,
    /// There was no memory for the records.
    NoMemory,
}
