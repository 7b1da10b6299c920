// What becomes of a request.
use manager::{Place, ReadRefusal, Sources, WriteRefusal};

/// What became of a request.
#[derive(Clone, Copy, Debug, PartialEq, Eq)]
pub enum Outcome {
    /// It was read. The mark is that of what was read.
    Read { mark: u64, sources: Sources },
    /// It was written, perhaps after a drain, since no logger had room.
    Wrote { place: Place, drained: bool },
    /// A read was refused.
    NoRead(ReadRefusal),
    /// A write, or its drain, was refused. It is never refused as full.
    NoWrite(WriteRefusal),
    /// An earlier request of the volume in this window wasn't answered.
    NotRun,
}
