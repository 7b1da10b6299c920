// Why a run ended before the end of its trace.
use msr_trace::BadLine;

/// Why a run ended before it was done.
#[derive(Clone, Copy, Debug, PartialEq, Eq)]
pub enum Fault {
    /// The bay didn't make the image.
    Bay,
    /// A call of the image's disk failed.
    Disk,
    /// The line with this number, counted from 1, is no line of a trace. All lines before it were run.
    BadLine { line: u64, why: BadLine },
    /// 2^32 lines were run, and more is there.
    Spent,
    /// The source of the trace failed. The whole lines before that were run.
    Source,
    /// The sink failed.
    Sink,
    /// There was no memory.
    NoMemory,
}
