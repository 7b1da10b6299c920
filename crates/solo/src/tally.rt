// What a run counts for its last line.

/// Lines that were read, and requests that were answered.
#[derive(Clone, Copy)]
pub struct Tally {
    /// All lines.
    pub lines: u64,
    pub blank: u64,
    /// Lines that don't belong to the volume.
    pub skipped: u64,
    pub reads: u64,
    pub writes: u64,
}
