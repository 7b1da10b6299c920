// What cleaning answers.
use manager::Part;

/// What cleaning did.
#[derive(Clone, Copy, Debug, PartialEq, Eq)]
pub struct Cleaned {
    /// How many records there were.
    pub before: u64,
    /// How many there are now.
    pub after: u64,
    /// How many blocks were written again.
    pub copied: u64,
    /// Whether a chunk was left as it was, since no logger of the view had room for it. Cleaning stopped there. Where
    /// chunks were copied before it, all that may go was given up first; where none was, nothing was.
    pub full: bool,
}

/// Why cleaning wasn't done. After `VersionsSpent` and `NoMemory` what was copied before stands.
#[derive(Clone, Copy, Debug, PartialEq, Eq)]
pub enum CleanFault {
    /// A call of this part failed. The manager is down from now on.
    DiskFault(Part),
    /// The next version is 2^63, and a chunk still isn't tidy.
    VersionsSpent,
    /// There was no memory.
    NoMemory,
}
