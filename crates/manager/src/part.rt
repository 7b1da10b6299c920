// What a manager answers: where blocks came from or went, and why a call was refused.

/// A part of an image that a manager reads and writes.
#[derive(Clone, Copy, Debug, PartialEq, Eq)]
pub enum Part {
    /// The home of this volume.
    Home { volume: u32 },
    /// A segment of the log on this volume's image.
    Segment { volume: u32, index: u32 },
}

/// How many blocks of a read came from home, and how many from logs.
#[derive(Clone, Copy, Debug, PartialEq, Eq)]
pub struct Sources {
    pub home: u32,
    pub logged: u32,
}

/// Where a write went.
#[derive(Clone, Copy, Debug, PartialEq, Eq)]
pub enum Place {
    Home,
    /// The log of this logger, by its number as a volume.
    Log { logger: u32 },
}

/// Why a read was not answered.
#[derive(Clone, Copy, Debug, PartialEq, Eq)]
pub enum ReadRefusal {
    /// A call of this part failed in this call. The manager is down from now on.
    DiskFault(Part),
    /// The manager is down since a call of this part failed.
    Down(Part),
}

/// Why a write was not answered, in the order in which the causes are tried but for `Full` and `DiskFault`.
#[derive(Clone, Copy, Debug, PartialEq, Eq)]
pub enum WriteRefusal {
    /// The rule of placing ends without a place: a record covers a block of the range, and no logger has room.
    Full,
    /// A call of this part failed in this call. The manager is down from now on.
    DiskFault(Part),
    /// The manager is down since a call of this part failed.
    Down(Part),
    /// The next version is 2^63.
    VersionsSpent,
    /// There was no memory. Nothing was written and no pool was asked.
    NoMemory,
}

/// Why a step of reclaim was not done.
#[derive(Clone, Copy, Debug, PartialEq, Eq)]
pub enum StepFault {
    /// A call of this part failed in this call. The manager is down from now on.
    DiskFault(Part),
    /// The manager is down since a call of this part failed.
    Down(Part),
}
