// The policies that are compared, what a request asks of a volume, and what the disks used.
use wol_model::Kind;

/// When disks sleep, and which volumes log for one another.
#[derive(Clone, Copy, Debug, PartialEq, Eq)]
pub enum Policy {
    /// No disk ever sleeps.
    Always,
    /// Each disk sleeps after the timeout, and each request wakes its disk.
    SpinDown,
    /// The same, and the volumes of a host log for one another.
    Host,
    /// The same, and all volumes log for one another.
    All,
    /// The same, and the volumes that its view names log for a volume, in the view's order.
    Views,
}

/// What one request asks of a volume.
#[derive(Clone, Copy, Debug, PartialEq, Eq)]
pub struct Ask {
    /// The volume's number, its place in the configuration.
    pub volume: u32,
    pub kind: Kind,
    /// The first block; a block has 512 bytes.
    pub lbn: u64,
    /// How many blocks, 1 to 128.
    pub count: u32,
}

/// What one disk used. Times are in units of 100 ns.
#[derive(Clone, Copy, Debug, PartialEq, Eq)]
pub struct Used {
    /// How often it came up.
    pub wakes: u64,
    /// How often it went down.
    pub sleeps: u64,
    /// How long it was awake.
    pub awake: u64,
    /// How long it was in standby.
    pub standby: u64,
    /// The energy, in units of 100 pJ.
    pub units: u128,
}

/// What is told of a policy beside how often disks came up and went down and what they used.
#[derive(Clone, Copy, Debug, PartialEq, Eq)]
pub struct Details {
    /// How many reads and writes wait, and how late they are.
    pub long: bool,
    /// A line for each volume.
    pub volumes: bool,
}

/// What all disks together used.
#[derive(Clone, Copy, Debug, PartialEq, Eq)]
pub struct Compared {
    /// How often a disk came up.
    pub wakes: u64,
    /// How often a disk went down.
    pub sleeps: u64,
    /// The energy, in units of 100 pJ: 10,000,000 of them are 1 mJ.
    pub units: u128,
}
