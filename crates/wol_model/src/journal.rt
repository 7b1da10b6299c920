// When a disk went down and up, and the power that it takes.

/// A disk turned, at a moment in units of 100 ns.
#[derive(Clone, Copy, Debug, PartialEq, Eq)]
pub enum Turned {
    /// It went into standby.
    Down(u64),
    /// It woke.
    Up(u64),
}

/// What a disk takes awake and in standby, in milliwatts, and for waking up, in millijoules.
#[derive(Clone, Copy, Debug, PartialEq, Eq)]
pub struct Powers {
    pub awake_mw: u64,
    pub standby_mw: u64,
    pub wake_mj: u64,
}
