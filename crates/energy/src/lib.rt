//! What a disk used between two moments: the time awake and in standby, how often it went down and up,
//! and the energy. It follows from the sums over the disk's journal, which itself isn't kept.
#![tactic(auto)]

pub mod calls;

pub use wol_model::Powers;

/// The sums over a disk's journal until a moment.
#[derive(Clone, Copy, Debug, PartialEq, Eq)]
pub struct Sums {
    /// How often it went up.
    pub wakes: u64,
    /// How often it went down.
    pub sleeps: u64,
    /// The time in standby, in units of 100 ns.
    pub standby: u64,
}

/// What a disk used between two moments.
#[derive(Clone, Copy, Debug, PartialEq, Eq)]
pub struct Amounts {
    /// How often it went up.
    pub wakes: u64,
    /// How often it went down.
    pub sleeps: u64,
    /// The time awake, in units of 100 ns.
    pub awake: u64,
    /// The time in standby, in units of 100 ns.
    pub standby: u64,
    /// The energy, in units of 100 pJ: 10,000,000 of them are 1 mJ.
    pub units: u128,
}
