//! Tests of the log and of the manager of one volume, over disks in memory.
//!
//! `life.rt` and `opening.rt` have callers of segments over any disk, proved from the contracts of segments alone, and
//! `segments.rt` tests of segments that are stopped and read back. `rig.rt` is a manager of volume 0 that logs on volume 1, with
//! all that it shares, and `calls.rt` has a method for each call; what holds of a rig (`IsRig`) is that the manager keeps up
//! some base and entries, so a test calls what it likes. `making.rt` makes and takes apart rigs, `locked.rt` has locks of one
//! pass, over disks that count their calls and syncs (`counting.rt`).
//! `offload.rt`, `reclaim.rt` and `groups.rt` are the tests of it, and `twice.rt` stops it at each call of a reclaim turn and of a drain.
#![tactic(auto)]

mod calls;
mod counting;
mod rig;

pub use rig::Rig;

#[cfg(test)]
mod tests;
