//! A pool of the free segments of one volume's log, which the volumes that log there share.
//! It tells of each segment who has it: the pool, a pass of the pool's lock, or neither.
//!
//! `base.rt` has who holds what at first, `pool.rt` the pool (one slot for each index: empty, noted, or a free
//! item), `uses.rt` its turns, `laws.rt` the laws. The definitions of a pool's uses are this crate's
//! (`specs/Holders.antt`).
#![tactic(auto)]

mod base;
mod laws;
mod pool;
mod uses;

pub use base::{Holder, PoolBase};
pub use laws::{opening_laws, pool_laws};
pub use pool::{Blank, Pool};
pub use uses::{give_item, take_item};
