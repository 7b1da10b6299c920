//! Objects under locks with turns, and tests of their locks: a counter whose turns are made by threads, and a desk that
//! owns a pass of a counter's lock. `counting.rt` has numbers that a worker of `errands` counts up, as often as it is asked.
#![tactic(auto)]

mod counter;
mod counting;
mod desk;

pub use counter::{Counter, count_up};
pub use counting::{Number, counted};
pub use desk::{Desk, DeskBase, work_once};

#[cfg(test)]
mod tests;
