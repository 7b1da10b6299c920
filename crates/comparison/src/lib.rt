//! A trace is run on a machine of each policy, side by side, and lines for each say what its disks would use and how long requests would
//! wait.
//!
//! `run.rt` has the call: it takes the lines that are given, one by one, and prints what is told of them. `windows.rt` runs the windows
//! that the lines are cut into, `machines.rt` is the machines. `specs/Compares` says what a run comes to and `specs/Asked`
//! what a trace asks, window by window.
#![tactic(auto)]

mod machines;
mod run;
mod windows;

pub use run::compare;
