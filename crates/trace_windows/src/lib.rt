//! A trace is cut into windows: its lines come one by one, whoever gives them, and the requests of a window are there once it is whole.
//!
//! `cutter.rt` takes a line at a time, whoever gives it, and tells when a window is whole; `batch.rt` is the
//! requests of one window, `asking.rt` what a line asks for, `tally.rt` what is counted. `specs/Cutting` says what
//! a cutter has cut, over `wol_model`'s windows.
#![tactic(auto)]

mod asking;
mod batch;
mod cutter;
mod laws;
mod request;
mod tally;

pub use batch::Batch;
pub use cutter::Cutter;
pub use laws::window_laws;
pub use request::Request;
pub use tally::Tally;
