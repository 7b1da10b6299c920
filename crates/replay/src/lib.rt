//! A trace, read or generated, is replayed on the volumes of a bay: its lines are cut into windows, each window is served, and
//! at the end a summary says what was done and what the disks used.
//!
//! From the outside in: `run.rt` has the call: open, serve, close, print. `leading.rt` has the workers start, `session.rt` serves the
//! windows of a trace on a floor, `given.rt` gives the lines of a trace or of a seed, `counting.rt` and `ending.rt` say what a
//! window counts and ends a run with, `printing.rt` prints the lines of reads and the summary.
//!
//! The promise is `Headline` of `run_laws` (what is read back and what is reopened): read it first, and then of `specs/`
//! `Headlined` (of which lines, images and output it holds) and `Account` (placing, reclaim and the disks' time): a page
//! each. `Replays` has all that a run over open volumes comes to, of which both are had:
//! `Histories` (what each volume's entries are, and how many of its requests were answered), `Works` (what each pass
//! of a volume did, window by window), `Leaves` (images), `Placed` (what is counted), `Ended` (why a run ended),
//! `Summed` (the summary and the disks' journals), `NotOpened` (a rack of which a volume isn't open), `Completes`
//! (when a run comes to its end); `Sessions`, `Served` and `Runs` are the chain of windows on a floor.
#![tactic(auto)]

mod counting;
mod ending;
mod given;
mod leading;
mod printing;
mod run;
mod session;
mod stop;

pub use given::Given;
pub use printing::{CHUNK_BYTES, hand_on};
pub use run::replay;
pub use session::Options;
pub use stop::{Stop, fault_of_trace};
