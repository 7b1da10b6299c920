//! Windows of requests over volumes, each under its lock: workers serve the volumes side by side, and what is due is
//! reclaimed after the requests or beside them.
//!
//! Workers live as long as the run. A window from the outside in: `calls.rt` (`window`) has each desk handed the requests of
//! its volume, and adds up, `slices.rt` runs a window over a floor, `hands.rt` hands each worker a run of desks, or has the
//! caller serve all. `pool.rt` makes the places where workers are handed their `job.rt`, `work.rt` is what a worker does,
//! `crew.rt` what the caller has of it. What one thread does with desks stands in `window_desks`: how requests are handed out
//! and served, reclaim turns, the helper beside the workers, the beginning of a window, and how outcomes are gathered.
//! Of `specs/`: `Jobs`, `Crews` and `Shares` have what passes between the caller and its workers; what becomes of desks and of
//! a floor is said by those of `window_desks`.
#![tactic(auto)]

pub mod calls;
mod crew;
mod hands;
mod job;
mod pool;
mod slices;
mod work;

pub use crew::{Crew, Seat, run_size, threads_for};
pub use job::{Job, Task};
pub use manager::Station;
pub use pool::Pool;
pub use request_turns::Outcome;
pub use trace_windows::Request;
pub use window_desks::{
    Desk, Floor, Passes, Reclaim, Sharing, Window, Workers, begin_window, set_up, take_down,
};
pub use work::work_all;
