//! What a window of requests does with the desks of volumes, in one thread: a worker serves a run of desks, the helper
//! reclaims beside the workers, and the caller begins the window, hands out its requests, reclaims and gathers.
//!
//! A desk (`desk.rt`) is what the worker of a volume has, a work room (`work_room.rt`) what a thread serves desks in, a floor (`floor.rt`) all desks with the locks of their volumes and
//! the passes of the helper and the keeper. `setting.rt` says how stations become locks and passes and back. In a window
//! `begin.rt` tells spindles the moment and managers which disks are awake, as `moment.rt` does outside of windows;
//! `hand_out.rt` hands each desk the requests of its volume, `run.rt` serves a run of desks, `serve.rt` the requests of one
//! desk in order, in batches that `batch.rt` cuts, `helper.rt` is the helper, `closing.rt` takes the reclaim turns, and
//! `gather.rt` puts the outcomes into the order of the requests. `request.rt` has what is asked of a window and what it
//! gives. Who of many threads serves which run is said by `request_workers`. Of `specs/`: `Handed`, `Served`, `Closed`,
//! `Helped` and `Worked` have what becomes of a desk, `Counted` what is counted over all volumes, `Floors` what a window
//! makes of a floor, `Begun` its beginning, and `Stations` what stations, locks and passes have of one another.
#![tactic(auto)]

mod batch;
mod begin;
mod closing;
mod desk;
mod floor;
mod gather;
pub mod hand_out;
mod helper;
mod moment;
mod request;
mod run;
mod serve;
mod setting;
mod work_room;

pub use begin::begin_window;
pub use closing::close_all;
pub use desk::Desk;
pub use floor::{Floor, Passes};
pub use gather::collect;
pub use helper::{HelperRoom, help};
pub use manager::Station;
pub use moment::begin_moment;
pub use request::{Reclaim, Sharing, Window, Workers};
pub use request_turns::Outcome;
pub use run::serve_run;
pub use setting::{set_up, take_down};
pub use trace_windows::Request;
pub use work_room::WorkRoom;
