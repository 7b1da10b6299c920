//! The manager of a volume: it reads and writes over the volume's home and its segments on the logs of other
//! volumes, decides where each write goes, and tells after a failed disk call which part it was.
//!
//! A request's way: `read.rt` cuts the range into runs of blocks with one source (`newest_run`), home or the newest
//! record, and reads each (`read_home` by `fetch_at`, `read_log` by the lane). Writes come as runs of items: `run.rt`
//! has the order of refusals (`write_some`), the loop over the rule of placing for the first item (`place_run`) and the
//! one call in which a lane is asked for room and, where it has it, written to (`offer_group`); `volume_parts` decides
//! which first items of a run go to a log together (`together`), and has a lane write them (`put_group`); `write.rt`
//! has the write of one item, and what it writes home, with a sync, by `store_at`. `manager.rt` is the manager itself,
//! `part.rt` its answers, `base.rt` what it began with, as its lock's base, `object.rt` its history under the lock. Of
//! `specs/`: `Seen` leads from the struct to what `wol_promise` speaks of, `Stands` has what it keeps up (`Keeps`),
//! what it stands for at the end of a turn (`Stands`), what holds of it between calls (`IsReady`) and which locks it
//! uses (`IsHome`, `HasLocks`); `Answers`, `Offers`, `Reading`, `Causes` and `Writing` say what the answers mean,
//! `Stops` what a stop leaves; `Groups` says what a run needs (`CanRun`), what it leaves (`HasRun`), and in the lane
//! that took it (`HasTakenRun`). They pass on the words of `volume_parts` for home, lanes and the
//! index. In `proofs/`: `Putting`, `WentHome`, `Placed` and `Moments`; `GroupHeld`,
//! `GroupNew`, `GroupStops` and `GroupOffering` for a group of writes, `Runs` for what a run leaves, also one of one
//! item, `Answered` for the lanes that were asked. The steps on the model's side are lemmas of `wol_promise` and
//! `volume_parts`. To add a call: state it from `Keeps` to `Stands` with its entry (`Leaves`), or, where it leaves no
//! entry, from `Keeps` to `Keeps`. The steps of reclaim do the latter: `reclaim.rt` has `fetch_rec` (over
//! `read_record`), `store_home` (by `put_at`, which writes the runs of a mask and syncs), `drop_rec`, and
//! `drop_segment`, by which a segment goes with all its records; `laying.rt` has `store_home` in three calls, so that
//! blocks of several records go home with one sync: `lay_home`, `sync_home`, `mark_home`. `specs/Reclaim` says what
//! each leaves, `HoldsSince` of `Stops` what several of them leave. In `proofs/`: `StoreHome` for blocks that go home,
//! `LaidHome` and `HomeSince` for those of several records, `DropCall`, `DropKeeps`, `DropPiece` and `DropStops` for
//! blocks that are given up, `Retiring`, `RetireCall` and `RetireStops` for whole segments, `GoneSegment` for a lane
//! without one of them, `SinceReads` for a stop at any moment since an earlier one.
#![tactic(auto)]

mod base;
mod laying;
mod manager;
mod object;
mod part;
mod read;
mod reclaim;
mod run;
mod station;
mod write;

pub use base::{LaneBase, ManagerBase, Volume};
pub use manager::{Manager, ManagerParts};
pub use part::{Part, Place, ReadRefusal, Sources, StepFault, WriteRefusal};
pub use run::Ran;
pub use station::Station;
