//! The command that serves one volume of a bay to a client: all volumes are opened, a session of `nbd_session` runs at the
//! worker of one, at once or behind a handshake, and all are closed.
//!
//! `command.rt` has `serve_volume`; `serving.rt` what is done while the volumes are open: the first that isn't open ends it,
//! else the volume is served; `stop.rt` why the command ended without the end of a session, and its status. Of `specs/`:
//! `Wires` has source and sink as contracts see them, `Racks` what is done with a rack, `Volumes` what a volume was opened of
//! and what is left of one to which nothing was done, `Entries` what a turn of the session adds to the volume's entries, and
//! `Runs` what the command comes to, told of the bay before and behind it. In `proofs/`: `Placed` (the station of the volume
//! among all), `Entries` (a turn as an entry), `Recovered` (what images recover to, as pieces), `Sessions` (the session at the
//! bay), `Whole` (what the command comes to).
//!
//! The worker of a volume as a volume that is served: `worker.rt` makes of a worker's pass what a session asks (`WorkerVolume`), and
//! `serve.rt` has `serve_worker`, the session at a worker. The helper and the keeper of the volume may have turns meanwhile, in other
//! threads. Of `specs/`: `Turns` says what each turn of a session makes of the worker's pass, in the words of `request_turns`; `Pieces`
//! what a client knows of the volume: the pieces that stand, in order, and what was in flight when a disk call failed; `Workers` what a
//! worker needs to serve; `Histories` what a turn is in the history of the volume's lock. In `proofs/`: `Making` for the turns,
//! `WorkerServing` (a session at a worker is one at its pass), `Noting` (an entry more, as pieces), `Law` (a session at a worker is one
//! at a plain array, turn by turn in the one history), `Alone` (entries of a volume with one client).
#![tactic(auto)]

mod command;
mod serve;
mod serving;
mod stop;
mod worker;

pub use command::serve_volume;
pub use serve::serve_worker;
pub use serving::Beginning;
pub use stop::{Stop, status_of};
pub use worker::WorkerVolume;
