//! What is done in one turn of a manager's lock, and the entry that the turn leaves: a request, a helper's step, a reclaim
//! turn, the beginning of a window.
//!
//! What is done in one turn of a manager's lock, and the entry that the turn leaves: `read.rt`, `write.rt` and
//! `drain.rt` are the turns of a request, `group.rt` that of several writes, `reclaim.rt` the reclaim turn, `help.rt`
//! the steps of a helper, `begin.rt` the beginning of a window, `look.rt` a look at a volume; `noted.rt` ends a turn
//! with the entry that the proof names, after a read with the blocks of `reply.rt`, which have no bytes. A request's
//! turns know their payload by the request; `read_blocks` and `write_blocks` are the same for blocks that the caller
//! has. Of `specs/`: `Turns` has what a pass gains, `Tried` what a manager makes of the steps of a turn, `Stepped` how
//! a turn with steps of reclaim ends, `Entries` the entry of each outcome and the entries of requests in order
//! (`AreMade`), `Causes` why it came, `Full` what a write for which no log had room leaves within its turn, `Answered`,
//! `Blocks`, `Closed`, `Helped` and `Begun` what becomes of a pass, `Used` which disks steps of reclaim ask for,
//! `Groups` what several writes leave, `Counts` what its own entries put home and dropped. `proofs/CountLaws` has the
//! laws of these counts and `proofs/MadeLaws` those of the entries for callers.
#![tactic(auto)]

mod answer;
mod begin;
mod drain;
mod group;
mod help;
mod look;
mod noted;
mod outcome;
mod payload;
mod read;
mod reclaim;
mod reply;
mod tally;
mod write;

pub use begin::begin_volume;
pub use group::write_many_turn;
pub use help::{drop_turn, fetch_turn, put_turn};
pub use look::look_turn;
pub use noted::{Memo, leave_noted};
pub use outcome::Outcome;
pub use payload::Payload;
pub use read::{read_blocks, read_turn};
pub use reclaim::reclaim_turn;
pub use tally::Tally;
pub use write::write_blocks;
