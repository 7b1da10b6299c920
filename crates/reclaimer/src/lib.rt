//! Reclaim: the blocks of a volume's records go home, and what may go of the records is given up, step by step. Each step
//! leaves what readers see as it was; several steps can stand in one turn of a manager.
//!
//! `reading.rt` has `fetch`, `put.rt` `put_home`, `group.rt` `put_group`, by which blocks of several records go home
//! with one sync, `give_up.rt` `invalidate_one` and `give_up_group`, by which a segment may go with all its records by
//! one write, `whole.rt` which segments do, `drain.rt` `drain_step`, `room.rt` the `Fetch`, `answers.rt` what they
//! answer. `specs/Fetches` says which record is next and which of its blocks still go home, `Groups` what a group does,
//! `Wholes` what is given up first, `Steps` and `Drains` what each answer means. A turn may have any number of steps:
//! whoever ends it adds the one entry.
#![tactic(auto)]

mod answers;
mod drain;
mod give_up;
mod group;
mod laws;
mod next;
mod put;
mod reading;
mod room;
mod whole;

pub use answers::{Drain, Fetched, Gone};
pub use drain::drain_step;
pub use give_up::{give_up_group, invalidate_one};
pub use group::{Laid, put_group};
pub use laws::{count_laws, fetch_laws, idle_laws};
pub use put::put_home;
pub use reading::fetch;
pub use room::Fetch;
