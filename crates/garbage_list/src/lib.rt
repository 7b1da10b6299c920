//! What of the records in logs may be given up, and what has to be put home first.
//!
//! `garbage_list` says what reclaim may do next: `masks.rt` the masks of one record, `find.rt` the least version.
#![tactic(auto)]

mod find;
mod masks;

pub use find::{next_due, next_due_from, next_to_go};
pub use masks::{due, may_go};
