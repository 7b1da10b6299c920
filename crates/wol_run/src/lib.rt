//! What the program does, by its words and by what is outside.
//!
//! `wol_run` is the top call: `top.rt` has `run`, `settings.rt` the configuration from its source, `telling.rt` the last
//! line of a run, `status.rt` `solo`'s statuses and lines of faults. Of the commands `formatting.rt` has `format`, `adding.rt` `format NAME`,
//! `inspecting.rt` `check` and `dump`, `listing.rt` `gen`, `replaying.rt` `replay` and `soak`, `comparing.rt` `whatif`,
//! `viewing.rt` `view-add` and `view-remove`, `cleanup.rt` `clean`, `serving.rt` `nbd` and `serve`.
//! A further command joins as a further arm of `run`: a row of `Does` says what it does, one of `ReadsInOrder` what it needs, and
//! those of `IsCause` why it ends.
#![tactic(auto)]

mod adding;
mod cleanup;
mod comparing;
mod formatting;
mod inspecting;
mod listing;
mod replaying;
mod serving;
mod settings;
mod status;
mod telling;
mod top;
mod viewing;

pub use telling::{NO_MEMORY, end_with, tell};
pub use top::run;
