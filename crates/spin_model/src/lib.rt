//! Spindles of disks with the sums over their journals, and the parts of a disk that are read and written by a token alone.
//! A spindle goes down into standby where its disk was idle for a timeout, and comes up where a token is asked for.
//!
//! `spindle.rt` has the state and the four moves (`rest` decides when the disk goes down, `wake` when it comes up),
//! `token.rt` the token, `spun.rt` the part that is reached by a token, `uses.rt` the turns of a spindle's lock,
//! `laws.rt` the laws. To change when a disk sleeps, change `rested` in `wol_model`'s `Journal`, then `is_idle` here.
#![tactic(auto)]

mod laws;
mod spindle;
mod spun;
mod token;
mod uses;

pub use laws::spindle_laws;
pub use spindle::{Spindle, SpindleBase};
pub use spun::Spun;
pub use token::Awake;
pub use uses::{begin_turn, give_token, start_turn, take_token};
