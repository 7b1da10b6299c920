//! All volumes of a bay, served at once while time passes: each volume has a door and a thread of its own, and one more thread
//! lets moments come and reclaims.
//!
//! `posts.rt` has `serve_all`, a thread for each duty, and what one does (`Post`: a volume's worker and its door); `ticks.rt`
//! says where moments come from (`Ticks`), and has some in memory (`MemTicks`); `clock.rt` has `run_clock`, which lets them
//! come, and `tick`, what is done at one; `together.rt` has both at once. Of `specs/`: `Posts` has what becomes of a volume's
//! worker and its door, `Ticks` how moments follow one another, `Moments` what they make of keepers and helpers, and
//! `Together` what they make of a floor whose workers serve meanwhile. In `proofs/`: `Clients` (a door's clients at a
//! worker), `Law` (they are clients of a plain array, turn by turn in the one history), `Still` (who can let a moment come
//! can let the next one come).
#![tactic(auto)]

mod clock;
mod posts;
mod ticks;
mod together;

pub use clock::{run_clock, tick};
pub use posts::{Duty, Post, serve_all};
pub use ticks::{MemTicks, Ticks};
pub use together::serve_and_tick;
