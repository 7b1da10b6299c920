//! The parts of a volume, home and the lanes to its logs, as its manager uses them, and what is known of them.
//!
//! `home.rt` reads blocks of home under the lock of its spindle (`fetch_at`), and writes and syncs blocks there (`store_at`), or those
//! of a mask (`put_at`, and by `laying.rt` in two calls, `lay_at` and `sync_at`); `group.rt` decides which first items of a run go to a
//! log together (`together`), has a lane write them (`put_group`), and lists their records (`list_group`). Of `specs/`: `Accesses` says
//! what a write does to a part, `Reads` what reads do; `Items` has what items stand for, `Joining` which of them join, `Listing` how
//! they are listed; `Lanes` has what holds of lanes between calls, `Held` the segments that they hold, as the promise sees them,
//! `Offers`, `Puts` and `Claims` what writes do to them. In `proofs/`: `Accesses`, `PartReads` and `Calm` for parts before and after a
//! call, `Lanes` and `Held` for one lane or segment that is another, `Records` and `Places` for items that go to a log together,
//! `Claims` for a segment that was claimed.
//!
//! Of the records that the volume's index lists: `leaving.rt` takes a segment's records out of it, `record.rt` has the head of one
//! record and places for more. Of `specs/`: `Entries` says where entries lie and where blocks are read, `Changes` what steps make of
//! the entries. Laws of an index and of the promise of `wol_promise` alone, in `proofs/`: `Elements` (lists by their places),
//! `Entries` (of one version, of one segment, and what they keep), `Contents` (what blocks have in their newest records), `Groups`
//! (records that are written together), `Touched` (parts that were read), `Vanishes` (blocks that are given up, and segments that
//! fail or go) and `Forgetting` (of a segment's records in turn).
#![tactic(auto)]

mod group;
mod home;
mod laying;
mod leaving;
mod record;

pub use group::{list_group, put_group, together};
pub use home::{fetch_at, put_at, store_at};
pub use laying::{lay_at, sync_at};
pub use leaving::forget;
pub use record::{head_of, reserve_places};
