//! Opening a volume: its segments are read back, what is wrong with its images is told, and the manager that stands
//! for what they recover to is made.
//!
//! `volume.rt` has the call, `open_volume`, and its order: names (`names.rt`: label, loggers, segments outside the
//! view), all owned segments read back under the locks of their spindles (`scanning.rt`), the next version
//! (`filling.rt`), the records that keep blocks sorted by version (`listing.rt`: the first twins show there), the
//! index (`filling.rt`), home synced and segments without a valid record given to their pools (`retiring.rt`), the
//! others handed to their lanes (`holding.rt`), the manager. `opening.rt` is what a volume is opened of,
//! `refusal.rt` why it isn't. Of `specs/`, `Owned` says what is wrong with segments as they read and what they
//! recover to, `Opening` is the condition, `Refused` the first cause of each refusal, `Left` what became of every
//! part (each image since the beginning is one of the beginning, or that of a log that has nothing gone free), of
//! what all images recover to, and of what each lane's pass gave to its pool (the freed segments of its logger, the
//! last first, and nothing else), `Opened` the manager and its beginning; `Scanned` and `Recovery` are the inside.
//! In `proofs/`: `SegmentFaults` (one segment), `ScanLoop` and `ScanAll` (all of them), `FirstTwo` (twins of a
//! sorted list), `Indexing`, `FoundMore` and `Filled` (the index), `HeadsFound` (what was found is what stands in
//! the segments as they read), `Thinning`, `Freeing` and `Retired` (segments that go), `Gifts` (what pools are given),
//! `Leaves` (images), `Recovering` and `BackRead` (the steps joined), and those of the manager that is made:
//! `Held`, `Coming`, `Segs`, `OpenedIndex`, `SameNewest` (the order of segments doesn't matter where no two versions
//! are the same).
#![tactic(auto)]

mod filling;
mod holding;
mod listing;
mod names;
mod opening;
mod refusal;
mod retiring;
mod scanning;
mod volume;

pub use opening::{Opening, OwnedPart};
pub use refusal::OpenRefusal;
pub use volume::open_volume;
