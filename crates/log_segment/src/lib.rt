//! A segment of a log: records behind their heads, each acknowledged only when it is on the disk.
//! Whenever a call stops, the segment has the records of before the call or those of after it.
//!
//! `log_segment` has the segments of a volume's log: `free.rt` free ones and their claim, `segment.rt` owned ones,
//! where the contracts stand, `group.rt` records on their way to the disk (all blocks and gates, one sync, the
//! heads in order, one sync), `head.rt` one head, `store.rt` one block and a sync. Their words are the model's
//! `IsLog` and `Record`, and `specs/Segment` and `specs/Kept`.
#![tactic(auto)]

mod free;
mod group;
mod head;
mod item;
mod segment;
mod store;

pub use free::FreeSegment;
pub use item::Item;
pub use segment::Segment;
