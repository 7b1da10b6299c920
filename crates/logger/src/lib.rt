//! The segments that one volume holds in the log of another: they are asked for, written, read, given up and released.
//! Each access to a disk stands between a turn in which the logger's spindle is needed and one in which it is done.
//!
//! `logger` has the lanes of a manager: `shared.rt` the locks that all volumes share, `lane.rt` a lane and its
//! parts, `secure.rt` room (`secure`, `fit`), `write.rt` writes to a held or a taken segment, `read.rt`, `trim.rt`
//! (blocks are given up, and a segment without a valid record goes back to its pool), `making.rt` how a lane is
//! made, filled and taken apart. Each disk access stands between a need and a done of the logger's spindle.
//! `specs/Lanes` says what a call did to the one segment that it touched: `Secured`, `Wrote`, `ReadFrom`,
//! `Trimmed`; from here upward no contract names bytes or heads.
#![tactic(auto)]

mod lane;
mod making;
mod read;
mod secure;
mod shared;
mod trim;
mod write;

pub use lane::{HeldSegment, Lane, LaneParts, Spot};
pub use shared::Shared;
