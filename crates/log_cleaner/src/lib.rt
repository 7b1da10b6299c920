//! After many small and overlapping writes the segments of a volume hold few live blocks. Cleaning writes each run of
//! covered blocks again, as few records, so that thin segments become empty and go back to their pools. What readers
//! see stays as it was at each moment of it.
//!
//! `chunks.rt` finds the next chunk, a run of covered blocks of at most so many, tells whether it is tidy, that is
//! whether one record keeps just its blocks and no other record keeps any of them, and gathers those behind it that
//! aren't. `copy.rt` writes chunks again, as many together as a segment has room for, which takes two syncs; `giving.rt`
//! gives up what may go, whole segments first, `copies.rt` has the copies as contracts see them, `cleaner.rt` goes from
//! chunk to chunk (`clean`). A chunk that was written again has an uppermost record, and becomes tidy once all is given
//! up that may go: at the end, before a chunk that is tidy only then, and where a chunk can't be written. Of `specs/`:
//! `Chunks` says what a chunk is and when it is tidy, `Copies` what copies leave in a history and at each moment,
//! `Cleans` what the answers mean.
#![tactic(auto)]

mod answer;
mod chunks;
mod cleaner;
mod copies;
mod copy;
mod giving;
mod marks;

pub use answer::{CleanFault, Cleaned};
pub use cleaner::clean;
pub use copies::{Copies, Writes, no_copies};
