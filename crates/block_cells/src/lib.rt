//! The table of a volume's blocks: for each block that a record keeps, the version of the newest record that does, and
//! how many do. A block that no record keeps has no entry, so what the table needs grows with the kept blocks alone.
//!
//! `blocks.rt` has the table, a `HashMap` of `Cell`s: what it tells of the blocks of a record or of a range, and what
//! becomes of it where a record keeps blocks, or keeps them no more. `record.rt` has a record and its place in a log,
//! `mask.rt` masks of 128 blocks. Which records there are, and that the table agrees with them, the index above knows
//! (`redirect_map`).
#![tactic(auto)]

mod blocks;
mod mask;
mod record;

pub use blocks::{
    Cell, any_covered, cover, held, held_both, holds, newest_of, run_length, uncover, with_bit,
};
pub use mask::{has, moved};
pub use record::Rec;
