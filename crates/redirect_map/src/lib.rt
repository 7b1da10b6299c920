//! The index of a volume's records: which blocks are off-loaded, where the newest of each lies, and which
//! blocks of old records are home. Kept as a list of records by rising version, with one mask of homed blocks
//! each, a table that names for each kept block its newest record and how many records keep it, and marks of
//! the versions of which a block may be due or may go, so that the next of these is found without a walk.
//!
//! A record, masks of its blocks and the table are those of `block_cells`. `entry.rt` has a record with its homed blocks,
//! `list.rt` the list of these, `going.rt` what of an entry is due or may go, `marking.rt` the marks, `index.rt` `Index`,
//! where the contracts stand.
//!
//! `marks.rt` has `VersionMarks`: versions that rise, each with a mask of 128 bits, and a search for the least of them that has
//! a bit of another mask. Below it stands a tree of masks (`tree.rt`) whose leaves are the masks of these versions and each of
//! whose inner nodes has at least the bits of the two below it. That is all that is so of inner nodes: a bit may be set in one
//! and in no leaf below it, so setting a bit needs no look at other leaves, and a search that a bit misleads finds nothing
//! below it and goes on.
#![tactic(auto)]

mod entry;
mod going;
mod index;
mod list;
mod marking;
mod marks;
mod tree;

pub use block_cells::Rec;
pub use going::Sought;
pub use index::Index;
