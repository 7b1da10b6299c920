//! The command that cleans all volumes of a bay: thin segments become whole again, volume after volume.
//!
//! `calls.rt` has `clean_volumes`, which opens the volumes, cleans each in order, prints its line and closes them;
//! `station.rt` cleans the volume of one station of a rack, `turn.rt` one volume in one turn of its worker, `test.rt`
//! says whether a manager can be cleaned, `lines.rt` has the line of a volume. Of `specs/`: `Turns` is what one turn
//! adds and makes of its manager, `Lines` what is printed, `Racks` what becomes of a rack, `Runs` what is told of the
//! bay. In `proofs/`: `Testing` and `Turning` for a turn, `Stations` for one station among all, `Going` for the loop,
//! `Histories` and `Volumes` for what the images recover to, `Closed`, `Whole` and `Leaving` for the command.
#![tactic(auto)]

mod calls;
mod lines;
mod station;
mod test;
mod turn;

pub use calls::clean_volumes;
