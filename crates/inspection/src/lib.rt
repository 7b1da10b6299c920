//! The commands that look at all volumes of a bay: `check` prints what each volume's array is, `dump` its records.
//!
//! What is printed of the volumes of a rack: `calls.rt` has `inspect`, which opens them, prints and closes.
//! `turn.rt` looks at one volume in one turn of its worker: enter, append what is asked, leave with an entry that
//! changes no content; `lines.rt` finds a volume's station (`look_at`) or tells its fault, and `append_volume`
//! appends the lines of one volume; `calls.rt` prints volume after volume (`print_volumes`), whose lines `found.rt`
//! appends (`append_next`). For `dump`, whose texts may be long, each is looked at when its turn comes. For `check`,
//! whose texts are lines, runs of eight stations are looked at side by side in up to four threads (`beside.rt`),
//! each into a text of its own, and what was found is told when the volume's turn comes. Of `specs/`: `Looks` is
//! what one turn adds and prints, and what a manager must serve (`IsConfiguredBase`); `Racks` what a rack needs to
//! be looked at (`CanLook`), and what a look leaves of it (`IsSameRack`: only the workers' passes are others);
//! `Findings` what looks side by side found; `Lines` what is told of each volume, and how it was printed; `Logs`
//! what is left of a volume's logs. In `proofs/`: `Serving` and `Looking` for a turn, `Placing` for a station among
//! all, `Halves` for stations that are split among threads, `Ahead` for a run of them, `Judging` for what is told,
//! `AsFound` and `Printing` for the loop side by side and one after another, `AsPrinted` for both, `WorkedRacks` and
//! `SameRacks` for racks of whose stations only the workers' passes are others.
//!
//! The lines themselves: `check.rt` and `dump.rt` have the two calls, `digest.rt` the digest of an array in pieces, `segments.rt`
//! the number of segments; `specs/Texts` is the lines.
#![tactic(auto)]

mod asked;
mod beside;
mod calls;
mod check;
mod digest;
mod dump;
mod fault;
mod found;
mod lines;
mod segments;
mod turn;

pub use asked::Asked;
pub use calls::{Stop, inspect};
pub use check::check_line;
pub use dump::{append_record, dump_lines, mask_digits};
pub use fault::DumpFault;
pub use lines::place_of;
