//! The commands that change which volumes log for a volume: `view-add` and `view-remove`.
//!
//! `calls.rt` has `change_view`: it finds the volumes that the words name, opens all volumes, drains the one whose view is to
//! lose a logger (`draining.rt`), closes them, changes the view in that volume's image alone (`image.rt`) and prints it
//! (`printing.rt`). `order.rt` has what is asked and why it isn't done, with the line that says so. Of `specs/`: `Runs` says
//! what a change comes to, by `Views` (the views in images that a crash may leave), `Orders` (words) and `Printed`; `Drains`
//! is what is done with an open rack, `Images` what becomes of the one image. In `proofs/`: `DrainedRack` and `Emptied` for
//! the drain, `Sessions` and `Kept` for what closing leaves of arrays, labels and views; `Images` and `InBay` for the image
//! that goes out again; `Shown` and `Changed` for what its new view makes of all images, `Whole`, `Answered` and `Lines` for
//! the calls.
#![tactic(auto)]

mod calls;
mod draining;
mod image;
mod order;
mod printing;

pub use calls::change_view;
pub use order::{Order, Stop, Verb, ViewRefusal, refusal_line};
