//! One volume on an image of its own: the lines of a trace that belong to it are run as they come, each write synced,
//! and each read is printed with the mark of what it read.
//!
//! `solo` runs one volume on an image of its own. From the outside in: `image.rt` makes the image, runs the trace
//! on its one part, takes it back and prints the last line (`run`); `trace.rt` takes lines from the reader one at a
//! time; `step.rt` counts a line and asks whether it belongs to the volume; `line.rt` runs its pieces; `answer.rt`
//! answers one request: a read is printed, a write is synced. `fault.rt` has why a run ended, `tally.rt` what is
//! counted. Of `specs/`, `Requests` has the lines and the requests that they ask, `Texts` what is printed, `Served`
//! what requests leave of a disk and a sink, `Runs` what a run leaves, by how it ended (begin with `Ends`),
//! `Images` the image in its bay.
#![tactic(auto)]

mod answer;
mod fault;
mod image;
mod line;
mod request;
mod step;
mod tally;
mod trace;
mod volume;

pub use fault::Fault;
pub use image::run;
pub use volume::Volume;
