//! How values stand in the blocks of an image: the label and the view of a volume, the heads of
//! segments and of records, and the gate behind the last record.
//!
//! `log_layout` reads and writes the blocks that say what an image is: `label.rt`, `view.rt`, `segment.rt` (heads
//! and gates), `record.rt` (both forms), over `bytes.rt`, which puts numbers in front of zeros by `byteorder`. Each
//! reader takes the fields from their places, tests their ranges, writes the value anew and compares.
#![tactic(auto)]

mod bytes;
mod label;
mod record;
mod segment;
mod view;

pub use label::{Label, read_label, write_label};
pub use record::{RecHead, read_rec, write_rec};
pub use segment::{SegHead, is_gate, read_seg, write_gate, write_seg};
pub use view::{View, read_view, write_view};
