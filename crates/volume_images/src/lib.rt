//! The images of volumes in a bay: they are formatted, and taken out one by one.
//!
//! `image.rt` formats all images in order (`format`), and one (`format_image`), `content.rt` and `part.rt` one of its parts;
//! `specs/Formatted` is a formatted image, `Left` what is left of one after a stop, `Formats` what is left of all.
//! `attach.rt`, `parts.rt`, `reading.rt` and `heads.rt` read what an image says, or give it back with the first
//! fault.
#![tactic(auto)]

mod attach;
mod content;
mod fault;
mod heads;
mod image;
mod laws;
mod opening;
mod part;
mod parts;
mod reading;

pub use attach::{OutImage, OutParts};
pub use fault::{PartName, RackFault};
pub use image::{format, format_image, label_of};
pub use laws::opening_laws;
pub use opening::{ImageRefusal, open_image};
pub use parts::ImageParts;
pub use reading::{ImageFault, head_place};
