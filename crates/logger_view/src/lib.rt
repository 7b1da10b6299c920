//! The first part of an image: its label, which says whose image it is and how long, and its view, which names the
//! loggers of the volume.
#![tactic(auto)]

mod loading;
mod storing;

pub use loading::{ViewFault, load};
pub use storing::{store_free, store_label, store_view};
