//! Images of disks by name. An image goes out cut into parts, each a disk of its own, and comes back with what was
//! written to them: the trait, a bay in memory that tells all of it, and a bay of files that tells nothing.
//!
//! `bays.rt` the trait, `specs/Bay.antt` what a bay tells (images by name, names that are out with their sizes,
//! parts that came back with a fault) and what each call does to it, `specs/Parts.antt` lists of parts. `files.rt`
//! `FileBay`, over `image_file.rt` (an image's open file, and what of it is synced), `kept_copies.rt` (what the
//! system keeps of it) and `devices.rt` (devices that become images); `memory.rt` `MemBay`, over `held.rt` (what it
//! keeps), `names.rt` (entries found by name), `plans.rt` (planned failures), `faulty.rt`, `lengths.rt` (how long an
//! image is), `restart.rt` (what a crash leaves of its parts). `specs/Refusals.antt` has why an image doesn't go out,
//! `specs/Stored.antt` the blocks of an image in memory. `proofs/OneImage.antt` is for callers of one image.
#![tactic(auto)]

mod bays;
mod devices;
mod fault;
mod faulty;
mod files;
mod held;
mod image_file;
mod kept_copies;
mod lengths;
mod memory;
mod names;
mod plans;
mod restart;

pub use bays::Bay;
pub use fault::BayFault;
pub use files::{FileBay, FilePart};
pub use memory::MemBay;
