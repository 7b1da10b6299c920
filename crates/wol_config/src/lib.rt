//! The configuration of `wol`, read from TOML: what its volumes are, what their disks draw, and which
//! volumes log for which.
//!
//! `wol_config` reads the configuration: `read.rt` from bytes to a configuration, `values.rt` one value by its kind
//! and range, `volume.rt` and `volumes.rt` the volumes, `views.rt` their views; `specs/Keys.antt` is the table of
//! keys, `specs/Documents.antt` the order of faults, `specs/Configs.antt` what a configuration of a document is and
//! when one is valid.
#![tactic(auto)]

mod config;
mod key;
mod name;
mod read;
mod values;
mod views;
mod volume;
mod volumes;

pub use config::{Config, ConfigFault, VolumeConf};
pub use key::Key;
pub use name::Name;
pub use read::{MOST_BYTES, read_config};
pub use views::number_named;
