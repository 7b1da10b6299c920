//! What a rack keeps while its volumes are open.
//!
//! A `Rack` has the shared locks, a station for each volume that was opened, and a `Rest` (`rack.rt`): what is here of
//! images, passes and rows. Images come here laid out, with what their heads say (`heads_said.rt`); pools and
//! spindles are issued (`pools.rt`, `locks.rt`); what a volume is opened of goes out of the rest (`takes.rt`) and
//! comes back to it (`rest.rt`). `closing.rt` closes stations, pools and spindles, after which each image is whole
//! and may go back to its bay (`give_back`), and no spindle can be used any more (`closed_spindle.rt`). Opening, and
//! closing all, stand in the crates above.
//! `specs/Rests` says what is here where managers have the rest, `Racks` what a rack is, `Locks` what locks are made,
//! `Parts` what goes out and comes back, `Foreign` whose logs the parts here aren't, and `Closing` the steps of
//! closing.
#![tactic(auto)]

mod closed_spindle;
mod closing;
mod heads_said;
mod locks;
mod pools;
mod rack;
mod rest;
mod takes;
mod volume_fault;

pub use closed_spindle::ClosedSpindle;
pub use closing::end_passes;
pub use heads_said::{Said, lay_out};
pub use locks::{Issued, IssuedPool, end_spindles, issue_spindles};
pub use pools::issue_pools;
pub use rack::{ImageRest, PoolPass, Rack, Rest, Rooms, VolumePasses};
pub use rest::give_back;
pub use volume_fault::VolumeFault;
