//! What a trace would cost by several policies: disks that never sleep, disks that sleep after a timeout, and off-loading of
//! writes among the volumes of a host, among all, or by the views of the configuration; and how long requests would wait for
//! disks that come up, and what logs would hold.
//!
//! No image is read or written: a `Machine` keeps, for each volume, an index of the blocks that are logged, and for each disk
//! its sums. `policy.rt` has the policies and what is asked and told, `views.rt` who logs for whom, `disk.rt` one disk,
//! `volume.rt` one volume, `store.rt` what it has in logs, `reclaim.rt` what it puts home and gives up, `machine.rt` the machine,
//! `waits.rt` what it tells of waits and `logged.rt` of logs, `lines.rt` the lines that are printed and `telling.rt` all lines
//! of a policy. `specs/Machine` is the machine of one thread, as the definition that the contracts cite.
#![tactic(auto)]

mod disk;
mod laws;
mod lines;
mod logged;
mod machine;
mod policy;
mod reclaim;
mod store;
mod telling;
mod views;
mod volume;
mod waits;

pub use laws::{policy_laws, risers_laws, waits_laws, window_laws};
pub use lines::policy_line;
pub use machine::Machine;
pub use policy::{Ask, Compared, Details, Policy};
