// What the worker of a volume has.
use manager::{Manager, StepFault};
use request_turns::{Outcome, Tally};
use trace_windows::Request;
use turn_lock::Pass;
use wol_disk::Disk;

/// A volume's worker: its pass, and what it is asked in a window.
#[derive(Drop)]
pub struct Desk<D: Disk> {
    /// The number of the volume.
    pub id: u32,
    pub worker: Pass<Manager<D>>,
    /// What was reclaimed in this window.
    pub tally: Tally,
    /// The refusal of this window's reclaim turn.
    pub fault: Option<StepFault>,
    // the requests of its volume in this window, in order
    pub(crate) requests: Vec<Request>,
    pub(crate) outcomes: Vec<Outcome>,
}
