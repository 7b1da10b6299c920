// A volume with its passes.
use crate::Manager;
use turn_lock::{Pass, TurnLock};
use wol_disk::Disk;

/// The lock of a volume's manager, and its passes 0, 1 and 2: those of its worker, its helper and its keeper.
pub struct Station<D: Disk> {
    /// The number of the volume.
    pub id: u32,
    pub lock: TurnLock<Manager<D>>,
    pub worker: Pass<Manager<D>>,
    pub helper: Pass<Manager<D>>,
    pub keeper: Pass<Manager<D>>,
}
