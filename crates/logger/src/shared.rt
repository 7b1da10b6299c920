// What all volumes share.
use log_segment::FreeSegment;
use seg_pool::Pool;
use spin_model::Spindle;
use turn_lock::TurnLock;
use wol_disk::Disk;

/// The locks of the pools of free segments and of the spindles, by the number of their volume.
pub struct Shared<D: Disk> {
    pub pools: Vec<TurnLock<Pool<FreeSegment<D>>>>,
    pub spindles: Vec<TurnLock<Spindle>>,
}
