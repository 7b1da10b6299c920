// The manager of volume 0, which logs on volume 1, over disks in memory, with all that it shares.
use crate::counting::CountingDisk;
use log_segment::FreeSegment;
use logger::Shared;
use manager::Manager;
use reclaimer::Fetch;
use seg_pool::Pool;
use spin_model::Spindle;
use turn_lock::Pass;

/// The manager, and what it shares with others. Home has 8 blocks, and the pool of volume 1 one segment or two.
pub struct Rig {
    pub shared: Shared<CountingDisk>,
    pub manager: Manager<CountingDisk>,
    pub fetched: Fetch,
    // nobody logs on volume 0
    pub(crate) own_pool: Pass<Pool<FreeSegment<CountingDisk>>>,
    // it keeps the time of home's disk
    pub(crate) keeper: Pass<Spindle>,
}
