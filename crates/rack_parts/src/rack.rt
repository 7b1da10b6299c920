// The volumes of a bay, opened.
use crate::{ClosedSpindle, VolumeFault};
use log_segment::FreeSegment;
use logger::Shared;
use manager::{Manager, Station};
use seg_pool::Pool;
use spin_model::{Spindle, Spun};
use turn_lock::Pass;
use wol_disk::Disk;

/// A pass of a pool's lock.
pub type PoolPass<D> = Pass<Pool<FreeSegment<D>>>;

/// All volumes of a configuration, opened over one bay. `close_all` ends it.
pub struct Rack<D: Disk> {
    /// The locks of the pools and the spindles, one of each for every volume of the configuration.
    pub shared: Shared<D>,
    /// A pass of each spindle's lock, for whoever keeps the account of spin states.
    pub keepers: Vec<Pass<Spindle>>,
    /// The volumes that were opened, by rising number.
    pub stations: Vec<Station<D>>,
    /// For each volume why it has no station, or none.
    pub faults: Vec<Option<VolumeFault>>,
    pub rest: Rest<D>,
}

/// What no manager and no pool has, and the room for closing.
#[derive(Drop)]
pub struct Rest<D: Disk> {
    /// For each volume what is here of its image, where that is out.
    pub images: Vec<Option<ImageRest<D>>>,
    /// The passes of each volume.
    pub passes: Vec<VolumePasses<D>>,
    pub rooms: Rooms<D>,
}

/// What is here of an image that is out.
#[derive(Drop)]
pub struct ImageRest<D: Disk> {
    pub label: Spun<D>,
    pub home: Option<Spun<D>>,
    /// Each segment that no lane and no pool has.
    pub segments: Vec<Option<Spun<D>>>,
    /// Room for all segments in a row, and for all parts.
    pub row: Vec<Spun<D>>,
    pub room: Vec<D>,
}

/// The passes that are meant for one volume and that no lane has, by the number of the lock's volume. Each has the volume's
/// number. Of its own spindle the volume uses its home, and its own pool's it keeps, since no view names its own volume.
#[derive(Drop)]
pub struct VolumePasses<D: Disk> {
    pub pools: Vec<Option<PoolPass<D>>>,
    pub spindles: Vec<Option<Pass<Spindle>>>,
    /// The segments of each lane that came back, with their indexes. They go to their places when the pool's lock is closed, since
    /// only then it is known that no two passes hold one.
    pub held: Vec<Vec<(u32, Spun<D>)>>,
}

/// Empty lists with room for the passes of each lock, and for the spindles when all are closed.
#[derive(Drop)]
pub struct Rooms<D: Disk> {
    pub pools: Vec<Vec<PoolPass<D>>>,
    pub spindles: Vec<Vec<Pass<Spindle>>>,
    /// Those of the stations, in order.
    pub managers: Vec<Vec<Pass<Manager<D>>>>,
    pub closed: Vec<ClosedSpindle>,
}
