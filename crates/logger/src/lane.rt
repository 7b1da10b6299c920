// A lane, and what it hands out.
use log_segment::{FreeSegment, Segment};
use seg_pool::{Pool, PoolBase};
use spin_model::{Spindle, SpindleBase, Spun};
use turn_lock::{Pass, PassOf};
use wol_disk::Disk;

/// A segment of a logger that a volume holds, and its index there.
pub struct HeldSegment<D: Disk> {
    pub index: u32,
    pub segment: Segment<D>,
}

/// Where a record stands on a logger: the index of its segment, and the position of its head in it.
#[derive(Clone, Copy, Debug, PartialEq, Eq)]
pub struct Spot {
    pub segment: u32,
    pub pos: u32,
}

/// The segments that one volume, the owner, holds on one logger, in the order in which it came to hold them.
/// It owns a pass of the lock of the logger's pool and one of its spindle's lock; whoever opens a volume uses them too, before
/// the lane holds a segment.
pub struct Lane<D: Disk> {
    pub(crate) logger: u32,
    pub(crate) owner: u32,
    pub(crate) held: Vec<HeldSegment<D>>,
    pub(crate) taken: Option<(u32, FreeSegment<D>)>,
    pub pool: PassOf<Pool<FreeSegment<D>>, PoolBase>,
    pub spindle: PassOf<Spindle, SpindleBase>,
    // the room into which `release` puts the parts
    pub(crate) parts: Vec<(u32, Spun<D>)>,
}

/// What is left of a lane: the parts of its segments with their indexes, and its passes.
pub struct LaneParts<D: Disk> {
    pub logger: u32,
    pub held: Vec<(u32, Spun<D>)>,
    pub pool: Pass<Pool<FreeSegment<D>>>,
    pub spindle: Pass<Spindle>,
}
