// What a manager began with, as contracts see it. No value of it is made.
ghost use base.Fml.{ftrue};
ghost use Rattle.std.specs.Prelude.{List};
ghost use Rattle.wol_model.specs.Index.{Indexed};
ghost use Rattle.wol_promise.specs.Manager.{Base};

use seg_pool::PoolBase;
use spin_model::SpindleBase;
use std::collections::LinkedList;
use std::marker::{Model, PhantomData};
use turn_lock::LockName;

/// The volume as it was opened: its array, the records and the next version, what never changes, and where each
/// listed record stood.
pub struct Volume {
    marker: PhantomData<u64>,
    pub ghost began: { Base },
    pub ghost places: { List Indexed },
}

impl Model for Volume {
    ghost also_owns = { λ _. ftrue };
}

/// The passes of a lane: of its logger's pool and of its logger's spindle.
pub struct LaneBase {
    pub logger: u32,
    pub pool: LockName<PoolBase>,
    pub pool_number: u64,
    pub spindle: LockName<SpindleBase>,
    pub spindle_number: u64,
    /// In how many turns before the opening the pass found the pool empty.
    pub nones: u64,
    /// In how many it took a segment.
    pub takes: u64,
}

/// The base of a manager's lock.
pub struct ManagerBase {
    pub volume: Volume,
    pub spindle: LockName<SpindleBase>,
    pub spindle_number: u64,
    pub lanes: LinkedList<LaneBase>,
}
