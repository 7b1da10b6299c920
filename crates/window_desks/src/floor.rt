// All volumes.
ghost use Rattle.std.specs.Prelude.{◌≡◌};
ghost use Rattle.window_desks.specs.Floors.{passes_of};

use crate::desk::Desk;
use crate::helper::HelperRoom;
use crate::work_room::WorkRoom;
use manager::{Manager, Station};
use turn_lock::{Pass, TurnLock};
use wol_disk::Disk;

/// What the volumes' stations have beside their locks: the passes of each by their use, so that the workers and the helper
/// borrow different lists.
pub struct Passes<D: Disk> {
    pub(crate) desks: Vec<Desk<D>>,
    pub(crate) helpers: Vec<Pass<Manager<D>>>,
    pub(crate) keepers: Vec<Pass<Manager<D>>>,
    pub(crate) help: HelperRoom,
    pub(crate) work: WorkRoom,
    pub(crate) room: Vec<Station<D>>,
}

/// All volumes: their locks, which are lent as long as the run, and their passes by their use.
pub struct Floor<'l, D: Disk> {
    pub locks: &'l [TurnLock<Manager<D>>],
    pub desks: Vec<Desk<D>>,
    pub helpers: Vec<Pass<Manager<D>>>,
    pub keepers: Vec<Pass<Manager<D>>>,
    pub help: HelperRoom,
    /// What the caller serves desks in.
    pub work: WorkRoom,
    pub(crate) room: Vec<Station<D>>,
}

impl<'l, D: Disk> Floor<'l, D> {
    /// These passes, with their locks.
    pub fn new(locks: &'l [TurnLock<Manager<D>>], passes: Passes<D>) -> Floor<'l, D>
        ensures locks { result.locks ≡ locks.entry }
        ensures passes { passes_of result ≡ passes }
    {
        let Passes {
            desks,
            helpers,
            keepers,
            help,
            work,
            room,
        } = passes;
        Floor {
            locks,
            desks,
            helpers,
            keepers,
            help,
            work,
            room,
        }
    }

    /// The passes, as they are. The locks are no longer lent.
    pub fn leave(self) -> Passes<D>
        ensures { result ≡ passes_of self.entry }
    {
        let Floor {
            locks: _,
            desks,
            helpers,
            keepers,
            help,
            work,
            room,
        } = self;
        Passes {
            desks,
            helpers,
            keepers,
            help,
            work,
            room,
        }
    }
}
