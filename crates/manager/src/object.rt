// A manager under its lock.
use crate::{Manager, ManagerBase};
use turn_lock::Object;
use wol_disk::Disk;

impl<D: Disk> Object for Manager<D> {
    ghost use Rattle.manager.specs.Stands.{StandsCoded};

    type Base = ManagerBase;

    ghost stands = { StandsCoded D.tells D.state };
}
