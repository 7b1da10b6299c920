// The volumes whose images are out are opened.
ghost use Rattle.manager_recovery.specs.Opening.{CanOpen};
ghost use Rattle.manager_recovery.specs.declared.opening.Opening.{Opening};
ghost use Rattle.rack.specs.Locked.{IsLocked, IsUnopened};
ghost use Rattle.rack.specs.Opening.{view_at, IsOpeningRack, HasBegun, AreRefusedBelow, HaveFaults, AreSameOut, IsStopped};
ghost use Rattle.rack.specs.Opens.{BeganWith, AreRefused};
ghost use Rattle.rack_parts.specs.Racks.{IsRack, AreUnused, KeepToViews};
ghost use Rattle.rack_parts.specs.declared.heads_said.Said.{Said};
ghost use Rattle.std.specs.Prelude.{◌≡◌, ◌<◌, ◌+◌, Some, length, IfOk, OnOk, OnErr, IfErr, ℕ, slice_get, IsTrue};
ghost use Rattle.volume_images.specs.Volumes.{shapes_of};
ghost use Rattle.wol_bay.specs.Bay.{BayState, Told};
ghost use Rattle.wol_config.specs.Configs.{IsValid};

use log_layout::View;
use logger::Shared;
use manager::{Manager, Station};
use manager_recovery::{OpenRefusal, Opening, open_volume};
use rack_parts::{Rack, Said, VolumeFault};
use std::alloc::Global;
use std::sync::Wait;
use turn_lock::{Pass, TurnLock};
use wol_config::Config;
use wol_disk::{Disk, NoMemory};

// Why a volume has no lock yet: it was refused, or there is no memory for the lock.
enum Unopened<D: Disk> {
    Refused(OpenRefusal, Opening<D>),
    NoRoom(Manager<D>),
}

// Opens a volume, and makes the lock of its manager: a pass for a client, and two for helpers.
fn open_locked<R: Wait, D: Disk>(
    alloc: Global,
    rt: &R,
    shared: &Shared<D>,
    opening: Opening<D>,
) -> Result<(TurnLock<Manager<D>>, Vec<Pass<Manager<D>>>), Unopened<D>>
    ghost before: { Opening D }
    requires before { opening ≡ before }
    requires ready { CanOpen D.state shared.now opening }
    ensures locked { IfOk result (λ r. IsLocked D.tells D.state shared.now before r.0 r.1.items) }
    ensures unopened { IfErr result (IsUnopened D.tells D.state shared.now before) }
{
    let manager = match open_volume(alloc, rt, shared, opening) {
        Ok(manager) => manager,
        Err((refusal, opening)) => return Err(Unopened::Refused(refusal, opening)),
    };
    match TurnLock::new(alloc, manager, 1, 2) {
        Ok(locked) => Ok(locked),
        Err((manager, _)) => Err(Unopened::NoRoom(manager)),
    }
}

// Opens one volume: it has a station then, or a fault. Where there is no memory all of it is in the rest.
fn open_one<R: Wait, D: Disk>(
    rack: &mut Rack<D>,
    alloc: Global,
    rt: &R,
    config: &Config,
    id: u32,
    view: View,
    said: &[Option<Said>],
) -> Result<(), NoMemory>
    requires config { IsValid config.now }
    requires within { id < length (shapes_of config.now) }
    requires rack { (b : BayState) × IsOpeningRack D.state config.now b said.now id rack.old }
    requires said { (own : Said) × (slice_get said.now id ≡ Some (Some own)) × (own.view ≡ view) }
    ensures rack { (b : BayState) → IsOpeningRack D.state config.now b said.now id rack.old
        → OnOk result (IsOpeningRack D.state config.now b said.now (id + 1) rack.new) }
    ensures keepers { rack.new.keepers ≡ rack.old.keepers }
    ensures same_out { AreSameOut rack.old rack.new }
    ensures begun { IsTrue D.tells → (t : Told) → HasBegun D.state config.now t said.now id rack.old
        → OnOk result (HasBegun D.state config.now t said.now (id + 1) rack.new) }
    ensures refused { (b b' : BayState)
        → (IsTrue D.tells → (t : Told) → b.told ≡ Some t
        → HasBegun D.state config.now t said.now id rack.old)
        → AreRefusedBelow D.tells D.state config.now b b' id rack.old
        → OnOk result (AreRefusedBelow D.tells D.state config.now b b' (id + 1) rack.new) }
    ensures failed { HaveFaults D.state said.now id rack.old
        → OnOk result (HaveFaults D.state said.now (id + 1) rack.new) }
    ensures stopped { (b : BayState) → IsOpeningRack D.state config.now b said.now id rack.old
        → OnErr result (IsStopped D.state config.now b rack.old rack.new) }
    ensures began { IsTrue D.tells → (t : Told) → HasBegun D.state config.now t said.now id rack.old
        → OnErr result (BeganWith D.state config.now t rack.new) }
{
    let opening = rack.rest.take_opening(alloc, config, id, view, said)?;
    let (lock, mut passes) = match open_locked(alloc, rt, &rack.shared, opening) {
        Ok(locked) => locked,
        Err(Unopened::Refused(refusal, opening)) => {
            rack.rest.put_opening(id, opening);
            if refusal == OpenRefusal::NoMemory {
                return Err(NoMemory);
            }
            rack.faults[id as usize] = Some(VolumeFault::Refused(refusal));
            return Ok(());
        }
        Err(Unopened::NoRoom(manager)) => {
            rack.rest.put_manager(id, manager.release());
            return Err(NoMemory);
        }
    };
    let (Some(keeper), Some(helper), Some(worker)) = (passes.pop(), passes.pop(), passes.pop())
    else {
        unreachable!()
    };
    rack.rest.rooms.managers.push_reserved(passes);
    rack.stations.push_reserved(Station {
        id,
        lock,
        worker,
        helper,
        keeper,
    });
    Ok(())
}

/// Opens the volumes whose images are out, in order. After want of memory some are open, and all of the others is in the rest.
pub(crate) fn open_volumes<R: Wait, D: Disk>(
    rack: &mut Rack<D>,
    alloc: Global,
    rt: &R,
    config: &Config,
    said: &[Option<Said>],
) -> Result<(), NoMemory>
    requires config { IsValid config.now }
    requires count { length said.now ≡ length config.now.volumes.items }
    requires rack { (b : BayState) × IsOpeningRack D.state config.now b said.now 0 rack.old }
    ensures rack { (b : BayState) → IsOpeningRack D.state config.now b said.now 0 rack.old
        → OnOk result (IsRack D.state config.now b rack.new) }
    ensures keepers { rack.new.keepers ≡ rack.old.keepers }
    ensures fresh { AreUnused rack.new.stations.items }
    ensures users { OnOk result (KeepToViews (view_at said.now) rack.new) }
    ensures same_out { AreSameOut rack.old rack.new }
    ensures refused { (b b' : BayState)
        → (IsTrue D.tells → (t : Told) → b.told ≡ Some t
        → HasBegun D.state config.now t said.now 0 rack.old)
        → AreRefusedBelow D.tells D.state config.now b b' 0 rack.old
        → OnOk result (AreRefused D.tells D.state config.now b b' rack.new) }
    ensures began { IsTrue D.tells → (t : Told) → HasBegun D.state config.now t said.now 0 rack.old
        → BeganWith D.state config.now t rack.new }
    ensures failed { OnOk result (HaveFaults D.state said.now (length said.now) rack.new) }
    ensures stopped { (b : BayState) → IsOpeningRack D.state config.now b said.now 0 rack.old
        → OnErr result (IsStopped D.state config.now b rack.old rack.new) }
{
    for (id, own) in said.iter().enumerate() {
        if let Some(own) = own {
            open_one(rack, alloc, rt, config, id as u32, own.view, said)?;
        }
    }
    Ok(())
}
