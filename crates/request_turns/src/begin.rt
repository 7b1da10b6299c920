// The beginning of a window for one manager: it is told which disks are awake.
ghost use Rattle.logger.specs.Lanes.{logger_of};
ghost use Rattle.manager.specs.declared.base.LaneBase.{LaneBase};
ghost use Rattle.request_turns.specs.Begun.{CanBeTold, HasBegunVolume, HasFlags, WasTold};
ghost use Rattle.std.specs.List.{AllByRecursion};
ghost use Rattle.std.specs.Prelude.{◌≡◌, ◌≤◌, ◌<◌, ◌↔◌, true, false, All, length, map, take, slice_index_or};
ghost use Rattle.turn_lock.specs.Passes.{pass_lock, IsPassAt};
ghost use Rattle.wol_model.specs.History.{keeper};

use crate::noted::leave_step_in_place;
use manager::Manager;
use std::sync::Wait;
use turn_lock::{Pass, TurnLock};
use wol_disk::Disk;

/// The most loggers of a view.
const LANES: usize = 16;

// Which loggers of a manager's view are awake, in front.
fn flags<D: Disk>(manager: &Manager<D>, awake: &[bool]) -> [bool; LANES]
    requires few { length manager.now.lanes.items ≤ 16 }
    requires count { length manager.now.ups.items ≡ length manager.now.lanes.items }
    requires view { All (λ v. v < length awake.now) (map logger_of manager.now.lanes.items) }
    ensures { take (length manager.now.lanes.items) result
        ≡ map (λ v. slice_index_or awake.now v false) (map logger_of manager.now.lanes.items) }
{
    let mut flags = [false; LANES];
    for lane in 0..manager.ups().len() {
        flags[lane] = awake[manager.logger(lane as u32) as usize];
    }
    flags
}

// Whether a manager's flags say already which disks are awake.
fn is_told<D: Disk>(manager: &Manager<D>, volume: usize, awake: &[bool]) -> bool
    requires few { length manager.now.lanes.items ≤ 16 }
    requires count { length manager.now.ups.items ≡ length manager.now.lanes.items }
    requires volume { volume < length awake.now }
    requires view { All (λ v. v < length awake.now) (map logger_of manager.now.lanes.items) }
    ensures { (result ≡ true) ↔ HasFlags volume awake.now manager.now }
{
    if manager.home_up() != awake[volume] {
        return false;
    }
    let ups = manager.ups();
    for lane in 0..ups.len() {
        if ups[lane] != awake[manager.logger(lane as u32) as usize] {
            return false;
        }
    }
    true
}

// Tells a manager which disks are awake. In most windows it was told so before.
fn tell<D: Disk>(manager: &mut Manager<D>, volume: usize, awake: &[bool])
    requires { CanBeTold D.state volume awake.now manager.old }
    ensures { WasTold D.tells D.state volume awake.now manager.old manager.new }
{
    if is_told(manager, volume, awake) {
        return;
    }
    let ups = flags(manager, awake);
    let lanes = manager.ups().len();
    manager.begin(awake[volume], &ups[..lanes]);
}

/// One turn of a volume's keeper, in which its manager is told which disks are awake.
pub fn begin_volume<R: Wait, D: Disk>(
    rt: &R,
    lock: &TurnLock<Manager<D>>,
    pass: &mut Pass<Manager<D>>,
    volume: usize,
    awake: &[bool],
)
    requires pass { IsPassAt lock.now keeper pass.old }
    requires owner { (pass_lock pass.old).base.volume.began.owner ≡ volume }
    requires volume { volume < length awake.now }
    requires view { AllByRecursion (λ (b : LaneBase). b.logger < length awake.now)
        (pass_lock pass.old).base.lanes }
    ensures { HasBegunVolume D.tells awake.now pass.old pass.new }
{
    lock.enter_in_place(rt, pass);
    lock.change(
        pass,
        |manager: &mut Manager<D>|
            requires { CanBeTold D.state volume awake.now manager.now }
            ensures { WasTold D.tells D.state volume awake.entry.now manager.old manager.new }
        { tell(manager, volume, awake) },
    );
    leave_step_in_place(lock, pass, false);
}
