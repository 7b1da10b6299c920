// The beginning of a window: the spindles are told the moment, and the managers which disks are awake.
ghost use Rattle.manager.specs.declared.base.LaneBase.{LaneBase};
ghost use Rattle.std.specs.List.{AllByRecursion};
ghost use Rattle.std.specs.Prelude.{◌≡◌, ◌≤◌, ◌<◌, [], ℕ, Bool, List, length, vec_capacity, slice_index_or, OnOk, OnErr};
ghost use Rattle.turn_lock.specs.Passes.{pass_lock, IsPassOf, IsFree, IsSamePass};
ghost use Rattle.window_desks.specs.Begun.{SpindlePass, AreKeepers, HaveBegun, HaveBegunVolumes};
ghost use Rattle.window_desks.specs.Floors.{IsFloor, IsOn};
ghost use Rattle.window_desks.specs.Helped.{ArePassesAt};
ghost use Rattle.wol_model.specs.History.{keeper};

use crate::floor::Floor;
use logger::Shared;
use manager::Manager;
use request_turns::begin_volume;
use spin_model::{Spindle, begin_turn};
use std::alloc::Global;
use std::sync::Wait;
use turn_lock::{Pass, TurnLock};
use wol_disk::{Disk, NoMemory};

// Begins every spindle in order, and notes which disks are awake.
pub(crate) fn begin_spindles<R: Wait>(
    rt: &R,
    spindles: &[TurnLock<Spindle>],
    keepers: &mut [Pass<Spindle>],
    t: u64,
    awake: &mut Vec<bool>,
)
    requires count { length keepers.old ≡ length spindles.now }
    requires own { (k : ℕ) (l : _) (d : _) → k < length keepers.old
        → IsPassOf (slice_index_or spindles.now k l) (slice_index_or keepers.old k d) }
    requires free { (k : ℕ) (d : _) → k < length keepers.old
        → IsFree (slice_index_or keepers.old k d) }
    requires empty { awake.old.items ≡ [] }
    requires room { length keepers.old ≤ vec_capacity awake.old }
    ensures own { (k : ℕ) (l : _) (d : _) → k < length keepers.new
        → IsPassOf (slice_index_or spindles.now k l) (slice_index_or keepers.new k d) }
    ensures free { (k : ℕ) (d : _) → k < length keepers.new
        → IsFree (slice_index_or keepers.new k d) }
    ensures same { (k : ℕ) (d : _) → k < length keepers.old
        → IsSamePass (slice_index_or keepers.old k d) (slice_index_or keepers.new k d) }
    ensures begun { HaveBegun t awake.new.items keepers.old keepers.new }
    ensures len { length awake.new.items ≡ length keepers.old }
{
    for k in 0..keepers.len() {
        let up = begin_turn(rt, &spindles[k], &mut keepers[k], t);
        awake.push_reserved(up);
    }
}

// One turn of each volume's keeper.
pub(crate) fn begin_volumes<R: Wait, D: Disk>(
    rt: &R,
    locks: &[TurnLock<Manager<D>>],
    keepers: &mut [Pass<Manager<D>>],
    awake: &[bool],
)
    requires count { length keepers.old ≡ length locks.now }
    requires passes { ArePassesAt locks.now keeper keepers.old }
    requires owners { (k : ℕ) (d : _) → k < length keepers.old
        → (pass_lock (slice_index_or keepers.old k d)).base.volume.began.owner ≡ k }
    requires volumes { length keepers.old ≤ length awake.now }
    requires views { (k : ℕ) (d : _) → k < length keepers.old
        → AllByRecursion (λ (b : LaneBase). b.logger < length awake.now)
        (pass_lock (slice_index_or keepers.old k d)).base.lanes }
    ensures { HaveBegunVolumes D.tells awake.now keepers.old keepers.new }
{
    for k in 0..keepers.len() {
        begin_volume(rt, &locks[k], &mut keepers[k], k, awake);
    }
}

/// Begins a window at the moment `t`, in 100 ns: every spindle in order, and then every manager with the states found. The
/// passes in `keepers` are one for each spindle, in order. After `NoMemory` no spindle had a turn, and nothing changed.
pub fn begin_window<'l, D: Disk, R: Wait>(
    rt: &R,
    alloc: Global,
    floor: &mut Floor<'l, D>,
    shared: &Shared<D>,
    keepers: &mut [Pass<Spindle>],
    t: u64,
) -> Result<(), NoMemory>
    requires floor { IsFloor floor.old }
    requires shared { IsOn shared.now floor.old.locks.now }
    requires keepers { AreKeepers shared.now keepers.old }
    ensures floor { IsFloor floor.new }
    ensures keepers { AreKeepers shared.now keepers.new }
    ensures same { (k : ℕ) (d : SpindlePass) → k < length keepers.old
        → IsSamePass (slice_index_or keepers.old k d) (slice_index_or keepers.new k d) }
    ensures begun { OnOk result ((awake : List Bool) × HaveBegun t awake keepers.old keepers.new
        × HaveBegunVolumes D.tells awake floor.old.keepers.items floor.new.keepers.items) }
    ensures unchanged { floor.new ≡ record floor.old { keepers = floor.new.keepers } }
    ensures refused { OnErr result (floor.new ≡ floor.old) }
    ensures stopped { OnErr result (keepers.new ≡ keepers.old) }
{
    let mut awake = Vec::with_capacity(alloc, keepers.len())?;
    begin_spindles(rt, shared.spindles.as_slice(), keepers, t, &mut awake);
    begin_volumes(
        rt,
        floor.locks,
        floor.keepers.as_mut_slice(),
        awake.as_slice(),
    );
    Ok(())
}
