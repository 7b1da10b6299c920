// A moment that comes while others have the workers' and the helpers' passes.
ghost use Rattle.manager.specs.declared.base.LaneBase.{LaneBase};
ghost use Rattle.std.specs.List.{AllByRecursion};
ghost use Rattle.std.specs.Prelude.{◌≡◌, ◌≤◌, ◌<◌, ℕ, length, slice_index_or, IfOk, OnErr};
ghost use Rattle.turn_lock.specs.Passes.{pass_lock, IsSamePass};
ghost use Rattle.window_desks.specs.Begun.{SpindlePass, AreKeepers, HaveBegun, HaveBegunVolumes};
ghost use Rattle.window_desks.specs.Helped.{ArePassesAt};
ghost use Rattle.wol_model.specs.History.{keeper};

use crate::begin::{begin_spindles, begin_volumes};
use logger::Shared;
use manager::Manager;
use spin_model::Spindle;
use std::alloc::Global;
use std::sync::Wait;
use turn_lock::{Pass, TurnLock};
use wol_disk::{Disk, NoMemory};

/// Begins a moment `t`, in 100 ns, as `begin_window` does, with the keepers' passes alone: those of all spindles, and those of
/// all volumes, in order. It answers whether each disk is awake. After `NoMemory` nobody had a turn, and nothing changed.
pub fn begin_moment<D: Disk, R: Wait>(
    rt: &R,
    alloc: Global,
    locks: &[TurnLock<Manager<D>>],
    shared: &Shared<D>,
    spindles: &mut [Pass<Spindle>],
    keepers: &mut [Pass<Manager<D>>],
    t: u64,
) -> Result<Vec<bool>, NoMemory>
    requires spindles { AreKeepers shared.now spindles.old }
    requires count { length keepers.old ≡ length locks.now }
    requires volumes { length keepers.old ≤ length spindles.old }
    requires passes { ArePassesAt locks.now keeper keepers.old }
    requires owners { (k : ℕ) (d : _) → k < length keepers.old
        → (pass_lock (slice_index_or keepers.old k d)).base.volume.began.owner ≡ k }
    requires views { (k : ℕ) (d : _) → k < length keepers.old
        → AllByRecursion (λ (b : LaneBase). b.logger < length spindles.old)
        (pass_lock (slice_index_or keepers.old k d)).base.lanes }
    ensures spindles { AreKeepers shared.now spindles.new }
    ensures same { (k : ℕ) (d : SpindlePass) → k < length spindles.old
        → IsSamePass (slice_index_or spindles.old k d) (slice_index_or spindles.new k d) }
    ensures begun { IfOk result (λ awake. HaveBegun t awake.items spindles.old spindles.new
        × HaveBegunVolumes D.tells awake.items keepers.old keepers.new) }
    ensures len { IfOk result (λ awake. length awake.items ≡ length spindles.old) }
    ensures refused { OnErr result (keepers.new ≡ keepers.old) }
    ensures stopped { OnErr result (spindles.new ≡ spindles.old) }
{
    let mut awake = Vec::with_capacity(alloc, spindles.len())?;
    begin_spindles(rt, shared.spindles.as_slice(), spindles, t, &mut awake);
    begin_volumes(rt, locks, keepers, awake.as_slice());
    Ok(awake)
}
