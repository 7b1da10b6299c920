// A drain: step by step all records of a volume are put home and given up, whatever sleeps.
ghost use Rattle.manager.specs.Causes.{NoneRose};
ghost use Rattle.manager.specs.Reclaim.{OnTried, OnKept, OnFailed, TellsStep, KeepsOn, BreaksOff, StopsSince, Always};
ghost use Rattle.manager.specs.Seen.{look_of_manager};
ghost use Rattle.manager.specs.Stands.{IsReady, IsHome, nones_at};
ghost use Rattle.manager.specs.declared.base.LaneBase.{LaneBase};
ghost use Rattle.reclaimer.specs.Counts.{CountsMoved};
ghost use Rattle.reclaimer.specs.Drains.{Drains, HasDrained, Lowers, first_due};
ghost use Rattle.reclaimer.specs.Steps.{StopsWithin};
ghost use Rattle.redirect_map.specs.Index.{IsIndex};
ghost use Rattle.std.specs.Prelude.{◌≡◌, ◌↔◌, ◌<◌, ◌≤◌, ℕ, List, [], true, None, Ok, IsTrue, length, OnOk};
ghost use Rattle.wol_promise.specs.Policy.{drained};

use crate::give_up::give_first;
use crate::group::put_first;
use crate::next::{due_next, going};
use crate::{Drain, Fetch};
use logger::Shared;
use manager::{Manager, StepFault};
use std::sync::Wait;
use wol_disk::{Block, Disk};

/// A view has at most so many loggers, all of which a drain counts as awake.
const ALL: [bool; 16] = [true; 16];

// Gives up what may go of the first record of which something may go, or its whole segment, where nothing is due.
fn drop_first<R: Wait, D: Disk>(
    rt: &R,
    m: &mut Manager<D>,
    shared: &Shared<D>,
) -> Result<Drain, StepFault>
    requires ready { IsReady D.state m.old }
    requires at { IsHome shared.now m.old }
    requires up { m.old.down ≡ None }
    requires some { 0 < length m.old.index.entries }
    requires index { IsIndex m.old.index.entries }
    requires due { first_due m.old.index.entries ≡ None }
    ensures ready { IsReady D.state m.new }
    ensures at { IsHome shared.now m.new }
    ensures fault { TellsStep D.state result m.old m.new }
    ensures calm { OnOk result (NoneRose D.state m.old m.new) }
    ensures drains { Drains D.state m.old m.new result }
    ensures moved { result ≡ Ok Drain.Bare → ⊥ }
    ensures awake { OnTried result (m.new.home_up ≡ m.old.home_up) }
    ensures counted { CountsMoved result (look_of_manager m.old) (look_of_manager m.new) }
    ensures passed { (lanes : List LaneBase) (k : ℕ)
        → nones_at m.old.lanes.items lanes k ≤ nones_at m.new.lanes.items lanes k }
    ensures lowers { Lowers result m.old m.new }
    ensures look { OnKept result (drained (look_of_manager m.new) ≡ drained (look_of_manager m.old)) }
    ensures keeps { OnKept result (KeepsOn D.tells D.state m.old m.new Always) }
    ensures broke { OnFailed result (BreaksOff D.tells D.state m.old m.new Always) }
    ensures any_moment { OnTried result
        (IsTrue D.tells → StopsSince D.tells D.state m.old m.new Always) }
{
    let Some(record) = going(m.index(), &ALL) else {
        // Each kept block of the record of least version may go or is due.
        unreachable!()
    };
    match give_first(rt, m, shared, true, &record) {
        Ok(records) => Ok(Drain::Moved { blocks: 0, records }),
        Err(fault) => Err(fault),
    }
}

// The step, with home awake.
fn drain_awake<R: Wait, D: Disk>(
    rt: &R,
    m: &mut Manager<D>,
    shared: &Shared<D>,
    room: &mut [Block],
) -> Result<Drain, StepFault>
    requires ready { IsReady D.state m.old }
    requires at { IsHome shared.now m.old }
    requires up { m.old.down ≡ None }
    requires awake { m.old.home_up ≡ true }
    requires room { length room.old ≡ 128 }
    ensures ready { IsReady D.state m.new }
    ensures at { IsHome shared.now m.new }
    ensures fault { TellsStep D.state result m.old m.new }
    ensures calm { OnOk result (NoneRose D.state m.old m.new) }
    ensures drains { Drains D.state m.old m.new result }
    ensures bare { (result ≡ Ok Drain.Bare) ↔ (m.old.index.entries ≡ []) }
    ensures awake { OnTried result (m.new.home_up ≡ true) }
    ensures counted { CountsMoved result (look_of_manager m.old) (look_of_manager m.new) }
    ensures passed { (lanes : List LaneBase) (k : ℕ)
        → nones_at m.old.lanes.items lanes k ≤ nones_at m.new.lanes.items lanes k }
    ensures lowers { Lowers result m.old m.new }
    ensures look { OnKept result (drained (look_of_manager m.new) ≡ drained (look_of_manager m.old)) }
    ensures keeps { OnKept result (KeepsOn D.tells D.state m.old m.new Always) }
    ensures broke { OnFailed result (BreaksOff D.tells D.state m.old m.new Always) }
    ensures any_moment { OnTried result
        (IsTrue D.tells → StopsSince D.tells D.state m.old m.new Always) }
{
    if m.index().len() == 0 {
        return Ok(Drain::Bare);
    }
    let due = due_next(m.index(), &ALL).is_some();
    if !due {
        return drop_first(rt, m, shared);
    }
    match put_first(rt, m, shared, true, room) {
        Ok(blocks) => Ok(Drain::Moved { blocks, records: 0 }),
        Err(fault) => Err(fault),
    }
}

/// Wakes home, and then puts home the due blocks of the records of least version that have one, at most 128 of them, with one
/// sync; or, where nothing is due, gives up what may go of the record of least version of which something may go, or its whole
/// segment by one write, where its records are the first ones and all that they keep may go. The loggers of these records are
/// woken. `Bare` comes exactly where no record is left. `DiskFault` comes only where a part's count of faults rose in this call,
/// and brings the manager down; `Down` exactly where it is down, which is tried first. The fetch is empty afterwards.
pub fn drain_step<R: Wait, D: Disk>(
    rt: &R,
    m: &mut Manager<D>,
    shared: &Shared<D>,
    into: &mut Fetch,
) -> Result<Drain, StepFault>
    requires ready { IsReady D.state m.old }
    requires at { IsHome shared.now m.old }
    ensures ready { IsReady D.state m.new }
    ensures at { IsHome shared.now m.new }
    ensures fault { TellsStep D.state result m.old m.new }
    ensures calm { OnOk result (NoneRose D.state m.old m.new) }
    ensures empty { into.new ≡ None }
    ensures bare { (result ≡ Ok Drain.Bare) ↔ ((m.old.down ≡ None) × (m.old.index.entries ≡ [])) }
    ensures drained { OnTried result (HasDrained D.state m.old m.new result) }

    // A drain ends: each step lowers the kept blocks and the due blocks together.
    ensures lowers { Lowers result m.old m.new }

    // What it answers went home and is gone.
    ensures counted { CountsMoved result (look_of_manager m.old) (look_of_manager m.new) }

    // It goes on to the look of which all is drained, whose flags a step sets as far as it woke disks.
    ensures look { OnKept result (drained (look_of_manager m.new) ≡ drained (look_of_manager m.old)) }
    ensures bare_look { result ≡ Ok Drain.Bare
        → look_of_manager m.new ≡ drained (look_of_manager m.old) }
    ensures waking { OnTried result (m.new.home_up ≡ true) }

    // No pool is found empty less often than before: so a write after a drain can tell which it found so.
    ensures passed { (lanes : List LaneBase) (k : ℕ)
        → nones_at m.old.lanes.items lanes k ≤ nones_at m.new.lanes.items lanes k }
    ensures keeps { OnKept result (KeepsOn D.tells D.state m.old m.new Always) }
    ensures broke { OnFailed result (BreaksOff D.tells D.state m.old m.new Always) }
    ensures any_moment { IsTrue D.tells → StopsWithin D.tells D.state m.old m.new Always }
{
    into.clear();
    if let Some(part) = m.down() {
        return Err(StepFault::Down(part));
    }
    m.wake_home(rt, shared);
    drain_awake(rt, m, shared, &mut into.blocks)
}
