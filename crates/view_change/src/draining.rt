// All records of a volume go home, in one turn.
ghost use Rattle.manager.specs.Reclaim.{OnKept, OnFailed, KeepsOn, BreaksOff, Always};
ghost use Rattle.manager.specs.Seen.{look_of_manager};
ghost use Rattle.manager.specs.Stands.{Keeps, Stands, IsReady, IsHome, IsShared};
ghost use Rattle.manager.specs.declared.base.ManagerBase.{ManagerBase};
ghost use Rattle.manager.specs.declared.part.Part.{Part};
ghost use Rattle.request_turns.specs.Counts.{HasTaken};
ghost use Rattle.request_turns.specs.Turns.{notes_seen, HasLeft, WasDown, faulty_part};
ghost use Rattle.std.specs.Prelude.{◌≡◌, ◌++◌, ◌∷◌, [], List, None, Some, OnOk, IfErr};
ghost use Rattle.turn_lock.specs.Passes.{pass_lock, pass_number, IsPassOf, IsInTurn, IsPassAt};
ghost use Rattle.view_change.specs.Drained.{Drains, HasDrainedAll, drain_note, drain_operation};
ghost use Rattle.wol_model.specs.History.{worker};
ghost use Rattle.wol_promise.specs.Policy.{drained};
ghost use Rattle.wol_promise.specs.Ruled.{Noted};

use logger::Shared;
use manager::{Manager, Station, StepFault};
use reclaimer::{Drain, Fetch, drain_step};
use request_turns::{Memo, Tally, leave_noted};
use std::marker::Brand;
use std::sync::Wait;
use turn_lock::{Pass, Turn, TurnLock};
use wol_disk::Disk;

// Drains all records, step by step.
fn drain<R: Wait, D: Disk>(
    rt: &R,
    m: &mut Manager<D>,
    shared: &Shared<D>,
    into: &mut Fetch,
    tally: &mut Tally,
) -> Result<(), StepFault>
    requires ready { IsReady D.state m.old }
    requires at { IsHome shared.now m.old }
    ensures drains { (b : ManagerBase) (notes : List Noted) → Keeps D.tells D.state m.old b notes
        → Drains D.tells D.state b notes m.old m.new result }
    ensures bare { OnOk result
        ((m.new.index.entries ≡ []) × (look_of_manager m.new ≡ drained (look_of_manager m.old))) }
    ensures taken { OnOk result
        (HasTaken tally.old tally.new (look_of_manager m.old) (look_of_manager m.new)) }
    ensures down { IfErr result (λ f. m.new.down ≡ Some (faulty_part f)) }
    ensures keeps { OnKept result (KeepsOn D.tells D.state m.old m.new Always) }
    ensures broke { OnFailed result (BreaksOff D.tells D.state m.old m.new Always) }
    ensures empty { into.new ≡ None }
{
    'steps: loop {
        match drain_step(rt, m, shared, into)? {
            Drain::Bare => return Ok(()),
            Drain::Moved { blocks, records } => tally.count(blocks, records),
        }
    }
}

// Ends a turn in which a volume was drained with this answer.
fn leave_drained<D: Disk, N: Memo>(
    lock: &TurnLock<Manager<D>>,
    turn: Turn<Manager<D>>,
    pass: &mut Pass<Manager<D>>,
    answer: &Result<(), StepFault>,
)
    requires own { IsPassOf lock.now pass.old }
    requires turn { IsInTurn pass.old }
    requires note { N.note ≡ drain_note (pass_number pass.old) (drain_operation answer.now)
        (look_of_manager turn.value) }
    requires value { Stands D.tells D.state turn.value (pass_lock pass.old).base
        (notes_seen pass.old ++ N.note ∷ []) }
    ensures left { HasLeft D.tells (drain_note (pass_number pass.old) (drain_operation answer.now)
        (look_of_manager turn.value)) pass.old pass.new }
    ensures broken { (p : Part) → turn.value.down ≡ Some p → WasDown p (notes_seen pass.new) }
{
    let _ = answer;
    leave_noted::<D, N>(lock, turn, pass);
}

// The turn.
fn drain_turn<D: Disk, R: Wait>(
    rt: &R,
    lock: &TurnLock<Manager<D>>,
    pass: &mut Pass<Manager<D>>,
    shared: &Shared<D>,
    into: &mut Fetch,
) -> Result<(u64, u64), StepFault>
    requires pass { IsPassAt lock.now worker pass.old }
    requires shared { IsShared shared.now (pass_lock pass.old).base }
    ensures empty { into.new ≡ None }
    ensures drained { HasDrainedAll D.tells D.state pass.old pass.new result }
{
    let mut turn = lock.enter(rt, pass);
    let mut moved = Tally::new();
    let answer = drain(rt, &mut turn.value, shared, into, &mut moved);
    leave_drained::<D, Brand>(lock, turn, pass, &answer);
    match answer {
        Ok(()) => Ok((moved.blocks, moved.records)),
        Err(fault) => Err(fault),
    }
}

/// Puts home all that lies on the loggers of a volume and gives up all its records, whatever sleeps, in one turn of its
/// worker's pass; the turn's entry changes no content. Answers how many blocks went home and how many records are gone. It
/// takes no memory.
///
/// `DiskFault` comes only where a part's count of faults rose in this call, and brings the volume down; `Down` exactly where
/// it is down. Stopped at any moment of any of its steps, every choice of images recovers to the volume's array. The fetch is
/// empty afterwards.
pub fn drain_all<D: Disk, R: Wait>(
    rt: &R,
    station: &mut Station<D>,
    shared: &Shared<D>,
    into: &mut Fetch,
) -> Result<(u64, u64), StepFault>
    requires station { IsPassAt station.old.lock worker station.old.worker }
    requires shared { IsShared shared.now (pass_lock station.old.worker).base }
    // only what the worker's pass has seen and made is another
    ensures same { station.new ≡ record station.old { worker = station.new.worker } }
    ensures empty { into.new ≡ None }
    ensures drained { HasDrainedAll D.tells D.state station.old.worker station.new.worker result }
{
    drain_turn(rt, &station.lock, &mut station.worker, shared, into)
}
