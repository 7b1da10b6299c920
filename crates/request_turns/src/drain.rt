// A write that no log has room for: all records are drained, and then the write goes home.
ghost use Rattle.manager.specs.Reclaim.{OnKept, OnFailed, KeepsOn, BreaksOff, Always};
ghost use Rattle.manager.specs.Seen.{look_of_manager};
ghost use Rattle.manager.specs.Stands.{IsReady, IsHome};
ghost use Rattle.manager.specs.declared.manager.Manager.{Manager};
ghost use Rattle.request_turns.specs.Counts.{HasTaken, IsTakenOff};
ghost use Rattle.request_turns.specs.Entries.{note_of, refused_as, has_broken};
ghost use Rattle.request_turns.specs.Full.{IsFullInPlace, FitsVolume};
ghost use Rattle.request_turns.specs.Tried.{HasDrained};
ghost use Rattle.request_turns.specs.Turns.{look_in_place, next_in_place, notes_seen, faulty_part, HasLeftInPlace, StandsInPlace};
ghost use Rattle.request_turns.specs.Written.{HasWritten, IsDiskFault};
ghost use Rattle.std.specs.Prelude.{◌≡◌, [], false, None, Some, OnOk, IfErr, length};
ghost use Rattle.turn_lock.specs.Passes.{pass_lock, pass_number, IsPassOf};
ghost use Rattle.wol_model.specs.History.{worker, Broke};
ghost use Rattle.wol_promise.specs.Policy.{drained};
ghost use Rattle.wol_promise.specs.Ruled.{last_look};

use crate::noted::{Memo, leave_noted_in_place};
use crate::outcome::Outcome;
use crate::tally::Tally;
use crate::write::{leave_written, outcome_of, write_in_place};
use logger::Shared;
use manager::{Manager, Place, StepFault, WriteRefusal};
use reclaimer::{Drain, Fetch, drain_step};
use std::marker::Brand;
use std::sync::Wait;
use turn_lock::{Pass, TurnLock};
use wol_disk::{Block, Disk};

// Drains all records, step by step.
fn drain<R: Wait, D: Disk>(
    rt: &R,
    m: &mut Manager<D>,
    shared: &Shared<D>,
    fetch: &mut Fetch,
    tally: &mut Tally,
) -> Result<(), StepFault>
    requires ready { IsReady D.state m.old }
    requires at { IsHome shared.now m.old }
    requires up { m.old.down ≡ None }
    ensures ready { IsReady D.state m.new }
    ensures at { IsHome shared.now m.new }
    ensures drained { OnOk result
        ((m.new.down ≡ None) × (look_of_manager m.new ≡ drained (look_of_manager m.old))) }
    ensures refused { IfErr result IsDiskFault }
    ensures down { IfErr result (λ f. m.new.down ≡ Some (faulty_part f)) }
    ensures taken { OnOk result
        (HasTaken tally.old tally.new (look_of_manager m.old) (look_of_manager m.new)) }
    ensures keeps { OnKept result (KeepsOn D.tells D.state m.old m.new Always) }
    ensures broke { OnFailed result (BreaksOff D.tells D.state m.old m.new Always) }
{
    'steps: loop {
        match drain_step(rt, m, shared, fetch)? {
            Drain::Bare => return Ok(()),
            Drain::Moved { blocks, records } => tally.count(blocks, records),
        }
    }
}

// The same, with what was drained.
fn drain_anew<R: Wait, D: Disk>(
    rt: &R,
    m: &mut Manager<D>,
    shared: &Shared<D>,
    fetch: &mut Fetch,
) -> (Result<(), StepFault>, Tally)
    requires ready { IsReady D.state m.old }
    requires at { IsHome shared.now m.old }
    requires up { m.old.down ≡ None }
    ensures { HasDrained D.tells D.state result.0 result.1 m.old m.new }
{
    let mut done = Tally::new();
    let answer = drain(rt, m, shared, fetch, &mut done);
    (answer, done)
}

// The refusal of a write whose drain was refused so.
fn refusal_of(fault: StepFault) -> WriteRefusal
    ensures { result ≡ refused_as fault }
{
    match fault {
        StepFault::DiskFault(part) => WriteRefusal::DiskFault(part),
        StepFault::Down(part) => WriteRefusal::Down(part),
    }
}

// Whether a disk call of the write failed.
fn has_broken(answer: &Result<Place, WriteRefusal>) -> bool
    ensures { result ≡ has_broken answer.now }
{
    matches!(answer, Err(WriteRefusal::DiskFault(_)))
}

// Ends a turn whose drain failed. `B` has the note of the write that was refused before.
fn leave_broken<D: Disk, B: Memo, N: Memo>(lock: &TurnLock<Manager<D>>, pass: &mut Pass<Manager<D>>)
    requires own { IsPassOf lock.now pass.old }
    requires note { N.note ≡ note_of (pass_number pass.old) (Broke []) (look_in_place pass.old)
        B.note.passed false }
    requires value { StandsInPlace D.tells D.state N.note pass.old }
    ensures { HasLeftInPlace D.tells N.note pass.old pass.new }
{
    leave_noted_in_place::<D, N>(lock, pass);
}

// Writes home when no record is left, and ends the turn.
fn write_home<D: Disk, R: Wait, B: Memo>(
    rt: &R,
    lock: &TurnLock<Manager<D>>,
    pass: &mut Pass<Manager<D>>,
    shared: &Shared<D>,
    lbn: u64,
    from: &[Block],
    done: Tally,
    tally: &mut Tally,
) -> Outcome
    requires own { IsPassOf lock.now pass.old }
    requires client { pass_number pass.old ≡ worker }
    requires next { B.next ≡ next_in_place pass.old }
    requires done { IsTakenOff done (last_look (pass_lock pass.old).base.volume.began.look
        (notes_seen pass.old)) (look_in_place pass.old) }
    requires bare { look_in_place pass.old
        ≡ drained (last_look (pass_lock pass.old).base.volume.began.look (notes_seen pass.old)) }
    requires blocks { FitsVolume shared.now lbn (length from.now) (pass_lock pass.old).base }
    requires refused { IsFullInPlace D.tells D.state lbn from.now B.note pass.old }
    ensures { HasWritten D.tells lbn from.now result tally.old tally.new pass.old pass.new }
{
    let answer = write_in_place(rt, lock, pass, shared, lbn, from);
    leave_written::<D, B, Brand>(lock, pass, lbn, from, &answer, true);
    tally.add_unless(has_broken(&answer), done);
    outcome_of(answer, true)
}

/// Drains all records and then writes, within the turn in which the write was refused as full, and ends the turn. `B` has
/// the note of that refusal.
pub(crate) fn drain_and_write<D: Disk, R: Wait, B: Memo>(
    rt: &R,
    lock: &TurnLock<Manager<D>>,
    pass: &mut Pass<Manager<D>>,
    shared: &Shared<D>,
    lbn: u64,
    from: &[Block],
    fetch: &mut Fetch,
    tally: &mut Tally,
) -> Outcome
    requires own { IsPassOf lock.now pass.old }
    requires client { pass_number pass.old ≡ worker }
    requires look { look_in_place pass.old
        ≡ last_look (pass_lock pass.old).base.volume.began.look (notes_seen pass.old) }
    requires blocks { FitsVolume shared.now lbn (length from.now) (pass_lock pass.old).base }
    requires refused { IsFullInPlace D.tells D.state lbn from.now B.note pass.old }
    ensures { HasWritten D.tells lbn from.now result tally.old tally.new pass.old pass.new }
{
    let (answer, done) = lock.change(
        pass,
        |m: &mut Manager<D>|
            requires { IsReady D.state m.now × IsHome shared.now m.now × (m.now.down ≡ None) }
            ensures { HasDrained D.tells D.state result.0 result.1 m.old m.new }
        { drain_anew(rt, m, shared, fetch) },
    );
    match answer {
        Ok(()) => write_home::<D, R, Brand>(rt, lock, pass, shared, lbn, from, done, tally),
        Err(fault) => {
            leave_broken::<D, B, Brand>(lock, pass);
            Outcome::NoWrite(refusal_of(fault))
        }
    }
}
