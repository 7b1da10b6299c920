// A write in one turn, after a drain where no log has room.
ghost use Rattle.manager.specs.Answers.{written};
ghost use Rattle.manager.specs.Stands.{Keeps, Stands};
ghost use Rattle.manager.specs.declared.manager.Manager.{Manager};
ghost use Rattle.request_turns.specs.Blocks.{HasWrittenBlocks};
ghost use Rattle.request_turns.specs.Counts.{HasCounted};
ghost use Rattle.request_turns.specs.Entries.{note_of, written_outcome, is_full};
ghost use Rattle.request_turns.specs.Full.{FitsVolume};
ghost use Rattle.request_turns.specs.Tried.{CanBeAsked, HasTried, HasTriedInPlace};
ghost use Rattle.request_turns.specs.Turns.{look_in_place, next_in_place, passed_by, notes_seen, HasLeftInPlace, StandsInPlace};
ghost use Rattle.request_turns.specs.Written.{HasWritten};
ghost use Rattle.std.specs.Prelude.{◌≡◌, ◌&&◌, List, is_ok, length};
ghost use Rattle.turn_lock.specs.Passes.{pass_lock, pass_number, IsPassOf, IsInTurnWith, IsPassAt};
ghost use Rattle.wol_model.specs.History.{worker};
ghost use Rattle.wol_promise.specs.Ruled.{Noted};

use crate::drain::drain_and_write;
use crate::noted::{Memo, leave_noted_in_place};
use crate::outcome::Outcome;
use crate::tally::Tally;
use logger::Shared;
use manager::{Manager, Place, WriteRefusal};
use reclaimer::Fetch;
use std::marker::Brand;
use std::sync::Wait;
use turn_lock::{Pass, TurnLock};
use wol_disk::{Block, Disk};

/// The outcome of a write with this answer.
pub(crate) fn outcome_of(answer: Result<Place, WriteRefusal>, drained: bool) -> Outcome
    ensures { result ≡ written_outcome drained answer }
{
    match answer {
        Ok(place) => Outcome::Wrote { place, drained },
        Err(refusal) => Outcome::NoWrite(refusal),
    }
}

/// Whether no log had room.
pub(crate) fn is_full(answer: &Result<Place, WriteRefusal>) -> bool
    ensures { result ≡ is_full answer.now }
{
    matches!(answer, Err(WriteRefusal::Full))
}

// Writes blocks from block `lbn` of a volume on.
fn try_write<D: Disk, R: Wait>(
    rt: &R,
    m: &mut Manager<D>,
    shared: &Shared<D>,
    lbn: u64,
    from: &[Block],
) -> Result<Place, WriteRefusal>
    requires { CanBeAsked D.state shared.now lbn (length from.now) m.old }
    ensures { HasTried D.tells D.state lbn from.now result m.old m.new }
{
    m.write(rt, shared, lbn, from)
}

/// The same, where the manager stands in its place in a turn.
pub(crate) fn write_in_place<D: Disk, R: Wait>(
    rt: &R,
    lock: &TurnLock<Manager<D>>,
    pass: &mut Pass<Manager<D>>,
    shared: &Shared<D>,
    lbn: u64,
    from: &[Block],
) -> Result<Place, WriteRefusal>
    requires own { IsPassOf lock.now pass.old }
    requires blocks { FitsVolume shared.now lbn (length from.now) (pass_lock pass.old).base }
    requires value { (m : Manager _) × IsInTurnWith m pass.old × (notes : List Noted)
        × Keeps D.tells D.state m (pass_lock pass.old).base notes }
    ensures { HasTriedInPlace D.tells D.state lbn from.now result pass.old pass.new }
{
    lock.change(
        pass,
        |m: &mut Manager<D>|
            requires { CanBeAsked D.state shared.now lbn (length from.now) m.now }
            ensures { HasTried D.tells D.state lbn from.entry.now result m.old m.new }
        { try_write(rt, m, shared, lbn, from) },
    )
}

/// Ends a turn in which blocks were written with this answer, behind a drain or not. `B` has the next version that stood
/// before, and behind a drain the note of the write that was refused.
pub(crate) fn leave_written<D: Disk, B: Memo, N: Memo>(
    lock: &TurnLock<Manager<D>>,
    pass: &mut Pass<Manager<D>>,
    lbn: u64,
    from: &[Block],
    answer: &Result<Place, WriteRefusal>,
    drained: bool,
)
    requires own { IsPassOf lock.now pass.old }
    requires note { N.note ≡ note_of (pass_number pass.old) (written B.next lbn from.now answer.now)
        (look_in_place pass.old) (passed_by drained B.note pass.old) (drained && is_ok answer.now) }
    requires value { StandsInPlace D.tells D.state N.note pass.old }
    ensures { HasLeftInPlace D.tells N.note pass.old pass.new }
{
    let _ = from;
    let _ = drained;
    leave_noted_in_place::<D, N>(lock, pass);
}

// Writes within a turn, and ends it. `B` has the next version at its beginning.
fn write_within<D: Disk, R: Wait, B: Memo>(
    rt: &R,
    lock: &TurnLock<Manager<D>>,
    pass: &mut Pass<Manager<D>>,
    shared: &Shared<D>,
    lbn: u64,
    from: &[Block],
    fetch: &mut Fetch,
    tally: &mut Tally,
) -> Outcome
    requires own { IsPassOf lock.now pass.old }
    requires client { pass_number pass.old ≡ worker }
    requires next { B.next ≡ next_in_place pass.old }
    requires blocks { FitsVolume shared.now lbn (length from.now) (pass_lock pass.old).base }
    requires value { (m : Manager _) × IsInTurnWith m pass.old
        × Stands D.tells D.state m (pass_lock pass.old).base (notes_seen pass.old) }
    ensures { HasWritten D.tells lbn from.now result tally.old tally.new pass.old pass.new }
{
    let answer = write_in_place(rt, lock, pass, shared, lbn, from);
    if is_full(&answer) {
        return drain_and_write::<D, R, Brand>(rt, lock, pass, shared, lbn, from, fetch, tally);
    }
    leave_written::<D, B, Brand>(lock, pass, lbn, from, &answer, false);
    outcome_of(answer, false)
}

/// Writes blocks from block `lbn` of the volume on, in one turn. Where no log has room, all records are drained first.
///
/// A refusal comes in this order: `Down` exactly where a disk call had failed before, `VersionsSpent` exactly where no version
/// was left then, and else `NoMemory` and `DiskFault`. After a refusal the volume is as it was, but `NoMemory` may come behind
/// the drain, and what a failed call leaves is open.
pub fn write_blocks<D: Disk, R: Wait>(
    rt: &R,
    lock: &TurnLock<Manager<D>>,
    pass: &mut Pass<Manager<D>>,
    shared: &Shared<D>,
    lbn: u64,
    from: &[Block],
    fetch: &mut Fetch,
    tally: &mut Tally,
) -> Outcome
    requires pass { IsPassAt lock.now worker pass.old }
    requires blocks { FitsVolume shared.now lbn (length from.now) (pass_lock pass.old).base }
    ensures written { HasWrittenBlocks D.tells lbn from.now result pass.old pass.new }
    ensures counted { HasCounted D.tells tally.old tally.new pass.old pass.new }
{
    lock.enter_in_place(rt, pass);
    write_within::<D, R, Brand>(rt, lock, pass, shared, lbn, from, fetch, tally)
}
