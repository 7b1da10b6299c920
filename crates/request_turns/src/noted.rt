// How a turn ends: with an entry that the caller's proof names, with its notes.
ghost use Rattle.manager.specs.Seen.{look_of_manager};
ghost use Rattle.manager.specs.Stands.{Stands};
ghost use Rattle.manager.specs.declared.part.Part.{Part};
ghost use Rattle.request_turns.specs.Stepped.{step_note, StandsStepped, StandsSteppedInPlace, HasLeftStep, HasLeftStepInPlace};
ghost use Rattle.request_turns.specs.Turns.{look_in_place, notes_seen, IsInTurnAt, HasLeft, HasLeftInPlace, IsBroken, StandsInPlace, WasDown};
ghost use Rattle.std.specs.Prelude.{ℕ, ◌≡◌, ◌++◌, ◌∷◌, [], None, Some};
ghost use Rattle.turn_lock.specs.Passes.{pass_lock, pass_number, IsPassOf, IsInTurn};
ghost use Rattle.wol_promise.specs.Code.{no_note};
ghost use Rattle.wol_promise.specs.Ruled.{Noted};

use manager::Manager;
use std::marker::Brand;
use turn_lock::{Pass, Turn, TurnLock};
use wol_disk::Disk;

/// What a proof remembers of a turn: an entry with its notes, and a next version.
pub trait Memo {
    ghost note: { Noted };

    ghost next: { ℕ };
}

impl Memo for Brand {
    ghost note = { no_note 0 };

    ghost next = { 0 };
}

/// Ends a turn with the entry that `N` names. The manager stands for it.
pub fn leave_noted<D: Disk, N: Memo>(
    lock: &TurnLock<Manager<D>>,
    turn: Turn<Manager<D>>,
    pass: &mut Pass<Manager<D>>,
)
    requires own { IsPassOf lock.now pass.old }
    requires turn { IsInTurn pass.old }
    requires number { N.note.entry.pass ≡ pass_number pass.old }
    requires value { Stands D.tells D.state turn.value (pass_lock pass.old).base
        (notes_seen pass.old ++ N.note ∷ []) }
    ensures left { HasLeft D.tells N.note pass.old pass.new }
    ensures broken { (p : Part) → turn.value.down ≡ Some p → WasDown p (notes_seen pass.new) }
    ensures unbroken { turn.value.down ≡ None → IsBroken (notes_seen pass.new) → ⊥ }
{
    lock.leave::<Brand>(turn, pass);
}

// The same, where the note is that of steps of reclaim.
fn leave_named<D: Disk, N: Memo>(
    lock: &TurnLock<Manager<D>>,
    turn: Turn<Manager<D>>,
    pass: &mut Pass<Manager<D>>,
    failed: bool,
)
    requires turn { IsInTurnAt lock.now pass.old }
    requires note { N.note
        ≡ step_note (pass_number pass.old) failed (look_of_manager turn.value) }
    requires value { StandsStepped D.tells D.state failed turn.value pass.old }
    ensures { HasLeftStep D.tells failed turn.value pass.old pass.new }
{
    let _ = failed;
    leave_noted::<D, N>(lock, turn, pass);
}

/// Ends a turn of steps of reclaim, one of which failed at a disk or none.
pub(crate) fn leave_step<D: Disk>(
    lock: &TurnLock<Manager<D>>,
    turn: Turn<Manager<D>>,
    pass: &mut Pass<Manager<D>>,
    failed: bool,
)
    requires turn { IsInTurnAt lock.now pass.old }
    requires value { StandsStepped D.tells D.state failed turn.value pass.old }
    ensures { HasLeftStep D.tells failed turn.value pass.old pass.new }
{
    leave_named::<D, Brand>(lock, turn, pass, failed);
}

/// As `leave_noted`, where the manager stayed in its place.
pub(crate) fn leave_noted_in_place<D: Disk, N: Memo>(
    lock: &TurnLock<Manager<D>>,
    pass: &mut Pass<Manager<D>>,
)
    requires own { IsPassOf lock.now pass.old }
    requires number { N.note.entry.pass ≡ pass_number pass.old }
    requires value { StandsInPlace D.tells D.state N.note pass.old }
    ensures { HasLeftInPlace D.tells N.note pass.old pass.new }
{
    lock.leave_in_place::<Brand>(pass);
}

// As `leave_named`, where the manager stayed in its place.
fn leave_named_in_place<D: Disk, N: Memo>(
    lock: &TurnLock<Manager<D>>,
    pass: &mut Pass<Manager<D>>,
    failed: bool,
)
    requires own { IsPassOf lock.now pass.old }
    requires note { N.note
        ≡ step_note (pass_number pass.old) failed (look_in_place pass.old) }
    requires value { StandsSteppedInPlace D.tells D.state failed pass.old }
    ensures { HasLeftStepInPlace D.tells failed pass.old pass.new }
{
    let _ = failed;
    lock.leave_in_place::<Brand>(pass);
}

/// Ends a turn of steps of reclaim in which the manager stayed in its place.
pub(crate) fn leave_step_in_place<D: Disk>(
    lock: &TurnLock<Manager<D>>,
    pass: &mut Pass<Manager<D>>,
    failed: bool,
)
    requires own { IsPassOf lock.now pass.old }
    requires value { StandsSteppedInPlace D.tells D.state failed pass.old }
    ensures { HasLeftStepInPlace D.tells failed pass.old pass.new }
{
    leave_named_in_place::<D, Brand>(lock, pass, failed);
}
