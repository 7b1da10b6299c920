// The outer object: a desk, which owns a pass of a counter's lock and makes turns of it within its own.
ghost use Rattle.std.specs.Prelude.{◌≡◌, ◌∷◌, [], ◌++◌, ℕ, List};
ghost use Rattle.turn_lock.specs.Passes.{lock_id, pass_lock, IsPassOf, IsFree};
ghost use Rattle.turn_lock_tests.specs.Made.{TurnMade};

use crate::counter::Counter;
use std::sync::Wait;
use turn_lock::{History, LockName, Object, Pass, TurnLock};

/// It counts twice in each turn: 1 is the operation of the first of these turns, and 2 that of the second.
pub struct Desk {
    pub counter: Pass<Counter>,
}

/// What a desk began with: its counter's lock, the number of its pass, and the entries that the pass had made.
/// No value of it is made.
pub struct DeskBase {
    pub counter: LockName<u64>,
    pub number: u64,
    pub before: History,
}

impl Object for Desk {
    ghost use Rattle.turn_lock_tests.specs.Desks.{DeskStands};

    type Base = DeskBase;

    ghost stands = { DeskStands };
}

// One turn of a counter's lock with this operation.
fn count_as<R: Wait>(rt: &R, lock: &TurnLock<Counter>, pass: &mut Pass<Counter>, operation: u64)
    requires own { IsPassOf lock.now pass.old }
    requires free { IsFree pass.old }
    ensures { TurnMade (operation ∷ []) pass.old pass.new }
{
    let mut turn = lock.enter(rt, pass);
    turn.value.count_turn();
    lock.leave_as(turn, pass, &[operation]);
}

impl Desk {
    ghost use Rattle.turn_lock_tests.specs.Desks.{DeskStands};
    ghost use Rattle.turn_lock_tests.specs.declared.desk.DeskBase.{DeskBase};

    /// Counts twice: two turns of the counter's lock.
    pub fn work<R: Wait>(&mut self, rt: &R, counter: &TurnLock<Counter>)
        requires own { IsPassOf counter.now self.old.counter }
        requires free { IsFree self.old.counter }
        ensures { (b : DeskBase) (es : List (ℕ × List ℕ)) (n : ℕ) → DeskStands self.old b es
            → DeskStands self.new b (es ++ (n, 7 ∷ []) ∷ []) }
    {
        count_as(rt, counter, &mut self.counter, 1);
        count_as(rt, counter, &mut self.counter, 2);
    }
}

/// One turn of a desk, with two turns of its counter in it.
pub fn work_once<R: Wait>(
    rt: &R,
    counter: &TurnLock<Counter>,
    lock: &TurnLock<Desk>,
    pass: &mut Pass<Desk>,
)
    requires own { IsPassOf lock.now pass.old }
    requires free { IsFree pass.old }
    requires counter { lock_id counter.now ≡ (pass_lock pass.old).base.counter.id }
    ensures { TurnMade (7 ∷ []) pass.old pass.new }
{
    let mut turn = lock.enter(rt, pass);
    turn.value.work(rt, counter);
    lock.leave_as(turn, pass, &[7]);
}
