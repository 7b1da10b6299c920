// An object that counts its turns.
ghost use Rattle.std.specs.Prelude.{◌≡◌, ◌+◌, ◌%◌, ◌^◌, ◌++◌, ◌∷◌, [], ℕ, List, length};
ghost use Rattle.turn_lock.specs.Passes.{IsPassOf, IsFree};
ghost use Rattle.turn_lock_tests.specs.Made.{TurnMade};

use std::marker::Brand;
use std::sync::Wait;
use turn_lock::{Object, Pass, TurnLock};

/// The number of its turns, modulo 2^64.
#[derive(Drop)]
pub struct Counter {
    pub count: u64,
}

impl Object for Counter {
    type Base = u64;

    ghost stands = { λ c b es. c.count ≡ (b + length es) % 2 ^ 64 };
}

impl Counter {
    /// Counts one turn, whichever its operation is.
    pub fn count_turn(&mut self)
        ensures { (b : ℕ) (es : List (ℕ × List ℕ)) (e : ℕ × List ℕ)
            → self.old.count ≡ (b + length es) % 2 ^ 64
            → self.new.count ≡ (b + length (es ++ e ∷ [])) % 2 ^ 64 }
    {
        self.count = self.count.wrapping_add(1);
    }
}

/// One turn with the operation 1.
pub fn count_up<R: Wait>(rt: &R, lock: &TurnLock<Counter>, pass: &mut Pass<Counter>)
    requires own { IsPassOf lock.now pass.old }
    requires free { IsFree pass.old }
    ensures { TurnMade (1 ∷ []) pass.old pass.new }
{
    let mut turn = lock.enter(rt, pass);
    turn.value.count_turn();
    lock.leave::<Brand>(turn, pass);
}
