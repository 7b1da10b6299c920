// Turns of a pool's lock, one use each.
ghost use Rattle.seg_pool.specs.Holders.{Gave, ArePoolUses};
ghost use Rattle.seg_pool.specs.Operations.{operation_of, uses_of, holds, taken};
ghost use Rattle.std.specs.Prelude.{true, false, ◌≡◌, ◌≢◌, ◌<◌, ◌∷◌, [], ◌++◌, ℕ, List, length, IfSome};
ghost use Rattle.turn_lock.specs.Histories.{Entry, Begins};
ghost use Rattle.turn_lock.specs.Passes.{pass_lock, pass_number, pass_seen, pass_mine, IsPassOf, IsFree, IsSamePass};

use crate::{Blank, Pool};
use std::sync::Wait;
use turn_lock::{Pass, TurnLock};

const TOOK: u64 = 1;

const TOOK_NONE: u64 = 2;

const GAVE: u64 = 3;

/// One turn, in which the pass takes the item of the least free index and holds it from then on.
/// `None` comes exactly where no item is free: the uses of a pool with a `Took None` are legal only there.
pub fn take_item<R: Wait, T: Blank>(
    rt: &R,
    lock: &TurnLock<Pool<T>>,
    pass: &mut Pass<Pool<T>>,
) -> Option<(u32, T)>
    requires own { IsPassOf lock.now pass.old }
    requires free { IsFree pass.old }
    ensures same { IsSamePass pass.old pass.new }
    ensures free { IsFree pass.new }
    ensures mine { pass_mine pass.new
        ≡ pass_mine pass.old ++ (pass_number pass.old, operation_of (taken result)) ∷ [] }
    ensures seen { (before : List Entry) × Begins (pass_seen pass.old) before
        × (pass_seen pass.new ≡ before ++ (pass_number pass.old, operation_of (taken result)) ∷ []) }
    ensures legal { ArePoolUses (pass_lock pass.new).base.holders (uses_of (pass_seen pass.new)) }
    ensures holds { IfSome result (λ r.
        holds (pass_lock pass.new).base (pass_number pass.new) (pass_mine pass.new) r.0 ≡ true) }
    ensures fresh { IfSome result (λ r.
        holds (pass_lock pass.old).base (pass_number pass.old) (pass_mine pass.old) r.0 ≡ false) }
    ensures within { IfSome result (λ r. r.0 < length (pass_lock pass.new).base.holders) }
    ensures kept { (index : ℕ) → holds (pass_lock pass.old).base (pass_number pass.old)
        (pass_mine pass.old) index ≡ true
        → holds (pass_lock pass.new).base (pass_number pass.new) (pass_mine pass.new) index ≡ true }
    ensures blank { IfSome result
        (λ r. T.blank (pass_lock pass.new).base.volume (pass_lock pass.new).base.blocks r.1) }
{
    let mut turn = lock.enter(rt, pass);
    let taken = turn.value.take();
    match taken {
        Some((index, item)) => {
            lock.leave_as(turn, pass, &[TOOK, u64::from(index)]);
            Some((index, item))
        }
        None => {
            lock.leave_as(turn, pass, &[TOOK_NONE]);
            None
        }
    }
}

/// One turn, in which the pass gives an item back whose index it holds.
pub fn give_item<R: Wait, T: Blank>(
    rt: &R,
    lock: &TurnLock<Pool<T>>,
    pass: &mut Pass<Pool<T>>,
    index: u32,
    item: T,
)
    requires own { IsPassOf lock.now pass.old }
    requires free { IsFree pass.old }
    requires holds { holds (pass_lock pass.old).base (pass_number pass.old) (pass_mine pass.old)
        index ≡ true }
    requires blank { T.blank (pass_lock pass.old).base.volume (pass_lock pass.old).base.blocks item }
    ensures same { IsSamePass pass.old pass.new }
    ensures free { IsFree pass.new }
    ensures mine { pass_mine pass.new
        ≡ pass_mine pass.old ++ (pass_number pass.old, operation_of (Gave index)) ∷ [] }
    ensures seen { (before : List Entry) × Begins (pass_seen pass.old) before
        × (pass_seen pass.new ≡ before ++ (pass_number pass.old, operation_of (Gave index)) ∷ []) }
    ensures legal { ArePoolUses (pass_lock pass.new).base.holders (uses_of (pass_seen pass.new)) }
    ensures kept { (i : ℕ) → i ≢ index → holds (pass_lock pass.old).base (pass_number pass.old)
        (pass_mine pass.old) i ≡ true
        → holds (pass_lock pass.new).base (pass_number pass.new) (pass_mine pass.new) i ≡ true }
{
    let mut turn = lock.enter(rt, pass);
    turn.value.give(index, item);
    lock.leave_as(turn, pass, &[GAVE, u64::from(index)]);
}
