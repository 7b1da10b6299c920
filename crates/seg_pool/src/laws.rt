// The laws of pools, as clauses of functions without a body.
ghost use Rattle.seg_pool.specs.Holders.{holder};
ghost use Rattle.seg_pool.specs.Laws.{OperationsDiffer, HoldsAfterUse, HeldByOwnEntries};
ghost use Rattle.seg_pool.specs.Pools.{item_at, note_at, base_of};
ghost use Rattle.seg_pool.specs.declared.base.Holder.TheVariants.{InPool, HeldBy};
ghost use Rattle.seg_pool.specs.declared.pool.Pool.{Pool};
ghost use Rattle.std.specs.Prelude.{◌≡◌, ℕ, Some};

use crate::Blank;

/// What follows from a pool's entries, by the definitions alone.
pub fn pool_laws()
    ensures operations { OperationsDiffer }
    ensures holds { HoldsAfterUse }
    ensures own { HeldByOwnEntries }
{}

/// What the base of a pool's lock says: a noted index is held by its pass, and an item is in the pool.
pub fn opening_laws<T: Blank>()
    ensures notes { (p : Pool T) (index pass : ℕ) → note_at p index ≡ Some pass
        → holder (base_of p).holders index ≡ HeldBy pass }
    ensures items { (p : Pool T) (index : ℕ) (item : T) → item_at p index ≡ Some item
        → holder (base_of p).holders index ≡ InPool }
{}
