// Which blocks of a record may go, and which are due.
ghost use Rattle.block_cells.specs.Masks.{IsMask};
ghost use Rattle.redirect_map.specs.Index.{entry_at, HasVersion};
ghost use Rattle.std.specs.List.{AllByRecursion};
ghost use Rattle.std.specs.Prelude.{◌≡◌, ◌⊎◌, ◌+◌, ◌<◌, ◌≤◌, ◌↔◌, ℕ, true, IfSome};
ghost use Rattle.wol_model.specs.Index.{listed_in, cover_of, goes, has_going, is_due, has_due};

use redirect_map::Index;

/// The blocks of this version's record that may be given up: those that it keeps and that a newer record
/// keeps too, or that are home while no older record keeps them. Bit i is block i of the record.
///
/// Giving up a block that an older record keeps would bring the older content back, so such a block stays
/// until the older record gave it up.
pub fn may_go(index: &Index, version: u64) -> u128
    requires { HasVersion index.now.entries version }
    ensures value { IfSome (entry_at index.now.entries version)
        (λ e. IsMask e.listed.first (goes (listed_in index.now.entries) e.listed) result) }

    ensures some { IfSome (entry_at index.now.entries version)
        (λ e. (0 < result) ↔ (has_going (listed_in index.now.entries) e.listed ≡ true)) }

    // Of a record below all others each kept block may go or is due.
    ensures least { AllByRecursion (λ d. version ≤ d.listed.version) index.now.entries
        → IfSome (entry_at index.now.entries version)
        (λ e. (b : ℕ) → (cover_of e.listed).covers b ≡ true
        → (goes (listed_in index.now.entries) e.listed b ≡ true)
        ⊎ (is_due (listed_in index.now.entries) e.listed b ≡ true)) }
{
    index.going(version)
}

/// The blocks of this version's record that are due: live and not home yet. Bit i is block i of the record.
pub fn due(index: &Index, version: u64) -> u128
    requires { HasVersion index.now.entries version }
    ensures value { IfSome (entry_at index.now.entries version)
        (λ e. IsMask e.listed.first (is_due (listed_in index.now.entries) e.listed) result) }
    ensures some { IfSome (entry_at index.now.entries version)
        (λ e. (0 < result) ↔ (has_due (listed_in index.now.entries) e.listed ≡ true)) }
{
    index.live(version) & !index.homed(version)
}
