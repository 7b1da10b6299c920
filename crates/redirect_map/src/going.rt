// Which blocks of an entry are due, and which may go.
ghost use Rattle.block_cells.specs.Cells.{is_held};
ghost use Rattle.redirect_map.specs.Kept.{IsInRange};
ghost use Rattle.redirect_map.specs.Marked.{is_due_of, goes_of, sought_of};
ghost use Rattle.std.specs.HashMap.{get};
ghost use Rattle.std.specs.List.{list_any, range_with_len};
ghost use Rattle.std.specs.Prelude.{◌≡◌, ◌<◌, ◌≤◌, ◌^◌, ◌+◌, ◌&&◌, ◌||◌, not, nat_eq, nat_lt, ℕ, true, false};
ghost use Rattle.wol_model.specs.Log.{has_bit};

use crate::entry::Entry;
use block_cells::{Cell, has, holds, newest_of, with_bit};
use std::collections::HashMap;

/// What is looked for in records.
#[derive(Clone, Copy)]
pub enum Sought {
    /// Blocks that are due: live and not home yet.
    Due,
    /// Blocks that may be given up.
    Going,
}

// Whether block i of the entry is due. Of a block that it doesn't keep, or that is home, nothing is looked up.
fn due_bit(blocks: &HashMap<u64, Cell>, entry: &Entry, i: u32) -> bool
    requires bit { i < 128 }
    requires within { entry.now.record.lbn + i < 2 ^ 64 }
    ensures { result ≡ is_due_of entry.now (entry.now.record.lbn + i)
        (get nat_eq blocks.now (entry.now.record.lbn + i)) }
{
    if !has(entry.record.keep & !entry.homed, i) {
        return false;
    }
    let known = newest_of(blocks, entry.record.lbn + u64::from(i));
    holds(known, entry.record.version, false)
}

// Whether a kept block of a record goes: a newer record keeps it too, or it is home and no older one keeps it.
fn is_free(known: Option<Cell>, version: u64, home: bool) -> bool
    ensures { result ≡ (not (is_held version false known) || (home && is_held version true known)) }
{
    !holds(known, version, false) || (home && holds(known, version, true))
}

// Whether block i of the entry may go.
fn going_bit(blocks: &HashMap<u64, Cell>, entry: &Entry, i: u32) -> bool
    requires bit { i < 128 }
    requires within { entry.now.record.lbn + i < 2 ^ 64 }
    ensures { result ≡ goes_of entry.now (entry.now.record.lbn + i)
        (get nat_eq blocks.now (entry.now.record.lbn + i)) }
{
    if !has(entry.record.keep, i) {
        return false;
    }
    let known = newest_of(blocks, entry.record.lbn + u64::from(i));
    is_free(known, entry.record.version, has(entry.homed, i))
}

// Whether block i of the entry is one that is sought.
fn sought_bit(blocks: &HashMap<u64, Cell>, entry: &Entry, i: u32, sought: Sought) -> bool
    requires bit { i < 128 }
    requires within { entry.now.record.lbn + i < 2 ^ 64 }
    ensures { result ≡ sought_of sought entry.now (entry.now.record.lbn + i)
        (get nat_eq blocks.now (entry.now.record.lbn + i)) }
{
    match sought {
        Sought::Due => due_bit(blocks, entry, i),
        Sought::Going => going_bit(blocks, entry, i),
    }
}

// Whether a block of the entry is one that is sought. The first one tells.
pub fn any_sought(blocks: &HashMap<u64, Cell>, entry: &Entry, sought: Sought) -> bool
    requires { IsInRange entry.now }
    ensures { result ≡ list_any (λ b. sought_of sought entry.now b (get nat_eq blocks.now b))
        (range_with_len entry.now.record.lbn entry.now.record.count) }
{
    for i in 0..entry.record.count {
        if sought_bit(blocks, entry, i, sought) {
            return true;
        }
    }
    false
}

// The blocks of the entry that may go.
pub fn all_going(blocks: &HashMap<u64, Cell>, entry: &Entry) -> u128
    requires { IsInRange entry.now }
    ensures { (i : ℕ) → has_bit result i
        ≡ (nat_lt i entry.now.record.count
        && goes_of entry.now (entry.now.record.lbn + i)
        (get nat_eq blocks.now (entry.now.record.lbn + i))) }
{
    let mut mask = 0;
    for i in 0..entry.record.count {
        mask = with_bit(mask, i, going_bit(blocks, entry, i));
    }
    mask
}
