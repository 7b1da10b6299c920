// Which record has each block: for every block that a record keeps, the version of the newest one that keeps
// it, and how many keep it.
ghost use Rattle.block_cells.specs.Cells.{is_held, keepers_of, version_in, one_covers, covering, take_one};
ghost use Rattle.block_cells.specs.Masks.{in_mask};
ghost use Rattle.std.specs.HashMap.{get, spare};
ghost use Rattle.std.specs.List.{list_any, range_with_len};
ghost use Rattle.std.specs.Prelude.{◌≡◌, ◌<◌, ◌≤◌, ◌^◌, ◌+◌, ◌==◌, ◌&&◌, ◌||◌, nat_eq, nat_lt, ℕ, is_some, true, false, if◌then◌else◌};
ghost use Rattle.wol_model.specs.Log.{has_bit};

use crate::mask::has;
use crate::record::Rec;
use std::collections::HashMap;

/// What is known of a block that a record keeps.
#[derive(Clone, Copy)]
pub struct Cell {
    /// The version of the newest record that keeps the block.
    pub version: u64,
    /// How many records keep it, at least one.
    pub keepers: u64,
}

/// The mask, with bit i where `on`.
pub fn with_bit(mask: u128, i: u32, on: bool) -> u128
    requires { i < 128 }
    ensures { (j : ℕ) → has_bit result j ≡ (has_bit mask j || (on && j == i)) }
{
    if on { mask | 1 << i } else { mask }
}

/// What is known of the block, if a record keeps it. Where no block is kept none is hashed.
pub fn newest_of(blocks: &HashMap<u64, Cell>, lbn: u64) -> Option<Cell>
    ensures { result ≡ get nat_eq blocks.now lbn }
{
    if blocks.is_empty() {
        return None;
    }
    blocks.get(&lbn).copied()
}

/// Whether the newest record of a block is that of this version, and the only one if `alone`.
pub fn holds(known: Option<Cell>, version: u64, alone: bool) -> bool
    ensures { result ≡ is_held version alone known }
{
    match known {
        Some(cell) => cell.version == version && (!alone || cell.keepers == 1),
        None => false,
    }
}

/// The blocks of which the record of this version is the newest, and the only one if `alone`.
pub fn held(blocks: &HashMap<u64, Cell>, one: &Rec, alone: bool) -> u128
    requires count { one.now.count ≤ 128 }
    requires within { one.now.lbn + one.now.count ≤ 2 ^ 32 }
    ensures { (i : ℕ) → has_bit result i
        ≡ (nat_lt i one.now.count
        && is_held one.now.version alone (get nat_eq blocks.now (one.now.lbn + i))) }
{
    let mut mask = 0;
    for i in 0..one.count {
        let known = newest_of(blocks, one.lbn + u64::from(i));
        mask = with_bit(mask, i, holds(known, one.version, alone));
    }
    mask
}

/// The blocks of which the record of this version is the newest, and those of which it is the only one.
pub fn held_both(blocks: &HashMap<u64, Cell>, one: &Rec) -> (u128, u128)
    requires count { one.now.count ≤ 128 }
    requires within { one.now.lbn + one.now.count ≤ 2 ^ 32 }
    ensures live { (i : ℕ) → has_bit result.0 i
        ≡ (nat_lt i one.now.count
        && is_held one.now.version false (get nat_eq blocks.now (one.now.lbn + i))) }
    ensures alone { (i : ℕ) → has_bit result.1 i
        ≡ (nat_lt i one.now.count
        && is_held one.now.version true (get nat_eq blocks.now (one.now.lbn + i))) }
{
    let mut live = 0;
    let mut alone = 0;
    for i in 0..one.count {
        let known = newest_of(blocks, one.lbn + u64::from(i));
        live = with_bit(live, i, holds(known, one.version, false));
        alone = with_bit(alone, i, holds(known, one.version, true));
    }
    (live, alone)
}

// The version of the newest record that keeps the block.
fn version_at(blocks: &HashMap<u64, Cell>, lbn: u64) -> Option<u64>
    ensures { result ≡ version_in (get nat_eq blocks.now lbn) }
{
    match newest_of(blocks, lbn) {
        Some(cell) => Some(cell.version),
        None => None,
    }
}

/// How many blocks from this one on, at most `most`, have the newest record that it has.
pub fn run_length(blocks: &HashMap<u64, Cell>, lbn: u64, most: usize) -> usize
    requires some { 1 ≤ most }
    requires fits { lbn + most < 2 ^ 64 }
    ensures same { (b : ℕ) → lbn ≤ b → b < lbn + result
        → version_in (get nat_eq blocks.now b) ≡ version_in (get nat_eq blocks.now lbn) }
    ensures some { 1 ≤ result }
    ensures most { result ≤ most }
{
    let version = version_at(blocks, lbn);
    for count in 1..most {
        if version_at(blocks, lbn + count as u64) != version {
            return count;
        }
    }
    most
}

/// Whether a record keeps a block of the range.
pub fn any_covered(blocks: &HashMap<u64, Cell>, lbn: u64, count: u32) -> bool
    requires { lbn ≤ 2 ^ 32 }
    ensures { result
        ≡ list_any (λ b. is_some (get nat_eq blocks.now b)) (range_with_len lbn count) }
{
    for i in 0..count {
        if newest_of(blocks, lbn + u64::from(i)).is_some() {
            return true;
        }
    }
    false
}

// A record of this version, which is above all others, keeps the block too, if one does. Answers whether one did.
fn cover_again(blocks: &mut HashMap<u64, Cell>, lbn: u64, version: u64) -> bool
    requires { keepers_of (get nat_eq blocks.old lbn) + 1 < 2 ^ 64 }
    ensures cells { result ≡ true → (b : ℕ) → get nat_eq blocks.new b
        ≡ (if b == lbn then one_covers version (get nat_eq blocks.old b)
        else get nat_eq blocks.old b) }
    ensures none { result ≡ false → get nat_eq blocks.old lbn ≡ None }
    ensures same { result ≡ false → (b : ℕ) → get nat_eq blocks.new b ≡ get nat_eq blocks.old b }
    ensures spare { spare blocks.old ≤ spare blocks.new }
{
    let Some(cell) = blocks.get_mut(&lbn) else {
        return false;
    };
    cell.version = version;
    cell.keepers += 1;
    true
}

// A record of this version, which is above all others, keeps the block too: as the only one where it is `fresh`.
fn cover_one(blocks: &mut HashMap<u64, Cell>, lbn: u64, version: u64, fresh: bool)
    requires spare { 0 < spare blocks.old }
    requires few { keepers_of (get nat_eq blocks.old lbn) + 1 < 2 ^ 64 }
    requires fresh { fresh ≡ true → get nat_eq blocks.old lbn ≡ None }
    ensures cells { (b : ℕ) → get nat_eq blocks.new b
        ≡ (if b == lbn then one_covers version (get nat_eq blocks.old b)
        else get nat_eq blocks.old b) }
    ensures spare { spare blocks.old ≤ spare blocks.new + 1 }
{
    if !fresh && cover_again(blocks, lbn, version) {
        return;
    }
    let keepers = 1;
    let _ = blocks.insert(lbn, Cell { version, keepers });
}

// Block i of a record, if the record keeps it.
fn cover_bit(blocks: &mut HashMap<u64, Cell>, one: &Rec, i: u32, fresh: bool)
    requires spare { 0 < spare blocks.old }
    requires few { keepers_of (get nat_eq blocks.old (one.now.lbn + i)) + 1 < 2 ^ 64 }
    requires within { one.now.lbn + i < 2 ^ 32 }
    requires bit { i < 128 }
    requires fresh { fresh ≡ true → has_bit one.now.keep i ≡ true
        → get nat_eq blocks.old (one.now.lbn + i) ≡ None }
    ensures cells { (b : ℕ) → get nat_eq blocks.new b
        ≡ (if has_bit one.now.keep i && (b == one.now.lbn + i)
        then one_covers one.now.version (get nat_eq blocks.old b) else get nat_eq blocks.old b) }
    ensures spare { spare blocks.old ≤ spare blocks.new + 1 }
{
    if one.keep >> i & 1 == 1 {
        cover_one(blocks, one.lbn + u64::from(i), one.version, fresh);
    }
}

/// A record, which is newer than all others, keeps blocks: those of a `fresh` one are kept by no other.
pub fn cover(blocks: &mut HashMap<u64, Cell>, one: &Rec, fresh: bool)
    requires spare { one.now.count ≤ spare blocks.old }
    requires few { (b : ℕ) → keepers_of (get nat_eq blocks.old b) + 1 < 2 ^ 64 }
    requires count { one.now.count ≤ 128 }
    requires within { one.now.lbn + one.now.count ≤ 2 ^ 32 }
    requires keep_within { one.now.keep < 2 ^ one.now.count }
    requires fresh { fresh ≡ true → (b : ℕ) → in_mask one.now.lbn one.now.keep b ≡ true
        → get nat_eq blocks.old b ≡ None }
    ensures cells { (b : ℕ)
        → get nat_eq blocks.new b ≡ covering one.now b (get nat_eq blocks.old b) }
    ensures spare { spare blocks.old ≤ spare blocks.new + one.now.count }
{
    for i in 0..one.count {
        cover_bit(blocks, one, i, fresh);
    }
}

// A record keeps the block no more, if it is one of several. Answers whether it was.
fn lower_one(blocks: &mut HashMap<u64, Cell>, lbn: u64) -> bool
    ensures cells { result ≡ true → (b : ℕ) → get nat_eq blocks.new b
        ≡ (if b == lbn then take_one (get nat_eq blocks.old b) else get nat_eq blocks.old b) }
    ensures few { result ≡ false → keepers_of (get nat_eq blocks.old lbn) ≤ 1 }
    ensures same { result ≡ false → (b : ℕ) → get nat_eq blocks.new b ≡ get nat_eq blocks.old b }
    ensures spare { spare blocks.old ≤ spare blocks.new }
{
    let Some(cell) = blocks.get_mut(&lbn) else {
        return false;
    };
    if cell.keepers <= 1 {
        return false;
    }
    cell.keepers -= 1;
    true
}

// A record keeps the block no more: the only one that did where it is `alone`.
fn uncover_one(blocks: &mut HashMap<u64, Cell>, lbn: u64, alone: bool)
    requires alone { alone ≡ true → keepers_of (get nat_eq blocks.old lbn) ≤ 1 }
    ensures cells { (b : ℕ) → get nat_eq blocks.new b
        ≡ (if b == lbn then take_one (get nat_eq blocks.old b) else get nat_eq blocks.old b) }
    ensures spare { spare blocks.old ≤ spare blocks.new }
{
    if !alone && lower_one(blocks, lbn) {
        return;
    }
    blocks.remove(&lbn);
}

// Bit i of a mask of blocks that a record keeps no more.
fn uncover_bit(blocks: &mut HashMap<u64, Cell>, first: u64, mask: u128, alone: u128, i: u32)
    requires within { first + i < 2 ^ 64 }
    requires bit { i < 128 }
    requires alone { has_bit alone i ≡ true → has_bit mask i ≡ true
        → keepers_of (get nat_eq blocks.old (first + i)) ≤ 1 }
    ensures cells { (b : ℕ) → get nat_eq blocks.new b
        ≡ (if has_bit mask i && (b == first + i) then take_one (get nat_eq blocks.old b)
        else get nat_eq blocks.old b) }
    ensures spare { spare blocks.old ≤ spare blocks.new }
{
    if has(mask, i) {
        uncover_one(blocks, first + u64::from(i), has(alone, i));
    }
}

/// A record keeps the blocks of the mask no more. Those of them that are in `alone` no other record keeps.
pub fn uncover(blocks: &mut HashMap<u64, Cell>, first: u64, count: u32, mask: u128, alone: u128)
    requires count { count ≤ 128 }
    requires within { first + count ≤ 2 ^ 32 }
    requires mask { mask < 2 ^ count }
    requires alone { (i : ℕ) → has_bit alone i ≡ true → has_bit mask i ≡ true
        → keepers_of (get nat_eq blocks.old (first + i)) ≤ 1 }
    ensures cells { (b : ℕ) → get nat_eq blocks.new b
        ≡ (if in_mask first mask b then take_one (get nat_eq blocks.old b)
        else get nat_eq blocks.old b) }
    ensures spare { spare blocks.old ≤ spare blocks.new }
{
    for i in 0..count {
        uncover_bit(blocks, first, mask, alone, i);
    }
}
