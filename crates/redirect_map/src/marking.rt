// Marks of records that may have a due block, or one that goes, by version.
ghost use Rattle.block_cells.specs.Cells.{keepers_of, version_in};
ghost use Rattle.block_cells.specs.Masks.{in_mask};
ghost use Rattle.redirect_map.specs.Cells.{AreTabled};
ghost use Rattle.redirect_map.specs.Kept.{IsInRange, AreEntries, NoneHomed};
ghost use Rattle.redirect_map.specs.Marked.{there_bit, lane_bit, is_home, begins, IsMarked, AreMarked, AreThere, AreBegun, KeepsBits, IsMarkedUnder, StaysMarked};
ghost use Rattle.std.specs.HashMap.{get};
ghost use Rattle.std.specs.Prelude.{◌≡◌, ◌<◌, ◌≤◌, ◌^◌, ◌+◌, ◌%◌, ℕ, Bool, true, false, nat_eq, slice_index_or, Some, ◌==◌, ◌&&◌, ◌||◌};
ghost use Rattle.redirect_map.specs.Marks.{mask_of};
ghost use Rattle.wol_model.specs.Log.{has_bit};

use crate::entry::Entry;
use crate::going::{Sought, any_sought};
use crate::list::Entries;
use crate::marks::VersionMarks;
use block_cells::{Cell, Rec, moved, newest_of, with_bit};
use std::collections::HashMap;

// How many lanes have bits of their own.
const LANES: usize = 63;
// The bit of a record that is there.
const THERE: u32 = 126;

// The bit of a lane's records that may have a block that goes, or a due one.
fn lane_bit(sought: Sought, lane: usize) -> u32
    ensures value { result ≡ lane_bit sought lane }
    ensures low { result < 126 }
{
    let rest = (lane % LANES) as u32;
    match sought {
        Sought::Due => rest,
        Sought::Going => 63 + rest,
    }
}

// The mask of a record that is there.
fn record_mask(lane: u32, due: bool, going: bool) -> u128
    ensures there { has_bit result there_bit ≡ true }
    ensures due { due ≡ true → has_bit result (lane_bit Sought.Due lane) ≡ true }
    ensures going { going ≡ true → has_bit result (lane_bit Sought.Going lane) ≡ true }
{
    let there = with_bit(0, THERE, true);
    let mask = with_bit(there, lane_bit(Sought::Due, lane as usize), due);
    with_bit(mask, lane_bit(Sought::Going, lane as usize), going)
}

// The mask of a record that was added just now: all its blocks are due.
pub fn new_mask(lane: u32) -> u128
    ensures there { has_bit result there_bit ≡ true }
    ensures due { has_bit result (lane_bit Sought.Due lane) ≡ true }
{
    record_mask(lane, true, false)
}

// The mask of a record, by its blocks.
pub fn exact_mask(blocks: &HashMap<u64, Cell>, entry: &Entry) -> u128
    requires { IsInRange entry.now }
    ensures { IsMarked (get nat_eq blocks.now) result entry.now }
{
    let due = any_sought(blocks, entry, Sought::Due);
    let going = any_sought(blocks, entry, Sought::Going);
    record_mask(entry.record.lane, due, going)
}

// Whether the newer record keeps all blocks that this one keeps.
fn is_under(one: &Rec, newer: &Rec) -> bool
    ensures { result ≡ true → (b : ℕ) → in_mask one.now.lbn one.now.keep b ≡ true
        → in_mask newer.now.lbn newer.now.keep b ≡ true }
{
    one.keep & !moved(newer.keep, newer.lbn, one.lbn) == 0
}

// The same mask, where a record was added that is the newest of all its blocks. Where it keeps all blocks of this one none of
// them is due, and they need no look.
fn mask_under(blocks: &HashMap<u64, Cell>, entry: &Entry, newer: &Rec) -> u128
    requires entry { IsInRange entry.now }
    requires newer { (b : ℕ) → in_mask newer.now.lbn newer.now.keep b ≡ true
        → version_in (get nat_eq blocks.now b) ≡ Some newer.now.version }
    ensures { IsMarked (get nat_eq blocks.now) result entry.now }
{
    if entry.record.version != newer.version && is_under(&entry.record, newer) {
        return record_mask(entry.record.lane, false, true);
    }
    exact_mask(blocks, entry)
}

// Whether the block is home in this record.
fn has_home(entry: &Entry, lbn: u64) -> bool
    ensures { result ≡ is_home entry.now lbn }
{
    moved(entry.homed, entry.record.lbn, lbn) & 1 == 1
}

// Marks the record of this version, of this lane, as one that may have a block that goes.
fn mark_going(marks: &mut VersionMarks, version: u64, lane: u32)
    ensures more { KeepsBits marks.old marks.new }
    ensures going { has_bit (mask_of marks.old version) there_bit ≡ true
        → has_bit (mask_of marks.new version) (lane_bit Sought.Going lane) ≡ true }
    ensures room { marks.new.room ≡ marks.old.room }
{
    let old = marks.get(version);
    let mask = with_bit(old, lane_bit(Sought::Going, lane as usize), true);
    if mask == old {
        return;
    }
    marks.set(version, mask);
}

// Whether the block begins to go of its newest record.
fn starts(entry: &Entry, cell: Cell, lbn: u64, covered: bool) -> bool
    ensures { result ≡ (covered || (cell.keepers == 2 && is_home entry.now lbn)) }
{
    covered || (cell.keepers == 2 && has_home(entry, lbn))
}

// Marks the newest record of the block if the block begins to go of it, as a newer record covers it or as the
// one other record that keeps it gives it up.
fn mark_newest(
    marks: &mut VersionMarks,
    entries: &Entries,
    blocks: &HashMap<u64, Cell>,
    lbn: u64,
    covered: bool,
)
    requires entries { AreEntries entries.now.items }
    requires there { AreThere entries.now.items (mask_of marks.old) }
    ensures more { KeepsBits marks.old marks.new }
    ensures begun { AreBegun covered entries.now.items (get nat_eq blocks.now) (mask_of marks.new)
        lbn }
    ensures room { marks.new.room ≡ marks.old.room }
{
    let Some(cell) = newest_of(blocks, lbn) else {
        return;
    };
    if !covered && cell.keepers != 2 {
        return;
    }
    let Some(entry) = entries.get(cell.version) else {
        return;
    };
    if !starts(&entry, cell, lbn, covered) {
        return;
    }
    mark_going(marks, cell.version, entry.record.lane);
}

// The same of bit i of a mask of blocks.
fn mark_bit(
    marks: &mut VersionMarks,
    entries: &Entries,
    blocks: &HashMap<u64, Cell>,
    first: u64,
    mask: u128,
    i: u32,
    covered: bool,
)
    requires entries { AreEntries entries.now.items }
    requires there { AreThere entries.now.items (mask_of marks.old) }
    requires within { first + i < 2 ^ 64 }
    requires bit { i < 128 }
    ensures more { KeepsBits marks.old marks.new }
    ensures begun { has_bit mask i ≡ true
        → AreBegun covered entries.now.items (get nat_eq blocks.now) (mask_of marks.new) (first + i) }
    ensures room { marks.new.room ≡ marks.old.room }
{
    if mask >> i & 1 == 1 {
        mark_newest(marks, entries, blocks, first + u64::from(i), covered);
    }
}

// The same of all blocks of a mask.
pub fn mark_blocks(
    marks: &mut VersionMarks,
    entries: &Entries,
    blocks: &HashMap<u64, Cell>,
    first: u64,
    count: u32,
    mask: u128,
    covered: bool,
)
    requires entries { AreEntries entries.now.items }
    requires there { AreThere entries.now.items (mask_of marks.old) }
    requires count { count ≤ 128 }
    requires within { first + count ≤ 2 ^ 32 }
    requires mask { mask < 2 ^ count }
    ensures more { KeepsBits marks.old marks.new }
    ensures begun { (b : ℕ) → in_mask first mask b ≡ true
        → AreBegun covered entries.now.items (get nat_eq blocks.now) (mask_of marks.new) b }
    ensures room { marks.new.room ≡ marks.old.room }
{
    for i in 0..count {
        mark_bit(marks, entries, blocks, first, mask, i, covered);
    }
}

// The same of the blocks of a mask that a record gives up. Where no record has a homed block none begins to go, and none
// of those in `alone` does, which no other record keeps.
pub fn mark_given_up(
    homes: bool,
    marks: &mut VersionMarks,
    entries: &Entries,
    blocks: &HashMap<u64, Cell>,
    one: &Rec,
    mask: u128,
    alone: u128,
)
    requires homes { homes ≡ false → NoneHomed entries.now.items }
    requires entries { AreEntries entries.now.items }
    requires there { AreThere entries.now.items (mask_of marks.old) }
    requires count { one.now.count ≤ 128 }
    requires within { one.now.lbn + one.now.count ≤ 2 ^ 32 }
    requires mask { mask < 2 ^ one.now.count }
    requires alone { (i : ℕ) → has_bit alone i ≡ true → has_bit mask i ≡ true
        → keepers_of (get nat_eq blocks.now (one.now.lbn + i)) ≤ 1 }
    ensures more { KeepsBits marks.old marks.new }
    ensures begun { (b : ℕ) → in_mask one.now.lbn mask b ≡ true
        → AreBegun false entries.now.items (get nat_eq blocks.now) (mask_of marks.new) b }
    ensures room { marks.new.room ≡ marks.old.room }
{
    if !homes {
        return;
    }
    mark_blocks(
        marks,
        entries,
        blocks,
        one.lbn,
        one.count,
        mask & !alone,
        false,
    );
}

// The versions of the newest records of the record's blocks, in order, and 0 where no record keeps one. No proof
// rests on them: their marks are made exact, and those of any others may be.
pub fn newest_versions(blocks: &HashMap<u64, Cell>, one: &Rec) -> [u64; 128]
    requires count { one.now.count ≤ 128 }
    requires within { one.now.lbn + one.now.count ≤ 2 ^ 32 }
{
    let mut versions = [0; 128];
    for i in 0..one.count {
        if let Some(cell) = newest_of(blocks, one.lbn + u64::from(i)) {
            versions[i as usize] = cell.version;
        }
    }
    versions
}

// Makes the marks of this version exact, if there is such a record, after the newer one was added.
fn mark_exactly(
    marks: &mut VersionMarks,
    entries: &Entries,
    blocks: &HashMap<u64, Cell>,
    newer: &Rec,
    version: u64,
)
    requires { IsMarkedUnder newer.now entries.now.items (get nat_eq blocks.now)
        (mask_of marks.old) }
    ensures { StaysMarked entries.now.items (get nat_eq blocks.now) marks.old marks.new }
{
    let Some(entry) = entries.get(version) else {
        return;
    };
    marks.set(version, mask_under(blocks, &entry, newer));
}

// The same, unless this version was the last one.
fn mark_next(
    marks: &mut VersionMarks,
    entries: &Entries,
    blocks: &HashMap<u64, Cell>,
    newer: &Rec,
    last: u64,
    version: u64,
)
    requires { IsMarkedUnder newer.now entries.now.items (get nat_eq blocks.now)
        (mask_of marks.old) }
    ensures { StaysMarked entries.now.items (get nat_eq blocks.now) marks.old marks.new }
{
    if version != last {
        mark_exactly(marks, entries, blocks, newer, version);
    }
}

// Makes the marks of these versions exact, after the newer record was added, which is the newest of all its blocks. Equal
// versions in a row are looked at once.
pub fn mark_all_exactly(
    marks: &mut VersionMarks,
    entries: &Entries,
    blocks: &HashMap<u64, Cell>,
    newer: &Rec,
    versions: &[u64],
)
    requires { IsMarkedUnder newer.now entries.now.items (get nat_eq blocks.now)
        (mask_of marks.old) }
    ensures { StaysMarked entries.now.items (get nat_eq blocks.now) marks.old marks.new }
{
    let mut last = 0;
    for version in versions {
        mark_next(marks, entries, blocks, newer, last, *version);
        last = *version;
    }
}

// The mask, with bit i where `on`.
fn with_rest(mask: u64, i: u32, on: bool) -> u64
    requires { i < 64 }
    ensures { (j : ℕ) → has_bit result j ≡ (has_bit mask j || (on && j == i)) }
{
    if on { mask | 1 << i } else { mask }
}

// The rest of the next lane, by the rest of a lane.
fn next_rest(rest: u32) -> u32
    requires { rest < 63 }
    ensures { (lane : ℕ) → rest ≡ lane % 63 → result ≡ (lane + 1) % 63 }
{
    if rest == 62 { 0 } else { rest + 1 }
}

// The bits of the lanes that are true in the list. Those of due records are the low ones.
pub fn lanes_mask(lanes: &[bool], sought: Sought) -> u128
    ensures { (lane : ℕ) → slice_index_or lanes.now lane false ≡ true
        → has_bit result (lane_bit sought lane) ≡ true }
{
    let mut mask = 0;
    let mut rest = 0;
    for on in lanes {
        mask = with_rest(mask, rest, *on);
        rest = next_rest(rest);
    }
    let low = u128::from(mask);
    match sought {
        Sought::Due => low,
        Sought::Going => low << 63,
    }
}

// The bits of all lanes.
pub fn all_lanes(sought: Sought) -> u128
    ensures { (lane : ℕ) → has_bit result (lane_bit sought lane) ≡ true }
{
    let low = u128::from(u64::MAX >> 1);
    match sought {
        Sought::Due => low,
        Sought::Going => low << 63,
    }
}
