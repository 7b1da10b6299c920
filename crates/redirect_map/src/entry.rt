// A record of the index with its homed blocks, and lists of these.
ghost use Rattle.redirect_map.specs.Cells.{AreTabled};
ghost use Rattle.redirect_map.specs.Kept.{is_version, keeps, IsKept, IsUnhomed, IsWithout, AreEntries, NoneHomed};
ghost use Rattle.std.specs.List.Sorted.{IsPartitionPoint};
ghost use Rattle.std.specs.List.{AllZip, list_any, range_with_len};
ghost use Rattle.std.specs.Prelude.{◌≡◌, ◌<◌, ◌≤◌, ◌^◌, ◌+◌, ◌-◌, take, drop, ◌==◌, ◌&&◌, true, false, nat_lt, IfSome, IfNone, IsSome, None, find, slice_get, length, map};
ghost use Rattle.wol_model.specs.Index.{AreRising};
ghost use Rattle.wol_model.specs.Log.{has_bit};

use crate::list::Entries;
use block_cells::{Cell, Rec, moved, newest_of};
use std::collections::{HashMap, VecDeque};

#[derive(Clone, Copy)]
pub struct Entry {
    pub record: Rec,
    // Bit i is block `lbn + i` of the record.
    pub homed: u128,
}

// How many entries have lesser versions.
fn below(entries: &VecDeque<Entry>, version: u64) -> usize
    requires { AreRising (map (λ e. e.record.version) entries.now.items) }
    ensures within { result ≤ length entries.now.items }
    ensures parted { IsPartitionPoint (λ e. nat_lt e.record.version version ≡ true)
        (λ e. nat_lt e.record.version version ≡ false) entries.now.items result }
{
    entries.partition_point(|entry| entry.record.version < version)
}

// The place, if this version has it.
fn if_at(entries: &VecDeque<Entry>, place: usize, version: u64) -> Option<usize>
    requires { AreRising (map (λ e. e.record.version) entries.now.items) }
    ensures { IfSome result (λ k. (k < length entries.now.items)
        × (find (is_version version) entries.now.items ≡ slice_get entries.now.items k)) }
{
    if place < entries.len() && entries[place].record.version == version {
        Some(place)
    } else {
        None
    }
}

// The place of this version, if it is there, by halving.
fn searched(entries: &VecDeque<Entry>, version: u64) -> Option<usize>
    requires { AreRising (map (λ e. e.record.version) entries.now.items) }
    ensures found { IfSome result (λ k.
        (k < length entries.now.items)
        × (find (is_version version) entries.now.items ≡ slice_get entries.now.items k)) }
    ensures none { IfNone result (find (is_version version) entries.now.items ≡ None) }
{
    let place = below(entries, version);
    if place < entries.len() && entries[place].record.version == version {
        Some(place)
    } else {
        None
    }
}

// The place of this version in a list in which no number is missing before it.
fn likely_place(entries: &VecDeque<Entry>, version: u64) -> usize {
    if entries.is_empty() {
        return 0;
    }
    version.saturating_sub(entries[0].record.version) as usize
}

// The place of this version, if it is there. It is looked for first where it stands if no number is missing.
fn position_of(entries: &VecDeque<Entry>, version: u64) -> Option<usize>
    requires { AreRising (map (λ e. e.record.version) entries.now.items) }
    ensures found { IfSome result (λ k.
        (k < length entries.now.items)
        × (find (is_version version) entries.now.items ≡ slice_get entries.now.items k)) }
    ensures none { IfNone result (find (is_version version) entries.now.items ≡ None) }
{
    if let Some(place) = if_at(entries, likely_place(entries, version), version) {
        return Some(place);
    }
    searched(entries, version)
}

// The place of this version.
pub fn place_of(entries: &VecDeque<Entry>, version: u64) -> usize
    requires rising { AreRising (map (λ e. e.record.version) entries.now.items) }
    requires there { IsSome (find (is_version version) entries.now.items) }
    ensures within { result < length entries.now.items }
    ensures found { find (is_version version) entries.now.items
        ≡ slice_get entries.now.items result }
{
    position_of(entries, version).unwrap()
}

// The entry of this version, if it is there.
pub fn with_version(entries: &VecDeque<Entry>, version: u64) -> Option<Entry>
    requires { AreRising (map (λ e. e.record.version) entries.now.items) }
    ensures { result ≡ find (is_version version) entries.now.items }
{
    let place = position_of(entries, version)?;
    Some(entries[place])
}

// Whether an entry keeps a block of the range.
pub fn any_meets(entries: &VecDeque<Entry>, lbn: u64, count: u32) -> bool
    ensures { result
        ≡ list_any (λ e. list_any (keeps e) (range_with_len lbn count)) entries.now.items }
{
    entries.iter().any(|entry| entry.record.meets(lbn, count))
}

// Where the newest entry that keeps the block has it homed, it is homed no more.
fn unhome_block(entries: &mut Entries, blocks: &HashMap<u64, Cell>, lbn: u64)
    requires entries { AreEntries entries.old.items }
    requires cells { AreTabled entries.old.items blocks.now }
    ensures zip { AllZip (IsWithout (λ b. b == lbn)) entries.old.items entries.new.items }
    ensures room { entries.new.room ≡ entries.old.room }
{
    let Some(cell) = newest_of(blocks, lbn) else {
        return;
    };
    let Some(mut entry) = entries.get(cell.version) else {
        return;
    };
    let bit = lbn - entry.record.lbn;
    entry.homed &= !(1 << bit);
    entries.replace(cell.version, entry);
}

// Bit i of the record, if the record keeps it.
fn unhome_bit(entries: &mut Entries, blocks: &HashMap<u64, Cell>, newer: &Rec, i: u32)
    requires entries { AreEntries entries.old.items }
    requires cells { AreTabled entries.old.items blocks.now }
    requires bit { i < 128 }
    requires within { newer.now.lbn + i < 2 ^ 32 }
    ensures zip { AllZip (IsWithout (λ b. has_bit newer.now.keep i && (b == newer.now.lbn + i)))
        entries.old.items entries.new.items }
    ensures room { entries.new.room ≡ entries.old.room }
{
    if newer.keep >> i & 1 == 1 {
        unhome_block(entries, blocks, newer.lbn + u64::from(i));
    }
}

// Whether a record may have a homed block, once one has those of the mask.
pub fn with_homes(homes: bool, mask: u128) -> bool
    ensures was { result ≡ false → homes ≡ false }
    ensures none { result ≡ false → mask ≡ 0 }
{
    homes || mask != 0
}

// Blocks that the record keeps are homed no more. Where no record has a homed block all stays as it is.
pub fn unhome(homes: bool, entries: &mut Entries, blocks: &HashMap<u64, Cell>, newer: &Rec)
    requires homes { homes ≡ false → NoneHomed entries.old.items }
    requires entries { AreEntries entries.old.items }
    requires cells { AreTabled entries.old.items blocks.now }
    requires count { newer.now.count ≤ 128 }
    requires within { newer.now.lbn + newer.now.count ≤ 2 ^ 32 }
    requires keep_within { newer.now.keep < 2 ^ newer.now.count }
    ensures zip { AllZip (IsUnhomed newer.now) entries.old.items entries.new.items }
    ensures none { homes ≡ false → NoneHomed entries.new.items }
    ensures room { entries.new.room ≡ entries.old.room }
{
    if !homes {
        return;
    }
    unhome_blocks(entries, blocks, newer);
}

// Blocks that the record keeps are homed no more.
fn unhome_blocks(entries: &mut Entries, blocks: &HashMap<u64, Cell>, newer: &Rec)
    requires entries { AreEntries entries.old.items }
    requires cells { AreTabled entries.old.items blocks.now }
    requires count { newer.now.count ≤ 128 }
    requires within { newer.now.lbn + newer.now.count ≤ 2 ^ 32 }
    requires keep_within { newer.now.keep < 2 ^ newer.now.count }
    ensures zip { AllZip (IsUnhomed newer.now) entries.old.items entries.new.items }
    ensures room { entries.new.room ≡ entries.old.room }
{
    for i in 0..newer.count {
        unhome_bit(entries, blocks, newer, i);
    }
}

// The blocks that the entries from one place on, before another, keep, as a mask that begins at `lbn`.
pub fn kept_from(entries: &VecDeque<Entry>, from: usize, to: usize, lbn: u64) -> u128
    requires order { from ≤ to }
    requires within { to ≤ length entries.now.items }
    ensures { IsKept lbn (take (to - from) (drop from entries.now.items)) result }
{
    let mut kept = 0;
    for place in from..to {
        let entry = entries[place];
        kept |= moved(entry.record.keep, entry.record.lbn, lbn);
    }
    kept
}
