// The index of a volume's records.
ghost use Rattle.block_cells.specs.Masks.{IsMask};
ghost use Rattle.block_cells.specs.Runs.{runs_of};
ghost use Rattle.redirect_map.specs.Index.{cover_at, entry_at, HasVersion, entry_of, IsRecordOf, IsAnswer, changed, unhomed, with_homed, given_up, CanAdd, IsAdded, IsIndex, has_sought, PassesOverNone};
ghost use Rattle.std.specs.List.{list_any, range_with_len, AllByRecursion};
ghost use Rattle.std.specs.Option.{ForSome};
ghost use Rattle.std.specs.Prelude.{◌≡◌, ◌<◌, ◌≤◌, ◌^◌, ◌+◌, ◌==◌, ℕ, true, not, ◌&&◌, length, map, filter, slice_get, ◌++◌, ◌∷◌, [], OnOk, OnErr, IfSome, IfNone, false, slice_index_or};
ghost use Rattle.wol_model.specs.Extents.{newest};
ghost use Rattle.wol_model.specs.Index.{listed_in, is_covered, is_live, is_older, is_homed, goes, keeps_a_block};
ghost use Rattle.wol_model.specs.Log.{has_bit, marks_of};

use crate::entry::{Entry, unhome, with_homes};
use crate::going::{Sought, all_going, any_sought};
use crate::list::Entries;
use crate::marking::{
    all_lanes, exact_mask, lanes_mask, mark_all_exactly, mark_blocks, mark_given_up, new_mask,
    newest_versions,
};
use crate::marks::VersionMarks;
use block_cells::{Cell, Rec, any_covered, cover, held, held_both, newest_of, run_length, uncover};
use std::alloc::Global;
use std::collections::HashMap;
use std::marker::Model;
use wol_disk::NoMemory;

/// The records of a volume by rising version, each with the blocks that it keeps and those of them that are
/// home. Contracts see that list, and the number of runs of kept blocks for which room is reserved.
///
/// A block of a record is live where the record keeps it and no newer record does. Only live blocks are homed.
#[derive(Drop)]
pub struct Index {
    entries: Entries,
    // For each block that a record keeps, the newest one that does, and how many do.
    blocks: HashMap<u64, Cell>,
    // The versions of which something may be due or may go.
    marks: VersionMarks,
    // Whether a record may have a homed block: false until the first one is noted.
    homes: bool,
}

impl Model for Index {
    ghost use Rattle.redirect_map.specs.Cells.{AreTabled};
    ghost use Rattle.redirect_map.specs.Index.{Contents};
    ghost use Rattle.redirect_map.specs.Kept.{seen, AreEntries, NoneHomed};
    ghost use Rattle.redirect_map.specs.Marked.{AreMarked};
    ghost use Rattle.std.specs.HashMap.{get, spare};
    ghost use Rattle.std.specs.Prelude.{◌≡◌, ◌-◌, ◌/◌, min, map, nat_eq, false};
    ghost use Rattle.redirect_map.specs.Marks.{mask_of};

    ghost Value = { Contents };

    ghost view = { λ a. record { entries = map seen a.entries.items; reserved = min (min a.entries.room (spare a.blocks / 128)) a.marks.room } };

    ghost invariant = { λ a. AreEntries a.entries.items × AreTabled a.entries.items a.blocks
        × AreMarked a.entries.items (get nat_eq a.blocks) (mask_of a.marks)
        × (a.homes ≡ false → NoneHomed a.entries.items) };
}

impl Index {
    /// An index without records.
    pub fn new(alloc: Global) -> Index
        ensures { result.entries ≡ [] }
    {
        Index {
            entries: Entries::new(alloc),
            blocks: HashMap::new(alloc),
            marks: VersionMarks::new(alloc),
            homes: false,
        }
    }

    /// Makes room for records with `more` runs of kept blocks in all, counting the room that is there. This
    /// is the one call that takes memory; after want of memory the index is as it was.
    pub fn reserve(&mut self, more: u32) -> Result<(), NoMemory>
        ensures ok { OnOk result (more ≤ self.new.reserved) }
        ensures err { OnErr result (self.old.reserved < more) }
        ensures room { self.old.reserved ≤ self.new.reserved }
        ensures unchanged { self.new.entries ≡ self.old.entries }
    {
        self.entries.reserve(more as usize)?;
        self.blocks.reserve(more as usize * 128)?;
        self.marks.reserve(more)?;
        Ok(())
    }

    /// Adds a record whose version is above all others. It takes one reserved place for each run of kept
    /// blocks. The blocks that it keeps are homed no more in older records.
    pub fn add(&mut self, entry: Rec)
        requires newest { AllByRecursion (λ e. e.listed.version < entry.version) self.old.entries }
        requires some { 1 ≤ entry.count }
        requires count { entry.count ≤ 128 }
        requires within { entry.lbn + entry.count ≤ 2 ^ 32 }
        requires keeps { 0 < entry.keep }
        requires keep_within { entry.keep < 2 ^ entry.count }
        requires reserved { runs_of (marks_of entry.count entry.keep) ≤ self.old.reserved }

        ensures entries { self.new.entries
            ≡ map (unhomed (cover_at (entry_of entry 0))) self.old.entries
            ++ entry_of entry 0 ∷ [] }
        ensures room { self.old.reserved
            ≤ self.new.reserved + runs_of (marks_of entry.count entry.keep) }
    {
        if self.covered(entry.lbn, entry.count) {
            self.add_over(entry);
        } else {
            self.add_apart(entry);
        }
    }

    // The same, where older records may keep blocks of it.
    fn add_over(&mut self, entry: Rec)
        requires { CanAdd self.old entry }
        ensures { IsAdded self.old self.new entry }
    {
        let covered = newest_versions(&self.blocks, &entry);
        mark_blocks(
            &mut self.marks,
            &self.entries,
            &self.blocks,
            entry.lbn,
            entry.count,
            entry.keep,
            true,
        );
        self.marks.push(entry.version, new_mask(entry.lane));
        unhome(self.homes, &mut self.entries, &self.blocks, &entry);
        self.entries.push(Entry {
            record: entry,
            homed: 0,
        });
        cover(&mut self.blocks, &entry, false);
        mark_all_exactly(
            &mut self.marks,
            &self.entries,
            &self.blocks,
            &entry,
            &covered[..entry.count as usize],
        );
    }

    // The same, where no other record keeps a block of its range: all marks stay, and nothing is homed no more.
    fn add_apart(&mut self, entry: Rec)
        requires can { CanAdd self.old entry }
        requires apart { list_any (is_covered (listed_in self.old.entries))
            (range_with_len entry.lbn entry.count) ≡ false }
        ensures { IsAdded self.old self.new entry }
    {
        self.marks.push(entry.version, new_mask(entry.lane));
        self.entries.push(Entry {
            record: entry,
            homed: 0,
        });
        cover(&mut self.blocks, &entry, true);
    }

    /// The newest record that covers the block, and none where no record covers it.
    pub fn newest(&self, lbn: u64) -> Option<Rec>
        ensures { IsAnswer (newest cover_at self.now.entries lbn) result }
    {
        let cell = newest_of(&self.blocks, lbn)?;
        let entry = self.entries.get(cell.version)?;
        Some(entry.record)
    }

    /// The newest record that covers the block, as `newest` answers it, and how many blocks from it on, at most `most`,
    /// have that answer.
    pub fn newest_run(&self, lbn: u64, most: usize) -> (Option<Rec>, usize)
        requires some { 1 ≤ most }
        requires fits { lbn + most < 2 ^ 64 }
        ensures run { (b : ℕ) → lbn ≤ b → b < lbn + result.1
            → IsAnswer (newest cover_at self.now.entries b) result.0 }
        ensures some { 1 ≤ result.1 }
        ensures most { result.1 ≤ most }
    {
        if self.is_empty() {
            return (None, most);
        }
        (self.newest(lbn), run_length(&self.blocks, lbn, most))
    }

    /// Whether a record covers at least one block of the range.
    pub fn covered(&self, lbn: u64, count: u32) -> bool
        ensures { result
            ≡ list_any (is_covered (listed_in self.now.entries)) (range_with_len lbn count) }
    {
        if lbn <= 1 << 32 && count as usize <= self.entries.len() {
            any_covered(&self.blocks, lbn, count)
        } else {
            self.entries.any_meets(lbn, count)
        }
    }

    /// The record of this version, and none where there is none.
    pub fn find(&self, version: u64) -> Option<Rec>
        ensures value { IsAnswer (entry_at self.now.entries version) result }
        ensures index { IsIndex self.now.entries }
    {
        let entry = self.entries.get(version)?;
        Some(entry.record)
    }

    /// The live blocks of this version's record.
    pub fn live(&self, version: u64) -> u128
        requires { HasVersion self.now.entries version }
        ensures { IfSome (entry_at self.now.entries version)
            (λ e. IsMask e.listed.first (is_live (listed_in self.now.entries) e.listed) result) }
    {
        let record = self.entries.listed(version).record;

        // All blocks of the only record are live.
        if self.entries.len() == 1 {
            return record.keep;
        }
        held(&self.blocks, &record, false)
    }

    /// The live blocks of this version's record that no older record keeps.
    pub fn alone(&self, version: u64) -> u128
        requires { HasVersion self.now.entries version }
        ensures { IfSome (entry_at self.now.entries version)
            (λ e. IsMask e.listed.first
            (λ b. is_live (listed_in self.now.entries) e.listed b
            && not (is_older (listed_in self.now.entries) e.listed b)) result) }
    {
        let record = self.entries.listed(version).record;
        held(&self.blocks, &record, true)
    }

    /// The kept blocks of this version's record that an older record keeps too.
    pub fn older(&self, version: u64) -> u128
        requires { HasVersion self.now.entries version }
        ensures { IfSome (entry_at self.now.entries version)
            (λ e. IsMask e.listed.first (is_older (listed_in self.now.entries) e.listed) result) }
    {
        let one = self.entries.listed(version).record;
        let (live, alone) = held_both(&self.blocks, &one);
        if one.keep & !live == 0 {
            return one.keep & !alone;
        }
        one.keep & self.entries.kept_before(version, one.lbn)
    }

    /// The homed blocks of this version's record: those of its live blocks that are noted to be home.
    pub fn homed(&self, version: u64) -> u128
        requires { HasVersion self.now.entries version }
        ensures value { IfSome (entry_at self.now.entries version)
            (λ e. IsMask e.listed.first (is_homed e.listed) result) }
        ensures live { IfSome (entry_at self.now.entries version)
            (λ e. (i : ℕ) → has_bit result i ≡ true
            → is_live (listed_in self.now.entries) e.listed (e.listed.first + i) ≡ true) }
    {
        self.entries.listed(version).homed
    }

    /// Whether a block of this version's record is one that is sought.
    pub fn has(&self, version: u64, sought: Sought) -> bool
        requires { HasVersion self.now.entries version }
        ensures { IfSome (entry_at self.now.entries version)
            (λ e. result ≡ has_sought sought (listed_in self.now.entries) e.listed) }
    {
        let entry = self.entries.listed(version);
        any_sought(&self.blocks, &entry, sought)
    }

    /// The blocks of this version's record that may be given up.
    pub fn going(&self, version: u64) -> u128
        requires { HasVersion self.now.entries version }
        ensures { IfSome (entry_at self.now.entries version)
            (λ e. IsMask e.listed.first (goes (listed_in self.now.entries) e.listed) result) }
    {
        let entry = self.entries.listed(version);

        // Of the only record those may go that are home.
        if self.entries.len() == 1 {
            return entry.homed;
        }
        all_going(&self.blocks, &entry)
    }

    /// Notes which blocks of this version's record are home: those of the mask, which are live, and no
    /// others.
    pub fn set_homed(&mut self, version: u64, mask: u128)
        requires there { HasVersion self.old.entries version }
        requires live { ForSome (entry_at self.old.entries version)
            (λ e. (i : ℕ) → has_bit mask i ≡ true
            → is_live (listed_in self.old.entries) e.listed (e.listed.first + i) ≡ true) }

        ensures entries { self.new.entries ≡ changed version (with_homed mask) self.old.entries }
        ensures room { self.new.reserved ≡ self.old.reserved }
    {
        let mut entry = self.entries.listed(version);
        entry.homed = mask;
        self.homes = with_homes(self.homes, mask);
        self.marks.set(version, exact_mask(&self.blocks, &entry));
        self.entries.replace(version, entry);
    }

    /// Gives up the blocks of the mask, which may go, of this version's record. A record that keeps nothing
    /// then is gone from the index. Takes no memory.
    pub fn trim(&mut self, version: u64, mask: u128)
        requires there { HasVersion self.old.entries version }
        requires some { 0 < mask }
        requires goes { ForSome (entry_at self.old.entries version)
            (λ e. (i : ℕ) → has_bit mask i ≡ true
            → goes (listed_in self.old.entries) e.listed (e.listed.first + i) ≡ true) }

        ensures entries { self.new.entries
            ≡ filter (λ e. keeps_a_block e.listed)
            (changed version (given_up mask) self.old.entries) }
        ensures room { self.old.reserved ≤ self.new.reserved }
    {
        let mut entry = self.entries.listed(version);

        // A homed block that goes is kept by no other record.
        let alone = entry.homed;
        mark_given_up(
            self.homes,
            &mut self.marks,
            &self.entries,
            &self.blocks,
            &entry.record,
            mask,
            alone,
        );
        uncover(
            &mut self.blocks,
            entry.record.lbn,
            entry.record.count,
            mask,
            alone,
        );
        entry.record.keep &= !mask;
        entry.homed &= !mask;
        if entry.record.keep == 0 {
            self.marks.set(version, 0);
            self.entries.remove(version);
        } else {
            self.marks.set(version, exact_mask(&self.blocks, &entry));
            self.entries.replace(version, entry);
        }
    }

    /// A version, from `from` on, before which no record from `from` on has a block that is sought on a lane that is
    /// true in the list; and where the answer is none no record from `from` on has one. Whether there is a record of
    /// this version, and whether it has one, is for the caller to see.
    pub fn first(&self, from: u64, lanes: &[bool], sought: Sought) -> Option<u64>
        ensures { PassesOverNone sought lanes.now self.now.entries from result }
    {
        if !self.marks.may_have(all_lanes(sought)) {
            return None;
        }
        self.marks.first(from, lanes_mask(lanes, sought))
    }

    /// `first` for due blocks.
    pub fn first_due(&self, from: u64, lanes: &[bool]) -> Option<u64>
        ensures { PassesOverNone Sought.Due lanes.now self.now.entries from result }
    {
        self.first(from, lanes, Sought::Due)
    }

    /// `first` for blocks that may be given up.
    pub fn first_going(&self, from: u64, lanes: &[bool]) -> Option<u64>
        ensures { PassesOverNone Sought.Going lanes.now self.now.entries from result }
    {
        self.first(from, lanes, Sought::Going)
    }

    /// How many records there are.
    pub fn len(&self) -> u64
        ensures value { result ≡ length self.now.entries }
        ensures index { IsIndex self.now.entries }
    {
        self.entries.len() as u64
    }

    /// Whether there is no record.
    pub fn is_empty(&self) -> bool
        ensures { result ≡ (length self.now.entries == 0) }
    {
        self.entries.len() == 0
    }

    /// The record at this place of the list, which begins at 0.
    pub fn at(&self, place: u64) -> Rec
        requires { place < length self.now.entries }
        ensures { IfSome (slice_get self.now.entries place) (λ e. IsRecordOf e result) }
    {
        self.entries.at(place as usize).record
    }
}
