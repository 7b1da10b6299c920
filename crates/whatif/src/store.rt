// What a volume has in logs: how many blocks its records keep, and the segments in which they lie.
ghost use Rattle.std.specs.List.{AllByRecursion, filter, list_any};
ghost use Rattle.std.specs.Prelude.{◌≡◌, ◌==◌, ◌<◌, ◌≤◌, ◌+◌, ◌*◌, ◌^◌, ◌++◌, ◌∷◌, [], ℕ, List, length, map, nat_le, not, position, IfOk, OnOk, if◌then◌else◌};
ghost use Rattle.whatif.specs.Logs.{Files, Gives, cleared, filed, filing, first_store, giving, has_record, if_some, moved, new_segment, taking};
ghost use Rattle.whatif.specs.Logs as logs;
ghost use Rattle.whatif.specs.Volumes.{IsStore, segment_in, shelf_in, store_in};

use std::alloc::Global;
use wol_disk::NoMemory;

/// A segment of a log.
#[derive(Drop)]
pub(crate) struct Segment {
    /// The blocks left in it.
    pub left: u32,
    /// The versions of the records in it.
    pub records: Vec<u64>,
}

/// What a volume has on one disk.
#[derive(Drop)]
pub(crate) struct Shelf {
    /// The blocks that its records keep.
    pub kept: u128,
    pub segments: Vec<Segment>,
}

/// What a volume has on all disks.
#[derive(Drop)]
pub(crate) struct Store {
    pub alloc: Global,
    /// The blocks of a segment.
    pub whole: u32,
    /// The blocks that its records keep.
    pub kept: u128,
    /// By the numbers of the disks.
    pub shelves: Vec<Shelf>,
}

/// What a record gives up.
#[derive(Clone, Copy)]
pub(crate) struct Given {
    /// The disk on which it lies.
    pub disk: u32,
    pub version: u64,
    /// How many blocks.
    pub blocks: u32,
    /// Whether it keeps none.
    pub gone: bool,
}

// Whether a segment has as many blocks left.
fn has_room(segment: &Segment, size: u32) -> bool
    ensures { result ≡ nat_le size segment.now.left }
{
    size <= segment.left
}

// Whether a segment has this record.
fn has_record(segment: &Segment, version: u64) -> bool
    ensures { result ≡ has_record version (segment_in segment.now) }
{
    segment.records.contains(&version)
}

impl Segment {
    // A segment of which this record takes so many blocks.
    fn new(alloc: Global, whole: u32, size: u32, version: u64) -> Result<Segment, NoMemory>
        ensures { IfOk result (λ s. segment_in s ≡ taking size version (new_segment whole)) }
    {
        let mut records = Vec::new(alloc);
        records.push(version)?;
        Ok(Segment {
            left: whole.saturating_sub(1).saturating_sub(size),
            records,
        })
    }

    // A record takes so many blocks.
    fn take(&mut self, size: u32, version: u64) -> Result<(), NoMemory>
        ensures { OnOk result (segment_in self.new ≡ taking size version (segment_in self.old)) }
    {
        self.records.push(version)?;
        self.left = self.left.saturating_sub(size);
        Ok(())
    }

    // A record leaves. Answers whether it was the last one.
    fn leave(&mut self, version: u64) -> bool
        ensures last { result ≡ (length self.new.records.items == 0) }
        ensures left { self.new.left ≡ self.old.left }
        ensures records { self.new.records.items
            ≡ filter (λ r. not (r == version)) self.old.records.items }
    {
        self.records.retain(|record| *record != version);
        self.records.is_empty()
    }
}

// The first segment that has as many blocks left.
fn with_room(segments: &[Segment], size: u32) -> Option<usize>
    ensures { result ≡ position (λ s. nat_le size s.left) segments.now }
{
    segments.iter().position(|segment| has_room(segment, size))
}

// The first segment that has this record.
fn with_record(segments: &[Segment], version: u64) -> Option<usize>
    ensures { result ≡ position (λ s. has_record version (segment_in s)) segments.now }
{
    segments
        .iter()
        .position(|segment| has_record(segment, version))
}

// The record goes into the first segment with as many blocks left, or a new one.
fn file(
    segments: &mut Vec<Segment>,
    alloc: Global,
    whole: u32,
    size: u32,
    version: u64,
) -> Result<(), NoMemory>
    ensures { OnOk result (map segment_in segments.new.items
        ≡ filed whole size version (map segment_in segments.old.items)) }
{
    let Some(at) = with_room(segments.as_slice(), size) else {
        let segment = Segment::new(alloc, whole, size, version)?;
        segments.push(segment)?;
        return Ok(());
    };
    segments[at].take(size, version)
}

// The record leaves its segment, and with its last record the segment is gone.
fn clear(segments: &mut Vec<Segment>, version: u64)
    ensures { map segment_in segments.new.items
        ≡ cleared version (map segment_in segments.old.items) }
{
    let Some(at) = with_record(segments.as_slice(), version) else {
        return;
    };
    if segments[at].leave(version) {
        segments.remove(at);
    }
}

// .. where it keeps no block.
fn clear_if(segments: &mut Vec<Segment>, gone: bool, version: u64)
    ensures { map segment_in segments.new.items
        ≡ (if gone then cleared version (map segment_in segments.old.items)
        else map segment_in segments.old.items) }
{
    if gone {
        clear(segments, version);
    }
}

impl Shelf {
    // A record of so many blocks comes.
    fn file(&mut self, alloc: Global, whole: u32, count: u32, version: u64) -> Result<(), NoMemory>
        requires room { count ≤ 128 }
        requires few { self.old.kept + count < 2 ^ 128 }
        ensures filed { OnOk result
            (shelf_in self.new ≡ filing whole count version (shelf_in self.old)) }
        ensures kept { OnOk result (self.new.kept ≡ self.old.kept + count) }
    {
        file(&mut self.segments, alloc, whole, count + 1, version)?;
        self.kept += u128::from(count);
        Ok(())
    }

    // A record gives up blocks.
    fn give(&mut self, given: &Given)
        ensures given { shelf_in self.new ≡ giving given.now (shelf_in self.old) }
        ensures kept { self.new.kept ≤ self.old.kept }
    {
        self.kept = self.kept.saturating_sub(u128::from(given.blocks));
        clear_if(&mut self.segments, given.gone, given.version);
    }
}

impl Store {
    /// Nothing in logs, on so many disks. A segment has `whole` blocks.
    pub(crate) fn new(alloc: Global, disks: usize, whole: u32) -> Result<Store, NoMemory>
        ensures count { IfOk result (λ s. length s.shelves.items ≡ disks) }
        ensures none { IfOk result (λ s. (s.kept ≡ 0)
            × AllByRecursion (λ h. h.kept ≡ 0) s.shelves.items) }
        ensures first { IfOk result (λ s. store_in s ≡ first_store whole) }
    {
        let mut shelves = Vec::new(alloc);
        for _ in 0..disks {
            shelves.push(Shelf {
                kept: 0,
                segments: Vec::new(alloc),
            })?;
        }
        Ok(Store {
            alloc,
            whole,
            kept: 0,
            shelves,
        })
    }

    /// A record of so many blocks comes to a disk.
    pub(crate) fn file(&mut self, disk: u32, version: u64, count: u32) -> Result<(), NoMemory>
        requires within { disk < length self.old.shelves.items }
        requires few { self.old.kept + count < 2 ^ 128 }
        requires each { AllByRecursion (λ h. h.kept + count < 2 ^ 128) self.old.shelves.items }
        requires count { count ≤ 128 }
        ensures moved { OnOk result
            (store_in self.new ≡ moved (Files disk version count) (store_in self.old)) }
        ensures more { OnOk result ((n : ℕ) (loggers : List ℕ) → IsStore n loggers self.old
            → IsStore (n + 1) loggers self.new) }
    {
        self.shelves[disk as usize].file(self.alloc, self.whole, count, version)?;
        self.kept += u128::from(count);
        Ok(())
    }

    /// A record gives up blocks.
    pub(crate) fn give(&mut self, given: &Given)
        ensures moved { store_in self.new ≡ moved (Gives given.now) (store_in self.old) }
        ensures kept { (n : ℕ) (loggers : List ℕ) → IsStore n loggers self.old
            → IsStore n loggers self.new }
    {
        self.kept = self.kept.saturating_sub(u128::from(given.blocks));
        if let Some(shelf) = self.shelves.get_mut(given.disk as usize) {
            shelf.give(given);
        }
    }

    /// The blocks that it keeps on a disk.
    pub(crate) fn kept_on(&self, disk: u32) -> u128
        ensures value { result ≡ ((store_in self.now).shelf disk).kept }
        ensures few { (n : ℕ) (loggers : List ℕ) → IsStore n loggers self.now → result ≤ 128 * n }
    {
        match self.shelves.get(disk as usize) {
            Some(shelf) => shelf.kept,
            None => 0,
        }
    }

    /// How many segments it has on a disk.
    pub(crate) fn segments_on(&self, disk: u32) -> u64
        ensures { result ≡ length ((store_in self.now).shelf disk).segments }
    {
        match self.shelves.get(disk as usize) {
            Some(shelf) => shelf.segments.len() as u64,
            None => 0,
        }
    }
}
