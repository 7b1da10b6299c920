// Marks of versions.
ghost use Rattle.std.specs.List.{count_by};
ghost use Rattle.std.specs.Prelude.{◌≡◌, ◌<◌, ◌≤◌, ◌+◌, ◌==◌, ◌&&◌, ℕ, length, not, nat_lt, slice_index, bit_and, OnOk, OnErr, IfOk, ◌^◌, IfSome, IfNone, if◌then◌else◌, false};
ghost use Rattle.redirect_map.specs.Marks.{mask_in, AreApart, mask_of};
ghost use Rattle.wol_model.specs.Index.{AreRising};

use crate::tree::{first_leaf, set_leaf};
use std::alloc::Global;
use std::marker::Model;
use wol_disk::NoMemory;

// The greatest number of versions for which room is made.
const MOST: usize = 1 << 40;

/// Versions that are marked, each with a mask of 128 bits. A version whose mask is 0 is not there.
///
/// Contracts see the mask of each version, and for how many more versions there is room.
#[derive(Drop)]
pub struct VersionMarks {
    // They rise. Some may have the mask 0: they are there no more.
    versions: Vec<u64>,
    // The tree. Its leaves are the masks of the versions.
    nodes: Vec<u128>,
    alloc: Global,
}

impl Model for VersionMarks {
    ghost use Rattle.std.specs.Prelude.{◌-◌, ◌/◌, min, length, drop};
    ghost use Rattle.std.specs.Vec.{vec_len, vec_capacity};
    ghost use Rattle.redirect_map.specs.Marks.{Contents, IsTree};

    ghost Value = { Contents };

    ghost view = { λ a. record {
      versions = a.versions.items;
      masks = drop (length a.nodes.items / 2) a.nodes.items;
      room = min (vec_capacity a.versions) (length a.nodes.items / 2) - vec_len a.versions;
    } };

    ghost invariant = { λ a. IsTree a.versions.items a.nodes.items };
}

// How many versions are lesser.
fn below(versions: &[u64], version: u64) -> usize
    requires { AreRising versions.now }
    ensures within { result ≤ length versions.now }
    ensures low { (k : ℕ) → k < result → slice_index versions.now k < version }
    ensures high { (k : ℕ) → result ≤ k → k < length versions.now
        → version ≤ slice_index versions.now k }
{
    if version == 0 {
        return 0;
    }
    let count = versions.len();
    if count > 0 && versions[count - 1] < version {
        return count;
    }
    versions.partition_point(|other| *other < version)
}

// The place of a version in a list in which no number is missing before it.
fn likely_place(versions: &[u64], version: u64) -> usize {
    if versions.is_empty() {
        return 0;
    }
    version.saturating_sub(versions[0]) as usize
}

// The place of a version, if it is in the list.
fn place_of(versions: &[u64], version: u64) -> Option<usize>
    requires { AreRising versions.now }
    ensures found { IfSome result
        (λ k. (k < length versions.now) × (slice_index versions.now k ≡ version)) }
    ensures none { IfNone result
        ((k : ℕ) → k < length versions.now → slice_index versions.now k ≡ version → ⊥) }
{
    let likely = likely_place(versions, version);
    if likely < versions.len() && versions[likely] == version {
        return Some(likely);
    }
    let place = below(versions, version);
    if place < versions.len() && versions[place] == version {
        Some(place)
    } else {
        None
    }
}

// Marks each version of the list whose mask isn't 0.
fn mark_all(marks: &mut VersionMarks, versions: &[u64], masks: &[u128])
    requires rising { AreRising versions.now }
    requires masks { length masks.now ≡ length versions.now }
    requires none { (v : ℕ) → mask_of marks.old v ≡ 0 }
    requires room { count_by (λ m. not (m == 0)) masks.now ≤ marks.old.room }
    ensures masks { (v : ℕ) → mask_of marks.new v ≡ mask_in versions.now masks.now v }
    ensures room { marks.old.room ≤ marks.new.room + count_by (λ m. not (m == 0)) masks.now }
{
    for place in 0..versions.len() {
        if masks[place] != 0 {
            marks.push(versions[place], masks[place]);
        }
    }
}

// How many masks aren't 0.
fn present(masks: &[u128]) -> usize
    ensures { result ≡ count_by (λ m. not (m == 0)) masks.now }
{
    masks.iter().filter(|mask| **mask != 0).count()
}

impl VersionMarks {
    // No version is marked, and there is room for so many.
    fn with_room(alloc: Global, size: usize) -> Result<VersionMarks, NoMemory>
        requires { size < 2 ^ 42 }
        ensures none { IfOk result (λ marks. (v : ℕ) → mask_of marks v ≡ 0) }
        ensures room { IfOk result (λ marks. marks.room ≡ size) }
    {
        Ok(VersionMarks {
            versions: Vec::with_capacity(alloc, size)?,
            nodes: vec![in alloc; 0; 2 * size]?,
            alloc,
        })
    }

    /// No version is marked, and there is room for none.
    pub fn new(alloc: Global) -> VersionMarks
        ensures { (v : ℕ) → mask_of result v ≡ 0 }
    {
        VersionMarks {
            versions: Vec::new(alloc),
            nodes: Vec::new(alloc),
            alloc,
        }
    }

    /// Makes room for `more` versions, counting the room that is there. This is the one call that takes memory;
    /// after want of memory all is as it was.
    pub fn reserve(&mut self, more: u32) -> Result<(), NoMemory>
        ensures ok { OnOk result (more ≤ self.new.room) }
        ensures err { OnErr result (self.old.room < more) }
        ensures room { self.old.room ≤ self.new.room }
        ensures masks { (v : ℕ) → mask_of self.new v ≡ mask_of self.old v }
    {
        let size = self.nodes.len() / 2;
        let count = self.versions.len();
        let ready = size.min(self.versions.capacity()) - count;
        if more as usize <= ready {
            return Ok(());
        }
        let masks = &self.nodes[size..size + count];
        let needed = present(masks) + more as usize;
        if needed > MOST {
            return Err(NoMemory);
        }
        let mut roomy = VersionMarks::with_room(self.alloc, 2 * needed)?;
        mark_all(&mut roomy, &self.versions, masks);
        *self = roomy;
        Ok(())
    }

    /// The mask of a version, 0 where it isn't there.
    pub fn get(&self, version: u64) -> u128
        ensures { result ≡ mask_of self.now version }
    {
        match place_of(&self.versions, version) {
            Some(place) => self.nodes[self.nodes.len() / 2 + place],
            None => 0,
        }
    }

    /// Gives a version that is there this mask. With 0 it is there no more.
    pub fn set(&mut self, version: u64, mask: u128)
        ensures masks { (v : ℕ) → mask_of self.new v
            ≡ (if v == version && not (mask_of self.old v == 0) then mask else mask_of self.old v) }
        ensures room { self.new.room ≡ self.old.room }
    {
        if self.get(version) == 0 {
            return;
        }
        if let Some(place) = place_of(&self.versions, version) {
            set_leaf(&mut self.nodes, place, mask);
        }
    }

    /// Marks a further version, above which none is there then.
    pub fn push(&mut self, version: u64, mask: u128)
        requires { 0 < self.old.room }
        ensures masks { (v : ℕ) → mask_of self.new v
            ≡ (if v == version then mask else if nat_lt v version then mask_of self.old v else 0) }
        ensures room { self.old.room ≤ self.new.room + 1 }
    {
        let place = below(&self.versions, version);
        self.versions.truncate(place);
        self.versions.push_reserved(version);
        set_leaf(&mut self.nodes, place, mask);
    }

    /// Whether a version may have a bit of `wanted`: false only where none has.
    pub fn may_have(&self, wanted: u128) -> bool
        ensures { result ≡ false → (v : ℕ) → AreApart (mask_of self.now v) wanted }
    {
        self.nodes.len() > 1 && self.nodes[1] & wanted != 0
    }

    /// The least version from `from` on whose mask has a bit of `wanted`, and none where there is none.
    pub fn first(&self, from: u64, wanted: u128) -> Option<u64>
        ensures found { IfSome result
            (λ v. (from ≤ v) × (bit_and (mask_of self.now v) wanted ≡ 0 → ⊥)) }
        ensures least { IfSome result
            (λ v. (w : ℕ) → from ≤ w → w < v → AreApart (mask_of self.now w) wanted) }
        ensures none { IfNone result ((w : ℕ) → from ≤ w → AreApart (mask_of self.now w) wanted) }
    {
        let size = self.nodes.len() / 2;
        let leaf = first_leaf(&self.nodes, size + below(&self.versions, from), wanted);
        let place = leaf - size;
        if place < self.versions.len() {
            Some(self.versions[place])
        } else {
            None
        }
    }
}
