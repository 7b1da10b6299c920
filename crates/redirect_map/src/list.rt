// A list of entries by rising version, with dead places: an entry that is taken out leaves its place behind, which
// keeps nothing, so that no other entry is moved. Where more than half of the places are dead, all these go.
ghost use Rattle.redirect_map.specs.Index.{HasVersion};
ghost use Rattle.redirect_map.specs.Kept.{seen, is_version, keeps, IsKept, IsInRange, AreEntries, IsAt};
ghost use Rattle.redirect_map.specs.Listing.{is_listed, is_dead, place_in, ArePlaces};
ghost use Rattle.std.specs.List.{AllByRecursion, list_any, range_with_len, remove};
ghost use Rattle.std.specs.Prelude.{◌≡◌, ◌<◌, ◌≤◌, ◌+◌, ◌-◌, ◌==◌, ◌^◌, ◌++◌, ◌∷◌, [], ℕ, List, Option, Some, None, OnOk, OnErr, IsSome, IfSome, not, take, drop, map, filter, find, length, slice_get, slice_set, false};
ghost use Rattle.std.specs.VecDeque.{deque_len, deque_capacity};
ghost use Rattle.wol_model.specs.Index.{AreRising};

use crate::entry::{Entry, any_meets, kept_from, place_of, with_version};
use std::alloc::Global;
use std::collections::VecDeque;
use std::marker::Model;
use wol_disk::NoMemory;

/// Entries that each keep a block, by rising version.
#[derive(Drop)]
pub struct Entries {
    // Those that keep nothing are dead.
    places: VecDeque<Entry>,
    dead: usize,
}

impl Model for Entries {
    ghost use Rattle.redirect_map.specs.Listing.{Listing, is_listed, ArePlaces};
    ghost use Rattle.std.specs.Prelude.{◌-◌, filter};
    ghost use Rattle.std.specs.VecDeque.{deque_len, deque_capacity};

    ghost Value = { Listing };

    ghost view = { λ a. record { items = filter is_listed a.places.items; room = deque_capacity a.places - deque_len a.places } };

    ghost invariant = { λ a. ArePlaces a.places.items a.dead };
}

impl Entries {
    /// No entry.
    pub fn new(alloc: Global) -> Entries
        ensures { result.items ≡ [] }
    {
        Entries {
            places: VecDeque::new(alloc),
            dead: 0,
        }
    }

    /// Makes room for `more` entries.
    pub fn reserve(&mut self, more: usize) -> Result<(), NoMemory>
        ensures items { self.new.items ≡ self.old.items }
        ensures room { self.old.room ≤ self.new.room }
        ensures ok { OnOk result (more ≤ self.new.room) }
        ensures err { OnErr result (self.old.room < more) }
    {
        self.places.reserve(more)?;
        Ok(())
    }

    /// How many entries there are.
    pub fn len(&self) -> usize
        ensures { result ≡ length self.now.items }
    {
        self.places.len() - self.dead
    }

    /// The entry of this version.
    pub fn get(&self, version: u64) -> Option<Entry>
        ensures { result ≡ find (is_version version) self.now.items }
    {
        let entry = with_version(&self.places, version)?;
        if entry.record.keep == 0 {
            return None;
        }
        Some(entry)
    }

    /// The entry of this version, which is there.
    pub fn listed(&self, version: u64) -> Entry
        requires entries { AreEntries self.now.items }
        requires there { HasVersion (map seen self.now.items) version }
        ensures at { IsAt self.now.items version (place_in version self.now.items) result }
        ensures range { IsInRange result }
    {
        self.get(version).unwrap()
    }

    /// Puts the entry in place of that of this version, which it has too.
    pub fn replace(&mut self, version: u64, entry: Entry)
        requires there { IsSome (find (is_version version) self.old.items) }
        requires same { entry.record.version ≡ version }
        requires keeps { 0 < entry.record.keep }
        ensures items { self.new.items
            ≡ slice_set self.old.items (place_in version self.old.items) entry }
        ensures room { self.new.room ≡ self.old.room }
    {
        let place = place_of(&self.places, version);
        self.places[place] = entry;
    }

    /// Adds an entry whose version is above all others.
    pub fn push(&mut self, entry: Entry)
        requires newest { AllByRecursion (λ e. e.record.version < entry.record.version)
            self.old.items }
        requires keeps { 0 < entry.record.keep }
        requires room { 0 < self.old.room }
        ensures items { self.new.items ≡ self.old.items ++ entry ∷ [] }
        ensures few { length self.new.items < 2 ^ 63 }
        ensures room { self.old.room ≤ self.new.room + 1 }
    {
        let popped = drop_last(&mut self.places);
        self.dead -= popped;
        self.places.push_back_reserved(entry);
    }

    /// Takes out the entry of this version.
    pub fn remove(&mut self, version: u64)
        requires { IsSome (find (is_version version) self.old.items) }
        ensures items { self.new.items ≡ remove self.old.items (place_in version self.old.items) }
        ensures room { self.old.room ≤ self.new.room }
    {
        let place = place_of(&self.places, version);
        self.places[place].record.keep = 0;
        self.dead += 1;
        self.tidy();
    }

    // Lets dead places go where they are last, or more than half.
    fn tidy(&mut self)
        ensures items { self.new.items ≡ self.old.items }
        ensures room { self.old.room ≤ self.new.room }
    {
        let popped = drop_last(&mut self.places);
        self.dead -= popped;
        if self.dead > self.places.len() / 2 {
            drop_dead(&mut self.places);
            self.dead = 0;
        }
    }

    /// The entry at this place of the list.
    pub fn at(&self, place: usize) -> Entry
        requires { place < length self.now.items }
        ensures { slice_get self.now.items place ≡ Some result }
    {
        if self.dead == 0 {
            self.places[place]
        } else {
            from_last(&self.places, self.len() - 1 - place)
        }
    }

    /// Whether an entry keeps a block of the range.
    pub fn any_meets(&self, lbn: u64, count: u32) -> bool
        ensures { result
            ≡ list_any (λ e. list_any (keeps e) (range_with_len lbn count)) self.now.items }
    {
        any_meets(&self.places, lbn, count)
    }

    /// The blocks that entries of lesser versions keep, as a mask that begins at `lbn`.
    pub fn kept_before(&self, version: u64, lbn: u64) -> u128
        requires { IsSome (find (is_version version) self.now.items) }
        ensures { IsKept lbn (take (place_in version self.now.items) self.now.items) result }
    {
        let place = place_of(&self.places, version);
        kept_from(&self.places, 0, place, lbn)
    }
}

// Whether the last place is dead.
fn ends_dead(places: &VecDeque<Entry>) -> bool
    ensures { result ≡ is_dead (slice_get places.now.items (length places.now.items - 1)) }
{
    let count = places.len();
    count > 0 && places[count - 1].record.keep == 0
}

// Lets the dead places go that are last, and says how many.
fn drop_last(places: &mut VecDeque<Entry>) -> usize
    ensures items { filter is_listed places.new.items ≡ filter is_listed places.old.items }
    ensures first { places.new.items ≡ take (length places.new.items) places.old.items }
    ensures count { length places.new.items + result ≡ length places.old.items }
    ensures last { is_dead (slice_get places.new.items (length places.new.items - 1)) ≡ false }
    ensures room { deque_capacity places.new ≡ deque_capacity places.old }
{
    let before = places.len();
    while ends_dead(places) {
        places.pop_back();
    }
    before - places.len()
}

// Lets all dead places go.
fn drop_dead(places: &mut VecDeque<Entry>)
    ensures items { places.new.items ≡ filter is_listed places.old.items }
    ensures room { deque_capacity places.new ≡ deque_capacity places.old }
{
    places.retain(|entry| entry.record.keep != 0);
}

// The entry that isn't dead behind which so many others stand.
fn from_last(places: &VecDeque<Entry>, behind: usize) -> Entry
    requires { behind < length (filter is_listed places.now.items) }
    ensures { slice_get (filter is_listed places.now.items)
        (length (filter is_listed places.now.items) - 1 - behind) ≡ Some result }
{
    let mut left = behind;
    let mut place = places.len();
    while place > 0 {
        place -= 1;
        let entry = places[place];
        if entry.record.keep != 0 {
            if left == 0 {
                return entry;
            }
            left -= 1;
        }
    }
    unreachable!()
}
