// A pool of the free segments of one volume.
ghost use Rattle.std.specs.Prelude.{◌≡◌, ◌∷◌, [], ◌++◌, ◌<◌, ◌≤◌, ◌↔◌, ℕ, List, None, Some, MatchOption, IsNone, IfNone, IfSome, IfOk, IsTrue, IsSome, is_some, slice_set, vec_len};

use std::alloc::Global;
use std::mem;
use turn_lock::Object;
use wol_disk::NoMemory;

/// A value that may be blank, of one volume and with a number of blocks, as a free segment is.
pub trait Blank {
    /// That it is blank, of this volume and with this number of blocks.
    ghost blank: { ℕ → ℕ → Self → Type 0 };
}

// What a pool has at one index.
#[derive(Drop)]
enum Slot<T> {
    Empty,
    // The pass with this number was noted to hold the index.
    Noted(u32),
    Free(T),
}

/// The free segments of one volume by their index, and the notes of who held which when the pool's lock was made.
#[derive(Drop)]
pub struct Pool<T> {
    volume: u32,
    blocks: u32,
    room: u32,
    slots: Vec<Slot<T>>,
    ghost sized: { vec_len slots ≡ room },
}

impl<T: Blank> Object for Pool<T> {
    ghost use Rattle.seg_pool.specs.Pools.{StandsFor};

    type Base = crate::PoolBase;

    ghost stands = { StandsFor T.blank };
}

impl<T: Blank> Pool<T> {
    ghost use Rattle.seg_pool.specs.Holders.{Took, Gave, MayUsePool};
    ghost use Rattle.seg_pool.specs.Operations.{operation_of};
    ghost use Rattle.seg_pool.specs.Pools.{volume_of, blocks_of, room_of, item_at, note_at, item_count, IsEmptyPool, IsSamePool, ChangesOnly, StandsFor, base_of, holders_after};
    ghost use Rattle.seg_pool.specs.declared.base.PoolBase.{PoolBase};
    ghost use Rattle.turn_lock.specs.Histories.{Entry};

    /// An empty pool with room for the indexes below `room`, for segments of this volume with this many blocks each.
    pub fn new(alloc: Global, room: u32, volume: u32, blocks: u32) -> Result<Pool<T>, NoMemory>
        ensures room { IfOk result (λ p. room_of p ≡ room) }
        ensures volume { IfOk result (λ p. volume_of p ≡ volume) }
        ensures blocks { IfOk result (λ p. blocks_of p ≡ blocks) }
        ensures empty { IfOk result (λ p. IsEmptyPool p) }
        ensures notes { IfOk result (λ p. (index : ℕ) → note_at p index ≡ None) }
        ensures stands { IfOk result (λ p. StandsFor T.blank p (base_of p) []) }
    {
        let mut slots = Vec::with_capacity(alloc, room as usize)?;
        for _made in 0..room {
            slots.push_reserved(Slot::Empty);
        }
        Ok(Pool {
            volume,
            blocks,
            room,
            slots,
        })
    }

    /// Notes that the pass with this number holds this index. It comes before the pool's lock is made.
    pub fn hold(&mut self, index: u32, pass: u32)
        requires within { index < room_of self.old }
        requires not_free { item_at self.old index ≡ None }
        requires not_noted { note_at self.old index ≡ None }
        ensures same { IsSamePool self.old self.new }
        ensures noted { ChangesOnly self.old self.new index None (Some pass) }
        ensures stands { StandsFor T.blank self.old (base_of self.old) []
            → StandsFor T.blank self.new (base_of self.new) [] }
    {
        self.put(index, Slot::Noted(pass));
    }

    /// Takes the item of the least free index. `None` comes exactly where no item is free.
    pub fn take(&mut self) -> Option<(u32, T)>
        ensures same { IsSamePool self.old self.new }
        ensures none { IsNone result ↔ IsEmptyPool self.old }
        ensures unchanged { IfNone result (self.new ≡ self.old) }
        ensures item { IfSome result (λ r. item_at self.old r.0 ≡ Some r.1) }
        ensures least { IfSome result
            (λ r. (index : ℕ) → index < r.0 → item_at self.old index ≡ None) }
        ensures within { IfSome result (λ r. r.0 < room_of self.old) }
        ensures rest { IfSome result (λ r. ChangesOnly self.old self.new r.0 None None) }
        ensures stands { (b : PoolBase) (es : List Entry) (n : ℕ) → StandsFor T.blank self.old b es
            → MatchOption result (StandsFor T.blank self.new b
            (es ++ (n, operation_of (Took None)) ∷ []))
            (λ r. StandsFor T.blank self.new b (es ++ (n, operation_of (Took (Some r.0))) ∷ [])
            × T.blank b.volume b.blocks r.1) }
    {
        match self.least() {
            Some(index) => Some((index, self.remove(index))),
            None => None,
        }
    }

    /// Takes back a blank item of this index, which was taken or never free.
    pub fn give(&mut self, index: u32, item: T)
        requires within { index < room_of self.old }
        requires not_free { item_at self.old index ≡ None }
        requires blank { T.blank (volume_of self.old) (blocks_of self.old) item }
        ensures same { IsSamePool self.old self.new }
        ensures free { ChangesOnly self.old self.new index (Some item) None }
        ensures opens { StandsFor T.blank self.old (base_of self.old) []
            → StandsFor T.blank self.new (base_of self.new) [] }
        ensures stands { (b : PoolBase) (es : List Entry) (n : ℕ) → StandsFor T.blank self.old b es
            → MayUsePool (holders_after b es) n (Gave index)
            → StandsFor T.blank self.new b (es ++ (n, operation_of (Gave index)) ∷ []) }
    {
        self.put(index, Slot::Free(item));
    }

    /// Ends a pool that has no item.
    pub fn destroy_empty(self)
        requires { IsEmptyPool self }
    {
        let Pool {
            volume: _,
            blocks: _,
            room: _,
            mut slots,
        } = self;
        while let Some(slot) = slots.pop() {
            let (Slot::Empty | Slot::Noted(_)) = slot else {
                unreachable!()
            };
        }
        slots.destroy_empty();
    }

    /// How many items are free.
    pub fn len(&self) -> u32
        ensures { result ≡ item_count self.now }
    {
        let free = self.count();
        prove!(free <= self.room as usize);
        free as u32
    }

    /// Whether no item is free.
    pub fn is_empty(&self) -> bool
        ensures { IsTrue result ↔ IsEmptyPool self.now }
    {
        self.least().is_none()
    }

    fn count(&self) -> usize
        ensures count { result ≡ item_count self.now }
        ensures within { result ≤ room_of self.now }
    {
        self.slots.iter().filter(|slot| slot.is_free()).count()
    }

    // Fills a slot that has no item.
    fn put(&mut self, index: u32, slot: Slot<T>)
        requires within { index < room_of self.old }
        requires not_free { item_at self.old index ≡ None }
        ensures same { IsSamePool self.old self.new }
        ensures rest { self.new.slots.items ≡ slice_set self.old.slots.items index slot }
    {
        let found = mem::replace(&mut self.slots[index as usize], slot);
        let (Slot::Empty | Slot::Noted(_)) = found else {
            unreachable!()
        };
    }

    // Empties a slot that has an item.
    fn remove(&mut self, index: u32) -> T
        requires within { index < room_of self.old }
        requires free { IsSome (item_at self.old index) }
        ensures same { IsSamePool self.old self.new }
        ensures item { item_at self.old index ≡ Some result }
        ensures rest { self.new.slots.items ≡ slice_set self.old.slots.items index Slot.Empty }
    {
        let found = mem::replace(&mut self.slots[index as usize], Slot::Empty);
        let Slot::Free(item) = found else {
            unreachable!()
        };
        item
    }

    // The least free index.
    fn least(&self) -> Option<u32>
        ensures none { IfNone result (IsEmptyPool self.now) }
        ensures within { IfSome result (λ i. i < room_of self.now) }
        ensures free { IfSome result (λ i. IsSome (item_at self.now i)) }
        ensures least { IfSome result (λ i. (index : ℕ) → index < i → item_at self.now index ≡ None) }
    {
        for index in 0..self.room {
            if self.slots[index as usize].is_free() {
                return Some(index);
            }
        }
        None
    }
}

impl<T> Slot<T> {
    ghost use Rattle.seg_pool.specs.Pools.{item_in};

    fn is_free(&self) -> bool
        ensures { result ≡ is_some (item_in self.now) }
    {
        matches!(self, Slot::Free(_))
    }
}
