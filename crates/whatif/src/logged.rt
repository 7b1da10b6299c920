// What is told of logs: how much they held at most.
ghost use Rattle.std.specs.Prelude.{◌≡◌, ◌<◌, ◌≤◌, ◌+◌, ◌^◌, ◌++◌, ◌∷◌, [], ℕ, List, length, max, IfOk};
ghost use Rattle.whatif.specs.Waits.{AreLogged, IsMost};
ghost use Rattle.whatif.specs.declared.logged.Held.{Held};

use std::alloc::Global;
use wol_disk::NoMemory;

/// What logs held once a request had gone to one.
#[derive(Clone, Copy)]
pub struct Held {
    /// The disk of that log.
    pub disk: u32,
    /// The blocks that all records on it kept.
    pub blocks: u128,
    /// The segments on it.
    pub segments: u128,
    /// The blocks that all records on all disks kept.
    pub all: u128,
}

/// The most that a disk held at one moment.
#[derive(Clone, Copy)]
pub struct Most {
    pub blocks: u128,
    pub segments: u128,
}

/// How many requests went to logs, and what these held at most.
#[derive(Drop)]
pub struct Logged {
    pub count: u64,
    /// The most blocks that all disks held together.
    pub blocks: u128,
    /// The most segments that one disk held.
    pub segments: u128,
    /// By the numbers of the disks.
    pub each: Vec<Most>,
}

impl Most {
    // It holds so much now.
    fn raise(&mut self, held: &Held)
        ensures { (hs : List Held) → IsMost hs self.old
            → IsMost (hs ++ held.now ∷ []) self.new }
    {
        self.blocks = self.blocks.max(held.blocks);
        self.segments = self.segments.max(held.segments);
    }
}

impl Logged {
    /// No request went to a log of so many disks.
    pub(crate) fn new(alloc: Global, disks: usize) -> Result<Logged, NoMemory>
        ensures told { IfOk result (AreLogged []) }
        ensures none { IfOk result (λ l. l.count ≡ 0) }
        ensures disks { IfOk result (λ l. length l.each.items ≡ disks) }
    {
        let none = Most {
            blocks: 0,
            segments: 0,
        };
        Ok(Logged {
            count: 0,
            blocks: 0,
            segments: 0,
            each: vec![in alloc; none; disks]?,
        })
    }

    /// A request went to a log, and they hold so much now.
    pub(crate) fn add(&mut self, held: &Held)
        requires room { self.old.count < 2 ^ 63 }
        ensures told { (hs : List Held) → AreLogged hs self.old
            → AreLogged (hs ++ held.now ∷ []) self.new }
        ensures count { self.new.count ≡ self.old.count + 1 }
        ensures disks { length self.new.each.items ≡ length self.old.each.items }
    {
        self.count += 1;
        self.blocks = self.blocks.max(held.all);
        self.segments = self.segments.max(held.segments);
        let disk = held.disk as usize;
        if disk < self.each.len() {
            self.each[disk].raise(held);
        }
    }
}
