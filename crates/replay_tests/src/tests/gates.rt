// Gates that hold one request back until something else was done, and one that counts.
use std::sync::atomic::{AtomicBool, AtomicU64, Ordering};
use std::thread::yield_now;
use wol_disk::Fuse;
use wol_io::Gate;

/// How often the held request looks at most.
const TURNS: u32 = 5_000_000;

/// Holds the first request back until the third came.
#[derive(Drop)]
pub struct Holding {
    came: AtomicBool,
    late: AtomicBool,
}

impl Holding {
    pub(crate) fn new() -> Holding {
        Holding {
            came: AtomicBool::new(false),
            late: AtomicBool::new(false),
        }
    }

    /// Whether the third request came too late.
    pub(crate) fn is_late(&self) -> bool {
        self.late.load(Ordering::SeqCst)
    }
}

impl Gate for Holding {
    fn pass(&self, request: u64) {
        if request == 2 {
            self.came.store(true, Ordering::SeqCst);
        }
        if request != 0 {
            return;
        }
        for _turn in 0..TURNS {
            if self.came.load(Ordering::SeqCst) {
                return;
            }
            yield_now();
        }
        self.late.store(true, Ordering::SeqCst);
    }
}

/// Holds the fifth request until disks were called more often than for the fourth, which reads once.
#[derive(Drop)]
pub struct Awaiting<'a> {
    fuse: &'a Fuse,
    before: AtomicU64,
    late: AtomicBool,
}

impl<'a> Awaiting<'a> {
    pub(crate) fn new(fuse: &'a Fuse) -> Awaiting<'a> {
        Awaiting {
            fuse,
            before: AtomicU64::new(0),
            late: AtomicBool::new(false),
        }
    }

    /// Whether no disk was called in time.
    pub(crate) fn is_late(&self) -> bool {
        self.late.load(Ordering::SeqCst)
    }
}

impl<'a> Gate for Awaiting<'a> {
    fn pass(&self, request: u64) {
        if request == 3 {
            self.before.store(self.fuse.passed(), Ordering::SeqCst);
        }
        if request != 4 {
            return;
        }
        let before = self.before.load(Ordering::SeqCst);
        for _turn in 0..TURNS {
            if self.fuse.passed().saturating_sub(before) > 1 {
                return;
            }
            yield_now();
        }
        self.late.store(true, Ordering::SeqCst);
    }
}

/// Counts how often it is passed.
#[derive(Drop)]
pub struct Counting {
    passes: AtomicU64,
}

impl Counting {
    pub(crate) fn new() -> Counting {
        Counting {
            passes: AtomicU64::new(0),
        }
    }

    /// How often it was passed.
    pub(crate) fn passes(&self) -> u64 {
        self.passes.load(Ordering::SeqCst)
    }
}

impl Gate for Counting {
    fn pass(&self, _request: u64) {
        self.passes.fetch_add(1, Ordering::SeqCst);
    }
}
