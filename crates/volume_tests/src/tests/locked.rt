// Locks that have one pass each, and what lies under them.
ghost use Rattle.log_segment.specs.Segment.{IsBlank};
ghost use Rattle.seg_pool.specs.Pools.{item_at};
ghost use Rattle.std.specs.Prelude.{◌≡◌, ◌≢◌, ◌<◌, ℕ, [], None};
ghost use Rattle.turn_lock.specs.Passes.{pass_lock, pass_mine};
ghost use Rattle.volume_tests.specs.Counting.{counting_state};
ghost use Rattle.volume_tests.specs.Locked.{HasOnePass, HasSpindle, HasKeptSpindle, HasPool, IsPool};

use super::opening::open_segment;
use crate::counting::CountingDisk;
use log_layout::{SegHead, write_seg};
use log_scan::Adopted;
use log_segment::FreeSegment;
use seg_pool::Pool;
use spin_model::{Spindle, Spun};
use std::alloc::Global;
use std::process::Abort;
use turn_lock::{Object, Pass, TurnLock};
use wol_disk::{Disk, MemDisk};

/// How long a disk stays awake after its last use, in 100 ns: a minute.
pub const TIMEOUT: u64 = 600_000_000;

/// The number of a call that is never made.
pub const NEVER: u64 = u64::MAX;

/// Which of the two segments of a pool are there, and free. Each fails at the call with its number, from 0 since it was made.
pub type Free = (Option<u64>, Option<u64>);

/// How many blocks a segment has.
pub const SEGMENT: u32 = 32;

/// A lock over the value, and its one pass.
pub fn locked<T: Object, R: Abort>(rt: &R, alloc: Global, value: T) -> (TurnLock<T>, Pass<T>)
    ghost base: { T.Base }
    requires value { T.stands value base [] }
    ensures base { (pass_lock result.1).base ≡ base }
    ensures alone { HasOnePass result.0 result.1 }
    ensures mine { pass_mine result.1 ≡ [] }
{
    match TurnLock::new(alloc, value, 1, 0) {
        Ok((lock, mut passes)) => {
            let Some(pass) = passes.pop() else {
                unreachable!()
            };
            passes.destroy_empty();
            (lock, pass)
        }
        Err(_) => panic!(rt; "no memory for a lock"),
    }
}

/// What lies under a lock whose one pass comes back.
pub fn unlocked<T: Object, R: Abort>(rt: &R, alloc: Global, lock: TurnLock<T>, pass: Pass<T>) -> T
    requires { HasOnePass lock pass }
{
    let mut passes = Vec::with_capacity(alloc, 1).expect(rt, "passes");
    passes.push_reserved(pass);
    lock.close(passes)
}

/// The spindle of a volume under its lock.
pub fn spindle_of<R: Abort>(
    rt: &R,
    alloc: Global,
    volume: u32,
) -> (TurnLock<Spindle>, Pass<Spindle>)
    ensures { HasSpindle volume result.0 result.1 }
{
    locked(rt, alloc, Spindle::new(volume, TIMEOUT))
}

/// The spindle of a volume under its lock, with a keeper's pass and another.
pub fn kept_spindle<R: Abort>(
    rt: &R,
    alloc: Global,
    volume: u32,
) -> (TurnLock<Spindle>, Pass<Spindle>, Pass<Spindle>)
    ensures { HasKeptSpindle volume result.0 result.1 result.2 }
{
    match TurnLock::new(alloc, Spindle::new(volume, TIMEOUT), 2, 0) {
        Ok((lock, mut passes)) => {
            let Some(pass) = passes.pop() else {
                unreachable!()
            };
            let Some(keeper) = passes.pop() else {
                unreachable!()
            };
            passes.destroy_empty();
            (lock, keeper, pass)
        }
        Err(_) => panic!(rt; "no memory for a lock"),
    }
}

// Puts a free segment at an index of the pool.
fn add_segment<R: Abort>(
    rt: &R,
    alloc: Global,
    pool: &mut Pool<FreeSegment<CountingDisk>>,
    volume: u32,
    index: u32,
    stop: u64,
)
    requires pool { IsPool volume pool.old }
    requires within { index < 2 }
    requires empty { item_at pool.old index ≡ None }
    ensures pool { IsPool volume pool.new }
    ensures others { (i : ℕ) → i ≢ index → item_at pool.new i ≡ item_at pool.old i }
{
    pool.give(index, free_segment(rt, alloc, volume, stop));
}

// A pool of these segments.
fn new_pool<R: Abort>(
    rt: &R,
    alloc: Global,
    volume: u32,
    free: Free,
) -> Pool<FreeSegment<CountingDisk>>
    ensures { IsPool volume result }
{
    let mut pool = Pool::new(alloc, 2, volume, SEGMENT).expect(rt, "a pool");
    let (first, second) = free;
    let Some(stop) = first else {
        return pool;
    };
    add_segment(rt, alloc, &mut pool, volume, 0, stop);
    let Some(stop) = second else {
        return pool;
    };
    add_segment(rt, alloc, &mut pool, volume, 1, stop);
    pool
}

/// The pool of a volume with these segments, under its lock.
pub fn pool_of<R: Abort>(
    rt: &R,
    alloc: Global,
    volume: u32,
    free: Free,
) -> (
    TurnLock<Pool<FreeSegment<CountingDisk>>>,
    Pass<Pool<FreeSegment<CountingDisk>>>,
)
    ensures { HasPool volume 32 result.0 result.1 }
{
    let pool = new_pool(rt, alloc, volume, free);
    locked(rt, alloc, pool)
}

// A free segment in the image of this volume, whose disk fails at the call with this number since it was found free.
fn free_segment<R: Abort>(
    rt: &R,
    alloc: Global,
    volume: u32,
    stop: u64,
) -> FreeSegment<CountingDisk>
    ensures { IsBlank counting_state volume 32 result }
{
    let mut disk = MemDisk::new(alloc, u64::from(SEGMENT)).expect(rt, "a disk");
    let mut head = [0; 512];
    write_seg(&SegHead::Free, &mut head);
    disk.write(0, &[head]).expect(rt, "a written head");
    disk.sync().expect(rt, "a synced head");
    // two calls were made of it
    disk.fail(stop.saturating_add(2)).expect(rt, "a plan");
    let mut spindle = Spindle::new(volume, TIMEOUT);
    let token = spindle.need();
    let opened = open_segment(alloc, &token, Spun::new(volume, CountingDisk::new(disk)));
    spindle.done(token);
    match opened {
        Ok(Adopted::Free(free)) => {
            assert!(rt; free.blocks() == SEGMENT);
            free
        }
        Ok(Adopted::Held(_held)) => panic!(rt; "a segment with an owner"),
        Err((_fault, _part)) => panic!(rt; "no segment"),
    }
}
