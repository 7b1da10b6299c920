// Rigs are made and taken apart.
ghost use Rattle.logger.specs.Lanes.{AreAccesses};
ghost use Rattle.logger.specs.declared.lane.Lane.{Lane};
ghost use Rattle.spin_model.specs.Operations.{has_token};
ghost use Rattle.std.specs.Prelude.{◌≡◌, ◌∷◌, [], Some, false, length};
ghost use Rattle.turn_lock.specs.Passes.{pass_lock, pass_mine, IsFree};
ghost use Rattle.volume_tests.specs.Counting.{counting_state};
ghost use Rattle.wol_disk.specs.Disk.{only};
ghost use Rattle.wol_disk.specs.Zeros.{zeros};
ghost use Rattle.volume_tests.specs.Locked.{HasOnePass, HasTwoPasses, HasKeptSpindle};
ghost use Rattle.volume_tests.specs.Rigs.{IsNewLane, IsRig};

use super::locked::{Free, NEVER, kept_spindle, pool_of, spindle_of, unlocked};
use crate::counting::CountingDisk;
use crate::rig::Rig;
use energy::Sums;
use log_segment::FreeSegment;
use logger::{Lane, LaneParts, Shared};
use manager::{Manager, ManagerParts};
use reclaimer::Fetch;
use redirect_map::Index;
use seg_pool::Pool;
use spin_model::{Spindle, Spun, begin_turn, start_turn};
use std::alloc::Global;
use std::process::Abort;
use std::sync::Wait;
use turn_lock::{Pass, TurnLock};
use wol_disk::MemDisk;

/// What is left of a rig: the sums of both disks, home's image, the segments of volume 1 that are held, and those that are free.
#[derive(Drop)]
pub struct Remains {
    pub home: Sums,
    pub home_disk: CountingDisk,
    pub logger: Sums,
    pub held: Vec<(u32, Spun<CountingDisk>)>,
    pub free: Vec<(u32, CountingDisk)>,
}

/// The sums of a disk that came up and went down so often, and was in standby for so long.
pub fn sums(wakes: u64, sleeps: u64, standby: u64) -> Sums {
    Sums {
        wakes,
        sleeps,
        standby,
    }
}

// Two values in a row.
fn two<T, R: Abort>(rt: &R, alloc: Global, first: T, second: T) -> Vec<T>
    ensures { result.items ≡ first ∷ second ∷ [] }
{
    let mut row = Vec::with_capacity(alloc, 2).expect(rt, "a row");
    row.push_reserved(first);
    row.push_reserved(second);
    row
}

// The lanes of volume 0: one, on volume 1.
fn lanes<R: Abort>(
    rt: &R,
    alloc: Global,
    pool: Pass<Pool<FreeSegment<CountingDisk>>>,
    spindle: Pass<Spindle>,
) -> Vec<Lane<CountingDisk>>
    requires pool_volume { (pass_lock pool).base.volume ≡ 1 }
    requires few { length (pass_lock pool).base.holders ≡ 2 }
    requires spindle_volume { (pass_lock spindle).base.volume ≡ 1 }
    requires settled { has_token (pass_mine spindle) ≡ false }
    requires accesses { AreAccesses (pass_mine spindle) }
    requires free { IsFree pool × IsFree spindle }
    ensures { (l : Lane _) × (result.items ≡ l ∷ []) × IsNewLane pool spindle l }
{
    match Lane::new(alloc, 1, 0, 2, pool, spindle) {
        Ok(lane) => {
            let mut lanes = Vec::with_capacity(alloc, 1).expect(rt, "lanes");
            lanes.push_reserved(lane);
            lanes
        }
        Err(_) => panic!(rt; "no memory for a lane"),
    }
}

// The lock of home's spindle, whose disk has gone to sleep, with its keeper's pass and another.
fn sleeping<R: Abort + Wait>(
    rt: &R,
    alloc: Global,
) -> (TurnLock<Spindle>, Pass<Spindle>, Pass<Spindle>)
    ensures { HasKeptSpindle 0 result.0 result.1 result.2 }
{
    let (lock, mut keeper, pass) = kept_spindle(rt, alloc, 0);
    start_turn(rt, &lock, &mut keeper, 0);
    let awake = begin_turn(rt, &lock, &mut keeper, 700_000_000);
    assert!(rt; !awake);
    (lock, keeper, pass)
}

// Home's disk of zeros, which fails at the call with this number.
fn home_disk<R: Abort>(rt: &R, alloc: Global, stop: u64) -> CountingDisk
    ensures size { (counting_state result).size ≡ 8 }
    ensures values { (counting_state result).values ≡ Some (only (zeros 8)) }
{
    let mut disk = MemDisk::new(alloc, 8).expect(rt, "home");
    disk.fail(stop).expect(rt, "a plan");
    CountingDisk::new(disk)
}

// A new rig with these segments, in which home's disk has gone to sleep and both disks count as awake. Home fails at the call
// with this number.
fn new_rig<R: Abort + Wait>(rt: &R, alloc: Global, home_stop: u64, free: Free) -> Rig
    ensures { IsRig result }
{
    let (home_lock, keeper, home_pass) = sleeping(rt, alloc);
    let (logger_lock, logger_pass) = spindle_of(rt, alloc, 1);
    let (own_pool_lock, own_pool) = pool_of(rt, alloc, 0, (None, None));
    let (pool_lock, pool_pass) = pool_of(rt, alloc, 1, free);
    let lanes = lanes(rt, alloc, pool_pass, logger_pass);
    let home = Spun::new(0, home_disk(rt, alloc, home_stop));
    Rig {
        shared: Shared {
            pools: two(rt, alloc, own_pool_lock, pool_lock),
            spindles: two(rt, alloc, home_lock, logger_lock),
        },
        manager: Manager::new(0, home, home_pass, lanes, Index::new(alloc), 1, 4),
        fetched: Fetch::new(alloc).expect(rt, "room for a record"),
        own_pool,
        keeper,
    }
}

/// A new rig of which the logger alone counts as awake.
pub fn resting_rig<R: Abort + Wait>(rt: &R, alloc: Global) -> Rig
    ensures { IsRig result }
{
    let mut rig = new_rig(rt, alloc, NEVER, (Some(NEVER), None));
    rig.begin(false, true);
    rig
}

/// The same with two segments. Home and the segments fail at the calls with these numbers.
pub fn stopping_rig<R: Abort + Wait>(rt: &R, alloc: Global, stops: [u64; 3]) -> Rig
    ensures { IsRig result }
{
    let [home, first, second] = stops;
    let mut rig = new_rig(rt, alloc, home, (Some(first), Some(second)));
    rig.begin(false, true);
    rig
}

/// Takes it apart.
pub fn apart<R: Abort>(rt: &R, alloc: Global, rig: Rig) -> Remains
    requires { IsRig rig }
{
    let Rig {
        shared,
        manager,
        fetched: _,
        own_pool,
        keeper,
    } = rig;
    let ManagerParts {
        spindle,
        lanes,
        home,
    } = manager.release();
    let LaneParts {
        logger: _,
        held,
        pool: pool_pass,
        spindle: logger_pass,
    } = sole(lanes).release();
    let Shared { pools, spindles } = shared;
    let (own_pool_lock, pool_lock) = both(pools);
    let (home_lock, logger_lock) = both(spindles);
    unlocked(rt, alloc, own_pool_lock, own_pool);
    let mut pool = unlocked(rt, alloc, pool_lock, pool_pass);
    Remains {
        home: kept_sums(rt, alloc, home_lock, keeper, spindle),
        home_disk: home.into_inner(),
        logger: sums_of(rt, alloc, logger_lock, logger_pass),
        held,
        free: free_in(rt, alloc, &mut pool),
    }
}

// The images of the free segments, with their indexes.
fn free_in<R: Abort>(
    rt: &R,
    alloc: Global,
    pool: &mut Pool<FreeSegment<CountingDisk>>,
) -> Vec<(u32, CountingDisk)> {
    let mut free = Vec::new(alloc);
    for _segment in 0..2 {
        if let Some((index, segment)) = pool.take() {
            let part = segment.into_part();
            free.push((index, part.into_inner())).expect(rt, "a place");
        }
    }
    free
}

// The one value of a row.
fn sole<T>(mut row: Vec<T>) -> T
    requires { (value : T) × (row.items ≡ value ∷ []) }
    ensures { row.items ≡ result ∷ [] }
{
    let Some(value) = row.pop() else {
        unreachable!()
    };
    row.destroy_empty();
    value
}

// The two values of a row.
fn both<T>(mut row: Vec<T>) -> (T, T)
    requires { (first second : T) × (row.items ≡ first ∷ second ∷ []) }
    ensures { row.items ≡ result.0 ∷ result.1 ∷ [] }
{
    let Some(second) = row.pop() else {
        unreachable!()
    };
    let Some(first) = row.pop() else {
        unreachable!()
    };
    row.destroy_empty();
    (first, second)
}

// The sums of a spindle.
fn sums_of<R: Abort>(rt: &R, alloc: Global, lock: TurnLock<Spindle>, pass: Pass<Spindle>) -> Sums
    requires { HasOnePass lock pass }
{
    let spindle = unlocked(rt, alloc, lock, pass);
    spindle.sums_until(spindle.moment())
}

// The sums of a spindle whose time was kept.
fn kept_sums<R: Abort>(
    rt: &R,
    alloc: Global,
    lock: TurnLock<Spindle>,
    keeper: Pass<Spindle>,
    pass: Pass<Spindle>,
) -> Sums
    requires { HasTwoPasses lock keeper pass }
{
    let spindle = lock.close(two(rt, alloc, keeper, pass));
    spindle.sums_until(spindle.moment())
}
