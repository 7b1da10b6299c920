// 100,000 and more records of one block, on three lanes.
ghost use Rattle.index_tests.specs.Below.{AreBelow};
ghost use Rattle.std.specs.Prelude.{◌≡◌, ◌<◌, ◌≤◌, ◌*◌, length, IfOk};

use super::same::same;
use super::steps::{add_next, give_up, put_home};
use garbage_list::{next_due, next_to_go};
use redirect_map::{Index, Rec};
use std::alloc::Global;
use std::test::Fail;
use wol_disk::NoMemory;

fn record_of(version: u64) -> Rec
    requires { version ≤ 1000000 }
    ensures version { result.version ≡ version }
    ensures lbn { result.lbn ≡ version }
    ensures count { result.count ≡ 1 }
    ensures keep { result.keep ≡ 1 }
    ensures lane { result.lane < 3 }
{
    Rec {
        version,
        lbn: version,
        count: 1,
        keep: 1,
        lane: (version % 3) as u32,
        segment: 0,
        pos: 1,
    }
}

fn records(alloc: Global, count: u64) -> Result<Index, NoMemory>
    requires { count ≤ 1000000 }
    ensures { IfOk result (λ index. AreBelow count index.entries) }
{
    let mut index = Index::new(alloc);
    for version in 0..count {
        add_next(&mut index, record_of(version))?;
    }
    Ok(index)
}

// The same number of blocks, each written twice: newer records cover the first half.
fn records_twice(alloc: Global, count: u64) -> Result<Index, NoMemory>
    requires { count ≤ 500000 }
    ensures { IfOk result (λ index. AreBelow (2 * count) index.entries) }
{
    let mut index = Index::new(alloc);
    for version in 0..2 * count {
        let record = Rec {
            lbn: version % count,
            ..record_of(version)
        };
        add_next(&mut index, record)?;
    }
    Ok(index)
}

// Puts home and gives up all records, the oldest first.
fn drop_all(index: &mut Index, count: u64)
    requires { AreBelow count index.old.entries }
    ensures { AreBelow count index.new.entries }
{
    for version in 0..count {
        let _ = put_home(index, count, version);
        let _ = give_up(index, count, version);
    }
}

// The same in an order in which each record lies far from those that go before and behind it.
fn drop_scattered(index: &mut Index, count: u64)
    requires few { count ≤ 1000000 }
    requires below { AreBelow count index.old.entries }
    ensures { AreBelow count index.new.entries }
{
    for step in 0..count {
        let version = step * 7_919 % count;
        let _ = put_home(index, count, version);
        let _ = give_up(index, count, version);
    }
}

// How many calls a drain makes at most.
const MOST_CALLS: u64 = 1_000_000;

// Puts home what is due, the least version first, until nothing is due on a lane that is awake; where it also gives up, what
// may go goes first. Says how many calls that took.
fn drain(index: &mut Index, count: u64, lanes: &[bool], gives_up: bool) -> u64
    requires below { AreBelow count index.old.entries }
    requires lanes { 3 ≤ length lanes.now }
    ensures { AreBelow count index.new.entries }
{
    for step in 0..MOST_CALLS {
        let going = if gives_up {
            next_to_go(index, lanes)
        } else {
            None
        };
        if let Some(version) = going {
            let _ = give_up(index, count, version);
        } else if let Some(version) = next_due(index, lanes) {
            let _ = put_home(index, count, version);
        } else {
            return step;
        }
    }
    MOST_CALLS
}

#[test]
fn a_drain_of_100_000_ends(rt: HostRuntime) -> Result<(), Fail> {
    let mut index = records(rt.alloc(), 100_000)?;
    let steps = drain(&mut index, 100_000, &[true; 3], true);
    same(&rt, &steps, &200_000);
    assert!(rt; index.is_empty());
    Ok(())
}

// Those of the lane that sleeps stay, and are not looked at again and again.
#[test]
fn records_on_a_sleeping_lane_are_passed_over(rt: HostRuntime) -> Result<(), Fail> {
    let mut index = records(rt.alloc(), 30_000)?;
    let steps = drain(&mut index, 30_000, &[false, true, true], true);
    same(&rt, &steps, &40_000);
    same(&rt, &index.len(), &10_000);
    Ok(())
}

// Reclaim between requests puts home first: the 100,000 covered records are not looked at again and again.
#[test]
fn covered_records_are_passed_over(rt: HostRuntime) -> Result<(), Fail> {
    let mut index = records_twice(rt.alloc(), 100_000)?;
    let steps = drain(&mut index, 200_000, &[true; 3], false);
    same(&rt, &steps, &100_000);
    let steps = drain(&mut index, 200_000, &[true; 3], true);
    same(&rt, &steps, &200_000);
    assert!(rt; index.is_empty());
    Ok(())
}

// Whether the newest record of block 0 is the first one each time that it is asked for.
fn is_read(index: &Index, times: u32) -> bool {
    for _time in 0..times {
        if index.newest(0) != Some(record_of(0)) {
            return false;
        }
    }
    true
}

#[test]
fn the_oldest_of_100_000_is_read(rt: HostRuntime) -> Result<(), Fail> {
    let mut index = records(rt.alloc(), 100_000)?;
    assert!(rt; is_read(&index, 4_000_000));
    drop_all(&mut index, 100_000);
    assert!(rt; index.is_empty());
    Ok(())
}

// No removal moves the rest of the records.
#[test]
fn all_100_000_are_dropped_from_the_middle(rt: HostRuntime) -> Result<(), Fail> {
    let mut index = records(rt.alloc(), 100_000)?;
    drop_scattered(&mut index, 100_000);
    assert!(rt; index.is_empty());
    Ok(())
}
