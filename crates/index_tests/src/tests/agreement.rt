// Random calls of an index and of a plain list.
ghost use Rattle.index_tests.specs.Below.{AreBelow};
ghost use Rattle.std.specs.Prelude.{◌≤◌, ◌+◌};

use super::dice::Dice;
use super::list::{Item, covered, known_at, newest, unhome};
use super::same::same;
use super::steps::{add_next, give_up, put_home};
use garbage_list::{due, may_go, next_due, next_to_go};
use redirect_map::{Index, Rec};
use std::alloc::Global;
use std::test::Fail;
use wol_disk::NoMemory;

// How many records there are at most: each look at the plain list walks all of them for each of them.
const MOST: usize = 40;

// A random record of this version is added to both.
fn add_both(
    index: &mut Index,
    list: &mut Vec<Item>,
    dice: &mut Dice,
    next: u64,
) -> Result<(), NoMemory>
    requires { AreBelow next index.old.entries }
    ensures { AreBelow (next + 1) index.new.entries }
{
    let shape = dice.shape();
    let record = Rec {
        version: next,
        lbn: dice.below(400),
        count: shape.count,
        keep: shape.keep,
        lane: dice.below(3) as u32,
        segment: 7,
        pos: 1,
    };
    add_next(index, record)?;
    unhome(list, &record);
    list.push(Item { record, homed: 0 })?;
    Ok(())
}

// The live blocks of a random record are home, or what may go of it goes, in both.
fn change_both(index: &mut Index, list: &mut Vec<Item>, dice: &mut Dice, next: u64)
    requires { AreBelow next index.old.entries }
    ensures { AreBelow next index.new.entries }
{
    if list.is_empty() {
        return;
    }
    let place = dice.below(list.len() as u64) as usize;
    let version = list[place].record.version;
    if dice.below(2) == 0 {
        let live = put_home(index, next, version);
        list[place].homed = live;
    } else {
        let mask = give_up(index, next, version);
        super::list::give_up(list, place, mask);
    }
}

// Whether both say the same of the record at a place.
fn agree_at(index: &Index, list: &[Item], place: usize) -> bool {
    let Some(item) = list.get(place) else {
        return false;
    };
    let Some(known) = known_at(list, place) else {
        return false;
    };
    let version = item.record.version;
    if index.find(version) != Some(item.record) {
        return false;
    }
    if index.find(version).is_none() {
        return false;
    }
    index.live(version) == known.live
        && index.older(version) == known.older
        && index.alone(version) == known.live & !known.older
        && index.homed(version) == item.homed
        && may_go(index, version) == known.going
        && due(index, version) == known.due
}

// The first record of an awake lane that passes.
fn first_of(list: &[Item], lanes: &[bool], due: bool) -> Option<u64> {
    for place in 0..list.len() {
        let item = list[place];
        let awake = lanes
            .get(item.record.lane as usize)
            .copied()
            .unwrap_or(false);
        if let Some(known) = known_at(list, place) {
            let mask = if due { known.due } else { known.going };
            if awake && mask != 0 {
                return Some(item.record.version);
            }
        }
    }
    None
}

// How many blocks from this one on, at most 200, have the newest record that it has.
fn run_length(list: &[Item], lbn: u64) -> usize
    requires { lbn ≤ 1000 }
{
    let first = newest(list, lbn);
    for count in 1..200 {
        if newest(list, lbn + count as u64) != first {
            return count;
        }
    }
    200
}

// Whether both find the same.
fn find_the_same(index: &Index, list: &[Item], dice: &mut Dice, next: u64) -> bool
    requires { AreBelow next index.now.entries }
{
    let lanes = [dice.below(2) == 0, dice.below(2) == 0, true];
    let lbn = dice.below(600);
    let count = dice.below(200) as u32;
    next_to_go(index, &lanes) == first_of(list, &lanes, false)
        && next_due(index, &lanes) == first_of(list, &lanes, true)
        && index.newest(lbn) == newest(list, lbn)
        && index.newest_run(lbn, 200) == (newest(list, lbn), run_length(list, lbn))
        && index.covered(lbn, count) == covered(list, lbn, count)
        && index.len() == list.len() as u64
}

// A random change, and whether both say the same then.
fn step(
    index: &mut Index,
    list: &mut Vec<Item>,
    dice: &mut Dice,
    next: u64,
) -> Result<bool, NoMemory>
    requires below { AreBelow next index.old.entries }
    requires few { next ≤ 10000 }
    ensures { AreBelow (next + 1) index.new.entries }
{
    if list.len() < MOST && dice.below(4) == 0 {
        add_both(index, list, dice, next)?;
    } else {
        change_both(index, list, dice, next);
    }
    let place = dice.below(list.len() as u64 + 1) as usize;
    let same = place == list.len() || agree_at(index, list, place);
    Ok(same && find_the_same(index, list, dice, next + 1))
}

// The first of so many random calls after which they differ.
fn first_difference(alloc: Global, calls: u64) -> Result<Option<u64>, NoMemory>
    requires { calls ≤ 10000 }
{
    let mut index = Index::new(alloc);
    let mut list = Vec::new(alloc);
    let mut dice = Dice { last: 25 };
    for next in 0..calls {
        if !step(&mut index, &mut list, &mut dice, next)? {
            return Ok(Some(next));
        }
    }
    Ok(None)
}

#[test]
fn an_index_is_the_list(rt: HostRuntime) -> Result<(), Fail> {
    same(&rt, &first_difference(rt.alloc(), 10_000)?, &None);
    Ok(())
}
