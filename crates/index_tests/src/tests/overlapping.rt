// Two records that overlap: blocks 1 to 4 under version 1, and then blocks 2 and 3 under version 2. The newer one is read, and what it
// covers goes.
ghost use Rattle.garbage_list.specs.Least.{HasLane};
ghost use Rattle.redirect_map.specs.Index.{cover_at, entry_of, unhomed};
ghost use Rattle.std.specs.List.{AllByRecursion};
ghost use Rattle.std.specs.Prelude.{◌≡◌, ◌∷◌, [], IfOk};

use super::same::same;
use garbage_list::{due, may_go, next_due, next_to_go};
use redirect_map::{Index, Rec};
use std::alloc::Global;
use std::test::Fail;
use wol_disk::NoMemory;

const OLDER: Rec = Rec {
    version: 1,
    lbn: 1,
    count: 4,
    keep: 15,
    lane: 0,
    segment: 0,
    pos: 1,
};

const NEWER: Rec = Rec {
    version: 2,
    lbn: 2,
    count: 2,
    keep: 3,
    lane: 1,
    segment: 5,
    pos: 6,
};

fn two_records(alloc: Global) -> Result<Index, NoMemory>
    ensures { IfOk result
        (λ i. i.entries
        ≡ unhomed (cover_at (entry_of NEWER 0)) (entry_of OLDER 0) ∷ entry_of NEWER 0 ∷ []) }
{
    let mut index = Index::new(alloc);
    index.reserve(2)?;
    index.add(OLDER);
    index.add(NEWER);
    Ok(index)
}

#[test]
fn the_newer_of_two_records_is_read(rt: HostRuntime) -> Result<(), Fail> {
    let index = two_records(rt.alloc())?;
    same(&rt, &index.newest(0), &None);
    same(&rt, &index.newest(1), &Some(OLDER));
    same(&rt, &index.newest(3), &Some(NEWER));
    assert!(rt; index.covered(4, 1));
    assert!(rt; !index.covered(5, 4_000_000_000));
    same(&rt, &index.find(2), &Some(NEWER));
    same(&rt, &Rec { keep: 13, ..OLDER }.runs(), &2);
    Ok(())
}

// The blocks that are noted to be home, before a newer record covers two of them and after.
fn homed_blocks(alloc: Global) -> Result<(u128, u128), NoMemory> {
    let mut index = Index::new(alloc);
    index.reserve(2)?;
    index.add(OLDER);
    let live = index.live(1);
    index.set_homed(1, live);
    let before = index.homed(1);
    index.add(NEWER);
    if index.find(1).is_some() {
        Ok((before, index.homed(1)))
    } else {
        Ok((before, 0))
    }
}

#[test]
fn a_newer_record_makes_blocks_homed_no_more(rt: HostRuntime) -> Result<(), Fail> {
    same(&rt, &homed_blocks(rt.alloc())?, &(15, 9));
    Ok(())
}

// Gives up what may go of the least version, as a manager does.
fn give_up_next(index: &mut Index, lanes: &[bool]) -> Option<(u64, u128)>
    requires { AllByRecursion (HasLane lanes.now) index.old.entries }
    ensures { AllByRecursion (HasLane lanes.now) index.new.entries }
{
    let version = next_to_go(index, lanes)?;
    let mask = may_go(index, version);
    index.trim(version, mask);
    Some((version, mask))
}

// Puts home what is due of the least version.
fn put_home_next(index: &mut Index, lanes: &[bool]) -> Option<(u64, u128)>
    requires { AllByRecursion (HasLane lanes.now) index.old.entries }
    ensures { AllByRecursion (HasLane lanes.now) index.new.entries }
{
    let version = next_due(index, lanes)?;
    let mask = due(index, version);
    let live = index.live(version);
    index.set_homed(version, live);
    Some((version, mask))
}

#[test]
fn a_covered_block_goes_before_its_record_is_home(rt: HostRuntime) -> Result<(), Fail> {
    let mut index = two_records(rt.alloc())?;
    same(&rt, &index.live(1), &9);
    same(&rt, &index.live(2), &3);
    same(&rt, &may_go(&index, 2), &0);
    same(&rt, &next_to_go(&index, &[false; 2]), &None);
    let awake = [true; 2];
    same(&rt, &give_up_next(&mut index, &awake), &Some((1, 6)));
    same(&rt, &give_up_next(&mut index, &awake), &None);
    same(&rt, &index.find(1), &Some(Rec { keep: 9, ..OLDER }));
    assert!(rt; index.covered(1, 4));
    if index.find(2).is_some() {
        same(&rt, &index.older(2), &0);
    }
    Ok(())
}

#[test]
fn records_that_are_home_go_in_order(rt: HostRuntime) -> Result<(), Fail> {
    let mut index = two_records(rt.alloc())?;
    let awake = [true; 2];
    same(&rt, &put_home_next(&mut index, &awake), &Some((1, 9)));
    same(&rt, &put_home_next(&mut index, &awake), &Some((2, 3)));
    same(&rt, &put_home_next(&mut index, &awake), &None);
    if index.find(2).is_some() {
        same(&rt, &may_go(&index, 2), &0);
    }
    same(&rt, &give_up_next(&mut index, &awake), &Some((1, 15)));
    same(&rt, &give_up_next(&mut index, &awake), &Some((2, 3)));
    same(&rt, &give_up_next(&mut index, &awake), &None);
    assert!(rt; index.is_empty());
    Ok(())
}
