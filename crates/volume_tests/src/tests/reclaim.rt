// Records that lie over one another go home, and what they keep is given up.
ghost use Rattle.volume_tests.specs.Rigs.{IsRig};

use super::making::{apart, resting_rig, sums};
use crate::rig::Rig;
use garbage_list::may_go;
use log_segment::Item;
use manager::{Place, Sources};
use reclaimer::{Drain, Fetched, Gone};
use redirect_map::Index;
use std::alloc::Global;
use std::process::Abort;
use std::sync::Wait;
use std::test::Fail;

// Where a record stands in its segment, and the blocks that it keeps, those of them that are live, may go, or are kept by
// an older record too: bit i is block i of the record.
#[derive(Clone, Copy, Debug, PartialEq, Eq)]
struct Marks {
    pos: u32,
    keep: u128,
    live: u128,
    may_go: u128,
    older: u128,
}

fn marks_of(index: &Index, version: u64) -> Option<Marks> {
    let record = index.find(version)?;
    Some(Marks {
        pos: record.pos,
        keep: record.keep,
        live: index.live(version),
        may_go: may_go(index, version),
        older: index.older(version),
    })
}

// Blocks 1 to 4 under version 1, and then 2 to 3 under version 2, in the log, since home is asleep.
fn overlapping<R: Abort + Wait>(rt: &R, alloc: Global) -> Rig
    ensures { IsRig result }
{
    let mut rig = resting_rig(rt, alloc);
    let first = rig.write(rt, 1, &[[11; 512], [12; 512], [13; 512], [14; 512]]);
    let second = rig.write(rt, 2, &[[22; 512], [23; 512]]);
    assert!(rt; first == Ok(Place::Log { logger: 1 }));
    assert!(rt; second == Ok(Place::Log { logger: 1 }));
    rig
}

#[test]
fn what_a_newer_record_covers_is_given_up_while_home_sleeps(rt: HostRuntime) -> Result<(), Fail> {
    let mut rig = overlapping(&rt, rt.alloc());
    let first = marks_of(rig.manager.index(), 1);
    let second = marks_of(rig.manager.index(), 2);
    let gone = [rig.invalidate_one(&rt), rig.invalidate_one(&rt)];
    let first_after = marks_of(rig.manager.index(), 1);
    let second_after = marks_of(rig.manager.index(), 2);
    let covered = rig.manager.index().covered(1, 4);
    let remains = apart(&rt, rt.alloc(), rig);
    let marks = Marks {
        pos: 1,
        keep: 15,
        live: 9,
        may_go: 6,
        older: 0,
    };
    assert!(rt; first == Some(marks));
    assert!(rt;
        first_after
            == Some(Marks {
                keep: 9,
                may_go: 0,
                ..marks
            })
    );
    let marks = Marks {
        pos: 6,
        keep: 3,
        live: 3,
        may_go: 0,
        older: 3,
    };
    assert!(rt; second == Some(marks));
    assert!(rt; second_after == Some(Marks { older: 0, ..marks }));
    assert!(rt; gone == [Ok(Gone::Trimmed(1)), Ok(Gone::Nothing)]);
    assert!(rt; covered);
    assert!(rt; remains.free.len() == 0);
    assert!(rt; remains.home == sums(0, 1, 100_000_000));
    Ok(())
}

#[test]
fn two_versions_go_home_and_are_gone_in_order(rt: HostRuntime) -> Result<(), Fail> {
    let mut rig = overlapping(&rt, rt.alloc());
    rig.begin(true, true);
    let first = (rig.fetch(&rt), rig.put_home(&rt));
    let second = (rig.fetch(&rt), rig.put_home(&rt));
    let third = rig.fetch(&rt);
    let marks = marks_of(rig.manager.index(), 2);
    let gone = [
        rig.invalidate_one(&rt),
        rig.invalidate_one(&rt),
        rig.invalidate_one(&rt),
    ];
    let mut out = [[0; 512]; 4];
    let read = rig.read(&rt, 1, &mut out);
    let remains = apart(&rt, rt.alloc(), rig);
    assert!(rt;
        first
            == (
                Ok(Fetched::Some {
                    version: 1,
                    count: 4
                }),
                Ok(2)
            )
    );
    assert!(rt;
        second
            == (
                Ok(Fetched::Some {
                    version: 2,
                    count: 2
                }),
                Ok(2)
            )
    );
    assert!(rt; third == Ok(Fetched::Nothing));
    assert!(rt; marks.map(|marks| marks.may_go) == Some(0));
    assert!(rt;
        gone == [
            Ok(Gone::Version(1)),
            Ok(Gone::Version(2)),
            Ok(Gone::Nothing)
        ]
    );
    assert!(rt; read == Ok(Sources { home: 4, logged: 0 }));
    assert!(rt; out == [[11; 512], [22; 512], [23; 512], [14; 512]]);
    assert!(rt; remains.free.len() == 1);
    Ok(())
}

#[test]
fn a_block_that_was_overwritten_since_it_was_fetched_is_not_put_home(
    rt: HostRuntime,
) -> Result<(), Fail> {
    let mut rig = resting_rig(&rt, rt.alloc());
    let first = rig.write(&rt, 5, &[[1; 512]]);
    rig.begin(true, true);
    let fetched = rig.fetch(&rt);
    let second = rig.write(&rt, 5, &[[2; 512]]);
    let put = rig.put_home(&rt);
    let mut out = [[0; 512]];
    let read = rig.read(&rt, 5, &mut out);
    let _remains = apart(&rt, rt.alloc(), rig);
    assert!(rt; [first, second] == [Ok(Place::Log { logger: 1 }), Ok(Place::Log { logger: 1 })]);
    assert!(rt;
        fetched
            == Ok(Fetched::Some {
                version: 1,
                count: 1
            })
    );
    assert!(rt; put == Ok(0));
    assert!(rt; read == Ok(Sources { home: 0, logged: 1 }));
    assert!(rt; out == [[2; 512]]);
    Ok(())
}

#[test]
fn a_drain_wakes_home_and_leaves_no_record(rt: HostRuntime) -> Result<(), Fail> {
    let mut rig = overlapping(&rt, rt.alloc());
    for (blocks, records) in [(4, 0), (0, 1), (0, 1)] {
        let step = rig.drain_step(&rt);
        assert!(rt; step == Ok(Drain::Moved { blocks, records }), "{step:?}");
    }
    let last = rig.drain_step(&rt);
    let remains = apart(&rt, rt.alloc(), rig);
    assert!(rt; last == Ok(Drain::Bare));
    assert!(rt; remains.free.len() == 1);
    assert!(rt; remains.home == sums(1, 1, 100_000_000));
    Ok(())
}

// Three records lie in one segment, and nothing lies over them. It was synced once when it was found free, twice for its claim,
// twice for the records, and once when it was given up.
#[test]
fn a_drain_gives_a_segment_up_with_all_its_records(rt: HostRuntime) -> Result<(), Fail> {
    let mut rig = resting_rig(&rt, rt.alloc());
    let items = [
        Item { lbn: 0, count: 1 },
        Item { lbn: 2, count: 1 },
        Item { lbn: 5, count: 1 },
    ];
    let wrote = rig.write_run(&rt, &items, &[[7; 512], [8; 512], [9; 512]]);
    let steps = [
        rig.drain_step(&rt),
        rig.drain_step(&rt),
        rig.drain_step(&rt),
    ];
    let mut out = [[0; 512]; 3];
    let read = rig.read(&rt, 0, &mut out);
    let remains = apart(&rt, rt.alloc(), rig);
    assert!(rt; wrote == Ok((3, Place::Log { logger: 1 })));
    assert!(rt;
        steps
            == [
                Ok(Drain::Moved {
                    blocks: 3,
                    records: 0
                }),
                Ok(Drain::Moved {
                    blocks: 0,
                    records: 3
                }),
                Ok(Drain::Bare)
            ]
    );
    assert!(rt; read == Ok(Sources { home: 3, logged: 0 }));
    assert!(rt; out == [[7; 512], [0; 512], [8; 512]]);
    assert!(rt; remains.free.len() == 1);
    assert!(rt; remains.free[0].1.syncs() == 6);
    assert!(rt; remains.home_disk.syncs() == 1);
    Ok(())
}

// The same segment in a turn that reclaims, with the loggers and home awake: home is synced once for all, and the segment once.
#[test]
fn a_reclaim_turn_syncs_home_once_and_a_segment_that_goes_once(
    rt: HostRuntime,
) -> Result<(), Fail> {
    let mut rig = resting_rig(&rt, rt.alloc());
    let items = [
        Item { lbn: 0, count: 1 },
        Item { lbn: 2, count: 1 },
        Item { lbn: 5, count: 1 },
    ];
    let wrote = rig.write_run(&rt, &items, &[[7; 512], [8; 512], [9; 512]]);
    rig.begin(true, true);
    let put = [rig.put_group(&rt), rig.put_group(&rt)];
    let gone = [rig.give_up_group(&rt), rig.give_up_group(&rt)];
    let remains = apart(&rt, rt.alloc(), rig);
    assert!(rt; wrote == Ok((3, Place::Log { logger: 1 })));
    assert!(rt; put == [Ok(3), Ok(0)]);
    assert!(rt; gone == [Ok(Some(3)), Ok(None)]);
    assert!(rt; remains.free.len() == 1);
    assert!(rt; remains.free[0].1.syncs() == 6);
    assert!(rt; remains.home_disk.syncs() == 1);
    Ok(())
}
