// Groups: consecutive writes that go to a log together.
use super::making::{apart, resting_rig};
use log_segment::Item;
use manager::{Place, Sources, WriteRefusal};
use std::test::Fail;

const FIRST: Item = Item { lbn: 0, count: 1 };

const SECOND: Item = Item { lbn: 1, count: 1 };

#[test]
fn a_run_of_writes_goes_to_a_log_as_one(rt: HostRuntime) -> Result<(), Fail> {
    let mut rig = resting_rig(&rt, rt.alloc());
    let items = [FIRST, SECOND, FIRST];
    let wrote = rig.write_run(&rt, &items, &[[7; 512], [8; 512], [9; 512]]);
    let mut out = [[0; 512]; 2];
    let read = rig.read(&rt, 0, &mut out);
    let _remains = apart(&rt, rt.alloc(), rig);
    assert!(rt; wrote == Ok((3, Place::Log { logger: 1 })));
    assert!(rt; read == Ok(Sources { home: 0, logged: 2 }));
    assert!(rt; out == [[9; 512], [8; 512]]);
    Ok(())
}

#[test]
fn what_would_go_home_joins_no_group(rt: HostRuntime) -> Result<(), Fail> {
    let mut rig = resting_rig(&rt, rt.alloc());
    let first = rig.write(&rt, 0, &[[7; 512]]);
    rig.begin(true, true);
    let items = [FIRST, SECOND];
    let logged = rig.write_run(&rt, &items, &[[8; 512], [9; 512]]);
    let gone = rig.write_run(&rt, &items[1..], &[[9; 512]]);
    let _remains = apart(&rt, rt.alloc(), rig);
    assert!(rt; first == Ok(Place::Log { logger: 1 }));
    assert!(rt; logged == Ok((1, Place::Log { logger: 1 })));
    assert!(rt; gone == Ok((1, Place::Home)));
    Ok(())
}

#[test]
fn a_group_ends_where_the_segment_has_no_room(rt: HostRuntime) -> Result<(), Fail> {
    let mut rig = resting_rig(&rt, rt.alloc());
    let wrote = rig.write_run(&rt, &[FIRST; 16], &[[7; 512]; 16]);
    let full = rig.write_run(&rt, &[FIRST], &[[8; 512]]);
    let _remains = apart(&rt, rt.alloc(), rig);
    assert!(rt; wrote == Ok((15, Place::Log { logger: 1 })));
    assert!(rt; full == Err(WriteRefusal::Full));
    Ok(())
}

// One more is that of the scan that found the segment free, and two are those of its claim.
#[test]
fn eight_writes_to_a_log_take_two_syncs(rt: HostRuntime) -> Result<(), Fail> {
    let mut rig = resting_rig(&rt, rt.alloc());
    let wrote = rig.write_run(&rt, &[FIRST; 8], &[[7; 512]; 8]);
    let Some((index, part)) = apart(&rt, rt.alloc(), rig).held.pop() else {
        return Err(Fail::from("no segment"));
    };
    assert!(rt; wrote == Ok((8, Place::Log { logger: 1 })));
    assert!(rt; index == 0);
    assert!(rt; part.into_inner().syncs() == 5);
    Ok(())
}
