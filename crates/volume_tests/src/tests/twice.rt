// A block lies in two segments of a logger. It is put home, and all its records are given up, in one turn. Wherever that stops, and
// whichever of the blocks that weren't synced a crash leaves, it reads as the newest once the images are read again.
ghost use Rattle.spin_model.specs.Spun.{token_volume};
ghost use Rattle.std.specs.Prelude.{◌≡◌};
ghost use Rattle.volume_tests.specs.Rigs.{IsRig};

use super::locked::NEVER;
use super::making::{Remains, apart, stopping_rig};
use crate::counting::CountingDisk;
use crate::rig::Rig;
use log_scan::calls::scan;
use log_segment::Item;
use manager::Place;
use reclaimer::{Drain, Gone};
use spin_model::{Awake, Spindle, Spun};
use std::alloc::Global;
use std::process::Abort;
use std::sync::Wait;
use std::test::Fail;
use wol_disk::{Block, Disk, MemDisk};

// How the records are given up.
#[derive(Clone, Copy, Debug)]
enum Turn {
    Reclaim,
    Drain,
    // record by record
    Steps,
}

const BOTH: Item = Item { lbn: 0, count: 2 };

// What the first two blocks read as.
const NEWEST: [Block; 2] = [[8; 512], [9; 512]];

// Two blocks of home may be unsynced, and what was written to each of the segments.
const SUBSETS: u32 = 16;

// Ten records of the first two blocks fill the first segment, and a newer one is alone in the second.
fn logged_twice<R: Abort + Wait>(rt: &R, alloc: Global, stops: [u64; 3]) -> Rig
    ensures { IsRig result }
{
    let mut rig = stopping_rig(rt, alloc, stops);
    let older = rig.write_run(rt, &[BOTH; 10], &[[7; 512]; 20]);
    let newer = rig.write(rt, 0, &NEWEST);
    assert!(rt; older == Ok((10, Place::Log { logger: 1 })));
    assert!(rt; newer == Ok(Place::Log { logger: 1 }));
    rig.begin(true, true);
    rig
}

// Whether all records are gone, one segment by the other.
fn reclaimed<R: Wait>(rt: &R, rig: &mut Rig) -> bool
    requires { IsRig rig.old }
    ensures { IsRig rig.new }
{
    let put = rig.put_group(rt);
    let first = rig.give_up_group(rt);
    let second = rig.give_up_group(rt);
    (put, first, second) == (Ok(2), Ok(Some(10)), Ok(Some(1)))
}

fn drained<R: Wait>(rt: &R, rig: &mut Rig) -> bool
    requires { IsRig rig.old }
    ensures { IsRig rig.new }
{
    let _home = rig.drain_step(rt);
    let _first = rig.drain_step(rt);
    let _second = rig.drain_step(rt);
    rig.drain_step(rt) == Ok(Drain::Bare)
}

fn stepped<R: Wait>(rt: &R, rig: &mut Rig) -> bool
    requires { IsRig rig.old }
    ensures { IsRig rig.new }
{
    let _put = (rig.fetch(rt), rig.put_home(rt));
    for _trim in 0..10 {
        let _gone = rig.invalidate_one(rt);
    }
    rig.invalidate_one(rt) == Ok(Gone::Version(11))
}

fn turned<R: Wait>(rt: &R, rig: &mut Rig, turn: Turn) -> bool
    requires { IsRig rig.old }
    ensures { IsRig rig.new }
{
    match turn {
        Turn::Reclaim => reclaimed(rt, rig),
        Turn::Drain => drained(rt, rig),
        Turn::Steps => stepped(rt, rig),
    }
}

// What a turn leaves that stops at these calls, and whether it came to its end.
fn left_by<R: Abort + Wait>(rt: &R, alloc: Global, turn: Turn, stops: [u64; 3]) -> (bool, Remains) {
    let mut rig = logged_twice(rt, alloc, stops);
    let done = turned(rt, &mut rig, turn);
    (done, apart(rt, alloc, rig))
}

// The images of both segments, with their indexes.
fn segments_of<R: Abort>(
    rt: &R,
    held: Vec<(u32, Spun<CountingDisk>)>,
    free: Vec<(u32, CountingDisk)>,
) -> Vec<(u32, CountingDisk)> {
    let mut segments = free;
    for (index, part) in held {
        segments
            .push((index, part.into_inner()))
            .expect(rt, "a place");
    }
    assert!(rt; segments.len() == 2);
    segments
}

// How often home and both segments were called.
fn calls_of<R: Abort>(rt: &R, remains: Remains) -> [u64; 3] {
    let Remains {
        home_disk,
        held,
        free,
        ..
    } = remains;
    let mut calls = [home_disk.calls(), 0, 0];
    for (index, disk) in segments_of(rt, held, free) {
        match index {
            0 => calls[1] = disk.calls(),
            _ => calls[2] = disk.calls(),
        }
    }
    calls
}

// Looks for newer content of the first two blocks in a segment, whose records begin with the first.
fn look_in(
    alloc: Global,
    token: &Awake,
    disk: MemDisk,
    newest: &mut [(u64, Block); 2],
) -> Result<(), Fail>
    requires { token_volume token.now ≡ 1 }
{
    if disk.blocks() < 4 || disk.blocks() > 65536 {
        return Err(Fail::from("no segment"));
    }
    let mut part = Spun::new(1, disk);
    let Ok(found) = scan(alloc, token, &mut part) else {
        return Err(Fail::from("no scan"));
    };
    let mut disk = part.into_inner();
    for record in &found.records {
        for offset in 0..2 {
            let at = u64::from(record.pos) + 1 + offset;
            let keeps = record.head.keep >> offset & 1 == 1;
            if keeps && record.head.lbn == 0 && at < disk.blocks() {
                let place = offset as usize;
                if newest[place].0 < record.head.version {
                    let mut block = [[0; 512]];
                    disk.read(at, &mut block)?;
                    newest[place] = (record.head.version, block[0]);
                }
            }
        }
    }
    Ok(())
}

// What the two blocks read as after a crash that leaves this subset of what wasn't synced: bit 0 and 1 are the blocks of home, bit
// 2 and 3 what was written to the segments.
fn read_with<R: Abort>(
    rt: &R,
    alloc: Global,
    token: &Awake,
    remains: Remains,
    subset: u32,
) -> Result<[Block; 2], Fail>
    requires { token_volume token.now ≡ 1 }
{
    let Remains {
        home_disk,
        held,
        free,
        ..
    } = remains;
    let mut home = home_disk.into_inner();
    home.restart(&[subset & 1, subset >> 1 & 1]);
    if home.blocks() < 2 {
        return Err(Fail::from("no home"));
    }
    let mut blocks = [[0; 512]; 2];
    home.read(0, &mut blocks)?;
    let mut newest = [(0, blocks[0]), (0, blocks[1])];
    for (index, disk) in segments_of(rt, held, free) {
        let mut segment = disk.into_inner();
        let bit = if index == 0 { 4 } else { 8 };
        if subset & bit == 0 {
            segment.restart(&[0; 32]);
        } else {
            segment.restart(&[]);
        }
        look_in(alloc, token, segment, &mut newest)?;
    }
    Ok([newest[0].1, newest[1].1])
}

// The same, while the disk of the segments is awake.
fn read_back<R: Abort>(
    rt: &R,
    alloc: Global,
    remains: Remains,
    subset: u32,
) -> Result<[Block; 2], Fail> {
    let mut spindle = Spindle::new(1, 100);
    let token = spindle.need();
    let read = read_with(rt, alloc, &token, remains, subset);
    spindle.done(token);
    read
}

// Each subset of what a turn leaves unsynced that stops at these calls.
fn try_subsets<R: Abort + Wait>(
    rt: &R,
    alloc: Global,
    turn: Turn,
    stops: [u64; 3],
) -> Result<(), Fail> {
    for subset in 0..SUBSETS {
        let (done, remains) = left_by(rt, alloc, turn, stops);
        assert!(rt; done == (stops == [NEVER; 3]), "{turn:?} {stops:?}");
        let read = read_back(rt, alloc, remains, subset)?;
        assert!(rt; read == NEWEST, "{turn:?} {stops:?} {subset}");
    }
    Ok(())
}

// Stops at each call of home's disk and of the segments.
fn try_stops<R: Abort + Wait>(rt: &R, alloc: Global, turn: Turn) -> Result<(), Fail> {
    let rig = logged_twice(rt, alloc, [NEVER; 3]);
    let before = calls_of(rt, apart(rt, alloc, rig));
    let after = calls_of(rt, left_by(rt, alloc, turn, [NEVER; 3]).1);
    for disk in 0..3 {
        assert!(rt; before[disk] < after[disk]);
        for call in before[disk]..after[disk] {
            let mut stops = [NEVER; 3];
            stops[disk] = call;
            try_subsets(rt, alloc, turn, stops)?;
        }
    }
    try_subsets(rt, alloc, turn, [NEVER; 3])
}

#[test]
fn what_was_logged_twice_reads_as_the_newest_wherever_a_reclaim_turn_stops(
    rt: HostRuntime,
) -> Result<(), Fail> {
    try_stops(&rt, rt.alloc(), Turn::Reclaim)
}

#[test]
fn what_was_logged_twice_reads_as_the_newest_wherever_a_drain_stops(
    rt: HostRuntime,
) -> Result<(), Fail> {
    try_stops(&rt, rt.alloc(), Turn::Drain)
}

#[test]
fn what_was_logged_twice_reads_as_the_newest_wherever_single_steps_stop(
    rt: HostRuntime,
) -> Result<(), Fail> {
    try_stops(&rt, rt.alloc(), Turn::Steps)
}
