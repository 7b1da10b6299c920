// Disks that stop while volumes are cleaned or a view is changed, and what is there behind it.
use super::commands::{Command, add, ended, remove};
use super::volumes::{checked, crash, off_loaded, parts, stop_after};
use fixtures::{CHOICES, Left, ONE_LOGGED, OVERLAPPING, TWO, Volume, config_text};
use std::alloc::Global;
use std::process::Abort;
use std::sync::Wait;
use std::test::Fail;
use std::thread::Threads;
use view_commands::Order;

// A command on two volumes to which a trace was written.
#[derive(Clone, Copy)]
struct Row<'a> {
    config: &'a str,
    volumes: [Volume<'a>; 2],
    trace: &'a [u8],
    command: Command<'a>,
    /// What it prints where nothing stops.
    printed: &'a [u8],
    /// The statuses that it may have once more behind a stop, and has where it was done before.
    again: &'a [u8],
    done: u8,
    /// The numbers of the first volume in a check, before and behind it.
    before: &'a [u8],
    behind: &'a [u8],
}

// Where these numbers stand.
const DIGEST: usize = 76;

const CLEANED: Row<'_> = Row {
    config: config_text!(8:
        "a" of "a" 8 0 "\"b\"",
        "b" of "b" 1 3 ""
    ),
    volumes: [("a", 10), ("b", 27)],
    trace: OVERLAPPING,
    command: Command::Clean,
    printed: b"clean a records 2 to 1 copied 3
clean b records 0 to 0 copied 0
",
    again: &[0],
    done: 0,
    before: b" records 2 segments 1\n",
    behind: b" records 1 segments 1\n",
};

// The change of a view.
fn changing<'a>(order: Order<'a>, printed: &'a [u8], behind: &'a [u8]) -> Row<'a> {
    Row {
        config: TWO,
        volumes: [("a", 11), ("b", 15)],
        trace: ONE_LOGGED,
        command: Command::Change(order),
        printed,
        again: &[0, 15],
        done: 15,
        before: b" records 1 segments 1\n",
        behind,
    }
}

// A command over disks that stop after so many calls, and once more after a crash that left this: the status, how many calls passed, and
// the status of the second time. The first volume has the array from before.
fn stopped<R: Abort + Threads + Wait + Sync>(
    rt: &R,
    alloc: Global,
    row: &Row<'_>,
    calls: u64,
    left: Left,
) -> Result<(u8, u64, u8), Fail> {
    let (config, mut bay) = off_loaded(rt, alloc, row.config, row.trace)?;
    let before = checked(rt, alloc, &config, &mut bay)?;
    let (array, _others) = parts(rt, &before, DIGEST, row.before);
    let fuse = stop_after(alloc, &mut bay, calls)?;
    let (status, text) = ended(rt, alloc, &config, &mut bay, &row.command)?;
    assert!(rt; status != 0 || text.as_slice() == row.printed);
    crash(alloc, &mut bay, &row.volumes, left)?;
    let after = checked(rt, alloc, &config, &mut bay)?;
    assert!(rt; after.starts_with(array), "{calls} {left:?}");
    let (again, _text) = ended(rt, alloc, &config, &mut bay, &row.command)?;
    let last = checked(rt, alloc, &config, &mut bay)?;
    let (kept, _others) = parts(rt, &last, DIGEST, row.behind);
    assert!(rt; kept == array, "{calls} {left:?}");
    Ok((status, fuse.passed(), again))
}

// Stops at each call of a disk.
fn try_each<R: Abort + Threads + Wait + Sync>(
    rt: &R,
    alloc: Global,
    row: &Row<'_>,
    left: Left,
) -> Result<(), Fail> {
    for calls in 0..1000 {
        let (status, passed, again) = stopped(rt, alloc, row, calls, left)?;
        assert!(rt;
            matches!(status, 0 | 4 | 6) && row.again.contains(&again),
            "{status} {again}"
        );
        if status == 0 && passed < calls {
            assert!(rt; again == row.done);
            return Ok(());
        }
    }
    panic!(rt; "it made a thousand calls")
}

#[test]
fn a_stop_leaves_the_array(rt: HostRuntime) -> Result<(), Fail> {
    for left in CHOICES {
        try_each(&rt, rt.alloc(), &CLEANED, left)?;
    }
    Ok(())
}

#[test]
fn a_stop_leaves_the_old_view_or_the_new_one(rt: HostRuntime) -> Result<(), Fail> {
    let removed = changing(
        remove("a", "b"),
        b"view a loggers\n",
        b" records 0 segments 0\n",
    );
    let added = changing(
        add("b", "a"),
        b"view b loggers a\n",
        b" records 1 segments 1\n",
    );
    for row in [removed, added] {
        for left in [Left::AllOld, Left::AllNext] {
            try_each(&rt, rt.alloc(), &row, left)?;
        }
    }
    Ok(())
}
