// Replays over disks that stop, and what is there after a crash of the disks.
ghost use Rattle.std.specs.Prelude.{◌≡◌};
ghost use Rattle.wol_config.specs.Configs.{IsValid};

use super::several::{between, stands_in};
use super::volumes::{crash, formatted, run, stop_after};
use fixtures::{DRAINING, DRAINS, Left, Volume};
use replay::Options;
use request_workers::Reclaim;
use std::alloc::Global;
use std::process::Abort;
use std::sync::Wait;
use std::test::Fail;
use std::thread::Threads;
use wol_config::{Config, read_config};
use wol_io::NoGate;

/// A trace of two volumes, and what is found of the first where the disks stop within.
#[derive(Clone, Copy)]
pub(crate) struct Stops<'a> {
    pub config: &'a str,
    pub volumes: [Volume<'a>; 2],
    pub reclaim: Reclaim,
    pub trace: &'a [u8],
    /// What is printed of the whole trace, among others.
    pub placed: &'a [u8],
    pub read: &'a [u8],
    /// What is printed of that read; the longer the disks work the later ones.
    pub found: &'a [&'a [u8]],
}

/// One worker.
pub(crate) fn alone(reclaim: Reclaim) -> Options
    ensures { result.workers ≡ 1 }
{
    Options {
        reclaim,
        ..between(1)
    }
}

/// A run of a trace over disks that stop after so many calls: its status, how many calls passed, and which of what may be read is
/// read after a crash that left this.
pub(crate) fn stopped<R: Abort + Threads + Wait + Sync>(
    rt: &R,
    alloc: Global,
    config: &Config,
    row: &Stops<'_>,
    trace: &[u8],
    calls: u64,
    left: Left,
) -> Result<(u8, u64, usize), Fail>
    requires { IsValid config.now }
{
    let mut bay = formatted(rt, alloc, config);
    let fuse = stop_after(alloc, &mut bay, calls)?;
    let options = alone(row.reclaim);
    let (status, out) = run(rt, alloc, config, &mut bay, trace, options, &NoGate)?;
    let is_placed = status != 0 || trace.is_empty() || stands_in(out.bytes(), row.placed);
    assert!(rt; is_placed);
    crash(alloc, &mut bay, &row.volumes, left)?;
    let (again, out) = run(rt, alloc, config, &mut bay, row.read, options, &NoGate)?;
    assert!(rt; again == 0);
    match row
        .found
        .iter()
        .position(|text| out.bytes().starts_with(*text))
    {
        Some(found) => Ok((status, fuse.passed(), found)),
        None => panic!(rt; "{calls}"),
    }
}

/// What is found after a stop is what was written so far: with more calls never less, and before the last call this.
pub(crate) fn try_stops<R: Abort + Threads + Wait + Sync>(
    rt: &R,
    alloc: Global,
    row: &Stops<'_>,
    left: Left,
    last: usize,
) -> Result<(), Fail> {
    let config = read_config(alloc, row.config.as_bytes())?;
    let (_, opened, _) = stopped(rt, alloc, &config, row, b"", u64::MAX, left)?;
    let (whole, all, written) = stopped(rt, alloc, &config, row, row.trace, u64::MAX, left)?;
    assert!(rt; whole == 0 && Some(written) == row.found.len().checked_sub(1));
    let mut most = 0;
    for calls in opened..all {
        let (status, passed, found) = stopped(rt, alloc, &config, row, row.trace, calls, left)?;
        assert!(rt; status == 4 && passed == calls && found >= most, "{calls}");
        most = found;
    }
    assert_eq!(rt; most, last);
    Ok(())
}

const DRAINED: Stops<'_> = Stops {
    config: DRAINING,
    volumes: [("a", 102), ("b", 106)],
    reclaim: Reclaim::Between,
    trace: DRAINS,
    placed: b"placed home 1 log 1 drains 1\n",
    read: b"128166373000000000,a,0,Read,0,512,100\n",
    found: &[
        b"read 1 a 0 1 0\n",
        b"read 1 a 0 1 3\n",
        b"read 1 a 0 1 4\n",
    ],
};

#[test]
fn writes_outlive_disks_that_stop(rt: HostRuntime) -> Result<(), Fail> {
    for left in [Left::AllOld, Left::AllNew] {
        try_stops(&rt, rt.alloc(), &DRAINED, left, 2)?;
    }
    Ok(())
}
