// Runs by several workers, and runs that end early. The expected outputs were worked out by hand from the formats.
ghost use Rattle.replay.specs.Givens.{IsNew};
ghost use Rattle.replay.specs.Sessions.{AreOptions};
ghost use Rattle.std.specs.Prelude.{◌≡◌, ◌≤◌};

use super::gates::Holding;
use super::volumes::{laid_out, run, status_of};
use fixtures::{
    AT_ONCE, Change, DRAINING, DRAINS, Formatted, LAST_VERSION, OFFLOADS, OFFLOADS_KEPT,
    OFFLOADS_READ, ONE_LOGGED, READ_AND_WRITE, THREE, WEB0, generated_text, put,
};
use msr_trace::Lines;
use replay::{Given, Options, replay};
use request_workers::{Reclaim, Sharing};
use std::alloc::Global;
use std::process::Abort;
use std::sync::Wait;
use std::test::Fail;
use std::thread::Threads;
use trace_gen::Gen;
use wol_config::read_config;
use wol_io::{MemSink, MemSource, NoGate};

const READ_ALONE: &[u8] = b"read 1 usr0 0 1 0\n";

/// Reclaim after the requests of each window, and workers for each window, however few its requests are.
pub(crate) fn between(workers: u32) -> Options
    ensures { result.workers ≡ workers }
{
    Options {
        workers,
        sharing: Sharing::Always,
        reclaim: Reclaim::Between,
        each: true,
    }
}

// What a trace prints with these options on formatted volumes.
fn printed<R: Abort + Threads + Wait + Sync>(
    rt: &R,
    alloc: Global,
    config: &str,
    trace: &[u8],
    options: Options,
) -> Result<MemSink, Fail>
    requires { AreOptions options }
{
    let (config, mut bay) = laid_out(rt, alloc, config)?;
    let (status, out) = run(rt, alloc, &config, &mut bay, trace, options, &NoGate)?;
    assert_eq!(rt; status, 0);
    Ok(out)
}

#[test]
fn eight_workers_print_what_one_prints(rt: HostRuntime) -> Result<(), Fail> {
    let alloc = rt.alloc();
    let usual = Options {
        sharing: Sharing::WherePays,
        ..between(1)
    };
    let one = printed(&rt, alloc, THREE, OFFLOADS, usual)?;
    let alone = printed(&rt, alloc, THREE, OFFLOADS, between(1))?;
    let eight = printed(&rt, alloc, THREE, OFFLOADS, between(8))?;
    assert_eq!(rt; alone.bytes(), one.bytes());
    assert_eq!(rt; eight.bytes(), one.bytes());
    let one = printed(&rt, alloc, DRAINING, DRAINS, usual)?;
    let two = printed(&rt, alloc, DRAINING, DRAINS, between(2))?;
    assert_eq!(rt; two.bytes(), one.bytes());
    Ok(())
}

#[test]
fn records_are_kept_where_nothing_is_reclaimed(rt: HostRuntime) -> Result<(), Fail> {
    let off = Options {
        reclaim: Reclaim::Off,
        ..between(2)
    };
    let out = printed(&rt, rt.alloc(), THREE, OFFLOADS, off)?;
    assert!(rt; out.bytes().starts_with(OFFLOADS_READ));
    assert_eq!(rt; out.bytes().get(OFFLOADS_READ.len()..), Some(OFFLOADS_KEPT));
    Ok(())
}

#[test]
fn volumes_are_served_side_by_side(rt: HostRuntime) -> Result<(), Fail> {
    let alloc = rt.alloc();
    let (config, mut bay) = laid_out(&rt, alloc, THREE)?;
    let gate = Holding::new();
    let (status, _out) = run(&rt, alloc, &config, &mut bay, AT_ONCE, between(3), &gate)?;
    assert_eq!(&rt; status, 0);
    assert!(&rt; !gate.is_late());
    Ok(())
}

#[test]
fn no_version_comes_after_the_last(rt: HostRuntime) -> Result<(), Fail> {
    let alloc = rt.alloc();
    let (config, mut bay) = laid_out(&rt, alloc, THREE)?;
    put(alloc, &mut bay, &WEB0, LAST_VERSION)?;
    let (status, out) = run(
        &rt,
        alloc,
        &config,
        &mut bay,
        READ_AND_WRITE,
        between(1),
        &NoGate,
    )?;
    assert_eq!(&rt; status, 11);
    assert_eq!(&rt; out.bytes(), READ_ALONE);
    Ok(())
}

// The second of two volumes, whose one segment is owned by the first.
const OWNED: Formatted<'_> = Formatted {
    name: "b",
    blocks: 106,
    label: b"WOLVOL01\x01\x00\x00\x00\x64\x00\x00\x00\x00\x00\x00\x00\x01\x00\x00\x00\x04",
    view: b"WOLVIEW1",
    segments: &[],
};

const OWNER: Change<'_> = ("b", 102, b"WOLSEGO1");

const LOGGED: &[u8] = b"read 1 b 0 1 0
read 2 b 0 1 0
lines 3 blank 0 skipped 0
reads 2 writes 1
placed home 0 log 1 drains 0
reclaimed blocks 0 records 0
span 1000000000
volume a wakes 0 sleeps 1 awake 600000000 standby 400000000 energy 520000
volume b wakes 0 sleeps 0 awake 1000000000 standby 0 energy 800000
total wakes 0 sleeps 1 energy 1320000
";

#[test]
fn a_segment_that_holds_nothing_goes_to_its_pool(rt: HostRuntime) -> Result<(), Fail> {
    let alloc = rt.alloc();
    let (config, mut bay) = laid_out(&rt, alloc, DRAINING)?;
    put(alloc, &mut bay, &OWNED, &[OWNER])?;
    let (status, out) = run(
        &rt,
        alloc,
        &config,
        &mut bay,
        ONE_LOGGED,
        between(1),
        &NoGate,
    )?;
    assert_eq!(&rt; out.bytes(), LOGGED);
    assert_eq!(&rt; status, 0);
    Ok(())
}

// What twenty thousand generated lines begin with: the reads and writes that these lines ask for were counted apart.
const SOAKED: &[u8] = b"lines 20000 blank 0 skipped 0
reads 7587 writes 14987
placed ";

const SPAN: &[u8] = b"
span 755128953922
";

/// Whether these bytes stand in a text.
pub(crate) fn stands_in(text: &[u8], part: &[u8]) -> bool {
    for start in 0..text.len() {
        if text[start..].starts_with(part) {
            return true;
        }
    }
    false
}

// The generated lines.
fn generated() -> Given<MemSource>
    ensures { IsNew result }
{
    Given::Generated {
        generator: Gen::new(7),
        lines: 20_000,
    }
}

// What so many workers print of twenty thousand lines, on volumes that are formatted first.
fn soaked<R: Abort + Threads + Wait + Sync>(
    rt: &R,
    alloc: Global,
    workers: u32,
    sharing: Sharing,
    reclaim: Reclaim,
    given: Given<MemSource>,
) -> Result<MemSink, Fail>
    requires workers { (1 ≤ workers) × (workers ≤ 64) }
    requires new { IsNew given }
{
    let (config, mut bay) = laid_out(rt, alloc, THREE)?;
    let mut out = MemSink::new(alloc, None);
    let mut given = given;
    let options = Options {
        workers,
        sharing,
        reclaim,
        each: false,
    };
    let done = replay(
        rt, alloc, &config, &mut given, options, &mut out, &mut bay, &NoGate,
    );
    assert_eq!(rt; status_of(done), 0);
    assert!(rt; out.bytes().starts_with(SOAKED));
    assert!(rt; stands_in(out.bytes(), SPAN));
    Ok(out)
}

#[test]
fn generated_lines(rt: HostRuntime) -> Result<(), Fail> {
    let alloc = rt.alloc();
    let pays = Sharing::WherePays;
    let one = soaked(&rt, alloc, 1, pays, Reclaim::Between, generated())?;
    let always = Sharing::Always;
    let again = soaked(&rt, alloc, 1, always, Reclaim::Between, generated())?;
    assert_eq!(rt; one.bytes(), again.bytes());
    let config = read_config(alloc, THREE.as_bytes())?;
    let source = MemSource::new(
        generated_text(alloc, &config, 7, 20_000)?,
        Vec::new(alloc),
        None,
    );
    let trace = Given::Trace(Lines::new(alloc, source));
    let replayed = soaked(&rt, alloc, 1, pays, Reclaim::Between, trace)?;
    assert_eq!(rt; one.bytes(), replayed.bytes());
    soaked(&rt, alloc, 4, pays, Reclaim::Beside, generated())?;
    soaked(&rt, alloc, 4, always, Reclaim::Between, generated())?;
    soaked(&rt, alloc, 4, always, Reclaim::Beside, generated())?;
    Ok(())
}
