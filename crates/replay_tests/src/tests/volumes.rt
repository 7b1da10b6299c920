// What is the same in all tests: volumes, a run on them and its status, what a check tells of them, and a crash of their disks.
ghost use Rattle.replay.specs.Sessions.{AreOptions};
ghost use Rattle.std.specs.Prelude.{◌≡◌, [], Some, IfOk};
ghost use Rattle.wol_bay.specs.Bay.{outs};
ghost use Rattle.wol_bay.specs.MemBay.{mem_bay_state};
ghost use Rattle.wol_config.specs.Configs.{IsValid};

use fixtures::{Left, Volume};
use inspection::{Asked, inspect};
use msr_trace::Lines;
use rack::format;
use replay::{Given, Options, Stop, replay};
use request_workers::{Reclaim, Sharing};
use std::alloc::Global;
use std::process::Abort;
use std::sync::{Arc, Wait};
use std::test::Fail;
use std::thread::Threads;
use wol_bay::MemBay;
use wol_config::{Config, read_config};
use wol_disk::Fuse;
use wol_io::{Gate, MemSink, MemSource, NoGate};

/// The bay of volumes that were formatted.
pub(crate) fn formatted<R: Abort>(rt: &R, alloc: Global, config: &Config) -> MemBay
    requires { IsValid config.now }
    ensures { outs (mem_bay_state result) ≡ Some [] }
{
    let mut bay = MemBay::new(alloc);
    assert!(rt; format(alloc, &mut bay, config).is_ok());
    bay
}

/// A configuration of this text, and the bay of its volumes, which were formatted.
pub(crate) fn laid_out<R: Abort>(
    rt: &R,
    alloc: Global,
    text: &str,
) -> Result<(Config, MemBay), Fail>
    ensures { IfOk result (λ r. IsValid r.0 × (outs (mem_bay_state r.1) ≡ Some [])) }
{
    let config = read_config(alloc, text.as_bytes())?;
    let bay = formatted(rt, alloc, &config);
    Ok((config, bay))
}

/// The status of a run over the volumes of a bay, and what it prints. The bytes of the trace come one by one.
pub(crate) fn run<R: Abort + Threads + Wait + Sync, G: Gate + Sync>(
    rt: &R,
    alloc: Global,
    config: &Config,
    bay: &mut MemBay,
    trace: &[u8],
    options: Options,
    gate: &G,
) -> Result<(u8, MemSink), Fail>
    requires valid { IsValid config.now }
    requires options { AreOptions options }
    requires none { outs (mem_bay_state bay.old) ≡ Some [] }
    ensures none { outs (mem_bay_state bay.new) ≡ Some [] }
{
    let mut out = MemSink::new(alloc, None);
    let mut cuts = Vec::new(alloc);
    cuts.resize(trace.len(), 1)?;
    let source = MemSource::new(Vec::from_slice(alloc, trace)?, cuts, None);
    let mut given = Given::Trace(Lines::new(alloc, source));
    let status = status_of(replay(rt, alloc, config, &mut given, options, &mut out, bay, gate));
    Ok((status, out))
}

/// The status that a run ends with.
pub(crate) fn status_of(answer: Result<(), Stop>) -> u8 {
    match answer {
        Ok(()) => 0,
        Err(Stop::Fault(fault)) => fault.status(),
        Err(Stop::Sink) => 7,
    }
}

/// A configuration of this text, and the bay of its volumes, to which a trace was written with nothing reclaimed.
pub(crate) fn off_loaded<R: Abort + Threads + Wait + Sync>(
    rt: &R,
    alloc: Global,
    text: &str,
    trace: &[u8],
) -> Result<(Config, MemBay), Fail>
    ensures { IfOk result (λ r. IsValid r.0 × (outs (mem_bay_state r.1) ≡ Some [])) }
{
    let (config, mut bay) = laid_out(rt, alloc, text)?;
    let options = Options {
        workers: 1,
        sharing: Sharing::WherePays,
        reclaim: Reclaim::Off,
        each: false,
    };
    let (status, _out) = run(rt, alloc, &config, &mut bay, trace, options, &NoGate)?;
    assert!(rt; status == 0);
    Ok((config, bay))
}

/// The lines of a check.
pub(crate) fn checked<R: Abort + Threads + Wait + Sync>(
    rt: &R,
    alloc: Global,
    config: &Config,
    bay: &mut MemBay,
) -> Result<Vec<u8>, Fail>
    requires valid { IsValid config.now }
    requires none { outs (mem_bay_state bay.old) ≡ Some [] }
    ensures none { outs (mem_bay_state bay.new) ≡ Some [] }
{
    let mut out = MemSink::new(alloc, None);
    let first = inspect(rt, alloc, Asked::Check, config, bay, &mut out);
    assert!(rt; matches!(&first, Ok(None)));
    Ok(Vec::from_slice(alloc, out.bytes())?)
}

/// What a check has before and behind these numbers of its first line, which stand behind the name, ` ok sha256 ` and 64 digits.
pub(crate) fn parts<'a, R: Abort>(
    rt: &R,
    text: &'a [u8],
    at: usize,
    numbers: &[u8],
) -> (&'a [u8], &'a [u8]) {
    let Some((front, rest)) = text.split_at_checked(at) else {
        panic!(rt; "a short check");
    };
    match rest.strip_prefix(numbers) {
        Some(others) => (front, others),
        None => panic!(rt; "{text:?}"),
    }
}

/// Lets so many calls of the disks pass.
pub(crate) fn stop_after(alloc: Global, bay: &mut MemBay, calls: u64) -> Result<Arc<Fuse>, Fail>
    requires { outs (mem_bay_state bay.old) ≡ Some [] }
    ensures { outs (mem_bay_state bay.new) ≡ Some [] }
{
    let fuse = Arc::new(alloc, Fuse::new(calls))?;
    bay.set_fuse(Some(Arc::try_clone(&fuse)?));
    Ok(fuse)
}

/// The disks are there again behind a crash that left this of each image.
pub(crate) fn crash(
    alloc: Global,
    bay: &mut MemBay,
    volumes: &[Volume<'_>],
    left: Left,
) -> Result<(), Fail>
    requires { outs (mem_bay_state bay.old) ≡ Some [] }
    ensures { outs (mem_bay_state bay.new) ≡ Some [] }
{
    bay.set_fuse(None);
    fixtures::crash(alloc, bay, volumes, left)
}
