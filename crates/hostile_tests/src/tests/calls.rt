// Calls of the program over images in memory.
ghost use Rattle.solo.specs.Images.{NoneOut};
ghost use Rattle.wol_bay.specs.MemBay.{mem_bay_state};

use fixtures::{Call, words_of};
use std::alloc::{AllocError, Global};
use std::sync::Wait;
use std::test::Fail;
use std::thread::Threads;
use wol_bay::MemBay;
use wol_disk::NoMemory;
use wol_io::{MemSink, MemSource, NoGate};
use wol_run::run;

/// Which call of what is around the program fails, counted from 0.
#[derive(Clone, Copy)]
pub enum Failing<'a> {
    Nothing,
    /// All calls of disks from this one on.
    Disks(u64),
    /// A call of this part of an image.
    Part(&'a str, u32, u64),
    /// A call of a stream.
    Stream(Stream, u64),
}

/// Where the configuration comes from, where the trace or what a client sends comes from, and where all that is printed goes.
#[derive(Clone, Copy, Debug, PartialEq, Eq)]
pub enum Stream {
    Config,
    Trace,
    Sink,
}

impl Stream {
    /// The status where a call of it fails.
    pub fn status(self) -> u8 {
        match self {
            Stream::Config | Stream::Trace => 8,
            Stream::Sink => 7,
        }
    }

    /// How many calls of it a command makes at least.
    pub fn least_calls(self) -> u64 {
        match self {
            Stream::Config | Stream::Trace => 11,
            Stream::Sink => 1,
        }
    }
}

impl Failing<'_> {
    // The call of a stream that fails.
    fn call_of(self, stream: Stream) -> Option<u64> {
        match self {
            Failing::Stream(failing, call) if failing == stream => Some(call),
            _ => None,
        }
    }
}

// How many bytes a call of a source hands out at most.
const CUT: usize = 16;

fn source_of(alloc: Global, bytes: &[u8], fail_at: Option<u64>) -> Result<MemSource, AllocError> {
    let mut cuts = Vec::new(alloc);
    cuts.resize(bytes.len() / CUT + 1, CUT)?;
    Ok(MemSource::new(Vec::from_slice(alloc, bytes)?, cuts, fail_at))
}

/// Plans the call of a part that fails.
pub fn plan(bay: &mut MemBay, failing: Failing<'_>) -> Result<(), NoMemory>
    requires { NoneOut (mem_bay_state bay.old) }
    ensures { NoneOut (mem_bay_state bay.new) }
{
    if let Failing::Part(image, part, number) = failing {
        bay.plan(image, part, number)?;
    }
    Ok(())
}

/// The status of a call, and what it prints, where this call of a stream fails.
pub fn make_call<R: Threads + Wait + Sync>(
    rt: &R,
    alloc: Global,
    bay: &mut MemBay,
    config: &str,
    call: Call<'_>,
    failing: Failing<'_>,
) -> Result<(u8, Vec<u8>), Fail>
    requires none { NoneOut (mem_bay_state bay.old) }
    ensures none { NoneOut (mem_bay_state bay.new) }
{
    let words = words_of(alloc, call.words)?;
    let mut config = source_of(alloc, config.as_bytes(), failing.call_of(Stream::Config))?;
    let mut trace = source_of(alloc, call.trace, failing.call_of(Stream::Trace))?;
    let mut out = MemSink::new(alloc, failing.call_of(Stream::Sink));
    let status = run(
        rt,
        alloc,
        &words,
        &mut config,
        &mut trace,
        &mut out,
        bay,
        &NoGate,
    );
    Ok((status, Vec::from_slice(alloc, out.bytes())?))
}
