// Calls of the program over images in memory.
ghost use Rattle.solo.specs.Images.{NoneOut};
ghost use Rattle.wol_bay.specs.MemBay.{mem_bay_state};

use fixtures::{Call, words_of};
use std::alloc::{AllocError, Global};
use std::sync::Wait;
use std::test::Fail;
use std::thread::Threads;
use wol_bay::MemBay;
use wol_io::{MemSink, MemSource, NoGate};
use wol_run::run;

/// Which calls of the configuration's source, of the trace's and of the sink fail, counted from 0.
#[derive(Clone, Copy)]
pub struct Faults {
    pub config: Option<u64>,
    pub trace: Option<u64>,
    pub sink: Option<u64>,
}

/// Of a call in which nothing fails.
pub const NONE: Faults = Faults {
    config: None,
    trace: None,
    sink: None,
};

// How many bytes the first calls of a source hand out at most; each further one hands out sixteen.
const FIRST_CUTS: [usize; 4] = [3, 1, 0, 7];

fn source_of(alloc: Global, bytes: &[u8], fail_at: Option<u64>) -> Result<MemSource, AllocError> {
    let mut cuts = FIRST_CUTS.to_vec(alloc)?;
    let further = vec![in alloc; 16; bytes.len() / 16 + 1]?;
    cuts.extend_from_slice(&further)?;
    Ok(MemSource::new(Vec::from_slice(alloc, bytes)?, cuts, fail_at))
}

/// The status of a call, and what it prints.
pub fn make_call<R: Threads + Wait + Sync>(
    rt: &R,
    alloc: Global,
    bay: &mut MemBay,
    config: &[u8],
    call: Call<'_>,
    faults: Faults,
) -> Result<(u8, Vec<u8>), Fail>
    requires none { NoneOut (mem_bay_state bay.old) }
    ensures none { NoneOut (mem_bay_state bay.new) }
{
    let words = words_of(alloc, call.words)?;
    let mut config = source_of(alloc, config, faults.config)?;
    let mut trace = source_of(alloc, call.trace, faults.trace)?;
    let mut out = MemSink::new(alloc, faults.sink);
    let status = run(
        rt,
        alloc,
        &words,
        &mut config,
        &mut trace,
        &mut out,
        bay,
        &NoGate,
    );
    Ok((status, Vec::from_slice(alloc, out.bytes())?))
}
