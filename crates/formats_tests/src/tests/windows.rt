// Traces whose windows are known.
ghost use Rattle.std.specs.Prelude.{◌≤◌, IfOk};
ghost use Rattle.wol_config.specs.Configs.{IsValid};

use fixtures::{THREE, same};
use msr_trace::Lines;
use std::alloc::Global;
use std::test::Fail;
use trace_windows::{Batch, Cutter, Tally};
use wol_config::{Config, read_config};
use wol_io::MemSource;

// What is noted of a window.
#[derive(Clone, Copy, Debug, PartialEq, Eq)]
struct Cut {
    moment: u64,
    lines: u32,
    requests: usize,
}

fn cut_of(batch: &Batch) -> Cut {
    noted(batch.moment(), batch.lines(), batch.requests().len())
}

// Takes the next line, if there is one and not ten were taken, and notes the window that it closes. Says whether it took one.
fn take_next(
    lines: &mut Lines<MemSource>,
    cutter: &mut Cutter,
    config: &Config,
    cuts: &mut Vec<Cut>,
) -> Result<bool, Fail>
    requires { IsValid config.now }
{
    if !lines.is_live() || cutter.tally().lines >= 10 {
        return Ok(false);
    }
    let Some((_, line)) = lines.next()? else {
        return Ok(false);
    };
    if cutter.take(config, line.as_ref())? {
        cuts.push(cut_of(cutter.whole()))?;
    }
    Ok(true)
}

// The windows of a trace of at most ten lines over three volumes, and what was counted of its lines.
fn cut_text(alloc: Global, text: &[u8]) -> Result<(Vec<Cut>, Tally), Fail>
    ensures { IfOk result (λ r. r.1.started ≤ r.1.ended) }
{
    let config = read_config(alloc, THREE.as_bytes())?;
    let counts = vec![in alloc; 4096; text.len()]?;
    let mut lines = Lines::new(alloc, MemSource::new(text.to_vec(alloc)?, counts, None));
    let mut cutter = Cutter::new(alloc);
    let mut cuts = Vec::new(alloc);
    for _ in 0..10 {
        if !take_next(&mut lines, &mut cutter, &config, &mut cuts)? {
            break;
        }
    }
    let last = cutter.current();
    if last.lines() > 0 {
        cuts.push(cut_of(last))?;
    }
    Ok((cuts, cutter.tally()))
}

fn noted(moment: u64, lines: u32, requests: usize) -> Cut {
    Cut {
        moment,
        lines,
        requests,
    }
}

// A line joins up to a unit before the second is over. Blank lines are in no window, and skipped ones are.
#[test]
fn windows_last_a_second(rt: HostRuntime) -> Result<(), Fail> {
    let text = b"100,usr,0,Write,0,8192,1
\n10000099,web,0,Read,0,512,1
10000100,prn,0,Write,0,512,1
20000099,usr,1,Write,0,512,1
30000000,usr,0,Read,511000,2000,1
";
    let (cuts, tally) = cut_text(rt.alloc(), text)?;
    let expected = [
        noted(100, 2, 3),
        noted(10_000_100, 2, 0),
        noted(30_000_000, 1, 2),
    ];
    same(&cuts.as_slice(), &expected.as_slice())?;
    same(&(tally.lines, tally.blank, tally.skipped), &(6, 1, 2))?;
    same(&(tally.requests, tally.span()), &(5, 29_999_900))?;
    Ok(())
}

// A line counts for the time of the line before where its own is earlier.
#[test]
fn times_never_fall(rt: HostRuntime) -> Result<(), Fail> {
    let text = b"50000000,usr,0,Write,0,512,1
1,usr,0,Write,0,512,1
60000000,usr,0,Write,0,512,1
";
    let (cuts, tally) = cut_text(rt.alloc(), text)?;
    let expected = [noted(50_000_000, 2, 2), noted(60_000_000, 1, 1)];
    same(&cuts.as_slice(), &expected.as_slice())?;
    same(&tally.span(), &10_000_000)?;
    Ok(())
}

// A trace of blank lines has no window.
#[test]
fn blank_lines_are_no_window(rt: HostRuntime) -> Result<(), Fail> {
    let (cuts, tally) = cut_text(rt.alloc(), b"\n\r\n\n")?;
    same(&cuts.len(), &0)?;
    same(&(tally.lines, tally.blank, tally.span()), &(3, 3, 0))?;
    Ok(())
}
