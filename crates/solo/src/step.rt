// One line of the trace: whether it belongs to the volume, and what is counted of it.
ghost use Rattle.msr_trace.specs.Lines.{Fits, trace_line};
ghost use Rattle.solo.specs.Requests.{requests_at, tally_with};
ghost use Rattle.solo.specs.Served.{Counts, IsSettled, Serves, content_of, content_after};
ghost use Rattle.solo.specs.Volume.{IsVolume, target_of};
ghost use Rattle.wol_model.specs.Trace.{is_write};
ghost use Rattle.std.specs.Prelude.{◌≡◌, ◌+◌, ◌≤◌, ◌<◌, ◌^◌, length, option_map, if◌then◌else◌, IfSome, OnOk, IsErrOf};

use crate::fault::Fault;
use crate::line::run_line;
use crate::tally::Tally;
use crate::volume::{Volume, belongs};
use msr_trace::{Kind, Line};
use std::alloc::Global;
use wol_disk::{Block, Disk};
use wol_io::{Gate, Sink};

/// Runs a line, and counts it. A blank line, and one of another volume, asks for nothing.
pub fn take_line<D: Disk, K: Sink, G: Gate>(
    alloc: Global,
    volume: &Volume<'_>,
    part: &mut D,
    out: &mut K,
    gate: &G,
    blocks: &mut [Block],
    number: u64,
    line: Option<Line>,
    tally: &mut Tally,
) -> Result<(), Fault>
    requires volume { IsVolume (target_of volume.now) }
    requires size { (D.state part.old).size ≡ volume.now.blocks }
    requires settled { IsSettled (D.state part.old).values }
    requires room { length blocks.old ≡ 128 }
    requires fits { IfSome line (λ line. Fits (trace_line line)) }
    requires lines { tally.old.lines < 2 ^ 33 }
    requires others { tally.old.blank + tally.old.skipped < 2 ^ 33 }
    requires requests { tally.old.reads + tally.old.writes ≤ 2 ^ 61 }
    ensures size { (D.state part.new).size ≡ (D.state part.old).size }
    ensures room { length blocks.new ≡ 128 }
    ensures tally { OnOk result (tally.new
        ≡ tally_with (target_of volume.now) number (option_map trace_line line) tally.old) }
    ensures lines { OnOk result (tally.new.lines ≡ tally.old.lines + 1) }
    ensures others { OnOk result
        (tally.new.blank + tally.new.skipped ≤ tally.old.blank + tally.old.skipped + 1) }
    ensures requests { OnOk result
        (tally.new.reads + tally.new.writes ≤ tally.old.reads + tally.old.writes + 131073) }
    ensures settled { OnOk result (IsSettled (D.state part.new).values) }
    ensures values { OnOk result (content_of (D.state part.new).values
        ≡ content_after (requests_at (target_of volume.now) number (option_map trace_line line))
        (content_of (D.state part.old).values)) }
    ensures content { Serves (content_of (D.state part.old).values)
        (requests_at (target_of volume.now) number (option_map trace_line line)) result
        (K.taken out.old) (K.taken out.new) (D.state part.new).values }
    ensures disk { Counts (IsErrOf result Fault.Disk) (D.state part.old).faults
        (D.state part.new).faults }
    ensures sink { Counts (IsErrOf result Fault.Sink) (K.faults out.old) (K.faults out.new) }
{
    tally.lines += 1;
    let Some(line) = line else {
        tally.blank += 1;
        return Ok(());
    };
    if !belongs(volume, &line) {
        tally.skipped += 1;
        return Ok(());
    }
    let earlier = tally.reads + tally.writes;
    let count = run_line(alloc, part, out, gate, blocks, &line, number, earlier)?;
    add_requests(tally, line.kind, count);
    Ok(())
}

// Counts requests that were answered.
fn add_requests(tally: &mut Tally, kind: Kind, count: u64)
    requires { tally.old.reads + tally.old.writes + count < 2 ^ 64 }
    ensures lines { tally.new.lines ≡ tally.old.lines }
    ensures blank { tally.new.blank ≡ tally.old.blank }
    ensures skipped { tally.new.skipped ≡ tally.old.skipped }
    ensures reads { tally.new.reads ≡ tally.old.reads + (if is_write kind then 0 else count) }
    ensures writes { tally.new.writes ≡ tally.old.writes + (if is_write kind then count else 0) }
{
    match kind {
        Kind::Read => tally.reads += count,
        Kind::Write => tally.writes += count,
    }
}
