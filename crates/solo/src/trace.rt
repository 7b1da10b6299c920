// The lines of a trace, run as they come.
ghost use Rattle.msr_trace.specs.Reading.{pending};
ghost use Rattle.solo.specs.Faults.{fault_of};
ghost use Rattle.solo.specs.Runs.{Runs};
ghost use Rattle.solo.specs.Served.{Counts, IsSettled, content_of};
ghost use Rattle.solo.specs.Volume.{IsVolume, target_of};
ghost use Rattle.std.specs.Io.KnownBytes.{IsAtEnd};
ghost use Rattle.std.specs.Prelude.{◌≡◌, true, length, OnOk, IsErrOf};

use crate::fault::Fault;
use crate::step::take_line;
use crate::tally::Tally;
use crate::volume::Volume;
use msr_trace::{Lines, TraceFault};
use std::alloc::Global;
use wol_disk::{Block, Disk};
use wol_io::{Gate, Sink, Source};

/// Runs the lines of a trace on a part, each as it comes, and counts them.
pub fn run_lines<S: Source, D: Disk, K: Sink, G: Gate>(
    alloc: Global,
    volume: &Volume<'_>,
    lines: &mut Lines<S>,
    part: &mut D,
    out: &mut K,
    gate: &G,
    blocks: &mut [Block],
) -> Result<Tally, Fault>
    requires live { lines.old.live ≡ true }
    requires none { lines.old.given ≡ 0 }
    requires volume { IsVolume (target_of volume.now) }
    requires size { (D.state part.old).size ≡ volume.now.blocks }
    requires settled { IsSettled (D.state part.old).values }
    requires room { length blocks.old ≡ 128 }
    ensures size { (D.state part.new).size ≡ (D.state part.old).size }
    ensures content { Runs (target_of volume.now) (pending S.left lines.old)
        (S.left lines.new.source) (content_of (D.state part.old).values) result (K.taken out.old)
        (K.taken out.new) (D.state part.new).values }
    ensures end { OnOk result (IsAtEnd (S.left lines.new.source)) }
    ensures same_borrow { S.borrow lines.new.source ≡ S.borrow lines.old.source }
    ensures source { Counts (IsErrOf result Fault.Source) (S.faults lines.old.source)
        (S.faults lines.new.source) }
    ensures disk { Counts (IsErrOf result Fault.Disk) (D.state part.old).faults
        (D.state part.new).faults }
    ensures sink { Counts (IsErrOf result Fault.Sink) (K.faults out.old) (K.faults out.new) }
{
    let mut tally = Tally {
        lines: 0,
        blank: 0,
        skipped: 0,
        reads: 0,
        writes: 0,
    };
    for _ in 0..u64::MAX {
        let (number, line) = match lines.next() {
            Ok(Some(numbered)) => numbered,
            Ok(None) => return Ok(tally),
            Err(fault) => return Err(fault_of(fault)),
        };
        take_line(
            alloc, volume, part, out, gate, blocks, number, line, &mut tally,
        )?;
    }
    unreachable!()
}

fn fault_of(fault: TraceFault) -> Fault
    ensures { result ≡ fault_of fault }
{
    match fault {
        TraceFault::Source => Fault::Source,
        TraceFault::Bad { line, why } => Fault::BadLine { line, why },
        TraceFault::Spent => Fault::Spent,
        TraceFault::NoMemory => Fault::NoMemory,
    }
}
