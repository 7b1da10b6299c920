// The image of a run: it is made, the trace is run on it, and it goes back.
ghost use Rattle.solo.specs.Faults.{fault_of_bay};
ghost use Rattle.solo.specs.Images.{IsOnePart, NoneOut, PartCameBackFaulty, RunsInBay, RunsOnFirst};
ghost use Rattle.solo.specs.Runs.{Runs};
ghost use Rattle.solo.specs.Served.{Counts, IsSettled, content_of};
ghost use Rattle.solo.specs.Summed.{SumsUp};
ghost use Rattle.solo.specs.Texts.{summary_text};
ghost use Rattle.solo.specs.Volume.{IsVolume, target_of};
ghost use Rattle.std.specs.Io.KnownBytes.{IsAtEnd};
ghost use Rattle.std.specs.Prelude.{◌≡◌, ◌≢◌, [], OnOk, IfOk, IsErrOf, string_bytes, ◌⊎◌};
ghost use Rattle.wol_bay.specs.Parts.{faulty_places, sizes_of};

use crate::fault::Fault;
use crate::tally::Tally;
use crate::trace::run_lines;
use crate::volume::Volume;
use msr_trace::Lines;
use std::alloc::{AllocError, Global};
use wol_bay::{Bay, BayFault};
use wol_disk::{Block, Disk};
use wol_io::{Gate, Sink, Source};

// The last line.
#[tactic(auto, unfolding(crate::specs::Texts::summary_text))]
fn summary_of(alloc: Global, tally: &Tally) -> Result<String, AllocError>
    ensures { IfOk result (λ text. string_bytes text ≡ summary_text tally.now) }
{
    let lines = tally.lines;
    let blank = tally.blank;
    let skipped = tally.skipped;
    let reads = tally.reads;
    let writes = tally.writes;
    format!(in alloc;
        "solo lines {lines} blank {blank} skipped {skipped} reads {reads} writes {writes}\n"
    )
}

// Prints the last line.
fn sum_up<K: Sink>(alloc: Global, out: &mut K, tally: &Tally) -> Result<(), Fault>
    ensures content { SumsUp result (K.taken out.old) (K.taken out.new) (summary_text tally.now) }
    ensures sink { Counts (IsErrOf result Fault.Sink) (K.faults out.old) (K.faults out.new) }
{
    let Ok(text) = summary_of(alloc, tally) else {
        return Err(Fault::NoMemory);
    };
    if out.write(text.as_bytes()).is_err() {
        return Err(Fault::Sink);
    }
    Ok(())
}

// Runs the trace on the one part of an image.
fn run_on<S: Source, D: Disk, K: Sink, G: Gate>(
    alloc: Global,
    volume: &Volume<'_>,
    trace: &mut S,
    part: &mut D,
    out: &mut K,
    gate: &G,
) -> Result<Tally, Fault>
    requires volume { IsVolume (target_of volume.now) }
    requires size { (D.state part.old).size ≡ volume.now.blocks }
    requires settled { IsSettled (D.state part.old).values }
    ensures size { (D.state part.new).size ≡ (D.state part.old).size }
    ensures content { Runs (target_of volume.now) (S.left trace.old) (S.left trace.new)
        (content_of (D.state part.old).values) result (K.taken out.old) (K.taken out.new)
        (D.state part.new).values }
    ensures end { OnOk result (IsAtEnd (S.left trace.new)) }
    ensures source { Counts (IsErrOf result Fault.Source) (S.faults trace.old) (S.faults trace.new) }
    ensures disk { Counts (IsErrOf result Fault.Disk) (D.state part.old).faults
        (D.state part.new).faults }
    ensures sink { Counts (IsErrOf result Fault.Sink) (K.faults out.old) (K.faults out.new) }
{
    let zeros: Block = [0; 512];
    let Ok(mut blocks) = vec![in alloc; zeros; 128] else {
        return Err(Fault::NoMemory);
    };
    let mut lines = Lines::<&mut S>::new(alloc, trace);
    let ran = run_lines(alloc, volume, &mut lines, part, out, gate, &mut blocks);
    let _trace = lines.into_source();
    ran
}

// Runs the trace on the parts of an image, of which there is one.
fn run_parts<S: Source, D: Disk, K: Sink, G: Gate>(
    alloc: Global,
    volume: &Volume<'_>,
    trace: &mut S,
    parts: &mut [D],
    out: &mut K,
    gate: &G,
) -> Result<Tally, Fault>
    requires volume { IsVolume (target_of volume.now) }
    requires blank { IsOnePart D.state volume.now.blocks parts.old }
    ensures sizes { sizes_of D.state parts.new ≡ sizes_of D.state parts.old }
    ensures content { RunsOnFirst D.state (target_of volume.now) (S.left trace.old)
        (S.left trace.new) parts.old parts.new result (K.taken out.old) (K.taken out.new) }
    ensures end { OnOk result (IsAtEnd (S.left trace.new)) }
    ensures source { Counts (IsErrOf result Fault.Source) (S.faults trace.old) (S.faults trace.new) }
    ensures disk { IsErrOf result Fault.Disk → faulty_places D.state parts.new ≢ [] }
    ensures disk_calm { ¬ IsErrOf result Fault.Disk → faulty_places D.state parts.new ≡ [] }
    ensures sink { Counts (IsErrOf result Fault.Sink) (K.faults out.old) (K.faults out.new) }
{
    run_on(alloc, volume, trace, &mut parts[0], out, gate)
}

/// Makes the image anew and runs the trace on it, each line as it comes. The image goes back to the bay at each exit.
pub fn run<S: Source, K: Sink, B: Bay, G: Gate>(
    alloc: Global,
    volume: &Volume<'_>,
    trace: &mut S,
    out: &mut K,
    bay: &mut B,
    gate: &G,
) -> Result<(), Fault>
    requires volume { IsVolume (target_of volume.now) }
    requires home { NoneOut (B.state bay.old) }
    ensures home { NoneOut (B.state bay.new) }
    ensures content { RunsInBay (target_of volume.now) (S.left trace.old) (S.left trace.new)
        (B.state bay.old).told (B.state bay.new).told result (K.taken out.old) (K.taken out.new) }
    ensures end { OnOk result (IsAtEnd (S.left trace.new)) }
    ensures source { Counts (IsErrOf result Fault.Source) (S.faults trace.old) (S.faults trace.new) }
    ensures faulty { IsErrOf result Fault.Disk
        → PartCameBackFaulty (B.state bay.old).told (B.state bay.new).told }
    ensures bay { Counts (IsErrOf result Fault.Bay ⊎ IsErrOf result Fault.Disk)
        (B.state bay.old).faults (B.state bay.new).faults }
    ensures sink { Counts (IsErrOf result Fault.Sink) (K.faults out.old) (K.faults out.new) }
{
    let mut parts = match bay.create("solo", &[volume.blocks]) {
        Ok(parts) => parts,
        Err(fault) => return Err(fault_of_bay(fault)),
    };
    let ran = run_parts(alloc, volume, trace, &mut parts, out, gate);
    bay.detach("solo", parts);
    match ran {
        Ok(tally) => sum_up(alloc, out, &tally),
        Err(fault) => Err(fault),
    }
}

fn fault_of_bay(fault: BayFault) -> Fault
    ensures { result ≡ fault_of_bay fault }
{
    match fault {
        BayFault::NoMemory => Fault::NoMemory,
        _ => Fault::Bay,
    }
}
