// The last text of a run, and its status.
ghost use Rattle.report.specs.Faults.{fault_text, status_of as status_of_report};
ghost use Rattle.report.specs.Names.{printed_names};
ghost use Rattle.std.specs.Prelude.{◌≡◌, ◌≢◌, ◌≤◌, ◌<◌, ◌⊎◌};
ghost use Rattle.wol_disk.specs.Disk.{Rose};
ghost use Rattle.wol_run.specs.Tops.{EndsWith, TellsFault, TellsNoMemory, TellsSink, TellsStatus};

use crate::status::{bad_line_text, fault_text, status_of};
use msr_trace::BadLine;
use report::Fault as ReportFault;
use solo::Fault;
use std::alloc::Global;
use wol_config::{ConfigFault, VolumeConf};
use wol_disk::NoMemory;
use wol_io::Sink;

/// The line of want of memory, which takes none.
pub const NO_MEMORY: &[u8] = b"fault 9 memory\n";

/// Writes the last text, and answers the status that is wanted, or that of a failed sink.
pub fn end_with<K: Sink>(out: &mut K, text: &[u8], status: u8) -> u8
    ensures content { EndsWith text.now status result (K.taken out.old) (K.taken out.new) }
    ensures status { (result ≡ status) ⊎ (result ≡ 7) }
    ensures cause { result ≡ 7 → (status ≡ 7) ⊎ Rose (K.faults out.old) (K.faults out.new) }
    ensures later { K.faults out.old ≤ K.faults out.new }
    ensures calm { K.faults out.old < K.faults out.new → result ≡ 7 }
{
    if out.write(text).is_err() {
        return 7;
    }
    status
}

/// Writes the line of a fault of `solo`, and answers its status.
pub fn tell<K: Sink>(alloc: Global, out: &mut K, fault: Fault) -> u8
    ensures content { TellsFault fault result (K.taken out.old) (K.taken out.new) }
    ensures status { TellsStatus fault result }
    ensures cause { result ≡ 7 → (fault ≡ Fault.Sink) ⊎ Rose (K.faults out.old) (K.faults out.new) }
    ensures later { K.faults out.old ≤ K.faults out.new }
    ensures calm { K.faults out.old < K.faults out.new → result ≡ 7 }
{
    match fault {
        Fault::Sink => 7,
        Fault::BadLine { line, why } => tell_line(alloc, out, line, why),
        fault => end_with(out, fault_text(fault), status_of(fault)),
    }
}

// Writes the line of a bad line's fault, or where there is no memory to make it the line of that.
fn tell_line<K: Sink>(alloc: Global, out: &mut K, line: u64, why: BadLine) -> u8
    ensures content { TellsFault (Fault.BadLine line why) result (K.taken out.old)
        (K.taken out.new) }
    ensures status { (result ≡ 3) ⊎ (result ≡ 7) ⊎ (result ≡ 9) }
    ensures sink { TellsSink (K.faults out.old) (K.faults out.new) result }
{
    let Ok(text) = bad_line_text(alloc, line, why) else {
        return end_with(out, fault_text(Fault::NoMemory), status_of(Fault::NoMemory));
    };
    end_with(out, text.as_bytes(), 3)
}

/// Writes the line of a fault among these volumes, and answers its status. Where there is no memory to make the line, it is
/// that of want of memory.
pub fn tell_fault<K: Sink>(
    alloc: Global,
    out: &mut K,
    volumes: &[VolumeConf],
    fault: &ReportFault,
) -> u8
    requires told { fault.now ≢ ReportFault.Config ConfigFault.NoMemory }
    ensures content { EndsWith (fault_text (printed_names volumes.now) fault.now)
        (status_of_report fault.now) result (K.taken out.old) (K.taken out.new)
        ⊎ TellsNoMemory result (K.taken out.old) (K.taken out.new) }
    ensures sink { TellsSink (K.faults out.old) (K.faults out.new) result }
{
    let mut text = Vec::new(alloc);
    match report::fault_text(volumes, fault, &mut text) {
        Ok(()) => end_with(out, &text, fault.status()),
        Err(NoMemory) => end_with(out, NO_MEMORY, 9),
    }
}
