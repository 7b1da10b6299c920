// One line of the trace: its pieces, one after another.
ghost use Rattle.msr_trace.specs.Lines.{Fits, trace_line};
ghost use Rattle.solo.specs.Requests.{line_requests};
ghost use Rattle.solo.specs.Served.{Counts, IsSettled, Serves, content_of, content_after};
ghost use Rattle.std.specs.Prelude.{◌≡◌, ◌+◌, ◌≤◌, ◌<◌, ◌^◌, length, IfOk, OnOk, IsErrOf};

use crate::answer::serve;
use crate::fault::Fault;
use crate::request::Request;
use msr_trace::Line;
use std::alloc::Global;
use wol_disk::{Block, Disk};
use wol_io::{Gate, Sink};

/// The most blocks of a request.
const MOST_BLOCKS: u32 = 128;

/// Runs the pieces of a line that belongs to the volume, and answers how many they are. `earlier` is the number of
/// requests before it, by which the gate knows the line's requests.
pub fn run_line<D: Disk, K: Sink, G: Gate>(
    alloc: Global,
    part: &mut D,
    out: &mut K,
    gate: &G,
    blocks: &mut [Block],
    line: &Line,
    number: u64,
    earlier: u64,
) -> Result<u64, Fault>
    requires some { 0 < (D.state part.old).size }
    requires size { (D.state part.old).size ≤ 2 ^ 32 }
    requires settled { IsSettled (D.state part.old).values }
    requires room { length blocks.old ≡ 128 }
    requires fits { Fits (trace_line line.now) }
    requires earlier { earlier ≤ 2 ^ 62 }
    ensures size { (D.state part.new).size ≡ (D.state part.old).size }
    ensures room { length blocks.new ≡ 128 }
    ensures few { IfOk result (λ count. count ≤ 131073) }
    ensures count { IfOk result (λ count.
        count ≡ length (line_requests (D.state part.old).size number (trace_line line.now))) }
    ensures settled { OnOk result (IsSettled (D.state part.new).values) }
    ensures values { OnOk result (content_of (D.state part.new).values
        ≡ content_after (line_requests (D.state part.old).size number (trace_line line.now))
        (content_of (D.state part.old).values)) }
    ensures content { Serves (content_of (D.state part.old).values)
        (line_requests (D.state part.old).size number (trace_line line.now)) result
        (K.taken out.old) (K.taken out.new) (D.state part.new).values }
    ensures disk { Counts (IsErrOf result Fault.Disk) (D.state part.old).faults
        (D.state part.new).faults }
    ensures sink { Counts (IsErrOf result Fault.Sink) (K.faults out.old) (K.faults out.new) }
{
    let home = part.blocks();
    let mut count = 0;
    for piece in line.pieces(home, MOST_BLOCKS) {
        gate.pass(earlier + count);
        let request = Request {
            line: number,
            kind: line.kind,
            first: piece.lbn,
            count: piece.count,
        };
        serve(
            alloc,
            part,
            out,
            &mut blocks[..piece.count as usize],
            &request,
        )?;
        count += 1;
    }
    Ok(count)
}
