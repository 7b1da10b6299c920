// The policies are compared on a trace.
ghost use Rattle.comparison.specs.Asked.{tells_more};
ghost use Rattle.comparison.specs.Compares.{Compares, MakesWhole, MayCompare, StopsBefore};
ghost use Rattle.replay.specs.Completes.{Completes};
ghost use Rattle.replay.specs.Givens.{IsNew, IsWithin, borrow_of, faults_of};
ghost use Rattle.report.specs.declared.fault.Fault.TheVariants.{TraceSource};
ghost use Rattle.std.specs.Prelude.{◌≡◌, ◌≤◌, Err, IfOk, IfErr};
ghost use Rattle.wol_config.specs.Configs.{IsValid};
ghost use Rattle.wol_disk.specs.Disk.{Rose};

use crate::windows::Comparison;
use replay::{Given, Stop, fault_of_trace};
use std::alloc::Global;
use trace_windows::Cutter;
use whatif::Details;
use wol_config::Config;
use wol_io::{Sink, Source};

// Whether more is told than a line of each of the four policies.
fn tells_more(details: Details) -> bool
    ensures { result ≡ tells_more details }
{
    details.long || details.volumes
}

// Runs the lines that are given, and makes what is told of them.
fn run_all<S: Source>(
    alloc: Global,
    config: &Config,
    details: Details,
    given: &mut Given<S>,
) -> Result<Vec<u8>, Stop>
    requires valid { IsValid config.now }
    requires new { IsNew given.old }
    ensures whole { IfOk result
        (λ text. MakesWhole S.left details config.now given.old given.new text.items) }
    ensures some { IfErr result (λ e. StopsBefore S.left config.now given.old given.new e) }
    ensures source_later { faults_of S.faults given.old ≤ faults_of S.faults given.new }
    ensures source { result ≡ Err (Stop.Fault TraceSource)
        → Rose (faults_of S.faults given.old) (faults_of S.faults given.new) }
    ensures same_borrow { borrow_of S.borrow given.new ≡ borrow_of S.borrow given.old }
    ensures within { IsWithin given.new }
{
    let mut comparison = Comparison::new(alloc, config, tells_more(details))?;
    let mut cutter = Cutter::new(alloc);
    for _ in 0..u64::MAX {
        match given.next(alloc, config) {
            Ok(Some(line)) => {
                let line = line.as_ref();
                comparison.take(alloc, config, &mut cutter, line)?;
            }
            Ok(None) => return Ok(comparison.finish(alloc, config, details, &cutter)?),
            Err(fault) => return Err(Stop::Fault(fault_of_trace(fault))),
        }
    }
    unreachable!()
}

/// Runs the lines that are given by each policy, with no image, and prints a line for each: how often disks woke and slept, and
/// the energy in mJ. Where more is asked for, the configuration's own views are a policy too, and each
/// policy's lines tell that too; what was read comes first with the waits.
///
/// Nothing else is printed, and nothing before the last line of the trace was run. Each policy's account begins with the first
/// line and ends with the last; where a trace has no line all numbers are zero. A trace that gives no further line
/// ends the run with its fault, as want of memory does.
pub fn compare<S: Source, K: Sink>(
    alloc: Global,
    config: &Config,
    details: Details,
    given: &mut Given<S>,
    out: &mut K,
) -> Result<(), Stop>
    requires valid { IsValid config.now }
    requires new { IsNew given.old }
    ensures compares { Compares S.left details config.now given.old given.new (K.faults out.old)
        (K.faults out.new) (K.taken out.old) (K.taken out.new) result }
    ensures later { K.faults out.old ≤ K.faults out.new }
    ensures source_later { faults_of S.faults given.old ≤ faults_of S.faults given.new }
    ensures source { result ≡ Err (Stop.Fault TraceSource)
        → Rose (faults_of S.faults given.old) (faults_of S.faults given.new) }
    ensures same_borrow { borrow_of S.borrow given.new ≡ borrow_of S.borrow given.old }
    ensures within { IsWithin given.new }
    ensures complete { MayCompare S.left given.old given.new (K.faults out.old) (K.faults out.new)
        (faults_of S.faults given.old) (faults_of S.faults given.new) → Completes result }
{
    let text = run_all(alloc, config, details, given)?;
    out.write(&text)?;
    Ok(())
}
