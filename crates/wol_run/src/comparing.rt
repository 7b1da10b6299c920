// Policies compared on a trace.
ghost use Rattle.comparison.specs.Compares.{MayCompare};
ghost use Rattle.replay.specs.Givens.{IsNew, borrow_of, faults_of};
ghost use Rattle.std.specs.Prelude.{◌≡◌, ◌⊎◌, true};
ghost use Rattle.wol_config.specs.Configs.{IsValid};
ghost use Rattle.wol_disk.specs.Disk.{Rose};
ghost use Rattle.wol_run.specs.Commands.{IsTimeout};
ghost use Rattle.wol_run.specs.Comparing.{IsComparison, RunsWhatIf, details_of, with_timeout};
ghost use Rattle.wol_run.specs.Completing.{IsGoodTrace};
ghost use Rattle.wol_run.specs.Replaying.{HasLeft, HasSource, seen, trace_of};
ghost use Rattle.wol_run.specs.Settings.{IsConfigured, OfRead};
ghost use Rattle.wol_run.specs.Tops.{IsDoneOrMemory, TellsSink};

use crate::settings::config_of;
use crate::telling::tell_fault;
use command_words::WhatIfOptions;
use msr_trace::Lines;
use replay::{Given, Stop};
use std::alloc::Global;
use whatif::Details;
use wol_config::Config;
use wol_io::{Sink, Source};

// The configuration with this timeout in milliseconds in place of its own, where one is given.
fn with_timeout(mut config: Config, timeout_ms: Option<u32>) -> Config
    requires valid { IsValid config }
    requires range { IsTimeout timeout_ms }
    ensures value { result ≡ with_timeout timeout_ms config }
    ensures valid { IsValid result }
{
    let Some(ms) = timeout_ms else {
        return config;
    };
    config.timeout = u64::from(ms) * 10_000;
    config
}

// What is told beside the four lines.
fn details_of(options: &WhatIfOptions) -> Details
    ensures { result ≡ details_of options.now }
{
    Details {
        long: options.long,
        volumes: options.volumes,
    }
}

/// Compares the policies on a trace for the volumes of the configuration that a source has, prints what the options ask for, and
/// answers the status.
///
/// 0: all lines were run. 2: the source's bytes are no configuration. 3: a line is no line of a trace. 7: the sink failed. 8: a
/// source failed. 9: there was no memory. 10: there are more than 2^32 lines. At each status but 0 and 7 no policy's line was
/// printed. Where the configuration isn't had the trace is as it was.
pub fn compare<C: Source, S: Source, K: Sink>(
    alloc: Global,
    options: WhatIfOptions,
    source: &mut C,
    trace: &mut S,
    out: &mut K,
) -> u8
    requires { IsTimeout options.timeout_ms }
    ensures content { OfRead (C.left source.old) (λ read. RunsWhatIf options read
        (trace_of (S.left trace.old)) (C.left source.old) (C.faults source.old)
        (C.faults source.new) (S.left trace.new) (K.faults out.old) (K.faults out.new) result
        (K.taken out.old) (K.taken out.new)) }
    ensures source { result ≡ 8 → Rose (C.faults source.old) (C.faults source.new)
        ⊎ Rose (S.faults trace.old) (S.faults trace.new) }
    ensures complete { (lines : _) → IsGoodTrace (S.left trace.old) lines
        → IsConfigured (C.left source.old) → ¬ Rose (C.faults source.old) (C.faults source.new)
        → ¬ Rose (S.faults trace.old) (S.faults trace.new)
        → ¬ Rose (K.faults out.old) (K.faults out.new) → IsDoneOrMemory result }
    ensures sink { TellsSink (K.faults out.old) (K.faults out.new) result }
{
    let config = match config_of(alloc, source) {
        Ok(config) => with_timeout(config, options.timeout_ms),
        Err(fault) => return tell_fault(alloc, out, &[], &fault),
    };
    let lines = Lines::<&mut S>::new(alloc, trace);
    let (status, lines) = compare_lines(alloc, &config, details_of(&options), lines, out);
    let _trace = lines.into_source();
    status
}

// Compares the policies on the lines of a trace, and gives back what reads them.
fn compare_lines<S: Source, K: Sink>(
    alloc: Global,
    config: &Config,
    details: Details,
    lines: Lines<S>,
    out: &mut K,
) -> (u8, Lines<S>)
    requires valid { IsValid config.now }
    requires none { lines.given ≡ 0 }
    requires live { lines.live ≡ true }
    ensures content { IsComparison details config.now (seen S.left (Given.Trace lines))
        (S.left result.1.source) (K.faults out.old) (K.faults out.new) result.0 (K.taken out.old)
        (K.taken out.new) }
    ensures source { result.0 ≡ 8 → Rose (S.faults lines.source) (S.faults result.1.source) }
    ensures complete { MayCompare S.left (Given.Trace lines) (Given.Trace result.1)
        (K.faults out.old) (K.faults out.new) (S.faults lines.source) (S.faults result.1.source)
        → IsDoneOrMemory result.0 }
    ensures same_borrow { S.borrow result.1.source ≡ S.borrow lines.source }
    ensures sink { TellsSink (K.faults out.old) (K.faults out.new) result.0 }
{
    let mut given = Given::Trace(lines);
    let status = compare_given(alloc, config, details, &mut given, out);
    match given {
        Given::Trace(lines) => (status, lines),
        Given::Generated { .. } => unreachable!(),
    }
}

// Compares the policies on the lines that are given, writes the line of the fault that ends the run, if one does, and answers the
// status.
fn compare_given<S: Source, K: Sink>(
    alloc: Global,
    config: &Config,
    details: Details,
    given: &mut Given<S>,
    out: &mut K,
) -> u8
    requires valid { IsValid config.now }
    requires new { IsNew given.old }
    ensures content { (rest : _) → HasLeft (seen S.left given.new) rest
        → IsComparison details config.now (seen S.left given.old) rest (K.faults out.old)
        (K.faults out.new) result (K.taken out.old) (K.taken out.new) }
    ensures source { result ≡ 8 → Rose (faults_of S.faults given.old)
        (faults_of S.faults given.new) }
    ensures complete { MayCompare S.left given.old given.new (K.faults out.old) (K.faults out.new)
        (faults_of S.faults given.old) (faults_of S.faults given.new) → IsDoneOrMemory result }
    ensures source_kept { HasSource given.old → HasSource given.new }
    ensures same_borrow { borrow_of S.borrow given.new ≡ borrow_of S.borrow given.old }
    ensures sink { TellsSink (K.faults out.old) (K.faults out.new) result }
{
    match comparison::compare(alloc, config, details, given, out) {
        Ok(()) => 0,
        Err(Stop::Sink) => 7,
        Err(Stop::Fault(fault)) => tell_fault(alloc, out, &config.volumes, &fault),
    }
}
