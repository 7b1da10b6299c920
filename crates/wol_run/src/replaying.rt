// Traces replayed on the volumes of the configuration.
ghost use Rattle.replay.specs.Completes.{MayComplete};
ghost use Rattle.replay.specs.Givens.{IsNew, IsWithin, borrow_of, faults_of};
ghost use Rattle.solo.specs.Images.{NoneOut};
ghost use Rattle.std.specs.Prelude.{◌≡◌, ◌↔◌, ◌⊎◌, ◌≤◌, ◌^◌, true};
ghost use Rattle.wol_config.specs.Configs.{IsValid};
ghost use Rattle.wol_disk.specs.Disk.{Rose};
ghost use Rattle.wol_run.specs.Commands.{IsCount};
ghost use Rattle.wol_run.specs.Completing.{HaveVersions, IsGoodTrace, IsUnhindered, seed_lines};
ghost use Rattle.wol_run.specs.Replaying.{HasLeft, HasSource, IsReplay, RunsReplay, lines_of, options_as, reclaim_of, seen, trace_of};
ghost use Rattle.wol_run.specs.Settings.{OfRead};
ghost use Rattle.wol_run.specs.Tops.{IsDoneOrMemory, TellsSink};

use crate::settings::config_of;
use crate::telling::tell_fault;
use command_words::{Generated, Mode, Options};
use msr_trace::Lines;
use replay::{Given, Stop};
use request_workers::{Reclaim, Sharing};
use std::alloc::Global;
use std::sync::Wait;
use std::thread::Threads;
use trace_gen::Gen;
use wol_bay::Bay;
use wol_config::Config;
use wol_io::{Gate, MemSource, Sink, Source};

/// Replays a trace on the volumes of the configuration that a source has, and answers the status.
///
/// 0: all lines were run. 2: the source's bytes are no configuration. 3: a line is no line of a trace; all lines before it were
/// run. 4, 5, 6, 12: that of the first volume that isn't open, and no line was run; or 4, where a part of a volume failed. 7: the
/// sink failed. 8: a source failed. 9: there was no memory. 10: there are more than 2^32 lines. 11: a volume has no version
/// left for a write. Where the configuration isn't had the bay and the trace are as they were.
pub fn replay<R: Threads + Wait + Sync, C: Source, S: Source, K: Sink, B: Bay, G: Gate + Sync>(
    rt: &R,
    alloc: Global,
    options: Options,
    source: &mut C,
    trace: &mut S,
    out: &mut K,
    bay: &mut B,
    gate: &G,
) -> u8
where
    B::Part: Send,
    requires options { IsCount options.workers }
    requires home { NoneOut (B.state bay.old) }
    ensures home { NoneOut (B.state bay.new) }
    ensures content { OfRead (C.left source.old) (λ read. RunsReplay B.Part.tells B.Part.state
        (options_as options) read (trace_of (S.left trace.old)) (C.left source.old)
        (C.faults source.old) (C.faults source.new) (S.left trace.new) (B.state bay.old)
        (B.state bay.new) (K.faults out.old) (K.faults out.new) result (K.taken out.old)
        (K.taken out.new)) }
    ensures source { result ≡ 8 → Rose (C.faults source.old) (C.faults source.new)
        ⊎ Rose (S.faults trace.old) (S.faults trace.new) }
    ensures complete { (lines : _)
        (free : IsUnhindered B.Part.tells (C.left source.old) (C.faults source.old)
        (C.faults source.new) (B.state bay.old) (B.state bay.new) (K.faults out.old)
        (K.faults out.new)) → HaveVersions (C.left source.old) free.images.entry (λ c. lines)
        → IsGoodTrace (S.left trace.old) lines → ¬ Rose (S.faults trace.old) (S.faults trace.new)
        → IsDoneOrMemory result }
    ensures sink { TellsSink (K.faults out.old) (K.faults out.new) result }
{
    let config = match config_of(alloc, source) {
        Ok(config) => config,
        Err(fault) => return tell_fault(alloc, out, &[], &fault),
    };
    let lines = Lines::<&mut S>::new(alloc, trace);
    let (status, lines) = replay_lines(rt, alloc, &config, lines, options, out, bay, gate);
    let _trace = lines.into_source();
    status
}

/// Replays a generated trace on the volumes of the configuration that a source has, and answers the status, as `replay` does.
pub fn soak<R: Threads + Wait + Sync, C: Source, K: Sink, B: Bay, G: Gate + Sync>(
    rt: &R,
    alloc: Global,
    asked: Generated,
    options: Options,
    source: &mut C,
    out: &mut K,
    bay: &mut B,
    gate: &G,
) -> u8
where
    B::Part: Send,
    requires few { asked.lines ≤ 2 ^ 31 }
    requires options { IsCount options.workers }
    requires home { NoneOut (B.state bay.old) }
    ensures home { NoneOut (B.state bay.new) }
    ensures content { (rest : _) → OfRead (C.left source.old) (λ read. RunsReplay B.Part.tells
        B.Part.state (options_as options) read (lines_of asked) (C.left source.old)
        (C.faults source.old) (C.faults source.new) rest (B.state bay.old) (B.state bay.new)
        (K.faults out.old) (K.faults out.new) result (K.taken out.old) (K.taken out.new)) }
    ensures source { result ≡ 8 → Rose (C.faults source.old) (C.faults source.new) }
    ensures complete { (free : IsUnhindered B.Part.tells (C.left source.old) (C.faults source.old)
        (C.faults source.new) (B.state bay.old) (B.state bay.new) (K.faults out.old)
        (K.faults out.new)) → HaveVersions (C.left source.old) free.images.entry (seed_lines asked)
        → IsDoneOrMemory result }
    ensures sink { TellsSink (K.faults out.old) (K.faults out.new) result }
{
    let config = match config_of(alloc, source) {
        Ok(config) => config,
        Err(fault) => return tell_fault(alloc, out, &[], &fault),
    };
    let mut given: Given<MemSource> = Given::Generated {
        generator: Gen::new(asked.seed),
        lines: asked.lines,
    };
    replay_given(rt, alloc, &config, &mut given, options, out, bay, gate)
}

// Replays the lines of a trace, and gives back what reads them.
fn replay_lines<R: Threads + Wait + Sync, S: Source, K: Sink, B: Bay, G: Gate + Sync>(
    rt: &R,
    alloc: Global,
    config: &Config,
    lines: Lines<S>,
    options: Options,
    out: &mut K,
    bay: &mut B,
    gate: &G,
) -> (u8, Lines<S>)
where
    B::Part: Send,
    requires valid { IsValid config.now }
    requires none { lines.given ≡ 0 }
    requires live { lines.live ≡ true }
    requires options { IsCount options.workers }
    requires home { NoneOut (B.state bay.old) }
    ensures home { NoneOut (B.state bay.new) }
    ensures content { IsReplay B.Part.tells B.Part.state (options_as options) config.now
        (seen S.left (Given.Trace lines)) (S.left result.1.source) (B.state bay.old)
        (B.state bay.new) (K.faults out.old) (K.faults out.new) result.0 (K.taken out.old)
        (K.taken out.new) }
    ensures source { result.0 ≡ 8 → Rose (S.faults lines.source) (S.faults result.1.source) }
    ensures complete { MayComplete B.Part.tells S.left config.now (Given.Trace lines)
        (Given.Trace result.1) (B.state bay.old) (B.state bay.new) (K.faults out.old)
        (K.faults out.new) (S.faults lines.source) (S.faults result.1.source)
        → IsDoneOrMemory result.0 }
    ensures same_borrow { S.borrow result.1.source ≡ S.borrow lines.source }
    ensures sink { TellsSink (K.faults out.old) (K.faults out.new) result.0 }
{
    let mut given = Given::Trace(lines);
    let status = replay_given(rt, alloc, config, &mut given, options, out, bay, gate);
    match given {
        Given::Trace(lines) => (status, lines),
        Given::Generated { .. } => unreachable!(),
    }
}

// Replays the lines that are given, writes the line of the fault that ends the run, if one does, and answers the status.
fn replay_given<R: Threads + Wait + Sync, S: Source, K: Sink, B: Bay, G: Gate + Sync>(
    rt: &R,
    alloc: Global,
    config: &Config,
    given: &mut Given<S>,
    options: Options,
    out: &mut K,
    bay: &mut B,
    gate: &G,
) -> u8
where
    B::Part: Send,
    requires valid { IsValid config.now }
    requires new { IsNew given.old }
    requires options { IsCount options.workers }
    requires home { NoneOut (B.state bay.old) }
    ensures home { NoneOut (B.state bay.new) }
    ensures content { (rest : _) → HasLeft (seen S.left given.new) rest
        → IsReplay B.Part.tells B.Part.state (options_as options) config.now
        (seen S.left given.old) rest (B.state bay.old) (B.state bay.new) (K.faults out.old)
        (K.faults out.new) result (K.taken out.old) (K.taken out.new) }
    ensures source { result ≡ 8 → Rose (faults_of S.faults given.old)
        (faults_of S.faults given.new) }
    ensures complete { MayComplete B.Part.tells S.left config.now given.old given.new
        (B.state bay.old) (B.state bay.new) (K.faults out.old) (K.faults out.new)
        (faults_of S.faults given.old) (faults_of S.faults given.new) → IsDoneOrMemory result }
    ensures within { IsWithin given.new }
    ensures same_source { HasSource given.old ↔ HasSource given.new }
    ensures same_borrow { borrow_of S.borrow given.new ≡ borrow_of S.borrow given.old }
    ensures sink { TellsSink (K.faults out.old) (K.faults out.new) result }
{
    match replay::replay(
        rt,
        alloc,
        config,
        given,
        options_of(options),
        out,
        bay,
        gate,
    ) {
        Ok(()) => 0,
        Err(Stop::Sink) => 7,
        Err(Stop::Fault(fault)) => tell_fault(alloc, out, &config.volumes, &fault),
    }
}

// The options as windows are served.
fn options_of(options: Options) -> replay::Options
    ensures { result ≡ options_as options }
{
    replay::Options {
        workers: options.workers,
        sharing: Sharing::WherePays,
        reclaim: reclaim_of(options.reclaim),
        each: options.each,
    }
}

fn reclaim_of(mode: Mode) -> Reclaim
    ensures { result ≡ reclaim_of mode }
{
    match mode {
        Mode::Off => Reclaim::Off,
        Mode::Between => Reclaim::Between,
        Mode::Beside => Reclaim::Beside,
    }
}
