// The lines of a generated trace, printed.
ghost use Rattle.std.specs.Prelude.{◌<◌, ◌≤◌, ◌^◌};
ghost use Rattle.wol_config.specs.Configs.{IsValid};
ghost use Rattle.wol_run.specs.Generating.{Prints, RunsGen};
ghost use Rattle.wol_run.specs.Settings.{OfRead};
ghost use Rattle.wol_run.specs.Tops.{TellsSink};

use crate::settings::config_of;
use crate::telling::{NO_MEMORY, end_with, tell_fault};
use command_words::Generated;
use inspection::Stop;
use msr_trace::write_line;
use replay::{CHUNK_BYTES, hand_on};
use std::alloc::Global;
use trace_gen::Gen;
use wol_config::Config;
use wol_io::{Sink, Source};

/// Prints the lines of a generated trace on the volumes of the configuration that a source has, and answers the status.
///
/// 0: all lines were printed. 2: the source's bytes are no configuration. 7: the sink failed. 8: the source failed. 9: there
/// was no memory, and what was printed before are some first lines, or none.
pub fn generate<C: Source, K: Sink>(
    alloc: Global,
    asked: Generated,
    source: &mut C,
    out: &mut K,
) -> u8
    requires few { asked.lines ≤ 2 ^ 31 }
    ensures content { OfRead (C.left source.old) (λ read. RunsGen asked read (C.left source.old)
        (C.faults source.old) (C.faults source.new) result (K.taken out.old) (K.taken out.new)) }
    ensures sink { TellsSink (K.faults out.old) (K.faults out.new) result }
{
    let config = match config_of(alloc, source) {
        Ok(config) => config,
        Err(fault) => return tell_fault(alloc, out, &[], &fault),
    };
    match print_lines(alloc, &config, asked, out) {
        Ok(()) => 0,
        Err(Stop::Sink) => 7,
        Err(Stop::Memory) => end_with(out, NO_MEMORY, 9),
    }
}

// Prints the lines, a chunk of them at a time.
fn print_lines<K: Sink>(
    alloc: Global,
    config: &Config,
    asked: Generated,
    out: &mut K,
) -> Result<(), Stop>
    requires valid { IsValid config.now }
    requires few { asked.lines ≤ 2 ^ 31 }
    ensures later { K.faults out.old ≤ K.faults out.new }
    ensures content { Prints result config.now asked.seed asked.lines (K.faults out.old)
        (K.faults out.new) (K.taken out.old) (K.taken out.new) }
{
    let mut generator = Gen::new(asked.seed);
    let mut text = Vec::new(alloc);
    for _number in 0..asked.lines {
        let line = generator.next(alloc, config)?;
        write_line(&line, &mut text)?;
        hand_on(out, &mut text, CHUNK_BYTES)?;
    }
    hand_on(out, &mut text, 1)?;
    Ok(())
}
