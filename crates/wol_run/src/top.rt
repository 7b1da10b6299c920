// The top call: the command that the words are, run to its exit status.
ghost use Rattle.solo.specs.Images.{NoneOut};
ghost use Rattle.std.specs.Prelude.{map, string_bytes};
ghost use Rattle.wol_run.specs.Outside.{outside};
ghost use Rattle.wol_run.specs.Run.{Run};

use crate::adding::format_missing;
use crate::cleanup::clean;
use crate::comparing::compare;
use crate::formatting::format;
use crate::inspecting::inspect;
use crate::listing::generate;
use crate::replaying::{replay, soak};
use crate::serving::serve;
use crate::telling::{NO_MEMORY, end_with, tell};
use crate::viewing::change_view;
use command_words::{Command, WordsFault, command_of};
use inspection::Asked;
use nbd_serving::Beginning;
use std::alloc::Global;
use std::sync::Wait;
use std::thread::Threads;
use view_commands::Verb;
use wol_bay::Bay;
use wol_io::{Gate, Sink, Source};

/// Runs the command that the words are, and answers the exit status.
///
/// The words are those after the program's name. `solo HOST DISK BLOCKS` makes the image `solo` in the bay and runs on it
/// the lines of the trace that belong to that host and disk. `gen SEED LINES` prints the first LINES lines of the trace that
/// SEED generates on the volumes of the configuration. `format` makes the image of each volume of the configuration anew,
/// and prints a line for each; `format NAME` makes that of one volume, which has none. `check` opens the volumes of the
/// configuration and prints a line for each: what its array is, or what is wrong with it. `dump` prints the records of each in
/// the same way. `replay` runs the lines of the trace on the
/// volumes of the configuration, window by window, by so many workers, and `soak SEED LINES` the lines that SEED generates; the
/// requests of a volume are answered in order, and what they wrote is there after any stop. `whatif` prints what each of four
/// policies would use for the trace, without an image. `view-add NAME LOGGER` lets a volume log for another, and
/// `view-remove NAME LOGGER` brings all of a volume home and then lets the other log for it no more. `clean` writes what lies in
/// logs anew as few records, volume after volume. `nbd NAME` serves a volume to a client, whose requests come where a trace comes
/// from, and `serve NAME` does so behind a handshake. Which words are a command is what `clap` makes of them.
///
/// 0: done; a trace that was run was read to its end. 1: the words aren't a command. 2: the configuration's bytes are none.
/// 3: a line is no line of a trace; all lines before it were run. 4: the bay or a part of an image failed. 5: an image isn't what
/// the configuration says, is damaged, or has a segment or a record that it shouldn't have. 6: a view names a logger that isn't
/// configured or whose image was refused. 7: the sink failed, and nothing more is written to it. 8: the source of the
/// configuration or of the trace failed; the whole lines before were run. 9: there was no memory. 10: there are more than 2^32
/// lines. 11: a volume has no version left for a write or a copy. 12: an image isn't there. 14: a client's bytes are no
/// requests or no handshake. 15: a word names no volume, a view can't be changed as the words ask, or an
/// image that is to be made is there or has records in logs. Where several volumes aren't
/// in order it is the status of the first; where one isn't open, no line of a trace is run, no view is changed and nothing is
/// cleaned. The words of logs, windows and views are those of docs/GLOSSARY.md.
pub fn run<R: Threads + Wait + Sync, C: Source, S: Source, K: Sink, B: Bay, G: Gate + Sync>(
    rt: &R,
    alloc: Global,
    words: &[String],
    config: &mut C,
    trace: &mut S,
    out: &mut K,
    bay: &mut B,
    gate: &G,
) -> u8
where
    B::Part: Send,
    // No image is handed out at the call ..
    requires home { NoneOut (B.state bay.old) }
    // .. nor at any exit.
    ensures home { NoneOut (B.state bay.new) }
    // What each command does, and why it ends with its status, is what the fields of `Run` say of what was outside before and
    // after.
    ensures promise { Run B.Part.tells B.Part.state (map string_bytes words.now)
        (outside (C.left config.old) (C.faults config.old) (S.left trace.old) (S.faults trace.old)
        (B.state bay.old) (K.taken out.old) (K.faults out.old))
        (outside (C.left config.new) (C.faults config.new) (S.left trace.new) (S.faults trace.new)
        (B.state bay.new) (K.taken out.new) (K.faults out.new))
        result }
{
    let command = match command_of(alloc, words) {
        Ok(command) => command,
        Err(WordsFault::NotACommand) => return end_with(out, b"fault 1 words\n", 1),
        Err(WordsFault::NoMemory) => return end_with(out, NO_MEMORY, 9),
    };
    match command {
        Command::Gen(asked) => generate(alloc, asked, config, out),
        Command::Format => format(alloc, config, out, bay),
        Command::FormatMissing(name) => format_missing(rt, alloc, name, config, out, bay),
        Command::Check => inspect(rt, alloc, Asked::Check, config, out, bay),
        Command::Dump => inspect(rt, alloc, Asked::Dump, config, out, bay),
        Command::Solo(volume) => match solo::run(alloc, &volume, trace, out, bay, gate) {
            Ok(()) => 0,
            Err(fault) => tell(alloc, out, fault),
        },
        Command::Replay(options) => replay(rt, alloc, options, config, trace, out, bay, gate),
        Command::Soak(asked, options) => soak(rt, alloc, asked, options, config, out, bay, gate),
        Command::WhatIf(options) => compare(alloc, options, config, trace, out),
        Command::ViewAdd(names) => change_view(rt, alloc, Verb::Add, names, config, out, bay),
        Command::ViewRemove(names) => change_view(rt, alloc, Verb::Remove, names, config, out, bay),
        Command::Clean => clean(rt, alloc, config, out, bay),
        Command::Nbd(name) => serve(rt, alloc, Beginning::AtOnce, name, config, trace, out, bay),
        Command::Serve(name, _patience) => serve(
            rt,
            alloc,
            Beginning::Handshake,
            name,
            config,
            trace,
            out,
            bay,
        ),
    }
}
