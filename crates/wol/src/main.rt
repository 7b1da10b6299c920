//! Write off-loading for disk volumes: the command line.
//!
//! `wol` is the program, `main.rt`; what a command does is `wol_run`'s. `start.rt` has the words, and whether the streams
//! that they need can be used; `streams.rt` the standard streams, `limits.rt` the limit on the length of files. What goes
//! to standard error: `advice.rt` on a status, `meant.rt` on words that are no command, `keys.rt` on keys of `wol.toml` that are
//! unknown (`settings.rt` reads it), `notes.rt` on a trace, by what `tally.rt` counts of its lines, `session.rt` on a client's
//! requests, `progress.rt` on how far a trace is, which `output.rt` takes away before an answer. `watching.rt` is all that sees
//! the input go by, `text.rt` what these texts share.
#![tactic(auto)]

mod advice;
mod keys;
mod limits;
mod meant;
mod notes;
mod output;
mod progress;
mod session;
mod settings;
mod start;
mod streams;
mod tally;
mod text;
mod watching;

use crate::advice::{Cause, VERSION, advice};
use crate::keys::unknown_keys;
use crate::notes::{EMPTY, SHORT_TIMEOUT, notes_on};
use crate::output::Output;
use crate::progress::Progress;
use crate::session::Session;
use crate::start::{Asked, asked_of, begin};
use crate::streams::{ERRORS, OUTPUT};
use crate::tally::Tally;
use crate::watching::{Lent, Watching};
use std::alloc::Global;
use std::cell::Cell;
use std::io::{self, IsTerminal};
use std::process::ExitCode;
use wol_bay::FileBay;
use wol_config::{Config, read_config};
use wol_io::{FileSource, NoGate, Source, StdSink, StdSource, WatchedSource};
use wol_run::run;

// What is said where a trace is to be typed.
const WAITS: &str =
    "wol: the trace comes from this terminal; < FILE takes it from a file. Ctrl-D ends it.\n";

// Says a text on standard error, where there is room.
fn say(rt: &HostRuntime, text: &str, most_bytes: u64) {
    if !text.is_empty() && text.len() as u64 <= limits::room(rt, ERRORS, most_bytes) {
        let _ = rt.eprint(text);
    }
}

// Says what the status means, where it isn't 0.
fn advise(rt: &HostRuntime, words: &[String], status: u8, cause: Cause, most_bytes: u64) {
    let text = match words {
        [word] if status == 1 && word.as_str() == "--version" => VERSION,
        _ => advice(status, cause).unwrap_or(""),
    };
    say(rt, text, most_bytes);
    if status == 1 {
        if let Ok(Some(text)) = meant::meant(rt.alloc(), words) {
            say(rt, text.as_str(), most_bytes);
        }
    }
}

// Says which keys of the configuration's file are unknown, and gives the configuration, if it is one.
fn look_at_settings(rt: &HostRuntime, most_bytes: u64) -> Option<Config> {
    let bytes = settings::bytes_of(rt)?;
    if let Ok(text) = unknown_keys(rt.alloc(), &bytes) {
        say(rt, text.as_str(), most_bytes);
    }
    read_config(rt.alloc(), &bytes).ok()
}

// Why a run ended with this status, if that can be seen.
fn cause_of(
    rt: &HostRuntime,
    asked: Asked,
    status: u8,
    watching: &Watching<'_, HostRuntime>,
    config: &mut impl Source,
) -> Cause {
    match status {
        3 if watching.is_compressed() => Cause::Compressed,
        3 if watching.is_headed() => Cause::Heading,
        4 | 5 if asked.formats => Cause::Formatting,
        8 if !asked.uses_config => Cause::Unknown,
        8 if settings::is_missing(rt) => Cause::NoConfiguration,
        8 if config.read(&mut [0]).is_err() => Cause::Configuration,
        _ => Cause::Unknown,
    }
}

// What counts the lines of a trace that is run for these volumes, where there is memory.
fn tally_of(alloc: Global, runs_trace: bool, config: Option<Config>) -> Option<Tally> {
    if !runs_trace {
        return None;
    }
    let config = config?;
    Tally::new(alloc, config).ok()
}

// Says what is to be said before a command runs, and gives the watch on its input.
fn watch_for<'a>(
    rt: HostRuntime,
    asked: Asked,
    most_bytes: u64,
    is_told: &'a Cell<bool>,
) -> Watching<'a, HostRuntime> {
    let config = if asked.uses_config {
        look_at_settings(&rt, most_bytes)
    } else {
        None
    };
    if asked.runs_trace && rt.stdin().is_terminal() {
        say(&rt, WAITS, most_bytes);
    }
    let room = limits::room(&rt, ERRORS, most_bytes);
    let is_wanted = asked.client.is_none() && progress::is_wanted(&rt, &rt.stderr(), room);
    let tally = tally_of(rt.alloc(), asked.runs_trace, config);
    Watching::new(
        Progress::new(rt, is_wanted, is_told),
        tally,
        asked.client.map(Session::new),
    )
}

// Says what is to be noted of a run that was done.
fn note(rt: &HostRuntime, asked: Asked, tally: Option<Tally>, most_bytes: u64) {
    if asked.generated == Some(0) {
        say(rt, EMPTY, most_bytes);
    }
    let Some(tally) = tally else {
        return;
    };
    if !tally.is_whole() {
        return;
    }
    if let Ok(text) = notes_on(rt.alloc(), &tally) {
        say(rt, text.as_str(), most_bytes);
    }
    if let Some(given) = asked.compared {
        if is_short(tally.config(), given) {
            say(rt, SHORT_TIMEOUT, most_bytes);
        }
    }
}

// Whether the timeout that is compared is less than the time that a disk takes to be up.
fn is_short(config: &Config, given: Option<u32>) -> bool {
    let timeout = match given {
        Some(ms) => u64::from(ms).saturating_mul(10_000),
        None => config.timeout,
    };
    timeout < config.wake
}

// Says what is to be said of a run behind it.
fn look_back(
    rt: &HostRuntime,
    asked: Asked,
    status: u8,
    watching: Watching<'_, HostRuntime>,
    most_bytes: u64,
) {
    watching.progress().end();
    if let Some(session) = watching.session().filter(|_| !watching.front().is_empty()) {
        if let Ok(text) = session.line(rt.alloc(), status) {
            say(rt, text.as_str(), most_bytes);
        }
    }
    if status == 0 {
        note(rt, asked, watching.into_tally(), most_bytes);
    }
}

fn main(rt: HostRuntime) -> ExitCode {
    let alloc = rt.alloc();
    // Before any file is opened.
    let Ok(_stand_ins) = streams::take_closed(&rt) else {
        return ExitCode::from(7);
    };
    let most_bytes = limits::most_file_bytes(&rt);
    let room = limits::room(&rt, OUTPUT, most_bytes);
    let mut out = StdSink::with_room(io::writer(&rt), room);
    let words = match begin(&rt, alloc, &mut out) {
        Ok(words) => words,
        Err(status) => {
            advise(&rt, &[], status, Cause::Unknown, most_bytes);
            return ExitCode::from(status);
        }
    };
    let asked = asked_of(alloc, &words);
    let is_told = Cell::new(false);
    let mut watching = watch_for(rt, asked, most_bytes, &is_told);
    let mut out = Output::new(
        out,
        rt,
        Some(&is_told).filter(|_| rt.stdout().is_terminal()),
    );
    let mut config = FileSource::new(rt, settings::PATH);
    let mut trace = WatchedSource::new(StdSource::new(rt.reader()), Lent::new(&mut watching));
    let mut bay = FileBay::new(rt, alloc, ".")
        .within(most_bytes)
        .waiting(asked.wait_seconds)
        .for_reading(asked.only_looks)
        .making_new(asked.makes_new);
    let status = run(
        &rt,
        alloc,
        &words,
        &mut config,
        &mut trace,
        &mut out,
        &mut bay,
        &NoGate,
    );
    drop(trace);
    let cause = cause_of(&rt, asked, status, &watching, &mut config);
    look_back(&rt, asked, status, watching, most_bytes);
    advise(&rt, &words, status, cause, most_bytes);
    ExitCode::from(status)
}
