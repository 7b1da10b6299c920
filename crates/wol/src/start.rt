// What a run begins with: its words, and the streams that they need.
ghost use Rattle.std.specs.Prelude.{◌≡◌, map, string_bytes, false};
ghost use Rattle.wol_run.specs.Commands.{NoneOf, uses_trace};

use crate::streams::{gives_input, takes_output};
use command_words::{Command, command_of};
use solo::Fault;
use std::alloc::Global;
use std::env;
use std::io::ErrorKind;
use std::rt::Env;
use wol_disk::NoMemory;
use wol_io::Sink;
use wol_run::{NO_MEMORY, end_with, tell};

// The words after the program's name. Words that aren't all text are none.
fn words(rt: &(impl Env + AllocGlobal), alloc: Global) -> Result<Vec<String>, NoMemory> {
    let mut words = Vec::new(alloc);
    match env::args(rt) {
        Ok(args) => {
            for word in args.skip(1) {
                words.push(word)?;
            }
        }
        Err(e) if e.kind() == ErrorKind::OutOfMemory => return Err(NoMemory),
        Err(_) => {}
    }
    Ok(words)
}

// Whether a command uses the input, for a trace or for a client's requests.
fn uses_trace(command: &Command<'_>) -> bool
    ensures { result ≡ uses_trace command.now }
{
    match command {
        Command::Solo(_)
        | Command::Replay(_)
        | Command::WhatIf(_)
        | Command::Nbd(_)
        | Command::Serve(..) => true,
        Command::Gen(_)
        | Command::Format
        | Command::FormatMissing(_)
        | Command::Check
        | Command::Dump
        | Command::Soak(..)
        | Command::ViewAdd(_)
        | Command::ViewRemove(_)
        | Command::Clean => false,
    }
}

// Whether the words are a command that uses the input.
fn are_of_trace(alloc: Global, words: &[String]) -> bool
    ensures { NoneOf uses_trace (map string_bytes words.now) → result ≡ false }
{
    match command_of(alloc, words) {
        Ok(command) => uses_trace(&command),
        Err(_) => false,
    }
}

/// What of a command is seen on its streams.
#[derive(Clone, Copy)]
pub struct Asked {
    /// Whether wol.toml is read.
    pub uses_config: bool,
    /// Whether the lines of a trace are read from the input.
    pub runs_trace: bool,
    /// Whether the input is a client's, to whom no text is sent, and whether that begins with a handshake.
    pub client: Option<bool>,
    /// Whether nothing is asked for but to look at images, so that those may be read that may not be written.
    pub only_looks: bool,
    /// Whether images are made.
    pub formats: bool,
    /// Whether an image is made only where nothing has its name.
    pub makes_new: bool,
    /// How long other processes' locks are waited for.
    pub wait_seconds: u64,
    /// Of a generated trace, how many lines it has.
    pub generated: Option<u32>,
    /// Whether timeouts are compared, and by which of them, where the words give one.
    pub compared: Option<Option<u32>>,
}

// What most commands have.
const PLAIN: Asked = Asked {
    uses_config: true,
    runs_trace: false,
    client: None,
    only_looks: false,
    formats: false,
    makes_new: false,
    wait_seconds: 0,
    generated: None,
    compared: None,
};

// What words have that are no command.
const NOTHING: Asked = Asked {
    uses_config: false,
    ..PLAIN
};

/// What the words ask for.
pub fn asked_of(alloc: Global, words: &[String]) -> Asked {
    let Ok(command) = command_of(alloc, words) else {
        return NOTHING;
    };
    match command {
        Command::Solo(_) => Asked {
            runs_trace: true,
            ..NOTHING
        },
        Command::Replay(_) => Asked {
            runs_trace: true,
            ..PLAIN
        },
        Command::WhatIf(options) => Asked {
            runs_trace: true,
            compared: Some(options.timeout_ms),
            ..PLAIN
        },
        Command::Soak(trace, _) => Asked {
            generated: Some(trace.lines),
            ..PLAIN
        },
        Command::Nbd(_) => Asked {
            client: Some(false),
            ..PLAIN
        },
        Command::Serve(_, patience) => Asked {
            client: Some(true),
            wait_seconds: u64::from(patience.seconds),
            ..PLAIN
        },
        Command::Check | Command::Dump => Asked {
            only_looks: true,
            ..PLAIN
        },
        Command::Format => Asked {
            formats: true,
            ..PLAIN
        },
        Command::FormatMissing(_) => Asked {
            formats: true,
            makes_new: true,
            ..PLAIN
        },
        Command::Gen(_) | Command::ViewAdd(_) | Command::ViewRemove(_) | Command::Clean => PLAIN,
    }
}

/// The words, where the streams that they need can be used; else the status, whose line was written. It opens no file.
pub fn begin<R: Env + AllocGlobal + Print + Input, K: Sink>(
    rt: &R,
    alloc: Global,
    out: &mut K,
) -> Result<Vec<String>, u8> {
    if !takes_output(rt) {
        return Err(7);
    }
    let Ok(words) = words(rt, alloc) else {
        return Err(end_with(out, NO_MEMORY, 9));
    };
    if are_of_trace(alloc, &words) && !gives_input(rt) {
        if asked_of(alloc, &words).client.is_some() {
            return Err(8);
        }
        return Err(tell(alloc, out, Fault::Source));
    }
    Ok(words)
}
