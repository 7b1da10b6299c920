// The command that words ask for.
ghost use Rattle.clap.specs.Words.{found_of, kind_of, rows_of};
ghost use Rattle.command_words.specs.Commands.{Asks, AsksNothing, IsCommand, NoCommand};
ghost use Rattle.std.specs.Prelude.{◌≡◌, IfOk, IfSome, IfNone, IsErrOf, codes, map, string_bytes};

use crate::application::application;
use crate::values::{
    missing_of, names_of, options_of, patience_of, served_of, trace_of, volume_of, what_if_of,
};
use clap::error::ErrorKind;
use clap::{ArgMatches, Error};
use solo::Volume;
use std::alloc::Global;

/// A part of a generated trace: the first lines of a seed.
#[derive(Clone, Copy)]
pub struct Generated {
    /// At most 2^63 - 1.
    pub seed: u64,
    /// How many lines: at most 2^31 - 1.
    pub lines: u32,
}

/// When data moves home and freed segments are cleaned.
#[derive(Clone, Copy)]
pub enum Mode {
    /// Never.
    Off,
    /// After each window.
    Between,
    /// While a window's requests are served too.
    Beside,
}

/// How a trace is run on the volumes.
#[derive(Clone, Copy)]
pub struct Options {
    /// 1 to 64 of them.
    pub workers: u32,
    pub reclaim: Mode,
    /// Whether a line is printed for each read.
    pub each: bool,
}

/// What is printed of each policy for a trace, and by which timeout.
#[derive(Clone, Copy)]
pub struct WhatIfOptions {
    /// Whether requests that wait are printed.
    pub long: bool,
    /// Whether a line is printed for each volume.
    pub volumes: bool,
    /// How long a disk stays awake without a use, in place of what the configuration says: 1 to 86,400,000 milliseconds.
    pub timeout_ms: Option<u32>,
}

/// A volume, and another that is to log for it or no longer to.
#[derive(Clone, Copy)]
pub struct ViewNames<'a> {
    pub volume: &'a str,
    pub logger: &'a str,
}

/// A volume whose image is to be made, since it has none.
#[derive(Clone, Copy)]
pub struct MissingName<'a> {
    pub volume: &'a str,
}

/// A volume that is to be served.
#[derive(Clone, Copy)]
pub struct ServedName<'a> {
    pub volume: &'a str,
}

/// How long a command tries again to get what another process has locked.
#[derive(Clone, Copy)]
pub struct Patience {
    /// At most 3,600.
    pub seconds: u32,
}

/// What the program is asked to do.
#[derive(Clone, Copy)]
pub enum Command<'a> {
    /// A trace is run on one volume.
    Solo(Volume<'a>),
    /// The images of the configuration are formatted.
    Format,
    /// The image of one volume, which has none, is formatted.
    FormatMissing(MissingName<'a>),
    /// A trace is run on the volumes of the configuration.
    Replay(Options),
    /// The volumes of the configuration are checked.
    Check,
    /// The records of the volumes of the configuration are printed.
    Dump,
    /// A generated trace is printed.
    Gen(Generated),
    /// A generated trace is run on the volumes of the configuration.
    Soak(Generated, Options),
    /// What each policy would use for a trace is printed.
    WhatIf(WhatIfOptions),
    /// A volume's view gains a logger.
    ViewAdd(ViewNames<'a>),
    /// A volume's view loses a logger, after what lies there went home.
    ViewRemove(ViewNames<'a>),
    /// What lies in logs is rewritten as few records.
    Clean,
    /// A volume is served to a client.
    Nbd(ServedName<'a>),
    /// A volume is served to a client, behind a handshake.
    Serve(ServedName<'a>, Patience),
}

/// Why there is no command.
#[derive(Clone, Copy)]
pub enum WordsFault {
    /// The words are none.
    NotACommand,
    /// Memory ran out.
    NoMemory,
}

/// The command that the words ask for. `NotACommand` comes only where they ask for none, and `NoMemory` where memory ran out.
pub fn command_of<'a>(alloc: Global, words: &'a [String]) -> Result<Command<'a>, WordsFault>
    ensures ok { IfOk result (IsCommand (map string_bytes words.entry.now)) }
    ensures refused { IsErrOf result WordsFault.NotACommand
        → NoCommand (map string_bytes words.entry.now) }
{
    let Ok(application) = application(alloc) else {
        return Err(WordsFault::NoMemory);
    };
    let matches = match application.try_get_matches_from(words) {
        Ok(matches) => matches,
        Err(error) => return Err(fault_of(&error)),
    };
    let Some((name, matches)) = matches.subcommand() else {
        return Err(WordsFault::NotACommand);
    };
    read(name, matches).ok_or(WordsFault::NotACommand)
}

// What a refused parse comes to.
fn fault_of(error: &Error) -> WordsFault
    ensures refused { result ≡ WordsFault.NotACommand
        → ¬ (kind_of error.now ≡ ErrorKind.OutOfMemory) }
    ensures memory { result ≡ WordsFault.NoMemory → kind_of error.now ≡ ErrorKind.OutOfMemory }
{
    if error.kind() == ErrorKind::OutOfMemory {
        WordsFault::NoMemory
    } else {
        WordsFault::NotACommand
    }
}

// `format`, of the volume that the values name, or of all.
fn format_of<'a>(matches: &ArgMatches<'a>) -> Command<'a>
    ensures { Asks (codes "format") (rows_of (found_of matches.now)) result }
{
    match missing_of(matches) {
        Some(name) => Command::FormatMissing(name),
        None => Command::Format,
    }
}

// The command of this name with these values. `None` exactly where there is none.
fn read<'a>(name: &str, matches: &ArgMatches<'a>) -> Option<Command<'a>>
    ensures some { IfSome result (Asks name.now (rows_of (found_of matches.now))) }
    ensures none { IfNone result (AsksNothing name.now (rows_of (found_of matches.now))) }
{
    match name {
        "solo" => Some(Command::Solo(volume_of(matches)?)),
        "format" => Some(format_of(matches)),
        "replay" => Some(Command::Replay(options_of(matches)?)),
        "check" => Some(Command::Check),
        "dump" => Some(Command::Dump),
        "gen" => Some(Command::Gen(trace_of(matches)?)),
        "soak" => Some(Command::Soak(trace_of(matches)?, options_of(matches)?)),
        "whatif" => Some(Command::WhatIf(what_if_of(matches)?)),
        "view-add" => Some(Command::ViewAdd(names_of(matches)?)),
        "view-remove" => Some(Command::ViewRemove(names_of(matches)?)),
        "clean" => Some(Command::Clean),
        "nbd" => Some(Command::Nbd(served_of(matches)?)),
        "serve" => Some(Command::Serve(served_of(matches)?, patience_of(matches)?)),
        _ => None,
    }
}
