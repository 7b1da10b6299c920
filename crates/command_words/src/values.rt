// The values of a command's arguments.
ghost use Rattle.clap.specs.Words.{first_of, found_of, rows_of};
ghost use Rattle.command_words.specs.Table.{IsHost, IsHostByte};
ghost use Rattle.command_words.specs.Values.{HasMode, HasNames, HasOptions, HasServed, HasText, HasTimeout, HasTrace, HasVolume, HasWait, HasWhatIf, HasWorkers, NoNames, NoOptions, NoServed, NoTimeout, NoTrace, NoVolume, NoWait, NoWhatIf, missing_by, named_by, served_by};
ghost use Rattle.solo.specs.Volume.{target_of};
ghost use Rattle.std.specs.Prelude.{◌≡◌, ◌↔◌, ◌<◌, ◌≤◌, ◌^◌, ℕ, Some, IfSome, IfNone, IsTrue, codes, decimal, option_map, unwrap_or};

use crate::command::{
    Generated, MissingName, Mode, Options, Patience, ServedName, ViewNames, WhatIfOptions,
};
use clap::ArgMatches;
use itoa::Buffer;
use solo::Volume;

// The most blocks that a volume may have.
const MOST_BLOCKS: u64 = 1 << 32;

// The most bytes of a host's name.
const MOST_HOST_BYTES: usize = 64;

// The greatest seed of a generated trace.
const MOST_SEED: u64 = (1 << 63) - 1;

// The most lines of a generated trace.
const MOST_LINES: u64 = (1 << 31) - 1;

// The most workers.
const MOST_WORKERS: u64 = 64;

// The longest timeout, in milliseconds: a day.
const MOST_TIMEOUT_MS: u64 = 86_400_000;

// The longest wait, in seconds: an hour.
const MOST_WAIT_SECONDS: u64 = 3_600;

/// The volume that the values name: HOST is 1 to 64 bytes from 33 to 126 with no comma, no quotation mark and no dash in front, DISK is
/// below 2^32, and BLOCKS from 1 to 2^32. `None` exactly where they name none.
pub(crate) fn volume_of<'a>(matches: &ArgMatches<'a>) -> Option<Volume<'a>>
    ensures some { IfSome result (λ volume.
        HasVolume (rows_of (found_of matches.now)) (target_of volume)) }
    ensures none { IfNone result (NoVolume (rows_of (found_of matches.now))) }
{
    let host = value_at(matches, "HOST")?.as_bytes();
    if !is_host(host) {
        return None;
    }
    let Ok(disk) = u32::try_from(number_at(matches, "DISK")?) else {
        return None;
    };
    let blocks = number_at(matches, "BLOCKS")?;
    if blocks == 0 || blocks > MOST_BLOCKS {
        return None;
    }
    Some(Volume { host, disk, blocks })
}

/// The trace that the values name: SEED is below 2^63 and LINES below 2^31. `None` exactly where they name none.
pub(crate) fn trace_of(matches: &ArgMatches<'_>) -> Option<Generated>
    ensures some { IfSome result (HasTrace (rows_of (found_of matches.now))) }
    ensures none { IfNone result (NoTrace (rows_of (found_of matches.now))) }
{
    let seed = number_at(matches, "SEED")?;
    let lines = number_at(matches, "LINES")?;
    if seed > MOST_SEED || lines > MOST_LINES {
        return None;
    }
    Some(Generated {
        seed,
        lines: lines as u32,
    })
}

/// The two names that the values are. `None` exactly where one is missing.
pub(crate) fn names_of<'a>(matches: &ArgMatches<'a>) -> Option<ViewNames<'a>>
    ensures some { IfSome result (λ names.
        HasNames (rows_of (found_of matches.now)) (named_by names)) }
    ensures none { IfNone result (NoNames (rows_of (found_of matches.now))) }
{
    Some(ViewNames {
        volume: value_at(matches, "NAME")?,
        logger: value_at(matches, "LOGGER")?,
    })
}

/// The name that the value is. `None` exactly where it is missing.
pub(crate) fn served_of<'a>(matches: &ArgMatches<'a>) -> Option<ServedName<'a>>
    ensures some { IfSome result (λ served. HasServed (rows_of (found_of matches.now))
        (served_by served)) }
    ensures none { IfNone result (NoServed (rows_of (found_of matches.now))) }
{
    let volume = value_at(matches, "NAME")?;
    Some(ServedName { volume })
}

/// The name that the value is, of a volume whose image is to be made. `None` exactly where it is missing.
pub(crate) fn missing_of<'a>(matches: &ArgMatches<'a>) -> Option<MissingName<'a>>
    ensures some { IfSome result (λ missing. HasServed (rows_of (found_of matches.now))
        (missing_by missing)) }
    ensures none { IfNone result (NoServed (rows_of (found_of matches.now))) }
{
    let volume = value_at(matches, "NAME")?;
    Some(MissingName { volume })
}

/// How long to wait: ten seconds, where the option isn't given. `None` exactly where the value is no number of seconds up to an hour.
pub(crate) fn patience_of(matches: &ArgMatches<'_>) -> Option<Patience>
    ensures some { IfSome result (λ patience.
        HasWait (rows_of (found_of matches.now)) patience.seconds) }
    ensures none { IfNone result (NoWait (rows_of (found_of matches.now))) }
{
    let seconds = number(value_or(matches, "wait", "10"))?;
    if seconds > MOST_WAIT_SECONDS {
        return None;
    }
    Some(Patience {
        seconds: seconds as u32,
    })
}

/// What is to be printed of policies, and by which timeout. `None` exactly where the timeout is none.
pub(crate) fn what_if_of(matches: &ArgMatches<'_>) -> Option<WhatIfOptions>
    ensures some { IfSome result (HasWhatIf (rows_of (found_of matches.now))) }
    ensures none { IfNone result (NoWhatIf (rows_of (found_of matches.now))) }
{
    Some(WhatIfOptions {
        long: is_given(matches, "long"),
        volumes: is_given(matches, "volumes"),
        timeout_ms: timeout_of(matches)?,
    })
}

/// The options that the values are. `None` exactly where they are none.
pub(crate) fn options_of(matches: &ArgMatches<'_>) -> Option<Options>
    ensures some { IfSome result (HasOptions (rows_of (found_of matches.now))) }
    ensures none { IfNone result (NoOptions (rows_of (found_of matches.now))) }
{
    Some(Options {
        workers: workers_of(matches)?,
        reclaim: mode_of(matches)?,
        each: is_given(matches, "each"),
    })
}

// Whether a flag is given.
fn is_given(matches: &ArgMatches<'_>, name: &str) -> bool
    ensures { IsTrue result ↔ HasText (rows_of (found_of matches.now)) name.now (codes "true") }
{
    value_or(matches, name, "false") == "true"
}

// The timeout that is given, if one is. `None` exactly where what is given is none.
fn timeout_of(matches: &ArgMatches<'_>) -> Option<Option<u32>>
    ensures some { IfSome result (HasTimeout (rows_of (found_of matches.now))) }
    ensures none { IfNone result (NoTimeout (rows_of (found_of matches.now))) }
{
    let Some(word) = value_at(matches, "timeout") else {
        return Some(None);
    };
    let timeout = number(word)?;
    if timeout == 0 || timeout > MOST_TIMEOUT_MS {
        return None;
    }
    Some(Some(timeout as u32))
}

// One worker, where the option isn't given.
fn workers_of(matches: &ArgMatches<'_>) -> Option<u32>
    ensures { (n : ℕ) → (result ≡ Some n) ↔ HasWorkers (rows_of (found_of matches.now)) n }
{
    let workers = number(value_or(matches, "workers", "1"))?;
    if workers == 0 || workers > MOST_WORKERS {
        return None;
    }
    Some(workers as u32)
}

// `Between`, where the option isn't given.
fn mode_of(matches: &ArgMatches<'_>) -> Option<Mode>
    ensures { (mode : Mode) → (result ≡ Some mode) ↔ HasMode (rows_of (found_of matches.now)) mode }
{
    match value_or(matches, "reclaim", "between") {
        "off" => Some(Mode::Off),
        "between" => Some(Mode::Between),
        "beside" => Some(Mode::Beside),
        _ => None,
    }
}

// The number that an argument's value is.
fn number_at(matches: &ArgMatches<'_>, name: &str) -> Option<u64>
    ensures { (n : ℕ) → n < 2 ^ 64 → (result ≡ Some n)
        ↔ (first_of name.now (rows_of (found_of matches.now)) ≡ Some (decimal n)) }
{
    number(value_at(matches, name)?)
}

// An argument's value, or the default.
fn value_or<'a>(matches: &ArgMatches<'a>, name: &str, default: &'a str) -> &'a str
    ensures { result.now ≡ unwrap_or (first_of name.now (rows_of (found_of matches.now)))
        default.entry.now }
{
    match value_at(matches, name) {
        Some(value) => value,
        None => default,
    }
}

// An argument's value.
fn value_at<'a>(matches: &ArgMatches<'a>, name: &str) -> Option<&'a str>
    ensures { option_map (λ value. value.now) result ≡ first_of name.now
        (rows_of (found_of matches.now)) }
{
    matches.get_str(name)
}

// The number that a word is in decimal digits, without a sign and without leading zeros.
fn number(word: &str) -> Option<u64>
    ensures { (n : ℕ) → n < 2 ^ 64 → (result ≡ Some n) ↔ (word.now ≡ decimal n) }
{
    let Ok(number) = word.parse::<u64>() else {
        return None;
    };
    let mut digits = Buffer::new();
    if digits.format(number) == word {
        Some(number)
    } else {
        None
    }
}

fn is_host(name: &[u8]) -> bool
    ensures { IsTrue result ↔ IsHost name.now }
{
    !name.is_empty()
        && name.len() <= MOST_HOST_BYTES
        && name[0] != b'-'
        && name.iter().all(|byte| is_host_byte(*byte))
}

fn is_host_byte(byte: u8) -> bool
    ensures { IsTrue result ↔ IsHostByte byte }
{
    byte >= 33 && byte <= 126 && byte != b',' && byte != b'"'
}
