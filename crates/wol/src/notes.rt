// What is said of a trace that was run, where its lines may not be what was meant.
use crate::tally::Tally;
use crate::text::append_printable;
use std::alloc::{AllocError, Global};

// The least lines of a trace that should span a minute.
const MANY_LINES: u64 = 100;

// Units of 100 ns.
const MILLISECOND: u64 = 10_000;

const SECOND: u64 = 10_000_000;

const MINUTE: u64 = 60 * SECOND;

const HOUR: u64 = 60 * MINUTE;

const DAY: u64 = 24 * HOUR;

/// The notes on a trace, each a line; none where there is nothing to say.
pub fn notes_on(alloc: Global, tally: &Tally) -> Result<String, AllocError> {
    let mut text = String::new(alloc);
    if tally.requests == 0 {
        text.push_str(EMPTY)?;
        return Ok(text);
    }
    append_foreign(alloc, &mut text, tally)?;
    if tally.skipped > 0 && tally.skipped < tally.requests {
        append_unmet(&mut text, tally)?;
    }
    let requests = tally.requests;
    if tally.earlier > 0 {
        let earlier = tally.earlier;
        let back = length_of(alloc, tally.back)?;
        let back = back.as_str();
        let s = format!(in alloc;
            "wol: {earlier} of {requests} lines are earlier than a line before, by up to {back}. Is the trace sorted by time?\n"
        )?;
        text.push_str(s.as_str())?;
    }
    if requests >= MANY_LINES && tally.span() < MINUTE {
        let span = length_of(alloc, tally.span())?;
        let span = span.as_str();
        let s = format!(in alloc;
            "wol: the trace spans {span} only. Do its times count 100 ns?\n"
        )?;
        text.push_str(s.as_str())?;
    }
    Ok(text)
}

/// What is said of a trace without lines.
pub const EMPTY: &str = "wol: the trace has no line, so all numbers are 0.\n";

/// What is said of a timeout that is less than the time that a disk takes to be up.
pub const SHORT_TIMEOUT: &str =
    "wol: timeout_ms is less than wake_ms: a disk may go down before it is up.\n";

// Appends what is to be said of lines that belong to no volume.
fn append_foreign(alloc: Global, text: &mut String, tally: &Tally) -> Result<(), AllocError> {
    let Some(foreign) = &tally.foreign else {
        return Ok(());
    };
    let (skipped, requests) = (tally.skipped, tally.requests);
    let (line, disk) = (foreign.line, foreign.disk);
    if skipped == requests {
        let s = format!(in alloc;
            "wol: NO line belongs to a volume of wol.toml: these are idle disks. Line {line} has host "
        )?;
        text.push_str(s.as_str())?;
    } else {
        let s = format!(in alloc;
            "wol: {skipped} of {requests} lines belong to no volume of wol.toml; the first is line {line}: host "
        )?;
        text.push_str(s.as_str())?;
    }
    append_printable(text, &foreign.host)?;
    let s = format!(in alloc; ", disk {disk}.\n")?;
    text.push_str(s.as_str())
}

// Appends the volumes to which no line belongs, if there are any.
fn append_unmet(text: &mut String, tally: &Tally) -> Result<(), AllocError> {
    let mut is_begun = false;
    for (number, volume) in tally.config().volumes.iter().enumerate() {
        if tally.is_met(number) {
            continue;
        }
        text.push_str(if is_begun {
            " "
        } else {
            "wol: no line belongs to: "
        })?;
        append_printable(text, volume.name.as_bytes())?;
        is_begun = true;
    }
    if is_begun {
        text.push_str(".\n")?;
    }
    Ok(())
}

// A length of time, by its greatest units.
fn length_of(alloc: Global, units: u64) -> Result<String, AllocError> {
    let (days, hours) = (units / DAY, units % DAY / HOUR);
    if days > 0 {
        return format!(in alloc; "{days} d {hours} h");
    }
    let minutes = units % HOUR / MINUTE;
    if hours > 0 {
        return format!(in alloc; "{hours} h {minutes} min");
    }
    let seconds = units % MINUTE / SECOND;
    if minutes > 0 {
        return format!(in alloc; "{minutes} min {seconds} s");
    }
    let milliseconds = units % MINUTE / MILLISECOND;
    format!(in alloc; "{milliseconds} ms")
}
