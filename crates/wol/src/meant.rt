// What words were meant that are no command.
use crate::text::{append_printable, nearest};
use std::alloc::{AllocError, Global};

// The names of the commands.
const COMMANDS: [&str; 13] = [
    "check",
    "clean",
    "dump",
    "format",
    "gen",
    "nbd",
    "replay",
    "serve",
    "soak",
    "solo",
    "view-add",
    "view-remove",
    "whatif",
];

// The options that have a value.
const WITH_VALUE: [&str; 4] = ["--reclaim", "--timeout", "--wait", "--workers"];

// A command's options.
fn options_of(command: &str) -> &'static [&'static str] {
    match command {
        "replay" | "soak" => &["--each", "--reclaim", "--workers"],
        "whatif" => &["--long", "--timeout", "--volumes"],
        "serve" => &["--wait"],
        _ => &[],
    }
}

// How many words a command that reads a trace has besides its options, and none for the others.
fn places_of(command: &str) -> Option<usize> {
    match command {
        "replay" | "whatif" => Some(0),
        "solo" => Some(3),
        _ => None,
    }
}

/// A line on what was meant by words that are no command, if that can be seen: another command, another option, or a trace that
/// is read from the input and not from a file that is named.
pub fn meant(alloc: Global, words: &[String]) -> Result<Option<String>, AllocError> {
    let Some((command, rest)) = words.split_first() else {
        return Ok(None);
    };
    let command = command.as_str();
    if !COMMANDS.contains(&command) {
        return meant_command(alloc, command);
    }
    if let Some(text) = meant_option(alloc, command, rest)? {
        return Ok(Some(text));
    }
    meant_input(alloc, command, rest)
}

// A word that is no command's name.
fn meant_command(alloc: Global, word: &str) -> Result<Option<String>, AllocError> {
    if word == "help" || word.starts_with('-') {
        return Ok(None);
    }
    let mut text = String::from_str(alloc, "wol: there is no command ")?;
    append_printable(&mut text, word.as_bytes())?;
    match nearest(alloc, word, &COMMANDS)? {
        Some(name) => {
            text.push_str("; was ")?;
            text.push_str(name)?;
            text.push_str(" meant?\n")?;
        }
        None => text.push_str(".\n")?,
    }
    Ok(Some(text))
}

// The name of the option that a word is, without its value.
fn name_of(word: &str) -> &str {
    match word.split_once('=') {
        Some((name, _)) => name,
        None => word,
    }
}

// Whether a word is an option that the command hasn't.
fn is_unknown(command: &str, word: &str) -> bool {
    let name = name_of(word);
    name.starts_with("--") && name != "--" && !options_of(command).contains(&name)
}

// The first word that is an option that the command hasn't.
fn unknown_in<'a>(command: &str, words: &'a [String]) -> Option<&'a str> {
    for word in words {
        let word = word.as_str();
        if word == "--" {
            return None;
        }
        if is_unknown(command, word) {
            return Some(name_of(word));
        }
    }
    None
}

// An option that the command hasn't.
fn meant_option(
    alloc: Global,
    command: &str,
    words: &[String],
) -> Result<Option<String>, AllocError> {
    let Some(name) = unknown_in(command, words) else {
        return Ok(None);
    };
    let mut text = String::from_str(alloc, "wol: ")?;
    text.push_str(command)?;
    text.push_str(" has no option ")?;
    append_printable(&mut text, name.as_bytes())?;
    match nearest(alloc, name, options_of(command))? {
        Some(known) => {
            text.push_str("; was ")?;
            text.push_str(known)?;
            text.push_str(" meant?\n")?;
        }
        None => text.push_str(".\n")?,
    }
    Ok(Some(text))
}

// A file that is named where the trace is read from the input.
fn meant_input(
    alloc: Global,
    command: &str,
    words: &[String],
) -> Result<Option<String>, AllocError> {
    let Some(places) = places_of(command) else {
        return Ok(None);
    };
    let mut place = 0_usize;
    let mut is_value = false;
    for word in words {
        let word = word.as_str();
        let is_option = word.starts_with('-');
        if !is_option && !is_value {
            if place >= places {
                let mut text = String::from_str(alloc, "wol: ")?;
                text.push_str(command)?;
                text.push_str(" reads the trace from its input: put < in front of ")?;
                append_printable(&mut text, word.as_bytes())?;
                text.push_str(".\n")?;
                return Ok(Some(text));
            }
            place = place.saturating_add(1);
        }
        is_value = WITH_VALUE.contains(&word);
    }
    Ok(None)
}
