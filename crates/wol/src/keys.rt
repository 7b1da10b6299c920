// The keys of wol.toml that aren't known.
use crate::text::{append_printable, nearest};
use std::alloc::{AllocError, Global};
use toml::{Table, Value};
use wol_config::Key;

// The keys of the file, and those of each of its volumes.
const OF_FILE: [Key; 7] = [
    Key::SegmentBlocks,
    Key::TimeoutMs,
    Key::AwakeMw,
    Key::StandbyMw,
    Key::WakeMj,
    Key::WakeMs,
    Key::Volume,
];

const OF_VOLUME: [Key; 6] = [
    Key::Name,
    Key::Host,
    Key::Disk,
    Key::HomeBlocks,
    Key::Segments,
    Key::View,
];

/// A line for each key of the file, and of its volumes, that means nothing, with the known one that is most like it. None where
/// the bytes aren't TOML.
pub fn unknown_keys(alloc: Global, bytes: &[u8]) -> Result<String, AllocError> {
    let mut text = String::new(alloc);
    let Ok(document) = toml::table_from_slice(alloc, bytes) else {
        return Ok(text);
    };
    append_unknown(alloc, &mut text, &document, &OF_FILE, "")?;
    if let Some(Value::Array(volumes)) = document.get(Key::Volume.text()) {
        for volume in volumes {
            if let Value::Table(volume) = volume {
                let name = match volume.get(Key::Name.text()) {
                    Some(Value::String(name)) => name.as_str(),
                    _ => "?",
                };
                append_unknown(alloc, &mut text, volume, &OF_VOLUME, name)?;
            }
        }
    }
    Ok(text)
}

// Appends a line for each key of a table that isn't known there. The name is that of the table's volume, if it is of one.
fn append_unknown(
    alloc: Global,
    text: &mut String,
    table: &Table,
    known: &[Key],
    volume: &str,
) -> Result<(), AllocError> {
    let mut names = Vec::new(alloc);
    for key in known {
        names.push(key.text())?;
    }
    for key in table.keys() {
        let key = key.as_str();
        if names.contains(&key) {
            continue;
        }
        text.push_str("wol: wol.toml")?;
        if !volume.is_empty() {
            text.push_str(", volume ")?;
            append_printable(text, volume.as_bytes())?;
        }
        text.push_str(": the key ")?;
        append_printable(text, key.as_bytes())?;
        text.push_str(" is unknown and means nothing")?;
        match nearest(alloc, key, &names)? {
            Some(name) => {
                text.push_str("; was ")?;
                text.push_str(name)?;
                text.push_str(" meant?\n")?;
            }
            None => text.push_str(".\n")?,
        }
    }
    Ok(())
}
