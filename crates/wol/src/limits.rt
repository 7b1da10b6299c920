// The limit on the length of files that the process runs under. The system ends a process that writes behind it.
use crate::streams::Stream;
use std::fs;
use std::rt::Files;

// The flag of a stream whose bytes go to the end of its file.
const APPENDS: u64 = 0o2000;

/// How long a file may become, in bytes: 2^64 - 1 where there is no limit, or where the system tells none.
pub fn most_file_bytes<R: Files + AllocGlobal>(rt: &R) -> u64 {
    let Ok(text) = fs::read_to_string(rt, "/proc/self/limits") else {
        return u64::MAX;
    };
    match word_after(text.as_str(), "Max file size") {
        Some(limit) => limit.parse().unwrap_or(u64::MAX),
        None => u64::MAX,
    }
}

/// How many more bytes a stream takes before its file is so long: 2^64 - 1 where it is no regular file.
pub fn room<R: Files + AllocGlobal>(rt: &R, stream: Stream, most_bytes: u64) -> u64 {
    if most_bytes == u64::MAX {
        return u64::MAX;
    }
    match fs::metadata(rt, stream.file) {
        Ok(file) if file.is_file() => {
            let next = next_place(rt, stream).unwrap_or(file.len());
            most_bytes.saturating_sub(next)
        }
        _ => u64::MAX,
    }
}

// Where the next byte of a stream goes in its file, unless it is the file's end.
fn next_place<R: Files + AllocGlobal>(rt: &R, stream: Stream) -> Option<u64> {
    let text = fs::read_to_string(rt, stream.state).ok()?;
    let flags = word_after(text.as_str(), "flags:")?;
    if u64::from_str_radix(flags, 8).ok()? & APPENDS != 0 {
        return None;
    }
    word_after(text.as_str(), "pos:")?.parse().ok()
}

// The first word behind the name on the first line that begins with it.
fn word_after<'a>(text: &'a str, name: &str) -> Option<&'a str> {
    let rest = text.lines().find_map(|line| line.strip_prefix(name))?;
    rest.split_whitespace().next()
}
