// Files that are refused, each with what it is refused for.
use fixtures::{same, same_at};
use std::alloc::{AllocError, Global};
use std::test::Fail;
use wol_config::{ConfigFault, read_config};

// The lines of a configuration, of which a case changes one.
const LINES: [&str; 12] = [
    "segment_blocks = 16",
    "timeout_ms = 60000",
    "awake_mw = 8000",
    "standby_mw = 1000",
    "wake_mj = 50000",
    "[[volume]]",
    "name = \"a\"",
    "host = \"h\"",
    "disk = 0",
    "home_blocks = 1000",
    "segments = 4",
    "view = []",
];

// The line to change, its new text, and the answer.
const CASES: [(usize, &str, &str); 46] = [
    (0, "", "missing segment_blocks"),
    (0, "segment_blocks = \"16\"", "wrong kind segment_blocks"),
    (0, "segment_blocks = 3", "out of range segment_blocks"),
    (0, "segment_blocks = 65537", "out of range segment_blocks"),
    (0, "segment_blocks = 9223372036854775808", "not toml"),
    (0, "segment_blocks = 16\nsegment_blocks = 16", "not toml"),
    (1, "", "read"),
    (1, "timeout_ms = 1.5", "wrong kind timeout_ms"),
    (1, "timeout_ms = 0", "out of range timeout_ms"),
    (1, "timeout_ms = 86400001", "out of range timeout_ms"),
    (2, "", "missing awake_mw"),
    (2, "awake_mw = true", "wrong kind awake_mw"),
    (2, "awake_mw = -1", "out of range awake_mw"),
    (3, "", "missing standby_mw"),
    (3, "standby_mw = 1000001", "out of range standby_mw"),
    (4, "wake_mj = []", "wrong kind wake_mj"),
    (4, "wake_mj = 1000000001", "out of range wake_mj"),
    (4, "wake_mj = 0\nwake_ms = 0", "read"),
    (4, "wake_mj = 0\nwake_ms = 600000", "read"),
    (4, "wake_mj = 0\nwake_ms = 600001", "out of range wake_ms"),
    (4, "wake_mj = 0\nwake_ms = -1", "out of range wake_ms"),
    (4, "wake_mj = 0\nwake_ms = \"1\"", "wrong kind wake_ms"),
    (4, "wake_ms = 600001", "missing wake_mj"),
    (5, "", "missing volume"),
    (5, "volume = 3", "wrong kind volume"),
    (5, "volume = [1]", "wrong kind volume"),
    (5, "volume = []", "out of range volume"),
    (6, "", "missing name"),
    (6, "name = 1", "wrong kind name"),
    (6, "name = \"\"", "out of range name"),
    (6, "name = \"A\"", "out of range name"),
    (
        6,
        "name = \"aaaaaaaaaaaaaaaaaaaaaaaaaaaaaaaaa\"",
        "out of range name",
    ),
    (7, "", "missing host"),
    (7, "host = \"a,b\"", "out of range host"),
    (7, "host = \" \"", "out of range host"),
    (8, "disk = \"0\"", "wrong kind disk"),
    (8, "disk = 4294967296", "out of range disk"),
    (9, "home_blocks = 0", "out of range home_blocks"),
    (9, "home_blocks = 4294967297", "out of range home_blocks"),
    (9, "home_blocks = 4294967296", "read"),
    (10, "segments = 1025", "out of range segments"),
    (11, "", "missing view"),
    (11, "view = {}", "wrong kind view"),
    (11, "view = [1]", "wrong kind view"),
    (11, "view = [\"b\"]", "bad view 0 a"),
    (11, "view = [\"a\"]", "bad view 0 a"),
];

// Further volumes after the first, and the answer.
const MORE: [(&str, &str); 6] = [
    (
        "name = \"b\"\nhost = \"h\"\ndisk = 1\nhome_blocks = 1\nsegments = 0\nview = [\"a\"]",
        "read",
    ),
    (
        "name = \"a\"\nhost = \"g\"\ndisk = 0\nhome_blocks = 1\nsegments = 0\nview = []",
        "twice 1 a",
    ),
    (
        "name = \"b\"\nhost = \"h\"\ndisk = 0\nhome_blocks = 1\nsegments = 0\nview = []",
        "twice 1 b",
    ),
    (
        "name = \"a\"\nhost = \"g\"\ndisk = 0\nhome_blocks = 1\nsegments = 0\nview = [\"x\"]",
        "twice 1 a",
    ),
    (
        "name = \"b\"\nhost = \"h\"\ndisk = 1\nhome_blocks = 1\nsegments = 0\nview = [\"a\", \"a\"]",
        "bad view 1 b",
    ),
    (
        "name = \"b\"\nhost = \"h\"\ndisk = 1\nhome_blocks = 0\nsegments = 0\nview = [\"x\"]",
        "out of range home_blocks",
    ),
];

// What bytes are refused for.
fn answer(alloc: Global, bytes: &[u8]) -> Result<String, AllocError> {
    match read_config(alloc, bytes) {
        Ok(_) => String::from_str(alloc, "read"),
        Err(ConfigFault::NotToml) => String::from_str(alloc, "not toml"),
        Err(ConfigFault::Missing { key }) => named(alloc, "missing ", key.text()),
        Err(ConfigFault::WrongKind { key }) => named(alloc, "wrong kind ", key.text()),
        Err(ConfigFault::OutOfRange { key }) => named(alloc, "out of range ", key.text()),
        Err(ConfigFault::Twice { volume, name }) => format!(in alloc;
            "twice {volume} {}",
            name.as_str()
        ),
        Err(ConfigFault::BadView { volume, name }) => format!(in alloc;
            "bad view {volume} {}",
            name.as_str()
        ),
        Err(ConfigFault::NoMemory) => String::from_str(alloc, "no memory"),
        Err(ConfigFault::TooLong) => String::from_str(alloc, "too long"),
    }
}

fn named(alloc: Global, what: &str, key: &str) -> Result<String, AllocError> {
    let mut text = String::from_str(alloc, what)?;
    text.push_str(key)?;
    Ok(text)
}

// The lines, with another text for one of them.
fn changed(alloc: Global, place: usize, line: &str) -> Result<String, AllocError> {
    let mut text = String::new(alloc);
    for (i, usual) in LINES.iter().enumerate() {
        text.push_str(if i == place { line } else { usual })?;
        text.push_str("\n")?;
    }
    Ok(text)
}

#[test]
fn refuses_each_key(rt: HostRuntime) -> Result<(), Fail> {
    for (place, line, want) in &CASES {
        let text = changed(rt.alloc(), *place, line)?;
        let got = answer(rt.alloc(), text.as_bytes())?;
        same_at(&got.as_str(), want, &format_args!("at {line}"))?;
    }
    Ok(())
}

#[test]
fn refuses_volumes_that_stand_twice_and_bad_views(rt: HostRuntime) -> Result<(), Fail> {
    for (volume, want) in &MORE {
        let mut text = changed(rt.alloc(), 12, "")?;
        text.push_str("[[volume]]\n")?;
        text.push_str(volume)?;
        let got = answer(rt.alloc(), text.as_bytes())?;
        same_at(&got.as_str(), want, &format_args!("at {volume}"))?;
    }
    Ok(())
}

#[test]
fn refuses_bytes_that_are_no_toml(rt: HostRuntime) -> Result<(), Fail> {
    let deep = vec![in rt.alloc(); b'['; 1_000]?;
    let mut nested = String::from_str(rt.alloc(), "x = ")?;
    nested.push_str(std::str::from_utf8(deep.as_slice()).expect(&rt, "ASCII"))?;
    for bytes in [b"\xff".as_slice(), b"= 1".as_slice(), nested.as_bytes()] {
        let got = answer(rt.alloc(), bytes)?;
        same(&got.as_str(), &"not toml")?;
    }
    Ok(())
}

#[test]
fn refuses_over_a_million_bytes(rt: HostRuntime) -> Result<(), Fail> {
    let mut comment = vec![in rt.alloc(); b'#'; 1_048_576]?;
    let got = answer(rt.alloc(), comment.as_slice())?;
    same(&got.as_str(), &"missing segment_blocks")?;
    comment.push(b'#')?;
    let got = answer(rt.alloc(), comment.as_slice())?;
    same(&got.as_str(), &"too long")?;
    Ok(())
}
