// What is summed up of a replay beside what is reckoned with no image: where each volume logs on each other one, in the order of
// the configuration, and no log is ever full, spin-ups, spin-downs and energy of both are the same.
ghost use Rattle.solo.specs.Images.{NoneOut};
ghost use Rattle.wol_bay.specs.MemBay.{mem_bay_state};

use super::calls::{NONE, make_call};
use fixtures::{Call, FORMAT, asked, config_text, holds_at, same_at};
use std::alloc::Global;
use std::sync::Wait;
use std::test::Fail;
use std::thread::Threads;
use wol_bay::MemBay;

// Generated lines: a configuration, a seed, and how many lines.
type Row<'a> = (&'a str, u64, u32);

const AMONG_TWO: &str = config_text!(16:
    "a" of "a" 30 64 "\"b\"",
    "b" of "b" 50 64 "\"a\""
);

const AMONG_THREE: &str = config_text!(32:
    "a" of "a" 30 64 "\"b\", \"c\"",
    "b" of "b" 40 64 "\"a\", \"c\"",
    "c" of "c" 50 64 "\"a\", \"b\""
);

const AMONG_FOUR: &str = config_text!(16:
    "a" of "a" 30 64 "\"b\", \"c\", \"d\"",
    "b" of "b" 20 64 "\"a\", \"c\", \"d\"",
    "c" of "c" 50 64 "\"a\", \"b\", \"d\"",
    "d" of "d" 40 64 "\"a\", \"b\", \"c\""
);

const ROWS: [Row<'_>; 4] = [
    (AMONG_TWO, 1, 300),
    (AMONG_THREE, 2, 300),
    (AMONG_THREE, 3, 300),
    (AMONG_FOUR, 4, 300),
];

// What a call prints, which ends well.
fn printed<R: Threads + Wait + Sync>(
    rt: &R,
    alloc: Global,
    bay: &mut MemBay,
    config: &str,
    call: Call<'_>,
) -> Result<Vec<u8>, Fail>
    requires { NoneOut (mem_bay_state bay.old) }
    ensures { NoneOut (mem_bay_state bay.new) }
{
    let (status, text) = make_call(rt, alloc, bay, config.as_bytes(), call, NONE)?;
    same_at(&status, &0, &call.words)?;
    Ok(text)
}

// What stands behind this word in the line that begins with it.
fn behind<'t>(text: &'t [u8], word: &[u8]) -> &'t [u8] {
    for line in text.split(|byte| *byte == b'\n') {
        if let Some(rest) = line.strip_prefix(word) {
            return rest;
        }
    }
    &[]
}

// The lines on new images, by these words.
fn try_call<R: Threads + Wait + Sync>(
    rt: &R,
    alloc: Global,
    config: &str,
    call: Call<'_>,
    wanted: &[u8],
) -> Result<(), Fail> {
    let mut bay = MemBay::new(alloc);
    printed(rt, alloc, &mut bay, config, FORMAT)?;
    let text = printed(rt, alloc, &mut bay, config, call)?;
    let found = String::from_utf8_lossy(alloc, behind(&text, b"total"))?;
    let wanted = String::from_utf8_lossy(alloc, wanted)?;
    same_at(&found.as_str(), &wanted.as_str(), &call.words)?;
    Ok(())
}

fn try_row<R: Threads + Wait + Sync>(rt: &R, alloc: Global, row: &Row<'_>) -> Result<(), Fail> {
    let (config, seed, lines) = *row;
    let mut bay = MemBay::new(alloc);
    let words = format!(in alloc; "gen {seed} {lines}")?;
    let trace = printed(rt, alloc, &mut bay, config, asked(&words))?;
    let call = Call {
        words: "whatif",
        trace: &trace,
    };
    let text = printed(rt, alloc, &mut bay, config, call)?;
    let wanted = behind(&text, b"all");
    let is_told = wanted.starts_with(b" wakes ") && !wanted.starts_with(b" wakes 0 ");
    holds_at(is_told, &words)?;
    for words in ["replay", "replay --workers 4"] {
        let call = Call {
            words,
            trace: &trace,
        };
        try_call(rt, alloc, config, call, wanted)?;
    }
    let words = format!(in alloc; "soak {seed} {lines}")?;
    try_call(rt, alloc, config, asked(&words), wanted)
}

#[test]
fn a_replay_with_room_in_all_logs_uses_what_was_reckoned_without_images(
    rt: HostRuntime,
) -> Result<(), Fail> {
    for row in &ROWS {
        try_row(&rt, rt.alloc(), row)?;
    }
    Ok(())
}
