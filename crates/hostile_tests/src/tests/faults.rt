// Each call of a disk, of a source and of the sink fails alone.
use super::calls::{Failing, Stream};
use super::rows::{CLEANED, FORMATTED, RECLAIMED, Row, SMALL_DRAINED, keeping};
use super::stops::{Case, Remains, found, left_by, prepared, stopped, without_last_line};
use fixtures::{Call, Left, RECLAIMS, holds_at, same, same_at};
use std::alloc::Global;
use std::sync::Wait;
use std::test::Fail;
use std::thread::Threads;
use wol_disk::Block;

// What comes of the next so many calls of a part, if one of them fails: the status, and a line that is printed.
type Faults<'a> = (u64, u8, &'a str);

// All further calls.
const REST: u64 = u64::MAX;

// A part of an image, and its calls in a command.
type Part<'a> = (&'a str, u32, &'a [Faults<'a>]);

// The label and view of an image, its home, and the first of its segments.
const LABEL: u32 = 0;

const HOME: u32 = 1;

const SEGMENTS: u32 = 2;

// The calls that a command may make of a part, a source or the sink.
const MOST_CALLS: u64 = 1000;

// A call in which one call of a part fails, and which volumes may then be found: the status, and what is printed.
fn failed<R: Threads + Wait + Sync>(
    rt: &R,
    alloc: Global,
    case: Case<'_, '_, '_>,
    failing: Failing<'_>,
) -> Result<(u8, String), Fail> {
    let stop = left_by(rt, alloc, case, failing)?;
    let _places = found(rt, alloc, case.row, &stop.images)?;
    Ok((stop.status, String::from_utf8_lossy(alloc, &stop.text)?))
}

// What is expected of the call of this number, and whether there may be no such call.
fn fault_at<'a>(faults: &[Faults<'a>], number: u64) -> Option<(u8, &'a str, bool)> {
    let mut left = number;
    for (count, status, line) in faults {
        if left < *count {
            return Some((*status, *line, *count == REST && left > 0));
        }
        left -= *count;
    }
    None
}

// Each call of a part fails in turn. It ends the same where a crash leaves all that the call did.
fn try_part<R: Threads + Wait + Sync>(
    rt: &R,
    alloc: Global,
    case: Case<'_, '_, '_>,
    part: Part<'_>,
) -> Result<(), Fail> {
    let Case { row, images, .. } = case;
    let (words, (image, place, faults)) = (row.call.words, part);
    let newest = Case::new(row, images, Left::AllNew);
    for number in 0..MOST_CALLS {
        let failing = Failing::Part(image, place, number);
        let (status, text) = failed(rt, alloc, case, failing)?;
        let (newer, _text) = failed(rt, alloc, newest, failing)?;
        same(&newer, &status)?;
        let (wanted, line, may_end) = fault_at(faults, number).unwrap_or((0, "", true));
        if may_end && status == 0 {
            return Ok(());
        }
        let at = format!(in alloc; "{words}: {image} {place} {number}: {text}")?;
        same_at(&status, &wanted, &at)?;
        holds_at(text.lines().any(|it| it == line), &at)?;
    }
    Err(Fail::from("it made a thousand calls"))
}

fn try_parts<R: Threads + Wait + Sync>(
    rt: &R,
    alloc: Global,
    row: &Row<'_>,
    parts: &[Part<'_>],
) -> Result<(), Fail> {
    let images = prepared(rt, alloc, row)?;
    let case = Case::new(row, &images, Left::AllOld);
    for part in parts {
        try_part(rt, alloc, case, *part)?;
    }
    Ok(())
}

// How a call ends in which a call of a stream fails. Of the configuration: no image is touched. Of the trace: the whole lines before
// were run. Of the sink: what it took before is a front of what is printed otherwise.
fn is_told(stream: Stream, left: &Remains, whole: &Remains, images: &[Vec<Block>]) -> bool {
    match stream {
        Stream::Config => {
            left.text.as_slice() == b"fault 8 config\n".as_slice()
                && left.images.as_slice() == images
        }
        Stream::Trace => {
            left.text.ends_with(b"fault 8 trace\n")
                && whole.text.starts_with(without_last_line(&left.text))
        }
        Stream::Sink => whole.text.starts_with(&left.text),
    }
}

// Each call of a stream fails in turn.
fn try_stream<R: Threads + Wait + Sync>(
    rt: &R,
    alloc: Global,
    row: &Row<'_>,
    stream: Stream,
) -> Result<(), Fail> {
    let words = row.call.words;
    let images = prepared(rt, alloc, row)?;
    let case = Case::new(row, &images, Left::AllNew);
    let whole = stopped(rt, alloc, case, u64::MAX)?;
    for number in 0..MOST_CALLS {
        let left = left_by(rt, alloc, case, Failing::Stream(stream, number))?;
        if stream != Stream::Config {
            let _places = found(rt, alloc, row, &left.images)?;
        }
        if left.status == 0 {
            holds_at(number >= stream.least_calls(), &words)?;
            same_at(&left.text.as_slice(), &whole.text.as_slice(), &words)?;
            return Ok(());
        }
        let at = format!(in alloc; "{words} {number}")?;
        same_at(&left.status, &stream.status(), &at)?;
        holds_at(is_told(stream, &left, &whole, &images), &at)?;
    }
    Err(Fail::from("it made a thousand calls"))
}

// Commands that keep each volume's content.
const OTHERS: [&str; 7] = [
    "check",
    "dump",
    "gen 7 20",
    "whatif",
    "soak 7 0",
    "view-add w s",
    "view-remove u w",
];

#[test]
fn a_configuration_that_cannot_be_read_touches_nothing(rt: HostRuntime) -> Result<(), Fail> {
    for words in OTHERS {
        try_stream(&rt, rt.alloc(), &keeping(words, &[]), Stream::Config)?;
    }
    for row in &[FORMATTED, RECLAIMED, CLEANED] {
        try_stream(&rt, rt.alloc(), row, Stream::Config)?;
    }
    Ok(())
}

#[test]
fn a_trace_that_cannot_be_read_further_was_run_so_far(rt: HostRuntime) -> Result<(), Fail> {
    let compared = Row {
        call: Call {
            words: "whatif",
            trace: RECLAIMS,
        },
        ..keeping("whatif", &[])
    };
    for row in &[SMALL_DRAINED, RECLAIMED, compared] {
        try_stream(&rt, rt.alloc(), row, Stream::Trace)?;
    }
    Ok(())
}

#[test]
fn an_output_that_is_refused_loses_nothing(rt: HostRuntime) -> Result<(), Fail> {
    for words in OTHERS {
        try_stream(&rt, rt.alloc(), &keeping(words, &[]), Stream::Sink)?;
    }
    for row in &[SMALL_DRAINED, RECLAIMED, FORMATTED, CLEANED] {
        try_stream(&rt, rt.alloc(), row, Stream::Sink)?;
    }
    Ok(())
}

// The first calls of a part of `b`, which `a` opens.
const NO_LOG: Faults<'_> = (2, 6, "fault 6 a logger 1 missing");

const IN_A_DRAIN: &[Part<'_>] = &[
    ("a", LABEL, &[(2, 4, "fault 4 a disk label")]),
    ("a", HOME, &[(REST, 4, "fault 4 a disk home")]),
    ("b", LABEL, &[NO_LOG]),
    ("b", HOME, &[(REST, 4, "fault 4 b disk home")]),
    (
        "b",
        SEGMENTS,
        &[NO_LOG, (REST, 4, "fault 4 a disk segment 0 of b")],
    ),
];

#[test]
fn each_call_of_a_disk_that_fails_in_a_drain_is_told(rt: HostRuntime) -> Result<(), Fail> {
    try_parts(&rt, rt.alloc(), &SMALL_DRAINED, IN_A_DRAIN)
}

const IN_A_FORMAT: &[Part<'_>] = &[
    ("a", LABEL, &[(REST, 4, "fault 4 a disk label")]),
    ("a", HOME, &[(1, 4, "fault 4 a disk home")]),
    ("b", LABEL, &[(REST, 4, "fault 4 b disk label")]),
    ("b", HOME, &[(1, 4, "fault 4 b disk home")]),
    ("b", SEGMENTS, &[(REST, 4, "fault 4 b disk segment 0 of b")]),
];

#[test]
fn each_call_of_a_disk_that_fails_in_a_format_is_told(rt: HostRuntime) -> Result<(), Fail> {
    try_parts(&rt, rt.alloc(), &FORMATTED, IN_A_FORMAT)
}

const IN_A_CHECK: &[Part<'_>] = &[
    ("u", LABEL, &[(2, 4, "u disk label")]),
    ("u", HOME, &[(REST, 4, "u disk home")]),
    ("u", SEGMENTS, &[(2, 4, "u disk segment 0 of u")]),
    ("w", LABEL, &[(2, 6, "w disk label")]),
    ("w", HOME, &[(REST, 4, "w disk home")]),
    (
        "w",
        SEGMENTS,
        &[
            (2, 6, "w disk segment 0 of w"),
            (REST, 4, "u disk segment 0 of w"),
        ],
    ),
    (
        "w",
        SEGMENTS + 1,
        &[
            (2, 6, "w disk segment 1 of w"),
            (REST, 4, "s disk segment 1 of w"),
        ],
    ),
    ("s", LABEL, &[(2, 4, "s disk label")]),
    ("s", HOME, &[(REST, 4, "s disk home")]),
    ("s", SEGMENTS, &[(2, 4, "s disk segment 0 of s")]),
];

#[test]
fn each_call_of_a_disk_that_fails_in_a_check_is_told(rt: HostRuntime) -> Result<(), Fail> {
    try_parts(&rt, rt.alloc(), &keeping("check", &[]), IN_A_CHECK)
}

// The first calls of a part of `w`, which the volume of another opens.
const MISSING: Faults<'_> = (2, 6, "fault 6 u logger 1 missing");

// The segments of `w` that have records of `u` and of `s`.
const LOG_OF_U: Part<'_> = (
    "w",
    SEGMENTS,
    &[MISSING, (REST, 4, "fault 4 u disk segment 0 of w")],
);

const LOG_OF_S: Part<'_> = (
    "w",
    SEGMENTS + 1,
    &[MISSING, (REST, 4, "fault 4 s disk segment 1 of w")],
);

const IN_A_CHANGE: &[Part<'_>] = &[
    ("u", LABEL, &[(2, 4, "fault 4 u disk label")]),
    ("u", HOME, &[(REST, 4, "fault 4 u disk home")]),
    ("u", SEGMENTS, &[(2, 4, "fault 4 u disk segment 0 of u")]),
    ("w", LABEL, &[MISSING]),
    ("w", HOME, &[(1, 4, "fault 4 w disk home")]),
    LOG_OF_U,
    LOG_OF_S,
    ("s", HOME, &[(1, 4, "fault 4 s disk home")]),
];

#[test]
fn each_call_of_a_disk_that_fails_in_a_change_of_views_is_told(
    rt: HostRuntime,
) -> Result<(), Fail> {
    try_parts(
        &rt,
        rt.alloc(),
        &keeping("view-remove u w", &[]),
        IN_A_CHANGE,
    )
}

const IN_A_CLEANING: &[Part<'_>] = &[
    ("u", LABEL, &[(2, 4, "fault 4 u disk label")]),
    ("u", HOME, &[(1, 4, "fault 4 u disk home")]),
    ("w", LABEL, &[MISSING]),
    LOG_OF_U,
    LOG_OF_S,
    (
        "w",
        SEGMENTS + 2,
        &[MISSING, (REST, 4, "fault 4 u disk segment 2 of w")],
    ),
];

#[test]
fn each_call_of_a_disk_that_fails_in_a_cleaning_is_told(rt: HostRuntime) -> Result<(), Fail> {
    try_parts(&rt, rt.alloc(), &CLEANED, IN_A_CLEANING)
}
