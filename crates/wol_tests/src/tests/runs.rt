// Runs of the top call over streams and a bay in memory. The expected outputs were worked out by hand from the formats.
ghost use Rattle.solo.specs.Images.{NoneOut};
ghost use Rattle.wol_bay.specs.MemBay.{mem_bay_state};

use super::calls::{Faults, NONE, make_call};
use fixtures::{
    Call, DRAINING, DRAINS, LAST_VERSION, NOTHING_REPLAYED, OFFLOADS, OFFLOADS_KEPT, OFFLOADS_READ,
    OFFLOADS_RECLAIMED, ONE_BLOCK_EACH, SRC0, THREE, USR0, WEB0, config_text, holds_at, put,
    same_at,
};
use std::alloc::Global;
use std::sync::Wait;
use std::test::Fail;
use std::thread::Threads;
use wol_bay::{Bay, MemBay};

// The words of a call and the trace that it is given, its status, and what it prints, in parts.
type Row<'a> = (&'a str, &'a [u8], u8, &'a [&'a [u8]]);

// A call in which these calls of streams fail.
type Faulty<'a> = (Faults, Row<'a>);

// A call in which this call of a part of an image fails.
type Broken<'a> = ((&'a str, u32, u64), Row<'a>);

fn is_text(text: &[u8], parts: &[&[u8]]) -> bool {
    let mut rest = text;
    for part in parts {
        match rest.strip_prefix(*part) {
            Some(behind) => rest = behind,
            None => return false,
        }
    }
    rest.is_empty()
}

fn try_call<R: Threads + Wait + Sync>(
    rt: &R,
    alloc: Global,
    bay: &mut MemBay,
    config: &str,
    row: &Faulty<'_>,
) -> Result<(), Fail>
    requires { NoneOut (mem_bay_state bay.old) }
    ensures { NoneOut (mem_bay_state bay.new) }
{
    let (faults, (words, trace, wanted, parts)) = *row;
    let call = Call { words, trace };
    let (status, text) = make_call(rt, alloc, bay, config.as_bytes(), call, faults)?;
    same_at(&status, &wanted, &words)?;
    let printed = String::from_utf8_lossy(alloc, &text)?;
    holds_at(is_text(&text, parts), &format_args!("{words}: {printed}"))?;
    Ok(())
}

// Calls one after another in one bay: those in which nothing fails, and then the others.
fn try_all<R: Threads + Wait + Sync>(
    rt: &R,
    alloc: Global,
    bay: &mut MemBay,
    config: &str,
    rows: &[Row<'_>],
    faults: &[Faulty<'_>],
) -> Result<(), Fail>
    requires { NoneOut (mem_bay_state bay.old) }
    ensures { NoneOut (mem_bay_state bay.new) }
{
    for row in rows {
        try_call(rt, alloc, bay, config, &(NONE, *row))?;
    }
    for faulty in faults {
        try_call(rt, alloc, bay, config, faulty)?;
    }
    Ok(())
}

// Each call in a bay of its own.
fn try_apart<R: Threads + Wait + Sync>(
    rt: &R,
    alloc: Global,
    config: &str,
    rows: &[Row<'_>],
    faults: &[Faulty<'_>],
) -> Result<(), Fail> {
    for row in rows {
        let mut bay = MemBay::new(alloc);
        try_call(rt, alloc, &mut bay, config, &(NONE, *row))?;
    }
    for row in faults {
        let mut bay = MemBay::new(alloc);
        try_call(rt, alloc, &mut bay, config, row)?;
    }
    Ok(())
}

// A call in which a call of a part fails.
fn try_broken<R: Threads + Wait + Sync>(
    rt: &R,
    alloc: Global,
    config: &str,
    broken: Broken<'_>,
) -> Result<(), Fail> {
    let ((image, part, number), row) = broken;
    let mut bay = MemBay::new(alloc);
    bay.plan(image, part, number)?;
    try_call(rt, alloc, &mut bay, config, &(NONE, row))
}

const CONFIG_0: Faults = Faults {
    config: Some(0),
    ..NONE
};

const TRACE_0: Faults = Faults {
    trace: Some(0),
    ..NONE
};

const SINK_0: Faults = Faults {
    sink: Some(0),
    ..NONE
};

const USR: &str = "solo usr 0 100";

const WRITE_AND_READ: &[u8] =
    b"128166372003061629,usr,0,Write,0,512,100\n128166372003061630,usr,0,Read,0,512,100\n";

const SOLO: [Row<'_>; 13] = [
    (
        USR,
        WRITE_AND_READ,
        0,
        &[b"read 2 0 1 1\nsolo lines 2 blank 0 skipped 0 reads 1 writes 1\n"],
    ),
    (
        USR,
        b"1,usr,0,Read,512,1024,1\r\n\n1,web,0,Read,0,512,1",
        0,
        &[b"read 1 1 2 0\nsolo lines 3 blank 1 skipped 1 reads 1 writes 0\n"],
    ),
    (
        USR,
        b"1,usr,0,Write,50688,1024,1\n1,usr,0,Read,50176,2048,1\n",
        0,
        &[b"read 2 98 2 1\nread 2 0 2 1\nsolo lines 2 blank 0 skipped 0 reads 2 writes 2\n"],
    ),
    (
        USR,
        b"1,usr,0,Write,0,0,1\n1,usr,0,Write,0,67108865,1\n1,usr,0,Read,0,512,1\n",
        3,
        &[b"fault 3 line 2 too large\n"],
    ),
    (
        USR,
        b"1,usr,0,Read,0,512,1\n1,usr,0,Read,18446744073709551615,1,1\n",
        3,
        &[b"read 1 0 1 0\nfault 3 line 2 past end\n"],
    ),
    (USR, b"1,usr,0,Read,0,512", 3, &[b"fault 3 line 1 fields\n"]),
    (USR, b"1,usr,0,Reed,0,512,1", 3, &[b"fault 3 line 1 kind\n"]),
    (
        USR,
        b"1,usr,x,Read,0,512,1",
        3,
        &[b"fault 3 line 1 number 3\n"],
    ),
    (
        USR,
        b"\"1\",usr,0,Read,0,512,1",
        3,
        &[b"fault 3 line 1 quote\n"],
    ),
    ("spin", b"", 1, NO_COMMAND),
    ("solo usr 00 100", b"", 1, NO_COMMAND),
    ("solo usr 0 0", b"", 1, NO_COMMAND),
    ("solo u,r 0 1", b"", 1, NO_COMMAND),
];

const NO_COMMAND: &[&[u8]] = &[b"fault 1 words\n"];

#[test]
fn runs_and_refuses_as_worked_out_by_hand(rt: HostRuntime) -> Result<(), Fail> {
    try_apart(&rt, rt.alloc(), "", &SOLO, &[])?;
    let long = [b'1'; 4097];
    let too_long: Row<'_> = (USR, &long, 3, &[b"fault 3 line 1 too long\n"]);
    try_apart(&rt, rt.alloc(), "", &[too_long], &[])
}

const NO_DISK: &[&[u8]] = &[b"fault 4 solo disk home\n"];

const SOLO_FAULTS: [Faulty<'_>; 2] = [
    (TRACE_0, (USR, WRITE_AND_READ, 8, &[b"fault 8 trace\n"])),
    (SINK_0, (USR, WRITE_AND_READ, 7, &[])),
];

// Behind its write and its sync the disk's read fails last.
const SOLO_BROKEN: [Broken<'_>; 2] = [
    (("solo", 0, 0), (USR, WRITE_AND_READ, 4, NO_DISK)),
    (("solo", 0, 2), (USR, WRITE_AND_READ, 4, NO_DISK)),
];

#[test]
fn tells_a_source_a_sink_and_a_disk_that_fail(rt: HostRuntime) -> Result<(), Fail> {
    try_apart(&rt, rt.alloc(), "", &[], &SOLO_FAULTS)?;
    for broken in SOLO_BROKEN {
        try_broken(&rt, rt.alloc(), "", broken)?;
    }
    Ok(())
}

const NO_HOME: &str = config_text!(16: "usr0" of "usr" 0 4 "");

const NOT_TOML: &[&[u8]] = &[b"fault 2 config not toml\n"];

const MISSING: &[&[u8]] = &[b"fault 2 config missing segment_blocks\n"];

// A configuration for which a call ends.
const BAD_CONFIGS: [(&str, Row<'_>); 8] = [
    ("", ("gen 0 1", b"", 2, MISSING)),
    ("=", ("gen 0 1", b"", 2, NOT_TOML)),
    (
        "segment_blocks = 3",
        (
            "format",
            b"",
            2,
            &[b"fault 2 config out of range segment_blocks\n"],
        ),
    ),
    ("", ("format", b"", 2, MISSING)),
    (
        NO_HOME,
        (
            "format",
            b"",
            2,
            &[b"fault 2 config out of range home_blocks\n"],
        ),
    ),
    ("=", ("replay", b"", 2, NOT_TOML)),
    ("=", ("whatif", OFFLOADS, 2, NOT_TOML)),
    ("=", ("view-add b a", b"", 2, NOT_TOML)),
];

#[test]
fn tells_what_is_wrong_with_a_configuration(rt: HostRuntime) -> Result<(), Fail> {
    for (config, row) in BAD_CONFIGS {
        try_apart(&rt, rt.alloc(), config, &[row], &[])?;
    }
    Ok(())
}

const GENERATED: &[&[u8]] = &[b"128166372000147231,web,0,Write,227328,6144,1000\n"];

const GEN: [Row<'_>; 5] = [
    ("gen 0 1", b"", 0, GENERATED),
    ("gen 0 0", b"", 0, &[]),
    ("gen 9223372036854775808 1", b"", 1, NO_COMMAND),
    ("gen 0 2147483648", b"", 1, NO_COMMAND),
    ("gen 0", b"", 1, NO_COMMAND),
];

const GEN_FAULTS: [Faulty<'_>; 2] = [
    (
        Faults {
            config: Some(1),
            ..NONE
        },
        ("gen 0 1", b"", 8, &[b"fault 8 config\n"]),
    ),
    (SINK_0, ("gen 0 1", b"", 7, &[])),
];

#[test]
fn prints_generated_lines(rt: HostRuntime) -> Result<(), Fail> {
    try_apart(&rt, rt.alloc(), THREE, &GEN, &GEN_FAULTS)
}

const TWO_VOLUMES: &str = config_text!(4:
    "a" of "a" 1 2 "\"b\"",
    "b" of "b" 1 0 ""
);

const FORMAT_FAULTS: [Faulty<'_>; 3] = [
    (NONE, ("format a b", b"", 1, NO_COMMAND)),
    (SINK_0, ("format", b"", 7, &[])),
    (CONFIG_0, ("format", b"", 8, &[b"fault 8 config\n"])),
];

const FORMAT_BROKEN: [Broken<'_>; 2] = [
    (
        ("a", 3, 0),
        ("format", b"", 4, &[b"fault 4 a disk segment 1 of a\n"]),
    ),
    (("b", 1, 0), ("format", b"", 4, &[b"fault 4 b disk home\n"])),
];

const TWO_MADE: Row<'_> = (
    "format",
    b"",
    0,
    &[b"format a blocks 11\nformat b blocks 3\n"],
);

#[test]
fn formats_volumes(rt: HostRuntime) -> Result<(), Fail> {
    try_apart(&rt, rt.alloc(), TWO_VOLUMES, &[], &FORMAT_FAULTS)?;
    for broken in FORMAT_BROKEN {
        try_broken(&rt, rt.alloc(), TWO_VOLUMES, broken)?;
    }
    let mut bay = MemBay::new(rt.alloc());
    bay.put("a", &[7; 600])?;
    try_all(
        &rt,
        rt.alloc(),
        &mut bay,
        TWO_VOLUMES,
        &[TWO_MADE, TWO_MADE],
        &[],
    )?;
    bay.attach("a", &[2, 1, 4, 4])?;
    Ok(())
}

const ONE_VOLUME: &str = config_text!(4: "a" of "a" 1 2 "");

// A volume that has no image, and then has one.
const ADDED: [Row<'_>; 3] = [
    ("format b", b"", 15, &[b"fault 15 unknown b\n"]),
    ("format a", b"", 0, &[b"format a blocks 11\n"]),
    ("format a", b"", 15, &[b"fault 15 there a\n"]),
];

const NONE_BESIDE: Row<'_> = ("format a", b"", 12, &[b"fault 12 b absent\n"]);

#[test]
fn formats_a_volume_that_has_no_image(rt: HostRuntime) -> Result<(), Fail> {
    let mut bay = MemBay::new(rt.alloc());
    try_all(&rt, rt.alloc(), &mut bay, ONE_VOLUME, &ADDED, &[])?;
    try_apart(&rt, rt.alloc(), TWO_VOLUMES, &[NONE_BESIDE], &[])
}

const THREE_MADE: Row<'_> = (
    "format",
    b"",
    0,
    &[b"format usr0 blocks 1066\nformat web0 blocks 1066\nformat src0 blocks 1066\n"],
);

const NOTHING: &[&[u8]] = &[NOTHING_REPLAYED];

const EACH: &[&[u8]] = &[OFFLOADS_READ, OFFLOADS_RECLAIMED];

const REPLAYED: [Row<'_>; 9] = [
    ("replay", OFFLOADS, 12, &[b"fault 12 usr0 absent\n"]),
    THREE_MADE,
    ("replay", b"", 0, NOTHING),
    ("replay --each", OFFLOADS, 0, EACH),
    (
        "dump",
        b"",
        0,
        &[b"usr0 records 0\nweb0 records 0\nsrc0 records 0\n"],
    ),
    THREE_MADE,
    ("replay --each --workers 8", OFFLOADS, 0, EACH),
    (
        "replay --each",
        b"128166377000000000,usr,0,Read,0,512,100\n1,usr,0,Read,0,512",
        3,
        &[b"read 1 usr0 0 1 9\nfault 3 line 2 fields\n"],
    ),
    ("soak 7 0 --reclaim off", b"x", 0, NOTHING),
];

const REPLAY_FAULTS: [Faulty<'_>; 2] = [
    (TRACE_0, ("replay", OFFLOADS, 8, &[b"fault 8 trace\n"])),
    (SINK_0, ("replay", OFFLOADS, 7, &[])),
];

const SHORT: &[&[u8]] = &[b"fault 5 usr0 length 1000\n"];

const NONE_REPLAYED: [Row<'_>; 2] = [
    ("replay", OFFLOADS, 5, SHORT),
    ("soak 7 1", OFFLOADS, 5, SHORT),
];

#[test]
fn replays_traces(rt: HostRuntime) -> Result<(), Fail> {
    let mut bay = MemBay::new(rt.alloc());
    try_all(&rt, rt.alloc(), &mut bay, THREE, &REPLAYED, &REPLAY_FAULTS)?;
    bay.put("usr0", &[0; 1000])?;
    try_all(&rt, rt.alloc(), &mut bay, THREE, &NONE_REPLAYED, &[])
}

const COMPARED: &[&[u8]] = &[
    b"always wakes 0 sleeps 0 energy 9600000
spindown wakes 6 sleeps 8 energy 5910000
host wakes 6 sleeps 8 energy 5910000
all wakes 4 sleeps 5 energy 5250000
",
];

const NONE_COMPARED: &[&[u8]] = &[
    b"always wakes 0 sleeps 0 energy 0
spindown wakes 0 sleeps 0 energy 0
host wakes 0 sleeps 0 energy 0
all wakes 0 sleeps 0 energy 0
",
];

const WHATIF: [Row<'_>; 3] = [
    ("whatif", OFFLOADS, 0, COMPARED),
    ("whatif", b"", 0, NONE_COMPARED),
    (
        "whatif",
        b"1,usr,0,Read,0,512",
        3,
        &[b"fault 3 line 1 fields\n"],
    ),
];

const WHATIF_FAULTS: [Faulty<'_>; 2] = [
    (TRACE_0, ("whatif", OFFLOADS, 8, &[b"fault 8 trace\n"])),
    (SINK_0, ("whatif", OFFLOADS, 7, &[])),
];

#[test]
fn compares_policies(rt: HostRuntime) -> Result<(), Fail> {
    try_apart(&rt, rt.alloc(), THREE, &WHATIF, &WHATIF_FAULTS)
}

// The three volumes, where each logs for each other.
const AMONG_ALL: &str = config_text!(16:
    "usr0" of "usr" 1000 4 "\"web0\", \"src0\"",
    "web0" of "web" 1000 4 "\"usr0\", \"src0\"",
    "src0" of "src" 1000 4 "\"usr0\", \"web0\""
);

const DRAINED: &[&[u8]] = &[
    b"read 1 b 0 1 0
read 2 b 0 1 0
read 5 a 0 1 4
lines 5 blank 0 skipped 0
reads 3 writes 2
placed home 1 log 1 drains 1
reclaimed blocks 1 records 1
span 1000000000
volume a wakes 1 sleeps 1 awake 600000000 standby 400000000 energy 570000
volume b wakes 0 sleeps 0 awake 1000000000 standby 0 energy 800000
total wakes 1 sleeps 1 energy 1370000
",
];

const KEPT: Row<'_> = (
    "replay --each --reclaim off",
    OFFLOADS,
    0,
    &[OFFLOADS_READ, OFFLOADS_KEPT],
);

const KEPT_RECORDS: &[&[u8]] = &[
    b"usr0 records 2
record 1 0 2 on web0 segment 0 block 1 live 00000000000000000000000000000002 home 00000000000000000000000000000000
record 2 0 1 on web0 segment 0 block 4 live 00000000000000000000000000000001 home 00000000000000000000000000000000
web0 records 0
src0 records 1
record 1 10 1 on web0 segment 1 block 1 live 00000000000000000000000000000001 home 00000000000000000000000000000000
",
];

// What the volumes have after `OFFLOADS`, once the first was drained. The digests were made outside, of the writes in those lines.
const CHECKED_HOME: &[&[u8]] = &[
    b"usr0 ok sha256 33f8070c09f79108c216b48fa147141d893e50a4d018f1a16b4e9bf0e39d1b87 records 0 segments 0
web0 ok sha256 61b45ae54ca39a001efc0780d6e0aadd8fb5fa0b7d9c6d59de4ada0b1d6c3be3 records 0 segments 0
src0 ok sha256 431c7bfed2499633fc2023ccdc39e2e344e23156fc688cb3947d92b384e10c33 records 1 segments 1
",
];

// Calls one after another, each list in a bay of its own.
const IN_A_ROW: [(&str, &[Row<'_>]); 4] = [
    // the last line of a replay on images and that of `all` have the same sums
    (
        AMONG_ALL,
        &[
            THREE_MADE,
            ("replay", OFFLOADS, 0, &[OFFLOADS_RECLAIMED]),
            ("whatif", OFFLOADS, 0, COMPARED),
        ],
    ),
    // a full log is drained
    (
        DRAINING,
        &[
            (
                "format",
                b"",
                0,
                &[b"format a blocks 102\nformat b blocks 106\n"],
            ),
            ("replay --each", DRAINS, 0, DRAINED),
        ],
    ),
    // records are kept where reclaim is off
    (THREE, &[THREE_MADE, KEPT, ("dump", b"", 0, KEPT_RECORDS)]),
    // and are drained before a logger leaves
    (
        THREE,
        &[
            THREE_MADE,
            KEPT,
            ("view-remove usr0 web0", b"", 0, &[b"view usr0 loggers\n"]),
            ("check", b"", 0, CHECKED_HOME),
            ("view-add usr0 web0", b"", 0, &[b"view usr0 loggers web0\n"]),
            ("check", b"", 0, CHECKED_HOME),
        ],
    ),
];

#[test]
fn calls_go_on_with_what_earlier_ones_left(rt: HostRuntime) -> Result<(), Fail> {
    for (config, rows) in IN_A_ROW {
        let mut bay = MemBay::new(rt.alloc());
        try_all(&rt, rt.alloc(), &mut bay, config, rows, &[])?;
    }
    Ok(())
}

const SPENT: [Row<'_>; 1] = [(
    "replay",
    b"128166372000000000,usr,0,Write,0,512,100\n",
    11,
    &[b"fault 11 versions usr0\n"],
)];

#[test]
fn no_version_comes_after_the_last(rt: HostRuntime) -> Result<(), Fail> {
    let mut bay = MemBay::new(rt.alloc());
    put(rt.alloc(), &mut bay, &USR0, LAST_VERSION)?;
    put(rt.alloc(), &mut bay, &WEB0, LAST_VERSION)?;
    put(rt.alloc(), &mut bay, &SRC0, LAST_VERSION)?;
    try_all(&rt, rt.alloc(), &mut bay, THREE, &SPENT, &[])
}

const VIEWS: [Row<'_>; 13] = [
    ("view-add b a", b"", 12, &[b"fault 12 a absent\n"]),
    (
        "format",
        b"",
        0,
        &[b"format a blocks 19\nformat b blocks 19\nformat c blocks 19\n"],
    ),
    ("view-add b", b"", 1, NO_COMMAND),
    ("view-add -b a", b"", 1, NO_COMMAND),
    ("view-remove b a c", b"", 1, NO_COMMAND),
    ("view-add b d", b"", 15, &[b"fault 15 unknown d\n"]),
    ("view-remove d e", b"", 15, &[b"fault 15 unknown d\n"]),
    ("view-add b b", b"", 15, &[b"fault 15 itself\n"]),
    ("view-remove b a", b"", 15, &[b"fault 15 not there a\n"]),
    ("view-add b a", b"", 0, &[b"view b loggers a\n"]),
    ("view-add b a", b"", 15, &[b"fault 15 already a\n"]),
    ("view-add b c", b"", 0, &[b"view b loggers a c\n"]),
    ("view-remove b a", b"", 0, &[b"view b loggers c\n"]),
];

// The view is changed where its line is refused.
const VIEW_FAULTS: [Faulty<'_>; 3] = [
    (
        CONFIG_0,
        ("view-remove b c", b"", 8, &[b"fault 8 config\n"]),
    ),
    (SINK_0, ("view-remove b c", b"", 7, &[])),
    (
        NONE,
        ("view-remove b c", b"", 15, &[b"fault 15 not there c\n"]),
    ),
];

#[test]
fn changes_views(rt: HostRuntime) -> Result<(), Fail> {
    let mut bay = MemBay::new(rt.alloc());
    try_all(
        &rt,
        rt.alloc(),
        &mut bay,
        ONE_BLOCK_EACH,
        &VIEWS,
        &VIEW_FAULTS,
    )
}
