// A block that was logged on two disks, and twice on one, is put home and its records are given up in one turn. Wherever that stops,
// and whichever of the blocks that weren't synced a crash leaves, it reads as the newest.
use super::rows::Row;
use super::stops::{Case, prepared, try_choice};
use fixtures::{Call, FORMAT, Left, Volume, config_text};
use std::alloc::Global;
use std::sync::Wait;
use std::test::Fail;
use std::thread::Threads;

// The first volume logs on the two segments of the second, and then on the one of the third. Each has room for one record.
const TWO_LOGGERS: &str = config_text!(4:
    "a" of "a" 4 0 "\"b\", \"c\"",
    "b" of "b" 4 2 "",
    "c" of "c" 12 1 ""
);

const VOLUMES: [Volume<'static>; 3] = [("a", 6), ("b", 14), ("c", 18)];

// Sets of blocks that a turn may leave unsynced: the first two of the home of `a`, the segments of `b`, and that of `c`.
// No two of these are in one place of their images.
const UNSYNCED: [u32; 5] = [1 << 2, 1 << 3, 0xf << 6, 0xf << 10, 0xf << 14];

// How many choices there are of these sets.
const SUBSETS: u32 = 32;

// Lines 5 to 7 fill the three segments, and line 8 wakes home within the same window.
const RECLAIMED: &[u8] = b"128166372000000000,b,0,Read,0,512,100
128166372000000000,c,0,Read,0,512,100
128166372500000000,b,0,Read,0,512,100
128166372500000000,c,0,Read,0,512,100
128166373000000000,a,0,Write,0,1024,100
128166373000000000,a,0,Write,0,1024,100
128166373000000000,a,0,Write,0,1024,100
128166373000000000,a,0,Read,1024,512,100
";

// The same, but that line 8 finds all logs full.
const DRAINED: &[u8] = b"128166372000000000,b,0,Read,0,512,100
128166372000000000,c,0,Read,0,512,100
128166372500000000,b,0,Read,0,512,100
128166372500000000,c,0,Read,0,512,100
128166373000000000,a,0,Write,0,1024,100
128166373000000000,a,0,Write,0,1024,100
128166373000000000,a,0,Write,0,1024,100
128166373000000000,a,0,Write,512,512,100
";

const LINES_OF_B: &[&str] = &["b ok sha256 e5a00aa9991ac8a5"];

const LINES_OF_C: &[&str] = &["c ok sha256 fd9243e1ba57263e"];

const RECLAIM: Row<'_> = Row {
    config: TWO_LOGGERS,
    volumes: &VOLUMES,
    before: &[FORMAT],
    call: Call {
        words: "replay --each",
        trace: RECLAIMED,
    },
    lines: &[
        &[
            "a ok sha256 e5a00aa9991ac8a5",
            "a ok sha256 bdc8fb67d4cc1b17",
            "a ok sha256 2d831a6212db1c6f",
            "a ok sha256 5c6e8ff79b49c884",
        ],
        LINES_OF_B,
        LINES_OF_C,
    ],
    again: &[],
};

const DRAIN: Row<'_> = Row {
    call: Call {
        words: "replay --each",
        trace: DRAINED,
    },
    lines: &[
        &[
            "a ok sha256 e5a00aa9991ac8a5",
            "a ok sha256 bdc8fb67d4cc1b17",
            "a ok sha256 2d831a6212db1c6f",
            "a ok sha256 5c6e8ff79b49c884",
            "a ok sha256 aed9413cd6da66f2",
        ],
        LINES_OF_B,
        LINES_OF_C,
    ],
    ..RECLAIM
};

// The blocks of the sets whose bit is set.
fn union(sets: u32) -> u32 {
    let mut blocks = 0;
    let mut rest = sets;
    for set in UNSYNCED {
        if rest & 1 == 1 {
            blocks |= set;
        }
        rest >>= 1;
    }
    blocks
}

// Stops at each call of a disk, and each choice of the sets whose blocks a crash leaves as they were.
fn try_subsets<R: Threads + Wait + Sync>(rt: &R, alloc: Global, row: &Row<'_>) -> Result<(), Fail> {
    let images = prepared(rt, alloc, row)?;
    for sets in 0..SUBSETS {
        try_choice(rt, alloc, Case::new(row, &images, Left::OldIn(union(sets))))?;
    }
    Ok(())
}

#[test]
fn what_was_logged_thrice_reads_as_the_newest_wherever_a_reclaim_stops(
    rt: HostRuntime,
) -> Result<(), Fail> {
    try_subsets(&rt, rt.alloc(), &RECLAIM)
}

#[test]
fn what_was_logged_thrice_reads_as_the_newest_wherever_a_drain_stops(
    rt: HostRuntime,
) -> Result<(), Fail> {
    try_subsets(&rt, rt.alloc(), &DRAIN)
}
