// A disk that stops while the lines of one volume are run on it.
use super::calls::{Failing, Stream};
use super::rows::Row;
use super::stops::{Case, Remains, left_by, prepared, stopped};
use fixtures::{CHOICES, Call, Left, holds_at, same, same_at};
use std::alloc::Global;
use std::sync::Wait;
use std::test::Fail;
use std::thread::Threads;
use wol_disk::Block;

const BLOCKS: usize = 8;

// The last write has two requests, since the volume ends behind its first block.
const LINES: &[u8] = b"1,h,0,Write,0,1024,1
2,h,0,Read,0,1024,1
3,h,0,Write,512,512,1
4,h,0,Write,3584,1024,1
5,h,0,Read,0,4096,1
";

const PRINTED: &[u8] = b"read 2 0 2 2
read 5 0 8 11
solo lines 5 blank 0 skipped 0 reads 2 writes 4
";

// What the image may have, by the lines that wrote its blocks; the longer the disk works the later ones.
const ARRAYS: [[u64; BLOCKS]; 7] = [
    [0, 0, 0, 0, 0, 0, 0, 0],
    [1, 0, 0, 0, 0, 0, 0, 0],
    [0, 1, 0, 0, 0, 0, 0, 0],
    [1, 1, 0, 0, 0, 0, 0, 0],
    [1, 3, 0, 0, 0, 0, 0, 0],
    [1, 3, 0, 0, 0, 0, 0, 4],
    [4, 3, 0, 0, 0, 0, 0, 4],
];

// Which of these the image has at least, where so many reads were printed.
const AT_LEAST: [usize; 3] = [0, 3, 6];

const SOLO: Row<'_> = Row {
    config: "",
    volumes: &[("solo", BLOCKS as u64)],
    before: &[Call {
        words: "solo h 0 8",
        trace: b"",
    }],
    call: Call {
        words: "solo h 0 8",
        trace: LINES,
    },
    lines: &[],
    again: &[],
};

// What a line writes to a block.
fn written(line: u64, block: u64) -> Block {
    let mut bytes = [0; 512];
    if line == 0 {
        return bytes;
    }
    for copy in 0..32 {
        bytes[16 * copy..16 * copy + 8].copy_from_slice(&line.to_le_bytes());
        bytes[16 * copy + 8..16 * copy + 16].copy_from_slice(&block.to_le_bytes());
    }
    bytes
}

fn is_array(blocks: &[Block], lines: &[u64]) -> bool {
    blocks.len() == lines.len()
        && blocks.iter().zip(lines).enumerate().all(|(block, (bytes, line))| *bytes
            == written(*line, block as u64))
}

// Which of the arrays the image has.
fn found(images: &[Vec<Block>]) -> Result<usize, Fail> {
    let Some(blocks) = images.first() else {
        return Err(Fail::from("no image"));
    };
    match ARRAYS.iter().position(|lines| is_array(blocks, lines)) {
        Some(place) => Ok(place),
        None => Err(Fail::from("another array")),
    }
}

// How many reads were printed.
fn reads(text: &[u8]) -> usize {
    text.split(|byte| *byte == b'\n')
        .filter(|line| line.starts_with(b"read "))
        .count()
}

fn try_choice<R: Threads + Wait + Sync>(rt: &R, alloc: Global, left: Left) -> Result<(), Fail> {
    let images = prepared(rt, alloc, &SOLO)?;
    let case = Case::new(&SOLO, &images, left);
    let whole = stopped(rt, alloc, case, u64::MAX)?;
    same(&(whole.status, found(&whole.images)?), &(0, 6))?;
    same(&whole.text.as_slice(), &PRINTED)?;
    let mut before = 0;
    for calls in 0..whole.passed {
        let stop = stopped(rt, alloc, case, calls)?;
        same(&(stop.status, stop.passed), &(4, calls))?;
        holds_at(stop.text.ends_with(b"fault 4 solo disk home\n"), &calls)?;
        let place = found(&stop.images)?;
        let least = AT_LEAST
            .get(reads(&stop.text))
            .map_or(ARRAYS.len(), |it| *it);
        let goes_on = place >= before && place >= least;
        holds_at(goes_on, &format_args!("{calls} {left:?}"))?;
        before = place;
    }
    Ok(())
}

#[test]
fn a_solo_that_stops_keeps_what_was_written(rt: HostRuntime) -> Result<(), Fail> {
    for left in CHOICES {
        try_choice(&rt, rt.alloc(), left)?;
    }
    Ok(())
}

// What a run leaves in which one call fails.
fn failed<R: Threads + Wait + Sync>(
    rt: &R,
    alloc: Global,
    failing: Failing<'_>,
) -> Result<Remains, Fail> {
    let images = prepared(rt, alloc, &SOLO)?;
    left_by(rt, alloc, Case::new(&SOLO, &images, Left::AllNew), failing)
}

#[test]
fn each_call_that_fails_ends_a_solo(rt: HostRuntime) -> Result<(), Fail> {
    let alloc = rt.alloc();
    // four writes with a sync each, and two reads
    for number in 0..10 {
        let left = failed(&rt, alloc, Failing::Part("solo", 0, number))?;
        same_at(&left.status, &4, &number)?;
        holds_at(left.text.ends_with(b"fault 4 solo disk home\n"), &number)?;
    }
    for number in 0..4 {
        let left = failed(&rt, alloc, Failing::Stream(Stream::Trace, number))?;
        same_at(&left.status, &8, &number)?;
        holds_at(left.text.ends_with(b"fault 8 trace\n"), &number)?;
    }
    for number in 0..3 {
        let left = failed(&rt, alloc, Failing::Stream(Stream::Sink, number))?;
        same_at(&left.status, &7, &number)?;
        let is_front = PRINTED.starts_with(&left.text) && left.text.len() < PRINTED.len();
        holds_at(is_front, &number)?;
    }
    for behind in [
        Failing::Part("solo", 0, 10),
        Failing::Stream(Stream::Sink, 3),
    ] {
        let left = failed(&rt, alloc, behind)?;
        same(&left.status, &0)?;
        same(&left.text.as_slice(), &PRINTED)?;
    }
    Ok(())
}
