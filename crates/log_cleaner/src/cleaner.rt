// Chunk after chunk is made tidy.
ghost use Rattle.log_cleaner.specs.Cleans.{CanClean, HasCleaned};
ghost use Rattle.log_cleaner.specs.Steps.{ended, is_broken, written_of};
ghost use Rattle.log_cleaner.specs.Underway.{CleansBy};
ghost use Rattle.log_segment.specs.Records.{count_of};
ghost use Rattle.manager.specs.Stands.{IsReady, IsHome};
ghost use Rattle.std.specs.List.{AllByRecursion};
ghost use Rattle.std.specs.Prelude.{◌≡◌, ◌≤◌, [], length};

use crate::chunks::{Gathered, TOGETHER, gather, is_tidy, next_chunk, settles_first};
use crate::copies::{Copies, no_copies};
use crate::copy::rewrite;
use crate::giving::settle;
use crate::{CleanFault, Cleaned};
use log_segment::Item;
use logger::Shared;
use manager::Manager;
use redirect_map::Index;
use std::alloc::Global;
use std::sync::Wait;
use wol_disk::{Block, Disk};

/// The most blocks of the chunks that are written together.
const ROOM: usize = 1024;

/// The position of the first record of a segment.
const FIRST: u32 = 1;

// How many chunks were written.
fn written_of(answer: &Result<usize, CleanFault>) -> usize
    ensures { result ≡ written_of answer.now }
{
    match answer {
        Ok(written) => *written,
        Err(_) => 0,
    }
}

// Whether a call of a disk failed.
fn is_broken(answer: &Result<usize, CleanFault>) -> bool
    ensures { result ≡ is_broken answer.now }
{
    match answer {
        Err(CleanFault::DiskFault(_)) => true,
        _ => false,
    }
}

// What cleaning answers where a chunk wasn't written.
fn ended(answer: Result<usize, CleanFault>, copied: u64) -> Result<(u64, bool), CleanFault>
    ensures { result ≡ ended copied answer }
{
    match answer {
        Ok(_) => Ok((copied, true)),
        Err(fault) => Err(fault),
    }
}

// How many blocks these chunks have.
fn blocks_of(chunks: &[Item]) -> u64
    requires few { length chunks.now ≤ 8 }
    requires small { AllByRecursion (λ i. i.count ≤ 128) chunks.now }
    ensures { result ≡ count_of chunks.now }
{
    let mut blocks = 0;
    for chunk in chunks {
        blocks += u64::from(chunk.count);
    }
    blocks
}

// Whether the record that has this block begins its segment. No proof rests on it.
fn begins_segment(index: &Index, lbn: u64) -> bool {
    match index.newest(lbn) {
        Some(record) => record.pos == FIRST,
        None => false,
    }
}

// How many chunks are gathered next, where so many of these were written: as many as a new segment took, so that none is
// read that has no room there, and more where a segment took two groups whole.
fn next_width(index: &Index, gathered: &Gathered, written: usize, width: usize) -> usize
    requires count { gathered.now.count ≤ 8 }
    requires width { width ≤ 8 }
    ensures { result ≤ 8 }
{
    let begins = begins_segment(index, gathered.chunks[0].lbn);
    if written < gathered.count {
        return if begins { written } else { width };
    }
    if begins {
        width
    } else {
        TOGETHER.min(width * 2)
    }
}

// Writes the chunks again that aren't tidy when their turn comes, in order, as far as there is room, and gives up what may go
// behind those: at the end, before a chunk that is tidy only then, and where one can't be written, segments first, and all that
// may go where that wasn't enough. Tells how many blocks were copied, and whether room was missing.
fn clean_all<R: Wait, D: Disk>(
    rt: &R,
    m: &mut Manager<D>,
    shared: &Shared<D>,
    most: u32,
    room: &mut [Block],
    done: &mut Copies,
) -> Result<(u64, bool), CleanFault>
    requires ready { IsReady D.state m.old }
    requires at { IsHome shared.now m.old }
    requires can { CanClean m.old }
    requires most { most ≡ m.old.most }
    requires room { 1024 ≤ length room.old }
    requires none { done.old.value.items ≡ [] }
    ensures ready { IsReady D.state m.new }
    ensures at { IsHome shared.now m.new }
    ensures cleaned { CleansBy D.tells D.state most m.old m.new done.new.value.items result }
{
    let mut copied = 0;
    let mut from = 0;
    let mut settled = true;
    let mut lean = false;
    let mut width = TOGETHER;
    'chunks: loop {
        let next = next_chunk(m.index(), from, most);
        if settles_first(m.index(), next, settled) {
            settle(rt, m, shared, true)?;
            settled = true;
            continue 'chunks;
        }
        let Some(chunk) = next else {
            return Ok((copied, false));
        };
        if is_tidy(m.index(), chunk.lbn, chunk.count) {
            from = chunk.lbn + u64::from(chunk.count);
            continue 'chunks;
        }
        let gathered = gather(m.index(), chunk, most, width);
        let chunks = &gathered.chunks[..gathered.count];
        let answer = rewrite(rt, m, shared, chunks, room, done);
        let written = written_of(&answer);
        if written == 0 {
            if settled || is_broken(&answer) {
                return ended(answer, copied);
            }
            settle(rt, m, shared, lean)?;
            settled = lean;
            lean = true;
            continue 'chunks;
        }
        width = next_width(m.index(), &gathered, written, width);
        copied += blocks_of(&chunks[..written]);
        let last = chunks[written - 1];
        from = last.lbn + u64::from(last.count);
        settled = false;
        lean = false;
    }
}

/// Writes the chunks of a volume's covered blocks again that aren't tidy: the maximal runs of covered blocks, each cut
/// after each `most` blocks from its start. A chunk is tidy where one record keeps just its blocks and no other record
/// keeps any of them. That is asked when its turn comes: once a chunk was copied, of the records without what may go. For
/// each in order its blocks are read and written again to a log, those behind it with it that the segment has room for, as
/// one group. Once a chunk was copied what may go is given up: when all are written; before that where the next one is tidy
/// only then, and where one can't be written: first segments in which no record has a live block, each by one write of its
/// head, then records one by one. Segments in which no record is left go to their pools. Where the first one can't be
/// written nothing is given up, even if that would make room.
///
/// `done` becomes the copies, in order, also those before a refusal; only contracts read them.
///
/// `DiskFault` comes only where the part's count of faults rose in this call, and brings the manager down.
/// `VersionsSpent` comes where the next version is 2^63 and a chunk still isn't tidy. After it and after `NoMemory` what
/// was copied stands.
pub fn clean<R: Wait, D: Disk>(
    rt: &R,
    alloc: Global,
    m: &mut Manager<D>,
    shared: &Shared<D>,
    most: u32,
    done: &mut Copies,
) -> Result<Cleaned, CleanFault>
    requires ready { IsReady D.state m.old }
    requires at { IsHome shared.now m.old }
    requires can { CanClean m.old }
    requires most { most ≡ m.old.most }
    ensures ready { IsReady D.state m.new }
    ensures at { IsHome shared.now m.new }
    ensures cleaned { (has : HasCleaned D.tells D.state most m.old m.new result)
        × (done.new.value.items ≡ has.copies) }
{
    *done = no_copies();
    let before = m.index().len();
    let Ok(mut room) = vec![in alloc; [0; 512]; ROOM] else {
        return Err(CleanFault::NoMemory);
    };
    let (copied, full) = clean_all(rt, m, shared, most, &mut room, done)?;
    Ok(Cleaned {
        before,
        after: m.index().len(),
        copied,
        full,
    })
}
