// Whole sessions: what a client sends, what it gets, and what the volume holds.
use super::plain::Plain;
use fixtures::{DISC, Data, Exchange, FLUSH, NO_DATA, READ, WRITE, asked_of, replies_of};
use nbd_session::{Ended, NbdFault, Refusal, serve};
use std::alloc::Global;
use std::process::Abort;
use std::sync::Wait;
use std::test::Fail;
use wol_io::{MemSink, MemSource};

// What a client asks for and gets, what it sends behind that, how what it sends is cut, and how the session ends.
#[derive(Clone, Copy)]
struct Session<'a> {
    exchanges: &'a [Exchange<'a>],
    behind: &'a [u8],
    cuts: &'a [usize],
    ended: Ended,
}

// A session at the volume.
fn expect<R: Abort + Wait>(
    rt: &R,
    alloc: Global,
    volume: &mut Plain,
    session: &Session<'_>,
) -> Result<(), Fail> {
    let mut asked = asked_of(alloc, session.exchanges)?;
    asked.extend_from_slice(session.behind)?;
    let mut source = MemSource::new(asked, session.cuts.to_vec(alloc)?, None);
    let mut sink = MemSink::new(alloc, None);
    let ended = serve(rt, alloc, volume, &mut source, &mut sink);
    assert!(rt; ended == Ok(session.ended), "{ended:?}");
    let replies = replies_of(alloc, session.exchanges)?;
    assert!(rt; sink.bytes() == replies.as_slice(), "{:?}", sink.bytes());
    Ok(())
}

// A session in one piece that ends between two requests.
fn whole<'a>(exchanges: &'a [Exchange<'a>]) -> Session<'a> {
    Session {
        exchanges,
        behind: b"",
        cuts: &[],
        ended: Ended::End,
    }
}

const FIRST_READ: Exchange<'_> = ((0, READ, 1, 0, 512), NO_DATA, Some(0), &[Data::Zeros(512)]);

#[test]
fn a_read_is_answered_and_an_unknown_type_refused(rt: HostRuntime) -> Result<(), Fail> {
    let mut volume = Plain::new(rt.alloc(), 4)?;
    let answered = Session {
        cuts: &[5, 3],
        ..whole(&[FIRST_READ])
    };
    let left = Session {
        ended: Ended::Disc,
        ..whole(&[
            ((0, 4, 2, 0, 512), NO_DATA, Some(22), &[]),
            ((9, DISC, 3, 0, 0), NO_DATA, None, &[]),
            ((0, READ, 4, 0, 512), NO_DATA, None, &[]),
        ])
    };
    for session in [answered, left] {
        expect(&rt, rt.alloc(), &mut volume, &session)?;
    }
    Ok(())
}

const TWENTY: usize = 512 * 20;

const TWENTY_BACK: [Exchange<'_>; 3] = [
    (
        (1, WRITE, 7, 512 * 10, 512 * 20),
        Data::Counting(3, TWENTY),
        Some(0),
        &[],
    ),
    ((0, FLUSH, 8, 1, 1), NO_DATA, Some(0), &[]),
    (
        (0, READ, 9, 512 * 9, 512 * 21),
        NO_DATA,
        Some(0),
        &[Data::Zeros(512), Data::Counting(3, TWENTY)],
    ),
];

#[test]
fn twenty_blocks_written_at_once_are_read_back(rt: HostRuntime) -> Result<(), Fail> {
    let mut volume = Plain::new(rt.alloc(), 30)?;
    let session = Session {
        cuts: &[100, 100, 1, 700],
        ..whole(&TWENTY_BACK)
    };
    expect(&rt, rt.alloc(), &mut volume, &session)?;
    assert!(rt; volume.writes == 3);
    Ok(())
}

// All have the error of a disk.
const BEHIND_A_FAULT: [Exchange<'_>; 4] = [
    (
        (0, WRITE, 1, 0, 512 * 20),
        Data::Counting(1, TWENTY),
        Some(5),
        &[],
    ),
    ((0, READ, 2, 0, 512), NO_DATA, Some(5), &[]),
    ((0, FLUSH, 3, 0, 0), NO_DATA, Some(5), &[]),
    ((0, READ, 4, 0, 0), NO_DATA, Some(5), &[]),
];

// The blocks of the volume begin with so many bytes that count up from 1, and one behind them is zero.
fn stands(volume: &Plain, count: usize) -> bool {
    let bytes = volume.blocks.as_flattened();
    let mut wanted = 1u8;
    for byte in bytes.iter().take(count) {
        if *byte != wanted {
            return false;
        }
        wanted = wanted.wrapping_add(1);
    }
    bytes.get(count..count.saturating_add(512)) == Some([0; 512].as_slice())
}

#[test]
fn earlier_pieces_of_a_write_stand_after_a_fault(rt: HostRuntime) -> Result<(), Fail> {
    let mut volume = Plain::new(rt.alloc(), 30)?;
    volume.refused = Some((1, Refusal::Broke));
    expect(&rt, rt.alloc(), &mut volume, &whole(&BEHIND_A_FAULT))?;
    assert!(rt; volume.blocks.len() == 30 && stands(&volume, 512 * 8));
    Ok(())
}

// Flags, type, offset and length at a volume of four blocks, and the error.
const ROWS: [(u16, u16, u64, u32, u32); 12] = [
    (0, READ, 1536, 512, 0),
    (0, READ, 2048, 0, 0),
    (0, READ, 2048, 512, 22),
    (0, READ, 2560, 0, 22),
    (0, READ, 18_446_744_073_709_551_104, 512, 22),
    (0, READ, 1, 512, 22),
    (0, READ, 0, 511, 22),
    (2, READ, 0, 512, 22),
    (0, READ, 0, 33_554_944, 22),
    (0, FLUSH, 3, 77, 0),
    (4, FLUSH, 0, 0, 22),
    (0, 5, 0, 0, 22),
];

#[test]
fn each_request_has_the_first_of_its_errors(rt: HostRuntime) -> Result<(), Fail> {
    let mut volume = Plain::new(rt.alloc(), 4)?;
    for (flags, command, offset, length, error) in ROWS {
        let is_read = error == 0 && command == READ;
        let data = [Data::Zeros(if is_read { length as usize } else { 0 })];
        let request = (flags, command, 6, offset, length);
        let exchanges = [(request, NO_DATA, Some(error), data.as_slice())];
        expect(&rt, rt.alloc(), &mut volume, &whole(&exchanges))?;
    }
    Ok(())
}

const REFUSED: [Exchange<'_>; 3] = [
    (
        (0, WRITE, 1, 1024, 512 * 3),
        Data::Counting(9, 512 * 3),
        Some(28),
        &[],
    ),
    ((0, WRITE, 2, 0, 513), Data::Counting(9, 513), Some(22), &[]),
    ((0, WRITE, 3, 0, 512), Data::Counting(9, 512), Some(28), &[]),
];

#[test]
fn data_of_a_refused_write_are_dropped(rt: HostRuntime) -> Result<(), Fail> {
    let mut volume = Plain::new(rt.alloc(), 4)?;
    volume.refused = Some((0, Refusal::VersionsSpent));
    expect(&rt, rt.alloc(), &mut volume, &whole(&REFUSED))?;
    assert!(rt; volume.blocks.as_flattened() == [0; 2048].as_slice());
    Ok(())
}

// A request behind which others bytes come, one whose data are cut, and a cut head.
const NO_REQUESTS: [Session<'_>; 3] = [
    Session {
        exchanges: &[((0, FLUSH, 1, 0, 0), NO_DATA, Some(0), &[])],
        behind: b"GET ",
        cuts: &[],
        ended: Ended::BadMagic { request: 2 },
    },
    Session {
        exchanges: &[((0, WRITE, 1, 0, 1024), Data::Counting(1, 1023), None, &[])],
        behind: b"",
        cuts: &[],
        ended: Ended::Cut { request: 1 },
    },
    Session {
        exchanges: &[],
        behind: b"GET",
        cuts: &[],
        ended: Ended::Cut { request: 1 },
    },
];

#[test]
fn a_session_ends_at_what_is_no_request(rt: HostRuntime) -> Result<(), Fail> {
    let mut volume = Plain::new(rt.alloc(), 4)?;
    for session in &NO_REQUESTS {
        expect(&rt, rt.alloc(), &mut volume, session)?;
    }
    assert!(rt; volume.writes == 0);
    Ok(())
}

// Which call of the source and of the sink fails, how the session ends, and how many bytes the client has.
const FAULTS: [(Option<u64>, Option<u64>, NbdFault, usize); 2] = [
    (Some(1), None, NbdFault::Source, 528),
    (None, Some(1), NbdFault::Sink, 16),
];

#[test]
fn a_fault_of_a_stream_ends_the_session(rt: HostRuntime) -> Result<(), Fail> {
    let mut volume = Plain::new(rt.alloc(), 4)?;
    for (source, sink, fault, bytes) in FAULTS {
        let asked = asked_of(rt.alloc(), &[FIRST_READ])?;
        let mut source = MemSource::new(asked, Vec::new(rt.alloc()), source);
        let mut sink = MemSink::new(rt.alloc(), sink);
        let ended = serve(&rt, rt.alloc(), &mut volume, &mut source, &mut sink);
        assert!(rt; ended == Err(fault) && sink.bytes().len() == bytes);
    }
    Ok(())
}
