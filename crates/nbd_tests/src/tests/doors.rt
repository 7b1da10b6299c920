// Clients one after another, at a volume in memory: what each gets, whatever became of the one before it.
ghost use Rattle.std.specs.Prelude.{◌≤◌, ◌^◌, length};

use super::plain::Plain;
use fixtures::{DISC, Data, Exchange, FLUSH, NO_DATA, READ, WRITE, asked_of, replies_of};
use nbd_doors::{Connection, MemDoor, serve_door};
use std::alloc::{AllocError, Global};
use std::process::Abort;
use std::sync::Wait;
use std::test::Fail;
use wol_io::{MemSink, MemSource};

// What a server sends first.
const GREETING: [u8; 18] = *b"NBDMAGICIHAVEOPT\x00\x03";

// A client's flags, and that it goes for `usr0`; and the replies: four blocks with flags, block sizes, and that it is done.
const GOES: [u8; 30] = *b"\0\0\0\x03IHAVEOPT\0\0\0\x07\0\0\0\x0a\0\0\0\x04usr0\0\0";

const AGREED: [&[u8]; 3] = [
    b"\0\x03\xe8\x89\x04\x55\x65\xa9\0\0\0\x07\0\0\0\x03\0\0\0\x0c\0\0\0\0\0\0\0\0\x08\0\0\x0d",
    b"\0\x03\xe8\x89\x04\x55\x65\xa9\0\0\0\x07\0\0\0\x03\0\0\0\x0e\0\x03\0\0\x02\0\0\0\x10\0\x02\0\0\0",
    b"\0\x03\xe8\x89\x04\x55\x65\xa9\0\0\0\x07\0\0\0\x01\0\0\0\0",
];

// What a client sends that goes for the volume and asks for these.
fn sent(alloc: Global, exchanges: &[Exchange<'_>]) -> Result<Vec<u8>, AllocError> {
    let mut bytes = Vec::from_slice(alloc, &GOES)?;
    bytes.extend_from_slice(&asked_of(alloc, exchanges)?)?;
    Ok(bytes)
}

// What it gets.
fn told(alloc: Global, exchanges: &[Exchange<'_>]) -> Result<Vec<u8>, AllocError> {
    let mut bytes = Vec::from_slice(alloc, &GREETING)?;
    for reply in AGREED {
        bytes.extend_from_slice(reply)?;
    }
    bytes.extend_from_slice(&replies_of(alloc, exchanges)?)?;
    Ok(bytes)
}

// What the first client sends, and which call of its source and of its sink fails.
type First<'a> = (&'a [u8], Option<u64>, Option<u64>);

// The first client is served and then the second, who sends whole requests. These are what they got.
fn serve_both<R: Abort + Wait>(
    rt: &R,
    alloc: Global,
    volume: &mut Plain,
    first: First<'_>,
    second: &[Exchange<'_>],
) -> Result<(MemSink, MemSink), Fail>
    requires { length volume.old.blocks.items ≤ 2 ^ 32 }
{
    let (bytes, source, sink) = first;
    let mut one = MemSink::new(alloc, sink);
    let mut two = MemSink::new(alloc, None);
    {
        let mut door = MemDoor::new(alloc);
        door.come(Connection {
            input: MemSource::new(Vec::from_slice(alloc, bytes)?, Vec::new(alloc), source),
            output: &mut one,
        })?;
        door.come(Connection {
            input: MemSource::new(sent(alloc, second)?, Vec::new(alloc), None),
            output: &mut two,
        })?;
        serve_door(rt, alloc, b"usr0", volume, &mut door);
    }
    Ok((one, two))
}

const WRITTEN: [Exchange<'_>; 2] = [
    (
        (0, WRITE, 1, 512, 1024),
        Data::Counting(1, 1024),
        Some(0),
        &[],
    ),
    ((0, FLUSH, 2, 0, 0), NO_DATA, Some(0), &[]),
];

// What the second client asks for where the first one's write stands, and where it doesn't.
const READ_BACK: [Exchange<'_>; 2] = [
    (
        (0, READ, 3, 512, 1024),
        NO_DATA,
        Some(0),
        &[Data::Counting(1, 1024)],
    ),
    ((0, DISC, 4, 0, 0), NO_DATA, None, &[]),
];

const READ_ZEROS: [Exchange<'_>; 2] = [
    (
        (0, READ, 3, 512, 1024),
        NO_DATA,
        Some(0),
        &[Data::Zeros(1024)],
    ),
    ((0, DISC, 4, 0, 0), NO_DATA, None, &[]),
];

// The first client sends this much of what writes, with these faults; so many bytes it gets, and whether its write stands.
fn expect<R: Abort + Wait>(
    rt: &R,
    alloc: Global,
    first: First<'_>,
    got: usize,
    stands: bool,
) -> Result<(), Fail> {
    let mut volume = Plain::new(alloc, 4)?;
    let second = if stands { &READ_BACK } else { &READ_ZEROS };
    let (one, two) = serve_both(rt, alloc, &mut volume, first, second)?;
    let wanted = told(alloc, &WRITTEN)?;
    assert!(rt; Some(one.bytes()) == wanted.get(..got), "{:?}", one.bytes());
    assert!(rt;
        two.bytes() == told(alloc, second)?.as_slice(),
        "{:?}",
        two.bytes()
    );
    assert!(rt; volume.writes == stands as u32);
    Ok(())
}

// Where what the first client sends is cut, how many bytes it gets, and whether its write stands: within the flags, behind
// them, within an option's magic, behind its head, within its data; at the end of the handshake; within the head of the
// WRITE, behind it, within its data twice, behind them; within the head of the FLUSH, and at the end.
const CUTS: [(usize, usize, bool); 14] = [
    (0, 18, false),
    (3, 18, false),
    (4, 18, false),
    (11, 18, false),
    (20, 18, false),
    (29, 18, false),
    (30, 104, false),
    (40, 104, false),
    (58, 104, false),
    (570, 104, false),
    (1081, 104, false),
    (1082, 120, true),
    (1109, 120, true),
    (1110, 136, true),
];

#[test]
fn a_client_that_is_cut_leaves_the_volume_to_the_next(rt: HostRuntime) -> Result<(), Fail> {
    let alloc = rt.alloc();
    let whole = sent(alloc, &WRITTEN)?;
    assert!(rt; whole.len() == 1110);
    for (cut, got, stands) in CUTS {
        expect(&rt, alloc, (&whole[..cut], None, None), got, stands)?;
    }
    Ok(())
}

// Which call of the first client's source and of its sink fails, how many bytes it gets, and whether its write stands: the
// flags, the greeting, and the reply to the WRITE.
const FAULTS: [(Option<u64>, Option<u64>, usize, bool); 3] = [
    (Some(0), None, 18, false),
    (None, Some(0), 0, false),
    (None, Some(2), 104, true),
];

#[test]
fn a_client_whose_streams_fail_leaves_the_volume_to_the_next(rt: HostRuntime) -> Result<(), Fail> {
    let alloc = rt.alloc();
    let whole = sent(alloc, &WRITTEN)?;
    for (source, sink, got, stands) in FAULTS {
        expect(&rt, alloc, (&whole, source, sink), got, stands)?;
    }
    Ok(())
}

#[test]
fn a_door_where_nobody_stands_is_left_at_once(rt: HostRuntime) -> Result<(), Fail> {
    let alloc = rt.alloc();
    let mut volume = Plain::new(alloc, 4)?;
    let mut door: MemDoor<MemSource, MemSink> = MemDoor::new(alloc);
    serve_door(&rt, alloc, b"usr0", &mut volume, &mut door);
    assert!(rt; volume.writes == 0);
    Ok(())
}
