// Volumes of a bay in memory are served.
ghost use Rattle.std.specs.Prelude.{◌≡◌, [], Some};
ghost use Rattle.wol_bay.specs.Bay.{outs};
ghost use Rattle.wol_bay.specs.MemBay.{mem_bay_state};
ghost use Rattle.wol_config.specs.Configs.{IsValid};

use super::several::stands_in;
use super::volumes::{checked, formatted, laid_out, off_loaded};
use fixtures::{
    DISC, DRAINING, Data, Exchange, FLUSH, NO_DATA, ONE_LOGGED, READ, THREE, WRITE, ask_all,
    asked_of, replies_of, reply_all,
};
use nbd_serving::{Beginning, serve_volume, status_of};
use std::alloc::Global;
use std::process::Abort;
use std::sync::Wait;
use std::test::Fail;
use wol_bay::MemBay;
use wol_config::{Config, read_config};
use wol_io::{MemSink, MemSource};

// A session at a volume, and its status.
type Session<'a> = (Beginning, &'a str, u8);

const AT_USR0: Session<'_> = (Beginning::AtOnce, "usr0", 0);

// The client sends this in a session, and gets that.
fn tries<R: Abort + Wait>(
    rt: &R,
    alloc: Global,
    config: &Config,
    bay: &mut MemBay,
    session: Session<'_>,
    asked: Vec<u8>,
    told: &[u8],
) -> Result<(), Fail>
    requires valid { IsValid config.now }
    requires none { outs (mem_bay_state bay.old) ≡ Some [] }
    ensures none { outs (mem_bay_state bay.new) ≡ Some [] }
{
    let (beginning, name, wanted) = session;
    let mut source = MemSource::new(asked, Vec::new(alloc), None);
    let mut sink = MemSink::new(alloc, None);
    let answer = serve_volume(
        rt,
        alloc,
        beginning,
        name,
        config,
        bay,
        &mut source,
        &mut sink,
    );
    let status = status_of(&answer);
    assert!(rt; status == wanted, "{name}: {status}");
    assert!(rt; sink.bytes() == told, "{name}: {:?}", sink.bytes());
    Ok(())
}

// These are asked for and answered at once in a session.
fn exchange<R: Abort + Wait>(
    rt: &R,
    alloc: Global,
    config: &Config,
    bay: &mut MemBay,
    session: Session<'_>,
    exchanges: &[Exchange<'_>],
) -> Result<(), Fail>
    requires valid { IsValid config.now }
    requires none { outs (mem_bay_state bay.old) ≡ Some [] }
    ensures none { outs (mem_bay_state bay.new) ≡ Some [] }
{
    let asked = asked_of(alloc, exchanges)?;
    let told = replies_of(alloc, exchanges)?;
    tries(rt, alloc, config, bay, session, asked, &told)
}

// These are asked for in sessions one after another.
fn exchange_all<R: Abort + Wait>(
    rt: &R,
    alloc: Global,
    config: &Config,
    bay: &mut MemBay,
    sessions: &[&[Exchange<'_>]],
) -> Result<(), Fail>
    requires valid { IsValid config.now }
    requires none { outs (mem_bay_state bay.old) ≡ Some [] }
{
    for exchanges in sessions {
        exchange(rt, alloc, config, bay, AT_USR0, exchanges)?;
    }
    Ok(())
}

const TWENTY: usize = 512 * 20;

// The second write passes the volume's end.
const WRITTEN_AND_READ: [&[Exchange<'_>]; 2] = [
    &[
        ((0, READ, 1, 0, 512), NO_DATA, Some(0), &[Data::Zeros(512)]),
        (
            (1, WRITE, 2, 512 * 10, 512 * 20),
            Data::Counting(3, TWENTY),
            Some(0),
            &[],
        ),
        ((0, FLUSH, 3, 0, 0), NO_DATA, Some(0), &[]),
        (
            (0, WRITE, 4, 512 * 999, 1024),
            Data::Counting(9, 1024),
            Some(28),
            &[],
        ),
    ],
    &[
        (
            (0, READ, 5, 512 * 9, 512 * 21),
            NO_DATA,
            Some(0),
            &[Data::Zeros(512), Data::Counting(3, TWENTY)],
        ),
        ((0, 4, 6, 0, 512), NO_DATA, Some(22), &[]),
        ((0, DISC, 7, 0, 0), NO_DATA, None, &[]),
    ],
];

#[test]
fn what_one_session_writes_another_reads(rt: HostRuntime) -> Result<(), Fail> {
    let (config, mut bay) = laid_out(&rt, rt.alloc(), THREE)?;
    exchange_all(&rt, rt.alloc(), &config, &mut bay, &WRITTEN_AND_READ)
}

// What a client sends, byte by byte, the head that it gets, and the data behind it: a READ; a type that is none, and DISC.
const SESSIONS: [(&[u8], &[u8], &[u8]); 2] = [
    (
        b"\x25\x60\x95\x13\0\0\0\0\0\0\0\0\0\0\0\x01\0\0\0\0\0\0\0\0\0\0\x02\0",
        b"\x67\x44\x66\x98\0\0\0\0\0\0\0\0\0\0\0\x01",
        &[0; 512],
    ),
    (
        b"\x25\x60\x95\x13\0\0\0\x04\0\0\0\0\0\0\0\x02\0\0\0\0\0\0\0\0\0\0\x02\0\x25\x60\x95\x13\0\0\0\x02\0\0\0\0\0\0\0\x03\0\0\0\0\0\0\0\0\0\0\0\0",
        b"\x67\x44\x66\x98\0\0\0\x16\0\0\0\0\0\0\0\x02",
        &[],
    ),
];

#[test]
fn sessions_are_answered_byte_by_byte(rt: HostRuntime) -> Result<(), Fail> {
    let alloc = rt.alloc();
    let config = read_config(alloc, THREE.as_bytes())?;
    for (asked, head, given) in SESSIONS {
        let mut bay = formatted(&rt, alloc, &config);
        let mut told = Vec::from_slice(alloc, head)?;
        told.extend_from_slice(given)?;
        let asked = Vec::from_slice(alloc, asked)?;
        tries(&rt, alloc, &config, &mut bay, AT_USR0, asked, &told)?;
    }
    Ok(())
}

// The calls of a volume's home: one when it is opened, then a write and a sync for each piece.
const SECOND_WRITE: u64 = 3;

// A piece is as long as a segment has room for.
const STANDING: [&[Exchange<'_>]; 2] = [
    &[
        (
            (0, WRITE, 1, 0, 512 * 20),
            Data::Counting(5, TWENTY),
            Some(5),
            &[],
        ),
        ((0, READ, 2, 0, 512), NO_DATA, Some(5), &[]),
    ],
    &[(
        (0, READ, 3, 0, 512 * 20),
        NO_DATA,
        Some(0),
        &[Data::Counting(5, 512 * 14), Data::Zeros(512 * 6)],
    )],
];

#[test]
fn earlier_pieces_stand_where_a_disk_fails(rt: HostRuntime) -> Result<(), Fail> {
    let (config, mut bay) = laid_out(&rt, rt.alloc(), THREE)?;
    bay.plan("usr0", 1, SECOND_WRITE)?;
    exchange_all(&rt, rt.alloc(), &config, &mut bay, &STANDING)
}

// Sessions in which the client gets nothing, and what it sends.
const REFUSED: [(Session<'_>, &[u8]); 3] = [
    ((Beginning::AtOnce, "usr1", 15), b""),
    ((Beginning::AtOnce, "web0", 14), b"short"),
    (
        (Beginning::AtOnce, "web0", 14),
        b"twenty-eight bytes of no kind",
    ),
];

// A name is looked for before any image is.
const LOOKED_FOR: [(Session<'_>, &[u8]); 2] = [
    ((Beginning::Handshake, "usr1", 15), b""),
    ((Beginning::AtOnce, "src0", 12), b""),
];

fn refuse<R: Abort + Wait>(
    rt: &R,
    alloc: Global,
    config: &Config,
    bay: &mut MemBay,
    sessions: &[(Session<'_>, &[u8])],
) -> Result<(), Fail>
    requires valid { IsValid config.now }
    requires none { outs (mem_bay_state bay.old) ≡ Some [] }
{
    for (session, asked) in sessions {
        let asked = Vec::from_slice(alloc, asked)?;
        tries(rt, alloc, config, bay, *session, asked, b"")?;
    }
    Ok(())
}

#[test]
fn sessions_end_with_their_statuses(rt: HostRuntime) -> Result<(), Fail> {
    let alloc = rt.alloc();
    let (config, mut bay) = laid_out(&rt, alloc, THREE)?;
    refuse(&rt, alloc, &config, &mut bay, &REFUSED)?;
    let mut nothing = MemBay::new(alloc);
    refuse(&rt, alloc, &config, &mut nothing, &LOOKED_FOR)
}

const WRITTEN: [Exchange<'_>; 1] = [(
    (0, WRITE, 2, 512 * 10, 512 * 20),
    Data::Counting(3, TWENTY),
    Some(0),
    &[],
)];

// What `check` prints when 20 blocks of the first volume were written, from block 10 on.
const CHECKED: &str =
    "usr0 ok sha256 9b12c7cdba79c0eae40590302e715a3497c7e927c582724791ba2662f66104ad records 0 segments 0
web0 ok sha256 2d4da04b861bb9dbe77c871415931785a18138d6db035f1bbcd0cf8277c6fc23 records 0 segments 0
src0 ok sha256 2d4da04b861bb9dbe77c871415931785a18138d6db035f1bbcd0cf8277c6fc23 records 0 segments 0
";

#[test]
fn a_check_shows_what_a_session_wrote(rt: HostRuntime) -> Result<(), Fail> {
    let alloc = rt.alloc();
    let (config, mut bay) = laid_out(&rt, alloc, THREE)?;
    exchange(&rt, alloc, &config, &mut bay, AT_USR0, &WRITTEN)?;
    let text = checked(&rt, alloc, &config, &mut bay)?;
    assert!(rt; text.as_slice() == CHECKED.as_bytes(), "{text:?}");
    Ok(())
}

// What a server sends first.
const GREETING: &[u8] = b"NBDMAGICIHAVEOPT\x00\x03";

// The client goes for `usr0`, and is told of its 1,000 blocks and of block sizes.
const GOES: &[u8] = b"\0\0\0\x03IHAVEOPT\0\0\0\x07\0\0\0\x0a\0\0\0\x04usr0\0\0";

const AGREED: [&[u8]; 3] = [
    b"\0\x03\xe8\x89\x04\x55\x65\xa9\0\0\0\x07\0\0\0\x03\0\0\0\x0c\0\0\0\0\0\0\0\x07\xd0\0\0\x0d",
    b"\0\x03\xe8\x89\x04\x55\x65\xa9\0\0\0\x07\0\0\0\x03\0\0\0\x0e\0\x03\0\0\x02\0\0\0\x10\0\x02\0\0\0",
    b"\0\x03\xe8\x89\x04\x55\x65\xa9\0\0\0\x07\0\0\0\x01\0\0\0\0",
];

const SHAKEN: [Exchange<'_>; 2] = [
    ((0, READ, 1, 0, 512), NO_DATA, Some(0), &[Data::Zeros(512)]),
    ((0, DISC, 2, 0, 0), NO_DATA, None, &[]),
];

#[test]
fn a_client_shakes_and_is_served(rt: HostRuntime) -> Result<(), Fail> {
    let alloc = rt.alloc();
    let (config, mut bay) = laid_out(&rt, alloc, THREE)?;
    let mut asked = Vec::from_slice(alloc, GOES)?;
    ask_all(&mut asked, &SHAKEN)?;
    let mut told = Vec::from_slice(alloc, GREETING)?;
    for part in AGREED {
        told.extend_from_slice(part)?;
    }
    reply_all(&mut told, &SHAKEN)?;
    let agreed = (Beginning::Handshake, "usr0", 0);
    tries(&rt, alloc, &config, &mut bay, agreed, asked, &told)?;
    let other = Vec::from_slice(alloc, b"\0\0\0\x07")?;
    let unagreed = (Beginning::Handshake, "usr0", 14);
    tries(&rt, alloc, &config, &mut bay, unagreed, other, GREETING)
}

const MET_BY_A_DRAIN: [Exchange<'_>; 2] = [
    ((0, WRITE, 1, 0, 512), Data::Counting(7, 512), Some(0), &[]),
    (
        (0, READ, 2, 0, 512),
        NO_DATA,
        Some(0),
        &[Data::Counting(7, 512)],
    ),
];

#[test]
fn a_write_that_finds_no_room_is_met_by_a_drain(rt: HostRuntime) -> Result<(), Fail> {
    let alloc = rt.alloc();
    // the first volume's block lies in the one segment there is, which is full
    let (config, mut bay) = off_loaded(&rt, alloc, DRAINING, ONE_LOGGED)?;
    let before = checked(&rt, alloc, &config, &mut bay)?;
    assert!(rt; before.starts_with(b"a ok sha256 "));
    assert!(rt; stands_in(&before, b" records 1 segments 1\nb ok"));
    let at_a = (Beginning::AtOnce, "a", 0);
    exchange(&rt, alloc, &config, &mut bay, at_a, &MET_BY_A_DRAIN)?;
    let after = checked(&rt, alloc, &config, &mut bay)?;
    assert!(rt; stands_in(&after, b" records 0 segments 0\nb ok"));
    Ok(())
}
