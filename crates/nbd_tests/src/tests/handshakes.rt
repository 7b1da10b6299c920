// Handshakes, byte by byte: what clients send, and what they get.
use nbd_session::{Export, Shaken, Unagreed, shake};
use std::alloc::{AllocError, Global};
use std::process::Abort;
use std::test::Fail;
use wol_io::{MemSink, MemSource};

// The options, by their numbers. `Other` is none that is known.
#[derive(Clone, Copy)]
enum Ask {
    ExportName = 1,
    Abort = 2,
    List = 3,
    Info = 6,
    Go = 7,
    StructuredReply = 8,
    Other = 99,
}

// What a server sends first.
const GREETING: [u8; 18] = *b"NBDMAGICIHAVEOPT\x00\x03";

// The data of INFO and GO for `usr0`, with a question for its block sizes.
const USR0: [u8; 12] = *b"\x00\x00\x00\x04usr0\x00\x01\x00\x03";

// 1,000 blocks with flags, FLUSH and durable writes; and block sizes.
const EXPORT: [u8; 12] = *b"\x00\x00\x00\x00\x00\x00\x00\x07\xd0\x00\x00\x0d";

const SIZES: [u8; 14] = *b"\x00\x03\x00\x00\x02\x00\x00\x00\x10\x00\x02\x00\x00\x00";

// A kind of reply: an option is done, an export's name or a fact on one follows, or an error.
#[derive(Clone, Copy)]
enum Kind {
    Ack = 1,
    Server,
    About,
    Unsupported = 0x8000_0001,
    Invalid = 0x8000_0003,
    Unknown = 0x8000_0006,
}

// An option and its data.
type Asked<'a> = (Ask, &'a [u8]);

// An option, the kind of a reply to it, and the reply's data.
type Told<'a> = (Ask, Kind, &'a [u8]);

// A client's flags and options.
fn asked_of(alloc: Global, flags: u8, options: &[Asked<'_>]) -> Result<Vec<u8>, AllocError> {
    let mut bytes = Vec::from_slice(alloc, &[0, 0, 0, flags])?;
    for (option, data) in options {
        bytes.extend_from_slice(b"IHAVEOPT")?;
        bytes.extend_from_slice(&(*option as u32).to_be_bytes())?;
        bytes.extend_from_slice(&(data.len().min(9_999) as u32).to_be_bytes())?;
        bytes.extend_from_slice(data)?;
    }
    Ok(bytes)
}

// The replies to options.
fn told_of(alloc: Global, replies: &[Told<'_>]) -> Result<Vec<u8>, AllocError> {
    let mut bytes = Vec::new(alloc);
    for (option, kind, data) in replies {
        bytes.extend_from_slice(b"\0\x03\xe8\x89\x04\x55\x65\xa9")?;
        bytes.extend_from_slice(&(*option as u32).to_be_bytes())?;
        bytes.extend_from_slice(&(*kind as u32).to_be_bytes())?;
        bytes.extend_from_slice(&(data.len().min(9_999) as u32).to_be_bytes())?;
        bytes.extend_from_slice(data)?;
    }
    Ok(bytes)
}

// A handshake on `usr0`, which has 1,000 blocks, ends so, and behind the greeting the client gets this, where it is looked at.
fn expect<R: Abort>(
    rt: &R,
    alloc: Global,
    asked: Vec<u8>,
    cuts: &[usize],
    end: Shaken,
    told: Option<&[u8]>,
) -> Result<(), Fail> {
    let export = Export {
        name: b"usr0",
        blocks: 1000,
    };
    let mut source = MemSource::new(asked, cuts.to_vec(alloc)?, None);
    let mut sink = MemSink::new(alloc, None);
    let found = shake(alloc, &export, &mut source, &mut sink);
    assert!(rt; found == Ok(end), "{found:?}");
    let Some(got) = sink.bytes().strip_prefix(GREETING.as_slice()) else {
        return Err(Fail::from("no greeting"));
    };
    assert!(rt; told.is_none_or(|told| got == told), "{got:?}");
    Ok(())
}

#[test]
fn a_client_goes(rt: HostRuntime) -> Result<(), Fail> {
    let options: [Asked<'_>; 3] = [
        (Ask::StructuredReply, b""),
        (Ask::Info, &USR0),
        (Ask::Go, b"\x00\x00\x00\x00\x00\x00"),
    ];
    let replies: [Told<'_>; 7] = [
        (Ask::StructuredReply, Kind::Unsupported, b""),
        (Ask::Info, Kind::About, &EXPORT),
        (Ask::Info, Kind::About, &SIZES),
        (Ask::Info, Kind::Ack, b""),
        (Ask::Go, Kind::About, &EXPORT),
        (Ask::Go, Kind::About, &SIZES),
        (Ask::Go, Kind::Ack, b""),
    ];
    let asked = asked_of(rt.alloc(), 3, &options)?;
    let told = told_of(rt.alloc(), &replies)?;
    let cuts = [1, 2, 3, 4, 5, 6, 7];
    expect(&rt, rt.alloc(), asked, &cuts, Shaken::Agreed, Some(&told))
}

#[test]
fn an_export_is_taken_by_its_name(rt: HostRuntime) -> Result<(), Fail> {
    let alloc = rt.alloc();
    let rows: [(u8, &[u8]); 4] = [(0, &[0; 124]), (1, &[0; 124]), (2, &[]), (3, &[])];
    for (flags, zeroes) in rows {
        let asked = asked_of(alloc, flags, &[(Ask::ExportName, b"usr0".as_slice())])?;
        let mut told = Vec::from_slice(alloc, &EXPORT[2..])?;
        told.extend_from_slice(zeroes)?;
        expect(&rt, alloc, asked, &[], Shaken::Agreed, Some(&told))?;
    }
    Ok(())
}

#[test]
fn a_client_looks_and_goes_away(rt: HostRuntime) -> Result<(), Fail> {
    let options: [Asked<'_>; 7] = [
        (Ask::List, b""),
        (Ask::List, b"?"),
        (Ask::Info, b"\x00\x00\x00\x04web0\x00\x00"),
        (Ask::Go, b"\x00\x00\x00\x05usr0\x00\x00"),
        (Ask::Go, b"\x00\x00\x00\x04usr0\x00\x01\x00"),
        (Ask::Go, b"\x00\x00\x00"),
        (Ask::Abort, b""),
    ];
    let replies: [Told<'_>; 8] = [
        (Ask::List, Kind::Server, b"\x00\x00\x00\x04usr0"),
        (Ask::List, Kind::Ack, b""),
        (Ask::List, Kind::Invalid, b""),
        (Ask::Info, Kind::Unknown, b""),
        (Ask::Go, Kind::Invalid, b""),
        (Ask::Go, Kind::Invalid, b""),
        (Ask::Go, Kind::Invalid, b""),
        (Ask::Abort, Kind::Ack, b""),
    ];
    let asked = asked_of(rt.alloc(), 3, &options)?;
    let told = told_of(rt.alloc(), &replies)?;
    let end = Shaken::Unagreed(Unagreed::Aborted);
    expect(&rt, rt.alloc(), asked, &[], end, Some(&told))
}

// What a client sends, and how the handshake ends without a word from the server.
const UNAGREED: [(&[u8], Unagreed); 11] = [
    (b"", Unagreed::End),
    (b"\x00\x00\x00", Unagreed::Cut),
    (b"\x00\x00\x00\x04", Unagreed::BadFlags),
    (b"GET ", Unagreed::BadFlags),
    (b"\x00\x00\x00\x03", Unagreed::End),
    (b"\x00\x00\x00\x03IHAVEOP", Unagreed::Cut),
    (
        b"\x00\x00\x00\x03IHAVEOPT\x00\x00\x00\x03\x00\x00\x00\x01",
        Unagreed::Cut,
    ),
    (
        b"\x00\x00\x00\x03IHAVEOPT\x00\x00\x00\x03\x00\x00\x10\x01",
        Unagreed::TooLong,
    ),
    (
        b"\x00\x00\x00\x03IHAVEOPS\x00\x00\x00\x03\x00\x00\x00\x00",
        Unagreed::BadMagic,
    ),
    (
        b"\x00\x00\x00\x03IHAVEOPT\x00\x00\x00\x01\x00\x00\x00\x04web0",
        Unagreed::Unoffered,
    ),
    (
        b"\x00\x00\x00\x03IHAVEOPT\x00\x00\x00\x01\x00\x00\x00\x05usr0",
        Unagreed::Cut,
    ),
];

#[test]
fn bytes_that_are_no_handshake_end_it(rt: HostRuntime) -> Result<(), Fail> {
    for (asked, end) in UNAGREED {
        let asked = Vec::from_slice(rt.alloc(), asked)?;
        expect(
            &rt,
            rt.alloc(),
            asked,
            &[],
            Shaken::Unagreed(end),
            Some(&[]),
        )?;
    }
    Ok(())
}

// An unknown option with the most data, and one that ends a handshake.
const OTHER: Asked<'_> = (Ask::Other, &[7; 4096]);

const GOES: Asked<'_> = (Ask::Go, &USR0);

#[test]
fn options_are_at_most_sixty_four(rt: HostRuntime) -> Result<(), Fail> {
    for (before, end) in [
        (63, Shaken::Agreed),
        (64, Shaken::Unagreed(Unagreed::TooMany)),
    ] {
        let mut options: Vec<Asked<'_>> = Vec::new(rt.alloc());
        options.resize(before, OTHER)?;
        options.push(GOES)?;
        let asked = asked_of(rt.alloc(), 3, &options)?;
        expect(&rt, rt.alloc(), asked, &[], end, None)?;
    }
    Ok(())
}
