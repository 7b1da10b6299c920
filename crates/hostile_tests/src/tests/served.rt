// A volume that is served to a client, at once or behind a handshake, while a disk, the client or its replies stop. Each session clears
// a buffer of 32 MiB, so there is one of each kind, and each has a test of its own where a client fails.
use super::calls::{Failing, Stream};
use super::rows::{Row, keeping};
use super::stops::{Case, Look, Remains, found, left_by, prepared, stopped, try_row};
use fixtures::{
    CHOICES, Call, DISC, Data, Exchange, FLUSH, Left, NO_DATA, READ, WRITE, ask_all, holds_at,
    reply_all, same, same_at,
};
use std::alloc::Global;
use std::sync::Wait;
use std::test::Fail;
use std::thread::Threads;

// The first write joins what is in a log, the second goes home, the third finds the log full.
const EXCHANGES: [Exchange<'_>; 6] = [
    (
        (0, WRITE, 1, 512, 512),
        Data::Filled(0xa1, 512),
        Some(0),
        &[],
    ),
    (
        (0, WRITE, 2, 2048, 1024),
        Data::Filled(0xa2, 1024),
        Some(0),
        &[],
    ),
    ((0, WRITE, 3, 0, 512), Data::Filled(0xa3, 512), Some(0), &[]),
    ((0, FLUSH, 4, 0, 0), NO_DATA, Some(0), &[]),
    (
        (0, READ, 5, 0, 3072),
        NO_DATA,
        Some(0),
        &[
            Data::Filled(0xa3, 512),
            Data::Filled(0xa1, 512),
            Data::Zeros(1024),
            Data::Filled(0xa2, 1024),
        ],
    ),
    ((0, DISC, 6, 0, 0), NO_DATA, None, &[]),
];

// The lines of the volumes as the pieces of the writes come to stand.
const LINES: &[&[&str]] = &[
    &[
        "u ok sha256 2f7d772534d5254e",
        "u ok sha256 3354e092024533ff",
        "u ok sha256 87de57e455d073d2",
        "u ok sha256 d46c957b64409f6d",
        "u ok sha256 5b2676ec9935f829",
        "u ok sha256 5c1ffccbb33ce3be",
    ],
    &["w ok sha256 ad7facb2586fc6e9"],
    &["s ok sha256 c2263bc55d55df72"],
];

// Which of the first volume's lines it has behind so many answered writes at least, and at most, where the next one is in flight.
const BEHIND: [(usize, usize); 4] = [(0, 1), (1, 4), (4, 5), (5, 5)];

// The length of a reply's head.
const REPLY: usize = 16;

// A part of an image, how many of its calls open its image for another, and how many then the volume itself.
type Part<'a> = (&'a str, u32, u64, u64);

const PARTS: [Part<'_>; 7] = [
    ("u", 0, 0, 2),
    ("u", 1, 0, 1),
    ("w", 0, 2, 0),
    ("w", 1, 0, 1),
    ("w", 2, 2, 3),
    ("w", 3, 2, 3),
    ("s", 2, 0, 2),
];

// What a session begins with: the words of its command, what the client sends first, and what it gets for that.
#[derive(Clone, Copy)]
struct Opening<'a> {
    words: &'a str,
    asked: &'a [u8],
    told: &'a [u8],
}

const AT_ONCE: Opening<'_> = Opening {
    words: "nbd u",
    asked: b"",
    told: b"",
};

// The export of eight blocks is taken by its name.
const SHAKEN: Opening<'_> = Opening {
    words: "serve u",
    asked: b"\0\0\0\x03IHAVEOPT\0\0\0\x01\0\0\0\x01u",
    told: b"NBDMAGICIHAVEOPT\0\x03\0\0\0\0\0\0\x10\0\0\x0d",
};

// What the client sends in a session, and what it gets where nothing fails.
#[derive(Drop)]
struct Texts {
    asked: Vec<u8>,
    told: Vec<u8>,
}

// A session in a case: what the client gets where nothing fails, and how much of that comes before the replies.
#[derive(Clone, Copy)]
struct Session<'a> {
    case: Case<'a, 'a, 'a>,
    wanted: &'a [u8],
    told: usize,
}

// The error of a reply where a disk's call failed.
const BROKE: &[u8] = &[0, 0, 0, 5];

const MOST_CALLS: u64 = 1000;

// The texts of a session that begins so.
fn texts_of(alloc: Global, opening: &Opening<'_>) -> Result<Texts, Fail> {
    let mut asked = Vec::from_slice(alloc, opening.asked)?;
    ask_all(&mut asked, &EXCHANGES)?;
    let mut told = Vec::from_slice(alloc, opening.told)?;
    reply_all(&mut told, &EXCHANGES)?;
    Ok(Texts { asked, told })
}

// A session of these words.
fn row_of<'a>(words: &'a str, texts: &'a Texts) -> Row<'a> {
    Row {
        call: Call {
            words,
            trace: &texts.asked,
        },
        lines: LINES,
        ..keeping(words, &[])
    }
}

// How many of the writes are answered without an error. Their replies are the first.
fn answered(replies: &[u8]) -> usize {
    replies
        .chunks(REPLY)
        .take(3)
        .filter(|reply| reply.get(4..8) == Some([0; 4].as_slice()))
        .count()
}

impl Session<'_> {
    // What the client gets before the replies, and the replies.
    fn parts<'t>(&self, text: &'t [u8]) -> (&'t [u8], &'t [u8]) {
        text.split_at(self.told.min(text.len()))
    }

    // Whether each reply is what it is otherwise or has the error of a disk's fault, and nothing is printed where a volume isn't
    // open.
    fn is_told(&self, left: &Remains) -> bool {
        let (told, replies) = self.parts(&left.text);
        let (wanted_first, wanted) = self.parts(self.wanted);
        match left.status {
            0 => told == wanted_first
                && replies.chunks(REPLY).zip(wanted.chunks(REPLY)).take(5).all(|(
                    reply,
                    wanted,
                )| reply.get(4..8) == Some(BROKE) || reply == wanted),
            4 | 6 => left.text.is_empty(),
            _ => false,
        }
    }
}

// Which of its lines the volume has: that behind the writes that were answered, or one that the next leaves in flight. The other
// volumes have what they had.
fn place_of<R: Threads + Wait + Sync>(
    rt: &R,
    alloc: Global,
    session: &Session<'_>,
    left: &Remains,
) -> Result<usize, Fail> {
    let places = found(rt, alloc, session.case.row, &left.images)?;
    let (_, replies) = session.parts(&left.text);
    let (Some(place), Some((least, most))) = (places.first(), BEHIND.get(answered(replies))) else {
        return Err(Fail::from("no volume"));
    };
    let at = format!(in alloc; "{least} {place} {most}")?;
    holds_at(*least <= *place && *place <= *most, &at)?;
    Ok(*place)
}

// Disks stop at each of their calls.
fn try_choice<R: Threads + Wait + Sync>(
    rt: &R,
    alloc: Global,
    session: &Session<'_>,
) -> Result<(), Fail> {
    let case = session.case;
    let whole = stopped(rt, alloc, case, u64::MAX)?;
    same(&whole.status, &0)?;
    same(&whole.text.as_slice(), &session.wanted)?;
    same(&place_of(rt, alloc, session, &whole)?, &5)?;
    let mut before = 0;
    for calls in 0..whole.passed {
        let stop = stopped(rt, alloc, case, calls)?;
        let at = format!(in alloc; "{calls} {:?}: {}", case.left, stop.status)?;
        same_at(&stop.passed, &calls, &at)?;
        holds_at(session.is_told(&stop), &at)?;
        let place = place_of(rt, alloc, session, &stop)?;
        holds_at(place >= before, &at)?;
        before = place;
    }
    Ok(())
}

// Each call of a stream fails in turn: the replies before are out, and a write that isn't there whole isn't begun.
fn try_stream<R: Threads + Wait + Sync>(
    rt: &R,
    alloc: Global,
    session: &Session<'_>,
    stream: Stream,
) -> Result<(), Fail> {
    for number in 0..MOST_CALLS {
        let left = left_by(rt, alloc, session.case, Failing::Stream(stream, number))?;
        let place = place_of(rt, alloc, session, &left)?;
        let at = format!(in alloc; "{stream:?} {number}")?;
        if left.status == 0 {
            holds_at(number > 5, &at)?;
            same_at(&left.text.as_slice(), &session.wanted, &at)?;
            return Ok(());
        }
        same_at(&left.status, &stream.status(), &at)?;
        holds_at(session.wanted.starts_with(&left.text), &at)?;
        let (_, replies) = session.parts(&left.text);
        let least = BEHIND.get(answered(replies)).map(|it| it.0);
        holds_at(stream == Stream::Sink || least == Some(place), &at)?;
    }
    Err(Fail::from("it made a thousand calls"))
}

// The status where the call of this number fails: within the session it is an error of a reply.
fn status_at(part: Part<'_>, number: u64) -> u8 {
    let (_, _, lends, opens) = part;
    if number < lends {
        6
    } else if number - lends < opens {
        4
    } else {
        0
    }
}

// Each call of a part fails in turn.
fn try_part<R: Threads + Wait + Sync>(
    rt: &R,
    alloc: Global,
    session: &Session<'_>,
    part: Part<'_>,
) -> Result<(), Fail> {
    let (image, place, _, _) = part;
    for number in 0..MOST_CALLS {
        let failing = Failing::Part(image, place, number);
        let stop = left_by(rt, alloc, session.case, failing)?;
        let status = status_at(part, number);
        let at = format!(in alloc; "{image} {place} {number}")?;
        same_at(&stop.status, &status, &at)?;
        holds_at(session.is_told(&stop), &at)?;
        let _place = place_of(rt, alloc, session, &stop)?;
        if status == 0 && stop.text.as_slice() == session.wanted {
            return Ok(());
        }
    }
    Err(Fail::from("it made a thousand calls"))
}

// What fails in a session: disks from one of their calls on, a call of a stream alone, or a call of a part.
#[derive(Clone, Copy)]
enum Fault {
    Disks,
    Stream,
    Part,
}

// What is left of the disks by the crashes behind such a fault.
fn choices_of(fault: Fault) -> &'static [Left] {
    match fault {
        Fault::Disks => &CHOICES,
        Fault::Stream => &[Left::AllNew],
        Fault::Part => &[Left::AllOld, Left::AllNew],
    }
}

// Each such fault in a session.
fn try_fault<R: Threads + Wait + Sync>(
    rt: &R,
    alloc: Global,
    session: Session<'_>,
    fault: Fault,
) -> Result<(), Fail> {
    match fault {
        Fault::Disks => try_choice(rt, alloc, &session)?,
        Fault::Stream => {
            for stream in [Stream::Config, Stream::Trace, Stream::Sink] {
                try_stream(rt, alloc, &session, stream)?;
            }
        }
        Fault::Part => {
            for part in PARTS {
                try_part(rt, alloc, &session, part)?;
            }
        }
    }
    Ok(())
}

// So in sessions that begin so, with each choice of what is left.
fn try_sessions<R: Threads + Wait + Sync>(
    rt: &R,
    alloc: Global,
    openings: &[Opening<'_>],
    fault: Fault,
) -> Result<(), Fail> {
    for opening in openings {
        let texts = texts_of(alloc, opening)?;
        let row = row_of(opening.words, &texts);
        let images = prepared(rt, alloc, &row)?;
        for left in choices_of(fault) {
            let session = Session {
                case: Case::new(&row, &images, *left),
                wanted: &texts.told,
                told: opening.told.len(),
            };
            try_fault(rt, alloc, session, fault)?;
        }
    }
    Ok(())
}

#[test]
fn a_session_whose_disks_stop_keeps_what_was_answered(rt: HostRuntime) -> Result<(), Fail> {
    try_sessions(&rt, rt.alloc(), &[AT_ONCE, SHAKEN], Fault::Disks)
}

#[test]
fn a_client_that_fails_has_what_was_answered(rt: HostRuntime) -> Result<(), Fail> {
    try_sessions(&rt, rt.alloc(), &[AT_ONCE], Fault::Stream)
}

#[test]
fn a_client_that_fails_behind_a_handshake_has_what_was_answered(
    rt: HostRuntime,
) -> Result<(), Fail> {
    try_sessions(&rt, rt.alloc(), &[SHAKEN], Fault::Stream)
}

#[test]
fn each_call_of_a_disk_that_fails_in_a_session_is_told(rt: HostRuntime) -> Result<(), Fail> {
    try_sessions(&rt, rt.alloc(), &[AT_ONCE], Fault::Part)
}

#[test]
fn a_check_that_stops_changes_nothing_after_a_session(rt: HostRuntime) -> Result<(), Fail> {
    let texts = texts_of(rt.alloc(), &AT_ONCE)?;
    let row = row_of(AT_ONCE.words, &texts);
    try_row(&rt, rt.alloc(), &row, Look::StoppedChecks)
}
