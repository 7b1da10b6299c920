// Volumes that are looked at. The images and the expected lines were worked out by hand from the formats.
ghost use Rattle.std.specs.Prelude.{◌≡◌, [], Some};
ghost use Rattle.wol_bay.specs.Bay.{outs};
ghost use Rattle.wol_bay.specs.MemBay.{mem_bay_state};

use fixtures::{
    Change, Formatted, LONG, MANY, ONE_BLOCK_EACH, OTHER_LONG, OTHER_MANY, OTHER_PAST, OWNED, PAST,
    SRC0, THREE, USR0, WEB0, config_text, put,
};
use inspection::{Asked, inspect};
use rack::format;
use std::alloc::Global;
use std::process::Abort;
use std::sync::Wait;
use std::test::Fail;
use std::thread::Threads;
use wol_bay::MemBay;
use wol_config::read_config;
use wol_io::MemSink;

// Three volumes with changes, the exit status that they are to have, and their lines.
type Row<'a> = (&'a [Change<'a>], u8, [&'a [u8]; 3]);

const A: Formatted<'_> = Formatted {
    name: "a",
    blocks: 19,
    label: b"WOLVOL01\x00\x00\x00\x00\x01\x00\x00\x00\x00\x00\x00\x00\x01\x00\x00\x00\x10",
    view: b"WOLVIEW1\x01\x00\x00\x00\x01",
    segments: &[3],
};

const C: Formatted<'_> = Formatted {
    name: "c",
    blocks: 19,
    label: b"WOLVOL01\x02\x00\x00\x00\x01\x00\x00\x00\x00\x00\x00\x00\x01\x00\x00\x00\x10",
    view: b"WOLVIEW1",
    segments: &[3],
};

/// What is asked of volumes is told by this text; the exit status is that of the first trouble.
pub(crate) fn tries<R: Abort + Threads + Wait + Sync>(
    rt: &R,
    alloc: Global,
    asked: Asked,
    config: &str,
    bay: &mut MemBay,
    status: u8,
    text: &[u8],
) -> Result<(), Fail>
    requires { outs (mem_bay_state bay.old) ≡ Some [] }
    ensures { outs (mem_bay_state bay.new) ≡ Some [] }
{
    let config = read_config(alloc, config.as_bytes())?;
    let mut out = MemSink::new(alloc, None);
    let found = match inspect(rt, alloc, asked, &config, bay, &mut out) {
        Ok(None) => 0,
        Ok(Some(trouble)) => trouble.status(),
        Err(_) => 9,
    };
    let said = String::from_utf8_lossy(alloc, out.bytes())?;
    assert_eq!(rt; found, status, "{}", said);
    assert_eq!(rt; out.bytes(), text, "{}", said);
    Ok(())
}

fn tries_rows<R: Abort + Threads + Wait + Sync>(
    rt: &R,
    alloc: Global,
    asked: Asked,
    rows: &[Row<'_>],
) -> Result<(), Fail> {
    for (changes, status, lines) in rows {
        let mut bay = MemBay::new(alloc);
        put(alloc, &mut bay, &USR0, changes)?;
        put(alloc, &mut bay, &WEB0, changes)?;
        put(alloc, &mut bay, &SRC0, changes)?;
        let mut text = Vec::new(alloc);
        for line in lines.iter() {
            text.extend_from_slice(line)?;
        }
        tries(rt, alloc, asked, THREE, &mut bay, *status, text.as_slice())?;
    }
    Ok(())
}

#[test]
fn an_image_that_is_not_there(rt: HostRuntime) -> Result<(), Fail> {
    let alloc = rt.alloc();
    let mut bay = MemBay::new(alloc);
    put(alloc, &mut bay, &A, &[])?;
    put(alloc, &mut bay, &C, &[])?;
    let text =
        b"a logger 1 missing\nb absent\nc ok sha256 076a27c79e5ace2a3d47f9dd2e83e4ff6ea8872b3c2218f66c92b89b55f36560 records 0 segments 0\n";
    tries(&rt, alloc, Asked::Check, ONE_BLOCK_EACH, &mut bay, 6, text)?;
    let text = b"a logger 1 missing\nb absent\nc records 0\n";
    tries(&rt, alloc, Asked::Dump, ONE_BLOCK_EACH, &mut bay, 6, text)?;
    bay.put("c", &[0; 1000])?;
    let text = b"a logger 1 missing\nb absent\nc length 1000\n";
    tries(&rt, alloc, Asked::Dump, ONE_BLOCK_EACH, &mut bay, 6, text)
}

const USR: &[u8] =
    b"usr0 ok sha256 2d4da04b861bb9dbe77c871415931785a18138d6db035f1bbcd0cf8277c6fc23 records 0 segments 0\n";

const USR_WITH_ONE: &[u8] =
    b"usr0 ok sha256 2d4da04b861bb9dbe77c871415931785a18138d6db035f1bbcd0cf8277c6fc23 records 1 segments 1\n";

// Its first block is that of the record, and not home's.
const USR_LOGGED: &[u8] =
    b"usr0 ok sha256 5ef40227a73804d49bd8760062b641442dbc95423fc85b10c73fcbdfdfb367b3 records 1 segments 1\n";

const WEB: &[u8] =
    b"web0 ok sha256 2d4da04b861bb9dbe77c871415931785a18138d6db035f1bbcd0cf8277c6fc23 records 0 segments 0\n";

const SRC: &[u8] =
    b"src0 ok sha256 2d4da04b861bb9dbe77c871415931785a18138d6db035f1bbcd0cf8277c6fc23 records 0 segments 0\n";

const USR_LOST: &[u8] = b"usr0 logger 1 missing\n";

const SRC_LOST: &[u8] = b"src0 logger 1 missing\n";

const SRC_WITHOUT_USR: &[u8] = b"src0 logger 0 missing\n";

const BEHIND: &[u8] = b"usr0 damaged 1003 of web0\n";

// The second segment of web0, or the first of src0, is owned by usr0.
const OWNED_TOO: Change<'_> = ("web0", 1018, b"WOLSEGO1\x00\x00\x00\x00");

const ELSEWHERE: Change<'_> = ("src0", 1002, b"WOLSEGO1\x00\x00\x00\x00");

// Heads of one block in both forms, of version 5 and of the last version.
pub(crate) const FIVE: &[u8] =
    b"WOLREC01\x01\x00\x00\x00\x00\x00\x00\x00\x05\x00\x00\x00\x00\x00\x00\x00\x00\x00\x00\x00\x00\x00\x00\x00\x01";

const OTHER_FIVE: &[u8] =
    b"WOLREC02\x00\x00\x00\x00\x00\x00\x00\x00\x05\x00\x00\x00\x00\x00\x00\x00\x00\x00\x00\x00\x00\x00\x00\x00\x01\x00\x00\x00\x01";

const LAST: &[u8] =
    b"WOLREC01\x01\x00\x00\x00\x00\x00\x00\x00\xff\xff\xff\xff\xff\xff\xff\x7f\x00\x00\x00\x00\x00\x00\x00\x00\x01";

const OTHER_LAST: &[u8] =
    b"WOLREC02\x00\x00\x00\x00\x00\x00\x00\x00\xff\xff\xff\xff\xff\xff\xff\x7f\x00\x00\x00\x00\x00\x00\x00\x00\x01\x00\x00\x00\x01";

// Heads that keep no block, and one that keeps a block that its record hasn't.
const NONE_KEPT: &[u8] =
    b"WOLREC01\x02\x00\x00\x00\x00\x00\x00\x00\x05\x00\x00\x00\x00\x00\x00\x00\x00\x00\x00\x00\x00\x00\x00\x00\x01";

const OTHER_NONE_KEPT: &[u8] =
    b"WOLREC02\x00\x00\x00\x00\x00\x00\x00\x00\x05\x00\x00\x00\x00\x00\x00\x00\x00\x00\x00\x00\x00\x00\x00\x00\x01";

const KEEPS_BEHIND: &[u8] =
    b"WOLREC02\x00\x00\x00\x00\x00\x00\x00\x00\x05\x00\x00\x00\x00\x00\x00\x00\x00\x00\x00\x00\x00\x00\x00\x00\x04\x00\x00\x00\x10";

// Heads of blocks 1 to 3 with versions from 4 and from 5 on, and of blocks 998 to 1000.
const FOUR_1: &[u8] =
    b"WOLREC01\x01\x00\x00\x00\x00\x00\x00\x00\x04\x00\x00\x00\x00\x00\x00\x00\x01\x00\x00\x00\x00\x00\x00\x00\x01";

const FIVE_2: &[u8] =
    b"WOLREC01\x01\x00\x00\x00\x00\x00\x00\x00\x05\x00\x00\x00\x00\x00\x00\x00\x02\x00\x00\x00\x00\x00\x00\x00\x01";

const SIX_3: &[u8] =
    b"WOLREC01\x01\x00\x00\x00\x00\x00\x00\x00\x06\x00\x00\x00\x00\x00\x00\x00\x03\x00\x00\x00\x00\x00\x00\x00\x01";

const FIVE_1: &[u8] =
    b"WOLREC01\x01\x00\x00\x00\x00\x00\x00\x00\x05\x00\x00\x00\x00\x00\x00\x00\x01\x00\x00\x00\x00\x00\x00\x00\x01";

const SIX_2: &[u8] =
    b"WOLREC01\x01\x00\x00\x00\x00\x00\x00\x00\x06\x00\x00\x00\x00\x00\x00\x00\x02\x00\x00\x00\x00\x00\x00\x00\x01";

const SEVEN_3: &[u8] =
    b"WOLREC01\x01\x00\x00\x00\x00\x00\x00\x00\x07\x00\x00\x00\x00\x00\x00\x00\x03\x00\x00\x00\x00\x00\x00\x00\x01";

const FIVE_998: &[u8] =
    b"WOLREC01\x01\x00\x00\x00\x00\x00\x00\x00\x05\x00\x00\x00\x00\x00\x00\x00\xe6\x03\x00\x00\x00\x00\x00\x00\x01";

const SIX_999: &[u8] =
    b"WOLREC01\x01\x00\x00\x00\x00\x00\x00\x00\x06\x00\x00\x00\x00\x00\x00\x00\xe7\x03\x00\x00\x00\x00\x00\x00\x01";

const SEVEN_1000: &[u8] =
    b"WOLREC01\x01\x00\x00\x00\x00\x00\x00\x00\x07\x00\x00\x00\x00\x00\x00\x00\xe8\x03\x00\x00\x00\x00\x00\x00\x01";

const USR_WITH_THREE: &[u8] =
    b"usr0 ok sha256 2d4da04b861bb9dbe77c871415931785a18138d6db035f1bbcd0cf8277c6fc23 records 3 segments 1\n";

const MANY_RECORDS: &[Row<'_>] = &[
    // both segments have records of blocks 1 to 3, the first with versions from 4 on and the second from 5 on: told are the first
    // two of the least version with both their places
    (
        &[
            OWNED,
            ("web0", 1003, FOUR_1),
            ("web0", 1005, FIVE_2),
            ("web0", 1007, SIX_3),
            OWNED_TOO,
            ("web0", 1019, FIVE_1),
            ("web0", 1021, SIX_2),
            ("web0", 1023, SEVEN_3),
        ],
        5,
        [b"usr0 twins 1005 of web0 and 1019 of web0\n", WEB, SRC],
    ),
    // the first segment has no record, and the third record of the second passes the end: its block is told
    (
        &[
            OWNED,
            OWNED_TOO,
            ("web0", 1019, FIVE_998),
            ("web0", 1021, SIX_999),
            ("web0", 1023, SEVEN_1000),
        ],
        5,
        [b"usr0 damaged 1023 of web0\n", WEB, SRC],
    ),
    // the first segment has three records, and the second none, which is not held then
    (
        &[
            OWNED,
            ("web0", 1003, FOUR_1),
            ("web0", 1005, FIVE_2),
            ("web0", 1007, SIX_3),
            OWNED_TOO,
        ],
        0,
        [USR_WITH_THREE, WEB, SRC],
    ),
];

const IMAGES: &[Row<'_>] = &[
    (&[], 0, [USR, WEB, SRC]),
    (
        &[("web0", 0, b"")],
        6,
        [USR_LOST, b"web0 damaged 0 of web0\n", SRC_LOST],
    ),
    (
        &[(
            "usr0",
            0,
            b"XOLVOL01\x00\x00\x00\x00\xe8\x03\x00\x00\x00\x00\x00\x00\x04\x00\x00\x00\x10",
        )],
        5,
        [b"usr0 damaged 0 of usr0\n", WEB, SRC_WITHOUT_USR],
    ),
    (
        &[(
            "web0",
            0,
            b"WOLVOL01\x01\x00\x00\x00\xe7\x03\x00\x00\x00\x00\x00\x00\x04\x00\x00\x00\x10",
        )],
        6,
        [USR_LOST, b"web0 label differs\n", SRC_LOST],
    ),
    (
        &[("usr0", 1, b"WOLVIEW1\x01\x00\x00\x00\x00")],
        5,
        [b"usr0 damaged 1 of usr0\n", WEB, SRC_WITHOUT_USR],
    ),
    (
        &[("usr0", 1, b"WOLVIEW1\x01\x00\x00\x00\x09")],
        6,
        [b"usr0 logger 9 missing\n", WEB, SRC],
    ),
    (
        &[ELSEWHERE],
        5,
        [b"usr0 outside view segment 0 of src0\n", WEB, SRC],
    ),
    (
        &[("web0", 1002, b"WOLSEGO1\x07")],
        6,
        [USR_LOST, b"web0 damaged 1002 of web0\n", SRC_LOST],
    ),
];

const REFUSED: &[Row<'_>] = &[
    (&[OWNED, ("web0", 1003, MANY)], 5, [BEHIND, WEB, SRC]),
    (&[OWNED, ("web0", 1003, OTHER_MANY)], 5, [BEHIND, WEB, SRC]),
    (&[OWNED, ("web0", 1003, PAST)], 5, [BEHIND, WEB, SRC]),
    (&[OWNED, ("web0", 1003, OTHER_PAST)], 5, [BEHIND, WEB, SRC]),
    (&[OWNED, ("web0", 1003, LONG)], 5, [BEHIND, WEB, SRC]),
    (&[OWNED, ("web0", 1003, OTHER_LONG)], 5, [BEHIND, WEB, SRC]),
    (
        &[OWNED, ("web0", 1003, KEEPS_BEHIND)],
        5,
        [BEHIND, WEB, SRC],
    ),
    // two heads of one version, one of each form
    (
        &[OWNED, ("web0", 1003, FIVE), ("web0", 1005, OTHER_FIVE)],
        5,
        [b"usr0 twins 1003 of web0 and 1005 of web0\n", WEB, SRC],
    ),
    (
        &[OWNED, ("web0", 1003, OTHER_FIVE), ("web0", 1005, FIVE)],
        5,
        [b"usr0 twins 1003 of web0 and 1005 of web0\n", WEB, SRC],
    ),
];

const ACCEPTED: &[Row<'_>] = &[
    (
        &[OWNED, ("web0", 1003, FIVE), ("web0", 1004, b"logged")],
        0,
        [USR_LOGGED, WEB, SRC],
    ),
    (
        &[OWNED, ("web0", 1003, OTHER_FIVE), ("web0", 1004, b"logged")],
        0,
        [USR_LOGGED, WEB, SRC],
    ),
    (&[OWNED, ("web0", 1003, LAST)], 0, [USR_WITH_ONE, WEB, SRC]),
    (
        &[OWNED, ("web0", 1003, OTHER_LAST)],
        0,
        [USR_WITH_ONE, WEB, SRC],
    ),
    (&[OWNED, ("web0", 1003, NONE_KEPT)], 0, [USR, WEB, SRC]),
    (
        &[OWNED, ("web0", 1003, OTHER_NONE_KEPT)],
        0,
        [USR, WEB, SRC],
    ),
];

const DUMPED_LAST: [&[u8]; 3] = [
    b"usr0 records 1\nrecord 9223372036854775807 0 1 on web0 segment 0 block 1 live 00000000000000000000000000000001 home 00000000000000000000000000000000\n",
    b"web0 records 0\n",
    b"src0 records 0\n",
];

const DUMPED: &[Row<'_>] = &[
    (&[OWNED, ("web0", 1003, LAST)], 0, DUMPED_LAST),
    (&[OWNED, ("web0", 1003, OTHER_LAST)], 0, DUMPED_LAST),
];

#[test]
fn forged_images_are_told(rt: HostRuntime) -> Result<(), Fail> {
    for rows in [IMAGES, REFUSED, ACCEPTED, MANY_RECORDS] {
        tries_rows(&rt, rt.alloc(), Asked::Check, rows)?;
    }
    tries_rows(&rt, rt.alloc(), Asked::Dump, DUMPED)
}

// Eleven volumes, each with one block more than the last; the second logs on the fourth.
const ELEVEN: &str = config_text!(4:
    "v0" of "h0" 1 1 "",
    "v1" of "h1" 2 1 "\"v3\"",
    "v2" of "h2" 3 1 "",
    "v3" of "h3" 4 1 "",
    "v4" of "h4" 5 1 "",
    "v5" of "h5" 6 1 "",
    "v6" of "h6" 7 1 "",
    "v7" of "h7" 8 1 "",
    "v8" of "h8" 9 1 "",
    "v9" of "h9" 10 1 "",
    "v10" of "h10" 11 1 ""
);

// The image of the fourth has another length. Each digest is that of so many blocks of zeros.
const ELEVEN_LINES: &[u8] =
    b"v0 ok sha256 076a27c79e5ace2a3d47f9dd2e83e4ff6ea8872b3c2218f66c92b89b55f36560 records 0 segments 0\nv1 logger 3 missing\nv2 ok sha256 80422bc3d307b4a25bdafcc84ac7fb01cb55a09810e8b0f37bb12e0edb5c48ca records 0 segments 0\nv3 length 1000\nv4 ok sha256 8ce8ba8e726ee8925e6560d86ac35be1097691d1cfac888e6bd20e804ea9eb15 records 0 segments 0\nv5 ok sha256 e80232b4d18d0bb7e794be263ba937626f383f9917d4b8a737ba893a8f752293 records 0 segments 0\nv6 ok sha256 6cf1b57d59e7111bc218dfb01dda93ac0f776715599a1c69f89035bd20c16a10 records 0 segments 0\nv7 ok sha256 ad7facb2586fc6e966c004d7d1d16b024f5805ff7cb47c7a85dabd8b48892ca7 records 0 segments 0\nv8 ok sha256 606f558e014930f9c1669f03c71c28945c4631568e39cd308c6c7f4077c7bfb9 records 0 segments 0\nv9 ok sha256 a11937f356a9b0ba592c82f5290bac8016cb33a3f9bc68d3490147c158ebb10d records 0 segments 0\nv10 ok sha256 07fa8a94dd06b17cdd8a23295f9687cd861be80591e8ab912dafabf21117f264 records 0 segments 0\n";

#[test]
fn many_volumes_are_told_in_order(rt: HostRuntime) -> Result<(), Fail> {
    let alloc = rt.alloc();
    let config = read_config(alloc, ELEVEN.as_bytes())?;
    let mut bay = MemBay::new(alloc);
    assert_eq!(rt; format(alloc, &mut bay, &config), Ok(()));
    bay.put("v3", &[0; 1000])?;
    tries(&rt, alloc, Asked::Check, ELEVEN, &mut bay, 6, ELEVEN_LINES)
}
