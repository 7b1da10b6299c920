// The tables: commands on configured volumes, and what may be found after each. The digests were made outside, of the writes in
// the traces.
use fixtures::{
    AFTER_STAYS, Call, DRAINING, DRAINS, FORMAT, LOGS, RECLAIMS, ROOMY_THREE, SMALL_DRAINING,
    SMALL_THREE, THREE_ROOMY, Volume, asked,
};

/// A command on volumes, and what may be found of them where their disks stop within.
#[derive(Clone, Copy)]
pub struct Row<'a> {
    pub config: &'a str,
    pub volumes: &'a [Volume<'a>],
    /// What is run before, while nothing fails.
    pub before: &'a [Call<'a>],
    pub call: Call<'a>,
    /// For each volume the fronts of the lines that `check` may have of it; the longer the disks work the later ones.
    pub lines: &'a [&'a [&'a str]],
    /// The statuses that a second call may have on what is left. Behind it each volume has the last of its lines.
    pub again: &'a [u8],
}

pub const TWO_VOLUMES: [Volume<'static>; 2] = [("a", 102), ("b", 106)];

pub const TWO_SMALL: [Volume<'static>; 2] = [("a", 6), ("b", 10)];

pub const THREE_SMALL: [Volume<'static>; 3] = [("u", 18), ("w", 26), ("s", 18)];

const AFTER_LOGS: &[Call<'_>] = &[
    FORMAT,
    Call {
        words: "replay",
        trace: LOGS,
    },
];

/// A write that goes to a log, one that finds the log full, and what is read then.
pub const DRAINED: Row<'_> = Row {
    config: DRAINING,
    volumes: &TWO_VOLUMES,
    before: &[FORMAT],
    call: Call {
        words: "replay --each",
        trace: DRAINS,
    },
    lines: &[
        &[
            "a ok sha256 16fa66a7dc98d93f",
            "a ok sha256 5bd85bf6bb4b1b66",
            "a ok sha256 c558b517d93230fc",
        ],
        &["b ok sha256 16fa66a7dc98d93f"],
    ],
    again: &[],
};

/// The same on small volumes.
pub const SMALL_DRAINED: Row<'_> = Row {
    config: SMALL_DRAINING,
    volumes: &TWO_SMALL,
    lines: &[
        &[
            "a ok sha256 e5a00aa9991ac8a5",
            "a ok sha256 9b4ad2f4b9763e8c",
            "a ok sha256 ef5a0d6ddd29a6cb",
        ],
        &["b ok sha256 e5a00aa9991ac8a5"],
    ],
    ..DRAINED
};

const RECLAIMED_LINES: &[&[&str]] = &[
    &[
        "u ok sha256 ad7facb2586fc6e9",
        "u ok sha256 f5629b9597b3c984",
        "u ok sha256 2f7d772534d5254e",
        "u ok sha256 d866b00f126976ea",
    ],
    &[
        "w ok sha256 ad7facb2586fc6e9",
        "w ok sha256 bb4c64d8cc7c31a9",
        "w ok sha256 b0c89034b96ef166",
        "w ok sha256 cc1fcd98d6d48372",
    ],
    &[
        "s ok sha256 ad7facb2586fc6e9",
        "s ok sha256 c2263bc55d55df72",
    ],
];

/// Writes that are put home behind the requests of a window.
pub const RECLAIMED: Row<'_> = Row {
    config: SMALL_THREE,
    volumes: &THREE_SMALL,
    before: &[FORMAT],
    call: Call {
        words: "replay --each",
        trace: RECLAIMS,
    },
    lines: RECLAIMED_LINES,
    again: &[],
};

/// An image is as it was, has no label, or is whole. What the log of `b` has of `a` is there until `b` is made anew.
pub const FORMATTED: Row<'_> = Row {
    config: SMALL_DRAINING,
    volumes: &TWO_SMALL,
    before: AFTER_LOGS,
    call: FORMAT,
    lines: &[
        &[
            "a ok sha256 ade3a6f4140906c6",
            "a damaged 0 of a",
            "a ok sha256 ef5a0d6ddd29a6cb",
            "a logger 1 missing",
            "a ok sha256 e5a00aa9991ac8a5",
        ],
        &[
            "b ok sha256 894e3deeceec72b5",
            "b damaged 0 of b",
            "b ok sha256 e5a00aa9991ac8a5",
        ],
    ],
    again: &[0],
};

const STAY_LINES: &[&[&str]] = &[
    &["u ok sha256 2f7d772534d5254e"],
    &["w ok sha256 ad7facb2586fc6e9"],
    &["s ok sha256 c2263bc55d55df72"],
];

/// Two records of `u` become one in another segment; after it each volume is what it was.
pub const CLEANED: Row<'_> = Row {
    config: ROOMY_THREE,
    volumes: &THREE_ROOMY,
    before: AFTER_STAYS,
    call: Call {
        words: "clean",
        trace: b"",
    },
    lines: STAY_LINES,
    again: &[0],
};

/// Commands that change no volume's content, and the statuses of the same command on what one that was stopped left.
pub const KEEPING: [(&str, &[u8]); 5] = [
    ("check", &[0]),
    ("dump", &[0]),
    ("view-add w s", &[0, 15]),
    ("view-remove u w", &[0, 15]),
    ("view-remove s w", &[0, 15]),
];

/// Such a command where some content is in logs: after it each volume is what it was.
pub fn keeping<'a>(words: &'a str, again: &'a [u8]) -> Row<'a> {
    Row {
        config: SMALL_THREE,
        volumes: &THREE_SMALL,
        before: AFTER_STAYS,
        call: asked(words),
        lines: STAY_LINES,
        again,
    }
}
