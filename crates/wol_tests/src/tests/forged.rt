// Images that no run wrote, through the words of each command. The lines were worked out by hand from the formats.
use super::calls::{NONE, make_call};
use fixtures::{
    Call, Change, LONG, MANY, OTHER_LONG, OTHER_MANY, OTHER_PAST, OWNED, PAST, SRC0, THREE, USR0,
    WEB0, put, same_at,
};
use std::alloc::Global;
use std::sync::Wait;
use std::test::Fail;
use std::thread::Threads;
use wol_bay::MemBay;

// Three volumes with changes, what is wrong with each, and the status of the first with which something is.
#[derive(Clone, Copy)]
struct Forged<'a> {
    changes: &'a [Change<'a>],
    troubles: [Option<&'a str>; 3],
    status: u8,
}

const NAMES: [&str; 3] = ["usr0", "web0", "src0"];

const ZEROS: &str =
    "ok sha256 2d4da04b861bb9dbe77c871415931785a18138d6db035f1bbcd0cf8277c6fc23 records 0 segments 0";

const IMAGES: [Forged<'_>; 7] = [
    Forged {
        changes: &[],
        troubles: [None, None, None],
        status: 0,
    },
    Forged {
        changes: &[(
            "usr0",
            0,
            b"XOLVOL01\x00\x00\x00\x00\xe8\x03\x00\x00\x00\x00\x00\x00\x04\x00\x00\x00\x10",
        )],
        troubles: [Some("damaged 0 of usr0"), None, Some("logger 0 missing")],
        status: 5,
    },
    Forged {
        changes: &[(
            "web0",
            0,
            b"WOLVOL01\x01\x00\x00\x00\xe7\x03\x00\x00\x00\x00\x00\x00\x04\x00\x00\x00\x10",
        )],
        troubles: [
            Some("logger 1 missing"),
            Some("label differs"),
            Some("logger 1 missing"),
        ],
        status: 6,
    },
    Forged {
        changes: &[("usr0", 1, b"WOLVIEW1\x01\x00\x00\x00\x00")],
        troubles: [Some("damaged 1 of usr0"), None, Some("logger 0 missing")],
        status: 5,
    },
    Forged {
        changes: &[("usr0", 1, b"WOLVIEW1\x01\x00\x00\x00\x09")],
        troubles: [Some("logger 9 missing"), None, None],
        status: 6,
    },
    Forged {
        changes: &[("src0", 1002, b"WOLSEGO1\x00\x00\x00\x00")],
        troubles: [Some("outside view segment 0 of src0"), None, None],
        status: 5,
    },
    Forged {
        changes: &[("web0", 1002, b"WOLSEGO1\x07")],
        troubles: [
            Some("logger 1 missing"),
            Some("damaged 1002 of web0"),
            Some("logger 1 missing"),
        ],
        status: 6,
    },
];

// Heads that are damaged, behind the segment's, which is that of a log of usr0.
const HEADS: [&[u8]; 6] = [MANY, OTHER_MANY, PAST, OTHER_PAST, LONG, OTHER_LONG];

// The commands that do nothing where a volume isn't in order.
const NEED_ALL: [&str; 5] = [
    "replay --each",
    "soak 7 3",
    "clean",
    "view-add web0 src0",
    "view-remove src0 usr0",
];

// So do these, whose output is the client's: nothing is told there.
const SERVE: [&str; 2] = ["nbd usr0", "serve usr0"];

const LINE: &[u8] = b"1,usr,0,Write,0,512,1\n";

// What is told of each volume, where this is told of one in order.
fn told(alloc: Global, image: &Forged<'_>, in_order: &str) -> Result<String, Fail> {
    let mut text = String::new(alloc);
    for (name, trouble) in NAMES.iter().zip(&image.troubles) {
        let what = trouble.unwrap_or(in_order);
        text.push_str(format!(in alloc; "{name} {what}\n")?.as_str())?;
    }
    Ok(text)
}

// What is told of the first volume that isn't in order.
fn first_told(alloc: Global, image: &Forged<'_>) -> Result<String, Fail> {
    for (name, trouble) in NAMES.iter().zip(&image.troubles) {
        if let Some(what) = trouble {
            return Ok(format!(in alloc; "fault {} {name} {what}\n", image.status)?);
        }
    }
    Ok(String::new(alloc))
}

// A command on the images ends with this status and this text.
fn expect<R: Threads + Wait + Sync>(
    rt: &R,
    alloc: Global,
    image: &Forged<'_>,
    words: &str,
    status: u8,
    text: &str,
) -> Result<(), Fail> {
    let mut bay = MemBay::new(alloc);
    put(alloc, &mut bay, &USR0, image.changes)?;
    put(alloc, &mut bay, &WEB0, image.changes)?;
    put(alloc, &mut bay, &SRC0, image.changes)?;
    let asked = Call { words, trace: LINE };
    let (found, said) = make_call(rt, alloc, &mut bay, THREE.as_bytes(), asked, NONE)?;
    let said = String::from_utf8_lossy(alloc, &said)?;
    same_at(&said.as_str(), &text, &words)?;
    same_at(&found, &status, &format_args!("{words}: {text}"))?;
    Ok(())
}

fn try_image<R: Threads + Wait + Sync>(
    rt: &R,
    alloc: Global,
    image: &Forged<'_>,
) -> Result<(), Fail> {
    let lines = told(alloc, image, ZEROS)?;
    expect(rt, alloc, image, "check", image.status, &lines)?;
    let records = told(alloc, image, "records 0")?;
    expect(rt, alloc, image, "dump", image.status, &records)?;
    if image.status == 0 {
        return Ok(());
    }
    let first = first_told(alloc, image)?;
    for words in NEED_ALL {
        expect(rt, alloc, image, words, image.status, &first)?;
    }
    for words in SERVE {
        expect(rt, alloc, image, words, image.status, "")?;
    }
    Ok(())
}

#[test]
fn forged_images_are_told_by_each_command(rt: HostRuntime) -> Result<(), Fail> {
    for image in &IMAGES {
        try_image(&rt, rt.alloc(), image)?;
    }
    for head in HEADS {
        let changes = [OWNED, ("web0", 1003, head)];
        let image = Forged {
            changes: &changes,
            troubles: [Some("damaged 1003 of web0"), None, None],
            status: 5,
        };
        try_image(&rt, rt.alloc(), &image)?;
    }
    Ok(())
}
