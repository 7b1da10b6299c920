// Volumes with records that lie over one another are cleaned.
ghost use Rattle.std.specs.Prelude.{◌≡◌, [], Some};
ghost use Rattle.wol_bay.specs.Bay.{outs};
ghost use Rattle.wol_bay.specs.MemBay.{mem_bay_state};
ghost use Rattle.wol_config.specs.Configs.{IsValid};

use super::commands::{Command, ended};
use super::volumes::{checked, off_loaded, parts};
use fixtures::{LAYERS, OFFLOADS, OVERLAPPING, THREE, config_text};
use std::alloc::Global;
use std::process::Abort;
use std::sync::Wait;
use std::test::Fail;
use std::thread::Threads;
use wol_bay::MemBay;
use wol_config::Config;

// Volumes to which a trace was written, what a cleaning prints of them, and what one behind it. A check's first line has these numbers
// before and behind, and else the same bytes; the other lines are the same.
struct Row<'a> {
    config: &'a str,
    trace: &'a [u8],
    /// Where the numbers of the first line begin: behind the name, ` ok sha256 ` and 64 digits.
    numbers: usize,
    before: &'a [u8],
    first: &'a [u8],
    behind: &'a [u8],
    second: &'a [u8],
}

// Blocks 0 to 9 of the first volume of `THREE`, and then blocks 10 to 19, while its disk sleeps.
const SIDE_BY_SIDE: &[u8] = b"128166372000000000,web,0,Read,0,512,100
128166372500000000,web,0,Read,0,512,100
128166373000000000,usr,0,Write,0,5120,100
128166373000000000,usr,0,Write,5120,5120,100
";

const ROWS: [Row<'_>; 4] = [
    Row {
        config: THREE,
        trace: OFFLOADS,
        numbers: 79,
        before: b" records 2 segments 1\n",
        first: b"clean usr0 records 2 to 1 copied 2
clean web0 records 0 to 0 copied 0
clean src0 records 1 to 1 copied 0
",
        behind: b" records 1 segments 1\n",
        second: b"clean usr0 records 1 to 1 copied 0
clean web0 records 0 to 0 copied 0
clean src0 records 1 to 1 copied 0
",
    },
    // The first chunk has the blocks 0 to 13. Once it is copied the second record keeps the blocks 14 to 19 alone: these are
    // the second chunk, which is tidy when its turn comes.
    Row {
        config: THREE,
        trace: SIDE_BY_SIDE,
        numbers: 79,
        before: b" records 2 segments 2\n",
        first: b"clean usr0 records 2 to 2 copied 14
clean web0 records 0 to 0 copied 0
clean src0 records 0 to 0 copied 0
",
        behind: b" records 2 segments 2\n",
        second: b"clean usr0 records 2 to 2 copied 0
clean web0 records 0 to 0 copied 0
clean src0 records 0 to 0 copied 0
",
    },
    // The first volume logs on the one segment of the second, in which there is room for two records of two blocks.
    Row {
        config: config_text!(8:
            "a" of "a" 8 0 "\"b\"",
            "b" of "b" 1 1 ""
        ),
        trace: OVERLAPPING,
        numbers: 76,
        before: b" records 2 segments 1\n",
        first: b"clean a records 2 to 2 copied 0 full
clean b records 0 to 0 copied 0
",
        behind: b" records 2 segments 1\n",
        second: b"clean a records 2 to 2 copied 0 full
clean b records 0 to 0 copied 0
",
    },
    // The first volume logs on the segments of the second, in each of which there is room for a chunk of six blocks.
    Row {
        config: config_text!(8:
            "a" of "a" 32 0 "\"b\"",
            "b" of "b" 1 16 ""
        ),
        trace: LAYERS,
        numbers: 76,
        before: b" records 9 segments 8\n",
        first: b"clean a records 9 to 3 copied 16
clean b records 0 to 0 copied 0
",
        behind: b" records 3 segments 3\n",
        second: b"clean a records 3 to 3 copied 0
clean b records 0 to 0 copied 0
",
    },
];

// A cleaning is done, and prints these lines.
fn try_lines<R: Abort + Wait>(
    rt: &R,
    alloc: Global,
    config: &Config,
    bay: &mut MemBay,
    lines: &[u8],
) -> Result<(), Fail>
    requires valid { IsValid config.now }
    requires none { outs (mem_bay_state bay.old) ≡ Some [] }
    ensures none { outs (mem_bay_state bay.new) ≡ Some [] }
{
    let (status, text) = ended(rt, alloc, config, bay, &Command::Clean)?;
    assert!(rt;
        status == 0 && text.as_slice() == lines,
        "{status} {text:?}"
    );
    Ok(())
}

fn try_row<R: Abort + Threads + Wait + Sync>(
    rt: &R,
    alloc: Global,
    row: &Row<'_>,
) -> Result<(), Fail> {
    let (config, mut bay) = off_loaded(rt, alloc, row.config, row.trace)?;
    let before = checked(rt, alloc, &config, &mut bay)?;
    try_lines(rt, alloc, &config, &mut bay, row.first)?;
    let behind = checked(rt, alloc, &config, &mut bay)?;
    let kept = parts(rt, &before, row.numbers, row.before);
    assert!(rt;
        kept == parts(rt, &behind, row.numbers, row.behind),
        "{behind:?}"
    );
    try_lines(rt, alloc, &config, &mut bay, row.second)
}

#[test]
fn records_over_one_another_become_fewer_where_there_is_room(rt: HostRuntime) -> Result<(), Fail> {
    for row in &ROWS {
        try_row(&rt, rt.alloc(), row)?;
    }
    Ok(())
}
