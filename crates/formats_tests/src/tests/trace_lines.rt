// The format's own examples: what is refused and in which order, where lines are cut, pieces, texts and payloads.
use fixtures::{same, same_at};
use msr_trace::{
    BadLine, HostName, Kind, Line, LineFault, Lines, Piece, TraceFault, fill, mark, read_line,
    write_line,
};
use std::alloc::Global;
use std::test::Fail;
use wol_io::{MemSource, Source};

// The first refusal of a trace, read in cuts of so many bytes.
fn first_fault(alloc: Global, text: &[u8], cut: usize) -> Result<Option<TraceFault>, Fail> {
    let cuts = vec![in alloc; cut; text.len()]?;
    let mut lines = Lines::new(alloc, MemSource::new(text.to_vec(alloc)?, cuts, None));
    for _ in 0..10 {
        if !lines.is_live() {
            return Ok(None);
        }
        match lines.next() {
            Ok(Some(_)) => {}
            Ok(None) => return Ok(None),
            Err(fault) => return Ok(Some(fault)),
        }
    }
    Ok(None)
}

#[test]
fn a_line_alone_is_read(rt: HostRuntime) -> Result<(), Fail> {
    let alloc = rt.alloc();
    let line = read_line(alloc, b"1,usr,0,Read,0,512,7")?;
    same(&line.map(|line| line.response), &Some(7))?;
    assert!(rt; read_line(alloc, b"\r")?.is_none());
    let short = read_line(alloc, b"1,usr,0,Read,0,512");
    same(&short.err(), &Some(LineFault::Bad(BadLine::FieldCount)))?;
    Ok(())
}

#[test]
fn refusals_come_in_order(rt: HostRuntime) -> Result<(), Fail> {
    let cases: [(&[u8], Option<BadLine>); 20] = [
        (b"1,usr,0,Read,0,512,1\r\n", None),
        (b"\r\n", None),
        (b"1,,0,Write,18446744073709551615,0,01", None),
        (b"1,usr,0,Read,0,67108864,1", None),
        (b"1,usr,0,Read,0,512", Some(BadLine::FieldCount)),
        (b"1,usr,0,Read,0,512,1,", Some(BadLine::FieldCount)),
        (b" ", Some(BadLine::FieldCount)),
        (b"\xEF\xBB\xBF1,usr", Some(BadLine::FieldCount)),
        (
            b"\xEF\xBB\xBF1,usr,0,Read,0,512,1",
            Some(BadLine::Number(1)),
        ),
        (b",usr,4294967296,Reed,0,512,1", Some(BadLine::Number(1))),
        (b"1,usr,4294967296,Reed,0,512,1", Some(BadLine::Number(3))),
        (b"1,usr,0,Reed,,512,1", Some(BadLine::Kind)),
        (
            b"1,usr,0,Read,18446744073709551616,-1,1",
            Some(BadLine::Number(5)),
        ),
        (b"1,usr,0,Read,0,+1,1", Some(BadLine::Number(6))),
        (
            b"1,usr,0,Read,0,67108865,000000000000000000001",
            Some(BadLine::Number(7)),
        ),
        (
            b"1,usr,0,Read,18446744073709551615,67108865,1",
            Some(BadLine::TooLarge),
        ),
        (
            b"1,usr,0,Read,18446744073709551615,1,1",
            Some(BadLine::PastEnd),
        ),
        (b"1,\"usr\",0,Read,0,512,1", Some(BadLine::Quote)),
        (b"1,usr\r,0", Some(BadLine::Quote)),
        (b"1,usr,0,Read,0,512,1\r\r\n", Some(BadLine::Quote)),
    ];
    for (text, why) in cases {
        let want = why.map(|why| TraceFault::Bad { line: 1, why });
        same_at(
            &first_fault(rt.alloc(), text, 8192)?,
            &want,
            &format_args!("{text:?}"),
        )?;
        same_at(
            &first_fault(rt.alloc(), text, 1)?,
            &want,
            &format_args!("{text:?} byte by byte"),
        )?;
    }
    Ok(())
}

#[test]
fn a_line_has_at_most_4096_bytes(rt: HostRuntime) -> Result<(), Fail> {
    let blank = b"\n\r\n".to_vec(rt.alloc())?;
    for (bytes, end, why) in [
        (4096, b"\n".as_slice(), BadLine::FieldCount),
        (4096, b"", BadLine::FieldCount),
        (4095, b"\r\n", BadLine::FieldCount),
        (4096, b"\r\n", BadLine::LineTooLong),
        (4097, b"\n", BadLine::LineTooLong),
        (9000, b"", BadLine::LineTooLong),
    ] {
        let mut text = blank.clone()?;
        text.extend_from_slice(&vec![in rt.alloc(); b'a'; bytes]?)?;
        text.extend_from_slice(end)?;
        let want = Some(TraceFault::Bad { line: 3, why });
        same_at(
            &first_fault(rt.alloc(), &text, 8192)?,
            &want,
            &format_args!("{bytes} bytes"),
        )?;
        same_at(
            &first_fault(rt.alloc(), &text, 7)?,
            &want,
            &format_args!("{bytes} bytes in cuts"),
        )?;
    }
    Ok(())
}

// Takes the next line and writes it behind the others. It answers its number.
fn copy_next<S: Source>(
    lines: &mut Lines<S>,
    out: &mut Vec<u8>,
) -> Result<Option<u64>, TraceFault> {
    if !lines.is_live() {
        return Err(TraceFault::Source);
    }
    let Some((number, line)) = lines.next()? else {
        return Ok(None);
    };
    if let Some(line) = line {
        write_line(&line, out).map_err(|_| TraceFault::NoMemory)?;
    }
    Ok(Some(number))
}

// A blank line and two others are to have these numbers, and to be written as this text.
fn copies<S: Source + Drop>(alloc: Global, lines: Lines<S>, text: &[u8]) -> Result<(), Fail> {
    let mut lines = lines;
    let mut out = Vec::new(alloc);
    let blank = copy_next(&mut lines, &mut out);
    same(&out.len(), &0)?;
    let first = copy_next(&mut lines, &mut out);
    let second = copy_next(&mut lines, &mut out);
    let end = copy_next(&mut lines, &mut out);
    same(
        &[blank, first, second, end],
        &[Ok(Some(1)), Ok(Some(2)), Ok(Some(3)), Ok(None)],
    )?;
    same(&out.as_slice(), &text)?;
    let _source = lines.into_source();
    Ok(())
}

#[test]
fn lines_are_numbered_and_written_again(rt: HostRuntime) -> Result<(), Fail> {
    let text = b"\n128166372000147231,web,0,Write,227328,6144,1000\r\n07,usr,4294967295,Read,0,0,1";
    let written = b"128166372000147231,web,0,Write,227328,6144,1000\n7,usr,4294967295,Read,0,0,1\n";
    for cut in [1, 48, 49, 50, 8192] {
        let cuts = vec![in rt.alloc(); cut; 100]?;
        let source = MemSource::new(text.to_vec(rt.alloc())?, cuts, None);
        copies(rt.alloc(), Lines::new(rt.alloc(), source), written)?;
    }
    Ok(())
}

#[test]
fn a_source_that_fails_gives_the_whole_lines_before(rt: HostRuntime) -> Result<(), Fail> {
    let text = b"1,usr,0,Read,0,512,1\n1,usr";
    let cuts = vec![in rt.alloc(); 22; 1]?;
    let mut lines = Lines::new(
        rt.alloc(),
        MemSource::new(text.to_vec(rt.alloc())?, cuts, Some(1)),
    );
    assert!(rt; lines.next()?.is_some());
    assert!(rt; lines.is_live());
    assert!(rt; matches!(lines.next(), Err(TraceFault::Source)));
    assert!(rt; !lines.is_live());
    Ok(())
}

#[test]
fn pieces_are_cut_at_the_end_and_at_the_most(rt: HostRuntime) -> Result<(), Fail> {
    let cases: [(u64, u64, u64, u32, &[(u64, u32)]); 6] = [
        (700, 1000, 1000, 128, &[(1, 3)]),
        (4608, 1536, 10, 128, &[(9, 1), (0, 2)]),
        (0, 66048, 1000, 128, &[(0, 128), (128, 1)]),
        (0, 10240, 1000, 14, &[(0, 14), (14, 6)]),
        (700, 0, 1000, 128, &[]),
        (u64::MAX, 1, 4, 1, &[(3, 1)]),
    ];
    for (offset, size, home, most, want) in cases {
        let line = line_at(rt.alloc(), offset, size)?;
        assert!(rt; home > 0 && most > 0);
        let mut pieces = line.pieces(home, most);
        for (lbn, count) in want {
            same(
                &pieces.next(),
                &Some(Piece {
                    lbn: *lbn,
                    count: *count,
                }),
            )?;
        }
        same(&pieces.next(), &None)?;
    }
    let largest = line_at(rt.alloc(), 0, 67_108_864)?;
    let mut pieces = largest.pieces(200_000, 128);
    for i in 0..1024 {
        same(
            &pieces.next(),
            &Some(Piece {
                lbn: 128 * i,
                count: 128,
            }),
        )?;
    }
    same(&pieces.next(), &None)?;
    Ok(())
}

fn line_at(alloc: Global, offset: u64, size: u64) -> Result<Line, Fail> {
    let host = HostName::new(alloc, b"usr").map_err(|_| "memory")?;
    Ok(Line {
        time: 1,
        host,
        disk: 0,
        kind: Kind::Read,
        offset,
        size,
        response: 1,
    })
}

#[test]
fn payloads_hold_the_line_and_the_block() -> Result<(), Fail> {
    let mut blocks = [[1u8; 512]; 3];
    fill(2, 5, &mut blocks);
    same(
        &&blocks[0][..16],
        &[2, 0, 0, 0, 0, 0, 0, 0, 5, 0, 0, 0, 0, 0, 0, 0].as_slice(),
    )?;
    same(
        &&blocks[2][496..],
        &[2, 0, 0, 0, 0, 0, 0, 0, 7, 0, 0, 0, 0, 0, 0, 0].as_slice(),
    )?;
    same(&mark(&blocks), &6)?;
    Ok(())
}
