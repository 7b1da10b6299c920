// Views are changed, and what is printed then.
use super::commands::{Command, add, ended, remove};
use super::volumes::{checked, formatted, off_loaded, parts};
use fixtures::{OFFLOADS, ONE_BLOCK_EACH, THREE};
use std::alloc::Global;
use std::process::Abort;
use std::sync::Wait;
use std::test::Fail;
use view_commands::Order;
use wol_config::read_config;

// One after another these are asked for, and have these statuses and lines.
fn try_rows<R: Abort + Wait>(
    rt: &R,
    alloc: Global,
    rows: &[(Order<'_>, u8, &[u8])],
) -> Result<(), Fail> {
    let config = read_config(alloc, ONE_BLOCK_EACH.as_bytes())?;
    let mut bay = formatted(rt, alloc, &config);
    for (order, status, line) in rows {
        let (found, text) = ended(rt, alloc, &config, &mut bay, &Command::Change(*order))?;
        let is_told = found == *status && text.as_slice() == *line;
        assert!(rt; is_told, "{order:?} {found} {text:?}");
    }
    Ok(())
}

#[test]
fn views_are_changed_and_printed(rt: HostRuntime) -> Result<(), Fail> {
    try_rows(
        &rt,
        rt.alloc(),
        &[
            (add("b", "a"), 0, b"view b loggers a\n"),
            (add("b", "a"), 15, b"fault 15 already a\n"),
            (add("b", "c"), 0, b"view b loggers a c\n"),
            (remove("b", "a"), 0, b"view b loggers c\n"),
            (remove("b", "a"), 15, b"fault 15 not there a\n"),
            (add("b", "a"), 0, b"view b loggers c a\n"),
            (add("b", "b"), 15, b"fault 15 itself\n"),
            (add("d", "e"), 15, b"fault 15 unknown d\n"),
            (add("a", "e"), 15, b"fault 15 unknown e\n"),
            (remove("a", "b"), 0, b"view a loggers\n"),
        ],
    )
}

// The volume that gives up its logger has the digest from before, and nothing on a log.
#[test]
fn a_logger_is_taken_out_once_nothing_lies_on_it(rt: HostRuntime) -> Result<(), Fail> {
    let alloc = rt.alloc();
    let (config, mut bay) = off_loaded(&rt, alloc, THREE, OFFLOADS)?;
    let before = checked(&rt, alloc, &config, &mut bay)?;
    let change = Command::Change(remove("usr0", "web0"));
    let (status, text) = ended(&rt, alloc, &config, &mut bay, &change)?;
    assert!(rt; status == 0 && text.as_slice() == b"view usr0 loggers\n".as_slice());
    let after = checked(&rt, alloc, &config, &mut bay)?;
    let kept = parts(&rt, &before, 79, b" records 2 segments 1\n");
    assert!(rt;
        kept == parts(&rt, &after, 79, b" records 0 segments 0\n"),
        "{after:?}"
    );
    Ok(())
}
