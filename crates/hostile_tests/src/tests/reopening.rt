// Disks that stop once more while what a stop left is looked at.
use super::rows::Row;
use super::stops::{Case, checked, stopped};
use fixtures::{asked, holds_at, same_at};
use std::alloc::Global;
use std::sync::Wait;
use std::test::Fail;
use std::thread::Threads;
use wol_disk::Block;

// Wherever a `check` of these images is stopped, a further one prints what an unstopped one prints.
fn try_images<R: Threads + Wait + Sync>(
    rt: &R,
    alloc: Global,
    case: Case<'_, '_, '_>,
) -> Result<(), Fail> {
    let row = case.row;
    let check = Row {
        call: asked("check"),
        ..*row
    };
    let again = Case::new(&check, case.images, case.left);
    let text = checked(rt, alloc, row, case.images)?;
    let whole = stopped(rt, alloc, again, u64::MAX)?;
    for calls in 0..whole.passed {
        let stop = stopped(rt, alloc, again, calls)?;
        let at = format!(in alloc;
            "{} {calls} {:?}: {}",
            row.call.words, case.left, stop.status
        )?;
        holds_at(matches!(stop.status, 4 | 5 | 6), &at)?;
        let further = checked(rt, alloc, row, &stop.images)?;
        same_at(&further.as_str(), &text.as_str(), &at)?;
    }
    Ok(())
}

/// So with the images that each stop of a call leaves.
pub fn try_choice<R: Threads + Wait + Sync>(
    rt: &R,
    alloc: Global,
    case: Case<'_, '_, '_>,
) -> Result<(), Fail> {
    let whole = stopped(rt, alloc, case, u64::MAX)?;
    let mut last: Vec<Vec<Block>> = Vec::new(alloc);
    for calls in 0..=whole.passed {
        let stop = stopped(rt, alloc, case, calls)?;
        if stop.images != last {
            try_images(rt, alloc, Case::new(case.row, &stop.images, case.left))?;
        }
        last = stop.images;
    }
    Ok(())
}
