// Disks that stop at one of their calls, and what is there afterwards.
use super::calls::{Failing, make_call, plan};
use super::reopening;
use super::rows::{CLEANED, DRAINED, FORMATTED, KEEPING, RECLAIMED, Row, SMALL_DRAINED, keeping};
use fixtures::{CHOICES, Left, asked, bay_of, crash, holds_at, images_of, same_at};
use std::alloc::Global;
use std::sync::{Arc, Wait};
use std::test::Fail;
use std::thread::Threads;
use wol_bay::MemBay;
use wol_disk::{Block, Fuse};

/// A row over images, and what a crash leaves of them.
#[derive(Clone, Copy)]
pub struct Case<'r, 'w, 'i> {
    pub row: &'r Row<'w>,
    pub images: &'i [Vec<Block>],
    pub left: Left,
}

impl<'r, 'w, 'i> Case<'r, 'w, 'i> {
    pub fn new(row: &'r Row<'w>, images: &'i [Vec<Block>], left: Left) -> Self {
        Case { row, images, left }
    }
}

/// What is left of a call around which something fails.
#[derive(Drop)]
pub struct Remains {
    pub status: u8,
    /// How many calls of disks passed.
    pub passed: u64,
    pub text: Vec<u8>,
    pub images: Vec<Vec<Block>>,
}

/// The images that a table begins with.
pub fn prepared<R: Threads + Wait + Sync>(
    rt: &R,
    alloc: Global,
    row: &Row<'_>,
) -> Result<Vec<Vec<Block>>, Fail> {
    let mut bay = MemBay::new(alloc);
    for earlier in row.before {
        let (status, _text) = make_call(
            rt,
            alloc,
            &mut bay,
            row.config,
            *earlier,
            Failing::Nothing,
        )?;
        same_at(&status, &0, &earlier.words)?;
    }
    images_of(alloc, &mut bay, row.volumes)
}

/// The row's call, around which something fails, and then a crash of the disks. `Left::AllNew` leaves what the call did.
pub fn left_by<R: Threads + Wait + Sync>(
    rt: &R,
    alloc: Global,
    case: Case<'_, '_, '_>,
    failing: Failing<'_>,
) -> Result<Remains, Fail> {
    let Case { row, images, left } = case;
    let calls = match failing {
        Failing::Disks(calls) => calls,
        _ => u64::MAX,
    };
    let fuse = Arc::new(alloc, Fuse::new(calls))?;
    let mut bay = bay_of(alloc, row.volumes, images)?;
    plan(&mut bay, failing)?;
    bay.set_fuse(Some(Arc::try_clone(&fuse)?));
    let (status, text) = make_call(rt, alloc, &mut bay, row.config, row.call, failing)?;
    crash(alloc, &mut bay, row.volumes, left)?;
    bay.set_fuse(None);
    let images = images_of(alloc, &mut bay, row.volumes)?;
    Ok(Remains {
        status,
        passed: fuse.passed(),
        text,
        images,
    })
}

/// The row's call over disks that stop after so many calls, and then crash.
pub fn stopped<R: Threads + Wait + Sync>(
    rt: &R,
    alloc: Global,
    case: Case<'_, '_, '_>,
    calls: u64,
) -> Result<Remains, Fail> {
    left_by(rt, alloc, case, Failing::Disks(calls))
}

/// What `check` prints of images.
pub fn checked<R: Threads + Wait + Sync>(
    rt: &R,
    alloc: Global,
    row: &Row<'_>,
    images: &[Vec<Block>],
) -> Result<String, Fail> {
    let mut bay = bay_of(alloc, row.volumes, images)?;
    let call = asked("check");
    let (status, text) = make_call(rt, alloc, &mut bay, row.config, call, Failing::Nothing)?;
    let text = String::from_utf8_lossy(alloc, &text)?;
    let in_order = text.lines().filter(|line| line.contains(" ok ")).count();
    same_at(&(status == 0), &(in_order == row.volumes.len()), &text)?;
    Ok(text)
}

/// Which of the lines that it may have `check` has of each volume.
pub fn found<R: Threads + Wait + Sync>(
    rt: &R,
    alloc: Global,
    row: &Row<'_>,
    images: &[Vec<Block>],
) -> Result<Vec<usize>, Fail> {
    let text = checked(rt, alloc, row, images)?;
    let mut places = Vec::new(alloc);
    for (fronts, line) in row.lines.iter().zip(text.lines()) {
        match fronts.iter().rposition(|front| line.starts_with(*front)) {
            Some(place) => places.push(place)?,
            None => return Err(Fail::new(format_args!("{}: {line}", row.call.words))),
        }
    }
    same_at(&places.len(), &row.lines.len(), &text)?;
    Ok(places)
}

// Whether each volume has the last of its lines.
fn are_last(row: &Row<'_>, places: &[usize]) -> bool {
    row.lines.iter().zip(places).all(|(fronts, place)| fronts.len().checked_sub(1) == Some(*place))
}

// A text without its last line.
pub fn without_last_line(text: &[u8]) -> &[u8] {
    let Some((_, front)) = text.split_last() else {
        return text;
    };
    match front.iter().rposition(|byte| *byte == b'\n') {
        Some(end) => &text[..end + 1],
        None => &[],
    }
}

// The call can be made once more on what is left.
fn try_again<R: Threads + Wait + Sync>(
    rt: &R,
    alloc: Global,
    row: &Row<'_>,
    images: &[Vec<Block>],
) -> Result<(), Fail> {
    if row.again.is_empty() {
        return Ok(());
    }
    let case = Case::new(row, images, Left::AllOld);
    let again = stopped(rt, alloc, case, u64::MAX)?;
    let at = format!(in alloc; "{} {}", row.call.words, again.status)?;
    holds_at(row.again.contains(&again.status), &at)?;
    let places = found(rt, alloc, row, &again.images)?;
    holds_at(are_last(row, &places), &row.call.words)?;
    Ok(())
}

// Whether a command has a line for each volume, also for one that is at fault.
fn tells_each(words: &str) -> bool {
    words == "check" || words == "dump"
}

/// Stops at each call of a disk.
pub fn try_choice<R: Threads + Wait + Sync>(
    rt: &R,
    alloc: Global,
    case: Case<'_, '_, '_>,
) -> Result<(), Fail> {
    let Case { row, images, left } = case;
    let words = row.call.words;
    let whole = stopped(rt, alloc, case, u64::MAX)?;
    let mut before = found(rt, alloc, row, images)?;
    for calls in 0..whole.passed {
        let stop = stopped(rt, alloc, case, calls)?;
        let at = format!(in alloc; "{words} {calls} {left:?}: {}", stop.status)?;
        holds_at(matches!(stop.status, 4 | 6), &at)?;
        same_at(&stop.passed, &calls, &at)?;
        let is_front = whole.text.starts_with(without_last_line(&stop.text));
        holds_at(tells_each(words) || is_front, &at)?;
        let places = found(rt, alloc, row, &stop.images)?;
        let goes_on = before.iter().zip(&places).all(|(then, now)| *then <= *now);
        holds_at(goes_on, &at)?;
        try_again(rt, alloc, row, &stop.images)?;
        before = places;
    }
    same_at(&whole.status, &0, &words)?;
    let places = found(rt, alloc, row, &whole.images)?;
    holds_at(are_last(row, &places), &format_args!("{words} {left:?}"))?;
    Ok(())
}

/// What is looked at wherever a call stops.
#[derive(Clone, Copy)]
pub enum Look {
    /// What is there, and the call once more.
    Volumes,
    /// A `check` that stops once more.
    StoppedChecks,
}

/// Each choice of what the stops of a row's call leave.
pub fn try_row<R: Threads + Wait + Sync>(
    rt: &R,
    alloc: Global,
    row: &Row<'_>,
    look: Look,
) -> Result<(), Fail> {
    let images = prepared(rt, alloc, row)?;
    for left in CHOICES {
        let case = Case::new(row, &images, left);
        match look {
            Look::Volumes => try_choice(rt, alloc, case)?,
            Look::StoppedChecks => reopening::try_choice(rt, alloc, case)?,
        }
    }
    Ok(())
}

// So with the commands that change no volume's content.
fn try_keeping<R: Threads + Wait + Sync>(rt: &R, alloc: Global, look: Look) -> Result<(), Fail> {
    for (words, again) in KEEPING {
        try_row(rt, alloc, &keeping(words, again), look)?;
    }
    Ok(())
}

#[test]
fn a_drain_that_stops_keeps_what_was_written(rt: HostRuntime) -> Result<(), Fail> {
    try_row(&rt, rt.alloc(), &DRAINED, Look::Volumes)?;
    try_row(&rt, rt.alloc(), &SMALL_DRAINED, Look::Volumes)
}

#[test]
fn a_reclaim_that_stops_keeps_what_was_written(rt: HostRuntime) -> Result<(), Fail> {
    try_row(&rt, rt.alloc(), &RECLAIMED, Look::Volumes)
}

#[test]
fn a_format_that_stops_leaves_each_image_old_unlabelled_or_whole(
    rt: HostRuntime,
) -> Result<(), Fail> {
    try_row(&rt, rt.alloc(), &FORMATTED, Look::Volumes)
}

#[test]
fn a_cleaning_that_stops_keeps_each_volume(rt: HostRuntime) -> Result<(), Fail> {
    try_row(&rt, rt.alloc(), &CLEANED, Look::Volumes)
}

#[test]
fn other_commands_that_stop_keep_each_volume(rt: HostRuntime) -> Result<(), Fail> {
    try_keeping(&rt, rt.alloc(), Look::Volumes)
}

#[test]
fn a_check_that_stops_changes_nothing_after_a_drain(rt: HostRuntime) -> Result<(), Fail> {
    try_row(&rt, rt.alloc(), &SMALL_DRAINED, Look::StoppedChecks)
}

#[test]
fn a_check_that_stops_changes_nothing_after_a_reclaim(rt: HostRuntime) -> Result<(), Fail> {
    try_row(&rt, rt.alloc(), &RECLAIMED, Look::StoppedChecks)
}

#[test]
fn a_check_that_stops_changes_nothing_after_a_format(rt: HostRuntime) -> Result<(), Fail> {
    try_row(&rt, rt.alloc(), &FORMATTED, Look::StoppedChecks)
}

#[test]
fn a_check_that_stops_changes_nothing_after_a_cleaning(rt: HostRuntime) -> Result<(), Fail> {
    try_row(&rt, rt.alloc(), &CLEANED, Look::StoppedChecks)
}

#[test]
fn a_check_that_stops_changes_nothing_after_other_commands(rt: HostRuntime) -> Result<(), Fail> {
    try_keeping(&rt, rt.alloc(), Look::StoppedChecks)
}
