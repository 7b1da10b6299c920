// What may go is given up once chunks were written again.
ghost use Rattle.log_cleaner.specs.Chunks.{NoneHomed};
ghost use Rattle.log_cleaner.specs.Cleans.{CanClean};
ghost use Rattle.log_cleaner.specs.Marks.{AreMarked};
ghost use Rattle.log_cleaner.specs.Steps.{GivesSome, GivesAll, HasNoneLiveIn, Settles, step_fault};
ghost use Rattle.manager.specs.Reclaim.{NoneLiveIn};
ghost use Rattle.manager.specs.Stands.{IsReady, IsHome};
ghost use Rattle.redirect_map.specs.Index.{entry_at, HasVersion};
ghost use Rattle.std.specs.List.{AllByRecursion};
ghost use Rattle.std.specs.Option.{ForSome};
ghost use Rattle.std.specs.Prelude.{◌≡◌, ◌<◌, ◌≤◌, true, false, slice_index_or, IfSome, IfNone};
ghost use Rattle.wol_model.specs.Index.{listed_in, has_due};

use crate::CleanFault;
use crate::marks::{MARKS, is_marked, marks_of};
use logger::Shared;
use manager::{Manager, StepFault};
use reclaimer::{Gone, invalidate_one};
use redirect_map::Index;
use std::sync::Wait;
use wol_disk::Disk;

/// The most loggers of a view.
const LANES: usize = 16;

/// Versions lie below this.
const END: u64 = 1 << 63;

// Whether the record of this version lies in this segment and has a live block.
fn is_live_in(index: &Index, version: u64, lane: u32, segment: u32) -> bool
    ensures { result ≡ false → IfSome (entry_at index.now.entries version)
        (HasNoneLiveIn lane segment index.now.entries) }
{
    let Some(record) = index.find(version) else {
        return false;
    };
    if record.lane != lane {
        return false;
    }
    if record.segment != segment {
        return false;
    }
    index.live(version) != 0
}

// Whether no record in this segment has a live block. No block is home too, so live blocks are due, and their records are
// among those that are marked.
fn is_covered(index: &Index, ups: &[bool], lane: u32, segment: u32) -> bool
    requires unhomed { NoneHomed (listed_in index.now.entries) }
    requires awake { slice_index_or ups.now lane false ≡ true }
    ensures { result ≡ true → NoneLiveIn lane segment index.now.entries }
{
    let mut from = 0;
    'records: while index.len() > 0 {
        let Some(version) = index.first_due(from, ups) else {
            return true;
        };
        if version >= END {
            return false;
        }
        if is_live_in(index, version, lane, segment) {
            return false;
        }
        from = version + 1;
    }
    true
}

// Notes that this segment of the lane was looked at, and tells whether it was the last one that was.
fn was_looked_at(looked: &mut [Option<u32>; LANES], lane: u32, segment: u32) -> bool {
    let Some(last) = looked.get_mut(lane as usize) else {
        return false;
    };
    let was = *last == Some(segment);
    *last = Some(segment);
    was
}

// Whether there is a record of this version, whose segment wasn't the last of its lane that was looked at, and no record in
// that segment has a live block. Where the segment isn't marked that is known, and needs no look at records.
fn goes_whole(
    index: &Index,
    ups: &[bool],
    marks: &[bool; MARKS],
    version: u64,
    looked: &mut [Option<u32>; LANES],
) -> bool
    requires unhomed { NoneHomed (listed_in index.now.entries) }
    requires awake { AllByRecursion (λ e. slice_index_or ups.now e.listed.lane false ≡ true)
        index.now.entries }
    requires marked { AreMarked marks.now index.now.entries }
    ensures there { result ≡ true → HasVersion index.now.entries version }
    ensures covered { result ≡ true → ForSome (entry_at index.now.entries version)
        (λ e. NoneLiveIn e.listed.lane e.index index.now.entries) }
{
    let Some(record) = index.find(version) else {
        return false;
    };
    if was_looked_at(looked, record.lane, record.segment) {
        return false;
    }
    if !is_marked(marks, record.lane, record.segment) {
        return true;
    }
    is_covered(index, ups, record.lane, record.segment)
}

// Gives up each segment in which no record has a live block, with all its records. Each of these has blocks that go, so it is
// among those that are marked.
fn give_up_segments<R: Wait, D: Disk>(
    rt: &R,
    m: &mut Manager<D>,
    shared: &Shared<D>,
) -> Result<(), StepFault>
    requires ready { IsReady D.state m.old }
    requires at { IsHome shared.now m.old }
    requires can { CanClean m.old }
    ensures ready { IsReady D.state m.new }
    ensures at { IsHome shared.now m.new }
    ensures given { GivesSome D.tells D.state m.old m.new result }
{
    let marks = marks_of(m.index(), m.ups());
    let mut looked = [None; LANES];
    let mut from = 0;
    for _step in 0..m.index().len() {
        let Some(version) = m.index().first_going(from, m.ups()) else {
            return Ok(());
        };
        if goes_whole(m.index(), m.ups(), &marks, version, &mut looked) {
            m.drop_segment(rt, shared, version)?;
        }
        from = version.saturating_add(1);
    }
    Ok(())
}

// Gives up what may go, record by record, until nothing more may go.
fn give_up_each<R: Wait, D: Disk>(
    rt: &R,
    m: &mut Manager<D>,
    shared: &Shared<D>,
) -> Result<(), StepFault>
    requires ready { IsReady D.state m.old }
    requires at { IsHome shared.now m.old }
    requires can { CanClean m.old }
    ensures ready { IsReady D.state m.new }
    ensures at { IsHome shared.now m.new }
    ensures given { GivesAll D.tells D.state m.old m.new result }
{
    'steps: loop {
        if let Gone::Nothing = invalidate_one(rt, m, shared)? {
            return Ok(());
        }
    }
}

// What cleaning tells of a step that failed. A step is refused as `Down` only where the manager is down, and none is begun then:
// so the part is that of the call that failed.
fn step_fault(fault: StepFault) -> CleanFault
    ensures { result ≡ step_fault fault }
{
    match fault {
        StepFault::DiskFault(part) => CleanFault::DiskFault(part),
        StepFault::Down(part) => CleanFault::DiskFault(part),
    }
}

/// Gives up segments in which no record has a live block, with all their records, each by one write of its head; and then
/// all else that may go, record by record, where all is asked for.
pub(crate) fn settle<R: Wait, D: Disk>(
    rt: &R,
    m: &mut Manager<D>,
    shared: &Shared<D>,
    all: bool,
) -> Result<(), CleanFault>
    requires ready { IsReady D.state m.old }
    requires at { IsHome shared.now m.old }
    requires can { CanClean m.old }
    ensures ready { IsReady D.state m.new }
    ensures at { IsHome shared.now m.new }
    ensures settled { Settles D.tells D.state all m.old m.new result }
{
    match give_up_segments(rt, m, shared) {
        Ok(()) => {}
        Err(fault) => return Err(step_fault(fault)),
    }
    if !all {
        return Ok(());
    }
    match give_up_each(rt, m, shared) {
        Ok(()) => Ok(()),
        Err(fault) => Err(step_fault(fault)),
    }
}
