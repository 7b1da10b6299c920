// What may go of a record is given up, or a segment with all its records.
ghost use Rattle.manager.specs.Causes.{NoneRose};
ghost use Rattle.manager.specs.Reclaim.{OnTried, OnKept, OnFailed, TellsStep, KeepsOn, BreaksOff, StopsSince, Always};
ghost use Rattle.manager.specs.Seen.{look_of_manager};
ghost use Rattle.manager.specs.Stands.{IsReady, IsHome, nones_at};
ghost use Rattle.manager.specs.declared.base.LaneBase.{LaneBase};
ghost use Rattle.reclaimer.specs.Counts.{CountsGone, LowersGone};
ghost use Rattle.reclaimer.specs.Fetches.{going_entry};
ghost use Rattle.reclaimer.specs.Steps.{HasGivenUp, LooksGone, StopsWithin};
ghost use Rattle.reclaimer.specs.Wholes.{CountsFirst, CountsGroup, GivesFirst, HasGivenGroup, LowersGroup, first_to_go};
ghost use Rattle.redirect_map.specs.Index.{IsAnswer, IsIndex};
ghost use Rattle.std.specs.Option.{ForSome};
ghost use Rattle.std.specs.Prelude.{◌≡◌, ◌↔◌, ◌<◌, ◌≤◌, ℕ, List, false, None, Some, Ok, IsTrue, OnOk};
ghost use Rattle.wol_model.specs.Index.{listed_in, left};
ghost use Rattle.wol_promise.specs.Policy.{AreReclaims, drained};

use crate::Gone;
use crate::next::going;
use crate::whole::goes_whole;
use logger::Shared;
use manager::{Manager, StepFault};
use redirect_map::Rec;
use std::sync::Wait;
use wol_disk::Disk;

/// Gives up what may go of the record of least version of which something may go and whose logger is awake for the manager. A
/// segment in which no record is left goes to its pool. `Nothing` comes exactly where there is no such record. `DiskFault`
/// comes only where the count of faults of the record's segment rose in this call, and brings the manager down; `Down` exactly
/// where it is down, which is tried first.
pub fn invalidate_one<R: Wait, D: Disk>(
    rt: &R,
    m: &mut Manager<D>,
    shared: &Shared<D>,
) -> Result<Gone, StepFault>
    requires ready { IsReady D.state m.old }
    requires at { IsHome shared.now m.old }
    ensures ready { IsReady D.state m.new }
    ensures at { IsHome shared.now m.new }
    ensures fault { TellsStep D.state result m.old m.new }
    ensures calm { OnOk result (NoneRose D.state m.old m.new) }
    ensures nothing { (result ≡ Ok Gone.Nothing)
        ↔ ((m.old.down ≡ None) × (going_entry m.old ≡ None)) }
    ensures gone { HasGivenUp result m.old m.new }
    ensures look { LooksGone result m.old m.new }

    // One record fewer is listed where it is gone. No block ceases to be due.
    ensures counted { CountsGone result (look_of_manager m.old) (look_of_manager m.new) }
    ensures lowers { LowersGone result m.old m.new }
    ensures keeps { OnKept result (KeepsOn D.tells D.state m.old m.new Always) }
    ensures broke { OnFailed result (BreaksOff D.tells D.state m.old m.new Always) }
    ensures any_moment { IsTrue D.tells → StopsWithin D.tells D.state m.old m.new Always }
{
    if let Some(part) = m.down() {
        return Err(StepFault::Down(part));
    }
    let Some(record) = going(m.index(), m.ups()) else {
        return Ok(Gone::Nothing);
    };
    match m.drop_rec(rt, shared, record.version) {
        Ok(true) => Ok(Gone::Version(record.version)),
        Ok(false) => Ok(Gone::Trimmed(record.version)),
        Err(fault) => Err(fault),
    }
}

/// Gives up what may go of this record, the first within reach of which something may go; or its whole segment, where its
/// records come first within reach and all that they keep may go. Answers how many records are gone.
pub(crate) fn give_first<R: Wait, D: Disk>(
    rt: &R,
    m: &mut Manager<D>,
    shared: &Shared<D>,
    any: bool,
    record: &Rec,
) -> Result<u32, StepFault>
    requires ready { IsReady D.state m.old }
    requires at { IsHome shared.now m.old }
    requires up { m.old.down ≡ None }
    requires index { IsIndex m.old.index.entries }
    requires first { IsAnswer (first_to_go any m.old) (Some record.now) }
    ensures ready { IsReady D.state m.new }
    ensures at { IsHome shared.now m.new }
    ensures fault { TellsStep D.state result m.old m.new }
    ensures calm { OnOk result (NoneRose D.state m.old m.new) }
    ensures given { OnTried result
        (ForSome (first_to_go any m.old) (λ e. GivesFirst e m.old m.new result)) }
    ensures look { any ≡ false
        → OnOk result (AreReclaims (look_of_manager m.old) (look_of_manager m.new)) }
    ensures awake { OnTried result (m.new.home_up ≡ m.old.home_up) }
    ensures drains { OnKept result (drained (look_of_manager m.new) ≡ drained (look_of_manager m.old)) }
    ensures counted { CountsFirst result (look_of_manager m.old) (look_of_manager m.new) }
    ensures lowers { OnOk result
        (left (listed_in m.new.index.entries) < left (listed_in m.old.index.entries)) }
    ensures passed { (lanes : List LaneBase) (k : ℕ)
        → nones_at m.old.lanes.items lanes k ≤ nones_at m.new.lanes.items lanes k }
    ensures keeps { OnKept result (KeepsOn D.tells D.state m.old m.new Always) }
    ensures broke { OnFailed result (BreaksOff D.tells D.state m.old m.new Always) }
    ensures any_moment { OnTried result
        (IsTrue D.tells → StopsSince D.tells D.state m.old m.new Always) }
{
    if goes_whole(m, any, record) {
        return m.drop_segment(rt, shared, record.version);
    }
    match m.drop_rec(rt, shared, record.version) {
        Ok(gone) => Ok(u32::from(gone)),
        Err(fault) => Err(fault),
    }
}

/// Gives up what may go of the record of least version of which something may go and whose logger is awake for the manager; or
/// its whole segment by one write of its head, where its records come first among those within reach and all that they keep may
/// go. A segment in which no record is left goes to its pool. Answers how many records are gone, and `None` exactly where
/// nothing within reach may go. `DiskFault` comes only where the count of faults of the record's segment rose in this call, and
/// brings the manager down; `Down` exactly where it is down, which is tried first.
pub fn give_up_group<R: Wait, D: Disk>(
    rt: &R,
    m: &mut Manager<D>,
    shared: &Shared<D>,
) -> Result<Option<u32>, StepFault>
    requires ready { IsReady D.state m.old }
    requires at { IsHome shared.now m.old }
    ensures ready { IsReady D.state m.new }
    ensures at { IsHome shared.now m.new }
    ensures fault { TellsStep D.state result m.old m.new }
    ensures calm { OnOk result (NoneRose D.state m.old m.new) }
    ensures nothing { (result ≡ Ok None)
        ↔ ((m.old.down ≡ None) × (going_entry m.old ≡ None)) }
    ensures given { HasGivenGroup result m.old m.new }
    ensures look { OnOk result (AreReclaims (look_of_manager m.old) (look_of_manager m.new)) }

    // So many records fewer are listed. No block ceases to be due.
    ensures counted { CountsGroup result (look_of_manager m.old) (look_of_manager m.new) }
    ensures lowers { LowersGroup result m.old m.new }
    ensures keeps { OnKept result (KeepsOn D.tells D.state m.old m.new Always) }
    ensures broke { OnFailed result (BreaksOff D.tells D.state m.old m.new Always) }
    ensures any_moment { IsTrue D.tells → StopsWithin D.tells D.state m.old m.new Always }
{
    if let Some(part) = m.down() {
        return Err(StepFault::Down(part));
    }
    let Some(record) = going(m.index(), m.ups()) else {
        return Ok(None);
    };
    match give_first(rt, m, shared, false, &record) {
        Ok(records) => Ok(Some(records)),
        Err(fault) => Err(fault),
    }
}
