// The next record with due blocks is read.
ghost use Rattle.manager.specs.Causes.{NoneRose};
ghost use Rattle.manager.specs.Reclaim.{OnKept, OnFailed, TellsStep, KeepsOn, BreaksOff, Always};
ghost use Rattle.manager.specs.Seen.{look_of_manager};
ghost use Rattle.manager.specs.Stands.{Keeps, IsReady, IsHome};
ghost use Rattle.manager.specs.declared.base.ManagerBase.{ManagerBase};
ghost use Rattle.reclaimer.specs.Fetches.{FindsDue, HasData, due_entry};
ghost use Rattle.reclaimer.specs.Steps.{HasFetchedNext, StopsWithin};
ghost use Rattle.std.specs.Prelude.{◌≡◌, ◌↔◌, List, None, Ok, IsTrue, OnOk};
ghost use Rattle.wol_promise.specs.Ruled.{Noted};

use crate::next::due_next;
use crate::room::read_record;
use crate::{Fetch, Fetched};
use logger::Shared;
use manager::{Manager, StepFault};
use std::sync::Wait;
use wol_disk::Disk;

/// Reads the record of least version that has a due block and whose logger is awake for the manager, while home is: its due
/// blocks can then be put home. `Nothing` comes exactly where there is no such record, or home is asleep. `DiskFault` comes
/// only where the count of faults of the record's segment rose in this call, and brings the manager down; `Down` exactly where
/// it is down, which is tried first. After `Nothing` and after a refusal the fetch is empty.
pub fn fetch<R: Wait, D: Disk>(
    rt: &R,
    m: &mut Manager<D>,
    shared: &Shared<D>,
    into: &mut Fetch,
) -> Result<Fetched, StepFault>
    requires ready { IsReady D.state m.old }
    requires at { IsHome shared.now m.old }
    ensures ready { IsReady D.state m.new }
    ensures at { IsHome shared.now m.new }
    ensures fault { TellsStep D.state result m.old m.new }
    ensures calm { OnOk result (NoneRose D.state m.old m.new) }
    ensures nothing { (result ≡ Ok Fetched.Nothing)
        ↔ ((m.old.down ≡ None) × (due_entry m.old ≡ None)) }
    ensures fetched { HasFetchedNext result m.old m.new into.new }

    // So `put_home` in the same turn answers more than 0.
    ensures due { FindsDue result m.new into.new }

    // What was fetched stays the data of its version, whatever is written later (`fetch_laws`).
    ensures content { (b : ManagerBase) (notes : List Noted) → Keeps D.tells D.state m.old b notes
        → HasData D.tells into.new b notes }
    ensures look { OnKept result (look_of_manager m.new ≡ look_of_manager m.old) }
    ensures keeps { OnKept result (KeepsOn D.tells D.state m.old m.new Always) }
    ensures broke { OnFailed result (BreaksOff D.tells D.state m.old m.new Always) }
    ensures any_moment { IsTrue D.tells → StopsWithin D.tells D.state m.old m.new Always }
{
    into.clear();
    if let Some(part) = m.down() {
        return Err(StepFault::Down(part));
    }
    if !m.home_up() {
        return Ok(Fetched::Nothing);
    }
    let Some(record) = due_next(m.index(), m.ups()) else {
        return Ok(Fetched::Nothing);
    };
    match read_record(rt, m, shared, record.version, &mut into.blocks) {
        Ok(filled) => {
            into.filled = Some(filled);
            Ok(Fetched::Some {
                version: filled.version,
                count: filled.count,
            })
        }
        Err(fault) => Err(fault),
    }
}
