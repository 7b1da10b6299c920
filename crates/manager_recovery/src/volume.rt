// A volume is opened.
ghost use Rattle.log_scan.specs.declared.Scan.{Scan};
ghost use Rattle.manager_recovery.specs.Left.{IsHandedBack};
ghost use Rattle.manager_recovery.specs.Opened.{Opens, NoneRoseAtOpening};
ghost use Rattle.manager_recovery.specs.Opening.{CanOpen};
ghost use Rattle.manager_recovery.specs.Recovery.{IsIndexOf, IsRecovered, IsIndexRefusal};
ghost use Rattle.manager_recovery.specs.Refused.{IsNamesAnswer, Refuses, HandsBackAll};
ghost use Rattle.manager_recovery.specs.Scanned.{IsScanned, all_found, has_some};
ghost use Rattle.manager_recovery.specs.declared.opening.Opening.{Opening};
ghost use Rattle.spin_model.specs.Spun.{state_of};
ghost use Rattle.std.specs.List.{AllByRecursion, AllZip};
ghost use Rattle.std.specs.Prelude.{◌≡◌, ◌<◌, ◌+◌, ◌^◌, None, IfOk, IfErr, IsTrue};

use crate::filling::{fill_index, next_version};
use crate::holding::hold_all;
use crate::listing::{first_twins, list_all, sort_by_version};
use crate::names::names_refusal;
use crate::retiring::{retire_bare, sync_part};
use crate::scanning::scan_all;
use crate::{OpenRefusal, Opening};
use log_scan::Scan;
use logger::Shared;
use manager::{Manager, Part};
use redirect_map::Index;
use std::alloc::Global;
use std::sync::Wait;
use wol_disk::{Disk, NoMemory};

/// What a volume's segments were found to have: the scans of those that are left, the index of the records that keep blocks,
/// and the next version.
pub struct Recovered {
    pub scans: Vec<Scan>,
    pub index: Index,
    pub next: u64,
}

// The index of the records of these segments, or the two records of one version.
fn index_of<D: Disk>(
    alloc: Global,
    opening: &Opening<D>,
    scans: &[Scan],
) -> Result<Index, OpenRefusal>
    requires named { IsNamesAnswer opening.now None }
    requires fits { AllByRecursion (λ o. o.first_block + (state_of D.state o.part).size < 2 ^ 64)
        opening.now.owned.items }
    requires scanned { AllZip (IsScanned D.state opening.now.want.id opening.now.want.home)
        opening.now.owned.items scans.now }
    ensures ok { IfOk result (λ index.
        IsIndexOf (all_found opening.now.view opening.now.owned.items scans.now) index.entries) }
    ensures err { IfErr result
        (IsIndexRefusal (all_found opening.now.view opening.now.owned.items scans.now)) }
{
    let Ok(mut listed) = list_all(alloc, &opening.view, &opening.owned, scans) else {
        return Err(OpenRefusal::NoMemory);
    };
    if sort_by_version(alloc, &mut listed).is_err() {
        return Err(OpenRefusal::NoMemory);
    }
    if let Some((one, other)) = first_twins(&listed) {
        return Err(OpenRefusal::Twins {
            first_volume: one.volume,
            first: one.block,
            second_volume: other.volume,
            second: other.block,
        });
    }
    match fill_index(alloc, &listed) {
        Ok(index) => Ok(index),
        Err(NoMemory) => Err(OpenRefusal::NoMemory),
    }
}

// Reads the volume back, and frees what holds nothing.
fn recover<R: Wait, D: Disk>(
    alloc: Global,
    rt: &R,
    shared: &Shared<D>,
    opening: &mut Opening<D>,
) -> Result<Recovered, OpenRefusal>
    requires ready { CanOpen D.state shared.now opening.old }
    ensures ok { IfOk result (IsRecovered D.tells D.state shared.now opening.old opening.new) }
    ensures parts { IsHandedBack D.tells D.state shared.now opening.old opening.new }
    ensures err { IfErr result (Refuses D.tells D.state opening.old opening.new) }
    ensures whole { IfErr result (HandsBackAll D.state opening.old opening.new) }
{
    if let Some(refusal) = names_refusal(opening) {
        return Err(refusal);
    }
    let mut scans = match scan_all(alloc, rt, shared, opening) {
        Ok(scans) => scans,
        Err(refusal) => return Err(refusal),
    };
    let next = next_version(&scans);
    let index = match index_of(alloc, opening, &scans) {
        Ok(index) => index,
        Err(refusal) => return Err(refusal),
    };
    let id = opening.want.id;
    let lock = &shared.spindles[id as usize];
    let synced = sync_part(rt, lock, &mut opening.spindle, &mut opening.home);
    let Ok(()) = synced else {
        return Err(OpenRefusal::DiskFault(Part::Home { volume: id }));
    };
    match retire_bare(rt, shared, opening, &mut scans) {
        Ok(()) => Ok(Recovered { scans, index, next }),
        Err(refusal) => Err(refusal),
    }
}

// The manager of a volume that was read back.
fn manager_of<D: Disk>(shared: &Shared<D>, opening: Opening<D>, recovered: Recovered) -> Manager<D>
    requires ready { (o : Opening D) × IsRecovered D.tells D.state shared.now o opening recovered
        × IsHandedBack D.tells D.state shared.now o opening }
    ensures opens { (o : Opening D) → IsRecovered D.tells D.state shared.now o opening recovered
        → IsHandedBack D.tells D.state shared.now o opening
        → Opens D.tells D.state shared.now o result }
    ensures calm { (o : Opening D) → CanOpen D.state shared.now o
        → IsRecovered D.tells D.state shared.now o opening recovered
        → NoneRoseAtOpening D.state o result }
{
    let mut opening = opening;
    // a view names at most sixteen loggers, none of them twice
    let _few = opening.view.len();
    let Recovered { scans, index, next } = recovered;
    hold_all(shared, &mut opening, &scans);
    let Opening {
        want,
        label: _,
        view: _,
        present: _,
        most,
        home,
        spindle,
        lanes,
        owned,
    } = opening;
    owned.destroy_empty();
    Manager::new(want.id, home, spindle, lanes, index, next, most)
}

/// Opens a volume: reads its segments back, syncs its home, frees the segments that hold nothing, and makes the manager that
/// stands for what the images recover to as they read. Each access to a disk is made in turns of its spindle's lock.
///
/// A refusal hands everything back. After a failed call of the last step some segments that held nothing are in their pools.
pub fn open_volume<R: Wait, D: Disk>(
    alloc: Global,
    rt: &R,
    shared: &Shared<D>,
    opening: Opening<D>,
) -> Result<Manager<D>, (OpenRefusal, Opening<D>)>
    requires ready { CanOpen D.state shared.now opening }
    ensures ok { IfOk result (Opens D.tells D.state shared.now opening) }
    ensures calm { IfOk result (NoneRoseAtOpening D.state opening) }
    ensures err { IfErr result (λ r. Refuses D.tells D.state opening r.1 r.0) }
    ensures handed_back { IfErr result (λ r. IsHandedBack D.tells D.state shared.now opening r.1) }
    ensures whole { IfErr result (λ r. HandsBackAll D.state opening r.1 r.0) }
{
    let mut opening = opening;
    match recover(alloc, rt, shared, &mut opening) {
        Ok(recovered) => Ok(manager_of(shared, opening, recovered)),
        Err(refusal) => Err((refusal, opening)),
    }
}
