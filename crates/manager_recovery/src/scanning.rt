// The owned segments are read back, each under the lock of its logger's spindle, and what is damaged is told.
ghost use Rattle.log_scan.specs.Scan.{IsScan};
ghost use Rattle.log_scan.specs.declared.Found.{Found};
ghost use Rattle.logger.specs.Lanes.{IsLane, IsAt, IsSameLane, logger_of};
ghost use Rattle.manager_recovery.specs.Left.{IsSameOwned};
ghost use Rattle.manager_recovery.specs.Opening.{CanOpen, SaysOwner};
ghost use Rattle.manager_recovery.specs.Owned.{IsIntact, owned_of};
ghost use Rattle.manager_recovery.specs.Refused.{IsNamesAnswer, Refuses};
ghost use Rattle.manager_recovery.specs.Scanned.{IsReadOf, IsScanned, IsSettledPart, SegmentRefuses, IsPastEnd, IsReadBack, AreReadBack, IsScannedAt};
ghost use Rattle.spin_model.specs.Spun.{state_of, volume_of};
ghost use Rattle.std.specs.List.{AllByRecursion};
ghost use Rattle.std.specs.Prelude.{◌≡◌, ◌≤◌, ◌<◌, ◌+◌, ◌^◌, ℕ, List, None, Some, MatchOption, IfOk, IfErr, OnOk, IsTrue, length, take, slice_get};
ghost use Rattle.wol_disk.specs.Disk.{LeavesOnly, IsImageOf};

use crate::names::place_of;
use crate::{OpenRefusal, Opening, OwnedPart};
use log_scan::calls::scan;
use log_scan::{Found, Scan, ScanFault};
use logger::{Lane, Shared};
use manager::Part;
use spin_model::{Spun, give_token, take_token};
use std::alloc::Global;
use std::sync::Wait;
use wol_disk::Disk;

// Reads a segment back, between a turn in which its logger's spindle is needed and one in which it is done.
fn scan_part<R: Wait, D: Disk>(
    alloc: Global,
    rt: &R,
    shared: &Shared<D>,
    lane: &mut Lane<D>,
    part: &mut Spun<D>,
) -> Result<Scan, ScanFault>
    requires lane { IsLane D.state lane.old }
    requires at { IsAt shared.now lane.old }
    requires volume { volume_of part.old ≡ logger_of lane.old }
    requires size { (4 ≤ (state_of D.state part.old).size)
        × ((state_of D.state part.old).size ≤ 65536) }
    ensures lane { IsLane D.state lane.new }
    ensures same { IsSameLane lane.old lane.new }
    ensures rest { lane.new ≡ record lane.old { spindle = lane.new.spindle } }
    ensures read { IsReadOf D.state part.old part.new result }
{
    let lock = &shared.spindles[lane.logger() as usize];
    let token = take_token(rt, lock, &mut lane.spindle);
    let scanned = scan(alloc, &token, part);
    give_token(rt, lock, &mut lane.spindle, token);
    scanned
}

// The position of the first record that passes the volume's end.
fn first_past(found: &[Found], home: u64) -> Option<u32>
    requires { AllByRecursion (λ (f : Found). f.head.lbn + f.head.count ≤ 2 ^ 32) found.now }
    ensures { MatchOption result
        (AllByRecursion (λ (f : Found). f.head.lbn + f.head.count ≤ home) found.now)
        (λ pos. (k : ℕ) × (f : Found) × (slice_get found.now k ≡ Some f) × (pos ≡ f.pos)
        × (home < f.head.lbn + f.head.count)
        × AllByRecursion (λ (g : Found). g.head.lbn + g.head.count ≤ home) (take k found.now)) }
{
    for one in found {
        if one.head.lbn + u64::from(one.head.count) > home {
            return Some(one.pos);
        }
    }
    None
}

// The place in a segment at which the scan shows that it isn't one of the volume `id`, whose records end in front of block `home`
// of it: its head, where it has another owner or none, or the head of the first record that passes the volume's end.
fn past_end(scan: &Scan, id: u32, home: u64) -> Option<u32>
    requires { (blocks : ℕ) × IsScan blocks scan.now }
    ensures { MatchOption result ((scan.now.owner ≡ Some id)
        × AllByRecursion (λ (f : Found). f.head.lbn + f.head.count ≤ home)
        scan.now.records.items)
        (IsPastEnd scan.now id home) }
{
    match scan.owner {
        Some(owner) => {
            if owner == id {
                first_past(&scan.records, home)
            } else {
                Some(0)
            }
        }
        None => Some(0),
    }
}

// Why a segment was not read back. The sum is exact where the block lies in the image.
fn refusal_of(logger: u32, index: u32, first_block: u64, fault: ScanFault) -> OpenRefusal
    ensures damaged { (block : ℕ) → fault ≡ ScanFault.Damaged block
        → (place : ℕ) × (result ≡ OpenRefusal.Damaged logger place)
        × (first_block + block < 2 ^ 64 → place ≡ first_block + block) }
    ensures failed { fault ≡ ScanFault.Failed
        → result ≡ OpenRefusal.DiskFault (Part.Segment logger index) }
    ensures no_memory { fault ≡ ScanFault.NoMemory → result ≡ OpenRefusal.NoMemory }
{
    match fault {
        ScanFault::Damaged { block } => OpenRefusal::Damaged {
            volume: logger,
            block: first_block.saturating_add(u64::from(block)),
        },
        ScanFault::Failed => OpenRefusal::DiskFault(Part::Segment {
            volume: logger,
            index,
        }),
        ScanFault::NoMemory => OpenRefusal::NoMemory,
    }
}

// Reads a segment of the volume `id` back, whose records end in front of block `home` of it.
fn scan_owned<R: Wait, D: Disk>(
    alloc: Global,
    rt: &R,
    shared: &Shared<D>,
    id: u32,
    home: u64,
    lane: &mut Lane<D>,
    owned: &mut OwnedPart<D>,
) -> Result<Scan, OpenRefusal>
    requires lane { IsLane D.state lane.old }
    requires at { IsAt shared.now lane.old }
    requires volume { volume_of owned.old.part ≡ logger_of lane.old }
    requires size { (4 ≤ (state_of D.state owned.old.part).size)
        × ((state_of D.state owned.old.part).size ≤ 65536) }
    requires last { owned.old.first_block + (state_of D.state owned.old.part).size < 2 ^ 64 }
    requires head { SaysOwner D.state id owned.old }
    ensures lane { IsLane D.state lane.new }
    ensures same { IsSameLane lane.old lane.new }
    ensures rest { lane.new ≡ record lane.old { spindle = lane.new.spindle } }
    ensures part { IsSameOwned D.state owned.old owned.new }
    ensures any_moment { LeavesOnly (state_of D.state owned.old.part)
        (state_of D.state owned.new.part) (IsImageOf (state_of D.state owned.old.part).values) }
    ensures scanned { IfOk result (IsScanned D.state id home owned.new) }
    ensures settled { OnOk result (IsSettledPart D.state owned.old owned.new) }
    ensures intact { IsTrue D.tells → OnOk result (IsIntact id home (owned_of D.state owned.old)) }
    ensures err { IfErr result (SegmentRefuses D.tells D.state id home owned.old owned.new) }
{
    let scan = match scan_part(alloc, rt, shared, lane, &mut owned.part) {
        Ok(scan) => scan,
        Err(fault) => {
            return Err(refusal_of(owned.logger, owned.index, owned.first_block, fault));
        }
    };
    match past_end(&scan, id, home) {
        None => Ok(scan),
        Some(pos) => Err(OpenRefusal::Damaged {
            volume: owned.logger,
            block: owned.first_block + u64::from(pos),
        }),
    }
}

// Reads the owned segment at place `k` back.
fn scan_at<R: Wait, D: Disk>(
    alloc: Global,
    rt: &R,
    shared: &Shared<D>,
    opening: &mut Opening<D>,
    k: usize,
) -> Result<Scan, OpenRefusal>
    requires ready { CanOpen D.state shared.now opening.old }
    requires named { IsNamesAnswer opening.old None }
    requires inside { k < length opening.old.owned.items }
    ensures { IsScannedAt D.tells D.state shared.now opening.old opening.new k result }
{
    let id = opening.want.id;
    let home = opening.want.home;
    let part = &mut opening.owned[k];
    let Some(place) = place_of(opening.view.ids(), part.logger) else {
        unreachable!()
    };
    scan_owned(alloc, rt, shared, id, home, &mut opening.lanes[place], part)
}

/// Reads all owned segments back, in order.
pub fn scan_all<R: Wait, D: Disk>(
    alloc: Global,
    rt: &R,
    shared: &Shared<D>,
    opening: &mut Opening<D>,
) -> Result<Vec<Scan>, OpenRefusal>
    requires ready { CanOpen D.state shared.now opening.old }
    requires named { IsNamesAnswer opening.old None }
    ensures parts { IsReadBack D.state shared.now opening.old opening.new }
    ensures ok { IfOk result
        (λ scans. AreReadBack D.tells D.state shared.now opening.old opening.new scans.items) }
    ensures err { IfErr result (Refuses D.tells D.state opening.old opening.new) }
{
    let mut scans = Vec::new(alloc);
    for k in 0..opening.owned.len() {
        match scan_at(alloc, rt, shared, opening, k) {
            Ok(scan) => {
                let Ok(()) = scans.push(scan) else {
                    return Err(OpenRefusal::NoMemory);
                };
            }
            Err(refusal) => return Err(refusal),
        }
    }
    Ok(scans)
}
