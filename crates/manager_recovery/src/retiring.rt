// Home is synced, and owned segments without a record that keeps a block go to their pools.
ghost use Rattle.log_scan.specs.declared.Found.{Found};
ghost use Rattle.log_segment.specs.Segment.{IsSegment, IsWhole, segment_volume, blocks_of, valid_of};
ghost use Rattle.log_segment.specs.declared.free.FreeSegment.{FreeSegment};
ghost use Rattle.logger.specs.Lanes.{IsLane, AreAccesses, IsAt, IsSameLane, logger_of, held_in, pool_of, pool_blocks};
ghost use Rattle.manager_recovery.specs.Left.{IsAsBefore, IsFateOf, Kept, Freed};
ghost use Rattle.manager_recovery.specs.Opening.{CanOpen, IsHeldIn};
ghost use Rattle.manager_recovery.specs.Refused.{IsNamesAnswer, IsRecoverable, SegmentRose};
ghost use Rattle.manager_recovery.specs.Scanned.{HasGivenNone, IsScanned, IsFreedOf, IsUnfreed, IsThinning, has_some, keeps_some, thinned};
ghost use Rattle.manager_recovery.specs.declared.opening.OwnedPart.{OwnedPart};
ghost use Rattle.seg_pool.specs.Holders.{Gave};
ghost use Rattle.seg_pool.specs.Operations.{holds, operation_of};
ghost use Rattle.spin_model.specs.Operations.{has_token};
ghost use Rattle.spin_model.specs.Spun.{state_of, volume_of};
ghost use Rattle.std.specs.List.{AllByRecursion, AllZip, list_any};
ghost use Rattle.std.specs.Prelude.{◌≡◌, ◌≢◌, ◌≤◌, ◌<◌, ◌+◌, ◌++◌, ◌∷◌, [], ℕ, List, false, true, None, Some, Option, option_map, filter, map, not, length, slice_get, slice_set, remove, IfOk, IfErr, OnOk, OnErr, IsErr, IsTrue};
ghost use Rattle.turn_lock.specs.Passes.{pass_lock, pass_number, pass_mine, IsPassOf, IsFree, IsSamePass};
ghost use Rattle.wol_disk.specs.Disk.{LeavesOnly, IsImageOf, Rose, settled};

use crate::names::place_of;
use crate::{OpenRefusal, Opening, OwnedPart};
use log_scan::{Adopted, Found, Scan, adopt};
use log_segment::Segment;
use logger::{Lane, Shared};
use manager::Part;
use seg_pool::give_item;
use spin_model::{Spindle, Spun, give_token, take_token};
use std::sync::Wait;
use turn_lock::{Pass, TurnLock};
use wol_disk::{Disk, Failed};

/// Syncs a part, between a turn in which its spindle is needed and one in which it is done.
pub fn sync_part<R: Wait, D: Disk>(
    rt: &R,
    lock: &TurnLock<Spindle>,
    spindle: &mut Pass<Spindle>,
    part: &mut Spun<D>,
) -> Result<(), Failed>
    requires own { IsPassOf lock.now spindle.old }
    requires free { IsFree spindle.old }
    requires settled { has_token (pass_mine spindle.old) ≡ false }
    requires accesses { AreAccesses (pass_mine spindle.old) }
    requires volume { (pass_lock spindle.old).base.volume ≡ volume_of part.old }
    ensures same { IsSamePass spindle.old spindle.new }
    ensures free { IsFree spindle.new }
    ensures settled { has_token (pass_mine spindle.new) ≡ false }
    ensures accesses { AreAccesses (pass_mine spindle.new) }
    ensures part { IsAsBefore D.state part.old part.new }
    ensures values { OnOk result ((state_of D.state part.new).values
        ≡ option_map settled (state_of D.state part.old).values) }
    ensures cause { IsErr result
        → Rose (state_of D.state part.old).faults (state_of D.state part.new).faults }
    ensures calm { OnOk result
        ((state_of D.state part.new).faults ≡ (state_of D.state part.old).faults) }
{
    let token = take_token(rt, lock, spindle);
    let synced = part.sync(&token);
    give_token(rt, lock, spindle, token);
    synced
}

// Whether a record keeps a block.
fn keep_some(found: &[Found]) -> bool
    ensures { result ≡ list_any keeps_some found.now }
{
    found.iter().any(|one| one.head.keep != 0)
}

// Frees a segment of this index, none of whose records keeps a block, and gives it to its pool.
fn free_segment<R: Wait, D: Disk>(
    rt: &R,
    shared: &Shared<D>,
    lane: &mut Lane<D>,
    index: u32,
    segment: Segment<D>,
) -> Result<(), (Failed, Segment<D>)>
    requires lane { IsLane D.state lane.old }
    requires at { IsAt shared.now lane.old }
    requires holds { holds (pass_lock (pool_of lane.old)).base (pass_number (pool_of lane.old))
        (pass_mine (pool_of lane.old)) index ≡ true }
    requires empty { held_in lane.old ≡ [] }
    requires shape { IsSegment D.state segment }
    requires whole { IsWhole segment }
    requires bare { valid_of segment ≡ 0 }
    requires volume { segment_volume segment ≡ logger_of lane.old }
    requires blocks { blocks_of segment ≡ pool_blocks lane.old }
    ensures same { IsSameLane lane.old lane.new }
    ensures rest { lane.new ≡ record lane.old { pool = lane.new.pool; spindle = lane.new.spindle } }
    ensures pool_free { IsFree (pool_of lane.new) }
    ensures spindle_free { IsFree lane.new.spindle }
    ensures settled { has_token (pass_mine lane.new.spindle) ≡ false }
    ensures accesses { AreAccesses (pass_mine lane.new.spindle) }
    ensures kept { (i : ℕ) → i ≢ index → holds (pass_lock (pool_of lane.old)).base
        (pass_number (pool_of lane.old)) (pass_mine (pool_of lane.old)) i ≡ true
        → holds (pass_lock (pool_of lane.new)).base (pass_number (pool_of lane.new))
        (pass_mine (pool_of lane.new)) i ≡ true }
    ensures gave { OnOk result (pass_mine (pool_of lane.new)
        ≡ pass_mine (pool_of lane.old)
        ++ (pass_number (pool_of lane.old), operation_of (Gave index)) ∷ []) }
    ensures gave_none { OnErr result (HasGivenNone lane.old lane.new) }
    ensures ok { OnOk result ((f : FreeSegment D) × IsFreedOf D.state segment f) }
    ensures err { IfErr result (λ r. IsUnfreed D.state segment r.1) }
{
    let logger = lane.logger() as usize;
    let lock = &shared.spindles[logger];
    let token = take_token(rt, lock, &mut lane.spindle);
    let retired = segment.retire(&token);
    give_token(rt, lock, &mut lane.spindle, token);
    match retired {
        Ok(free) => {
            give_item(rt, &shared.pools[logger], &mut lane.pool, index, free);
            Ok(())
        }
        Err(refusal) => Err(refusal),
    }
}

// Frees the segment at place `k`, which has this scan, and gives it to its pool. Where that fails it is back at its place.
fn retire_at<R: Wait, D: Disk>(
    rt: &R,
    shared: &Shared<D>,
    id: u32,
    lane: &mut Lane<D>,
    owned: &mut Vec<OwnedPart<D>>,
    k: usize,
    scan: &Scan,
) -> Result<(), OpenRefusal>
    requires lane { IsLane D.state lane.old }
    requires at { IsAt shared.now lane.old }
    requires empty { held_in lane.old ≡ [] }
    requires within { k < length owned.old.items }
    requires held { (o : OwnedPart D) → slice_get owned.old.items k ≡ Some o
        → IsHeldIn D.state o lane.old }
    requires size { (o : OwnedPart D) → slice_get owned.old.items k ≡ Some o
        → (4 ≤ (state_of D.state o.part).size) × ((state_of D.state o.part).size ≤ 65536) }
    requires scanned { (o : OwnedPart D) → slice_get owned.old.items k ≡ Some o
        → (home : ℕ) × IsScanned D.state id home o scan.now }
    requires bare { has_some scan.now ≡ false }
    ensures same { IsSameLane lane.old lane.new }
    ensures rest { lane.new ≡ record lane.old { pool = lane.new.pool; spindle = lane.new.spindle } }
    ensures pool_free { IsFree (pool_of lane.new) }
    ensures spindle_free { IsFree lane.new.spindle }
    ensures settled { has_token (pass_mine lane.new.spindle) ≡ false }
    ensures accesses { AreAccesses (pass_mine lane.new.spindle) }
    ensures kept { (o : OwnedPart D) (i : ℕ) → slice_get owned.old.items k ≡ Some o → i ≢ o.index
        → holds (pass_lock (pool_of lane.old)).base (pass_number (pool_of lane.old))
        (pass_mine (pool_of lane.old)) i ≡ true
        → holds (pass_lock (pool_of lane.new)).base (pass_number (pool_of lane.new))
        (pass_mine (pool_of lane.new)) i ≡ true }
    ensures gave { OnOk result ((o : OwnedPart D) → slice_get owned.old.items k ≡ Some o
        → pass_mine (pool_of lane.new) ≡ pass_mine (pool_of lane.old)
        ++ (pass_number (pool_of lane.old), operation_of (Gave o.index)) ∷ []) }
    ensures gave_none { OnErr result (HasGivenNone lane.old lane.new) }
    ensures ok { OnOk result ((owned.new.items ≡ remove owned.old.items k)
        × ((o : OwnedPart D) → slice_get owned.old.items k ≡ Some o
        → (f : FreeSegment D) × IsFateOf D.state id o (Freed f))) }
    ensures err { IfErr result (λ refusal. (o : OwnedPart D) → slice_get owned.old.items k ≡ Some o
        → (n : OwnedPart D) × (owned.new.items ≡ slice_set owned.old.items k n)
        × IsFateOf D.state id o (Kept n)
        × (refusal ≡ OpenRefusal.DiskFault (Part.Segment o.logger o.index))
        × Rose (state_of D.state o.part).faults (state_of D.state n.part).faults) }
{
    let OwnedPart {
        logger,
        index,
        first_block,
        part,
    } = owned.remove(k);
    let _ = id;
    let segment = match adopt(part, scan) {
        Adopted::Held(segment) => segment,
        Adopted::Free(_free) => unreachable!(),
    };
    match free_segment(rt, shared, lane, index, segment) {
        Ok(()) => Ok(()),
        Err((Failed, segment)) => {
            let part = segment.into_part();
            let back = owned.insert(
                k,
                OwnedPart {
                    logger,
                    index,
                    first_block,
                    part,
                },
            );
            let Ok(()) = back else { unreachable!() };
            Err(OpenRefusal::DiskFault(Part::Segment {
                volume: logger,
                index,
            }))
        }
    }
}

/// Frees each owned segment none of whose records keeps a block, and gives it to its pool. The others stay, with their scans.
pub fn retire_bare<R: Wait, D: Disk>(
    rt: &R,
    shared: &Shared<D>,
    opening: &mut Opening<D>,
    scans: &mut Vec<Scan>,
) -> Result<(), OpenRefusal>
    requires ready { CanOpen D.state shared.now opening.old }
    requires named { IsNamesAnswer opening.old None }
    requires scanned { AllZip (IsScanned D.state opening.old.want.id opening.old.want.home)
        opening.old.owned.items scans.old.items }
    requires recoverable { IsTrue D.tells → IsRecoverable D.state opening.old }
    ensures parts { IsThinning D.state shared.now opening.old opening.new }
    ensures ok { OnOk result (CanOpen D.state shared.now opening.new
        × (opening.new.owned.items ≡ thinned opening.old.owned.items scans.old.items)
        × (scans.new.items ≡ filter has_some scans.old.items)) }
    ensures err { IfErr result (λ refusal.
        (logger : ℕ) × (index : ℕ)
        × (refusal ≡ OpenRefusal.DiskFault (Part.Segment logger index))
        × SegmentRose D.tells D.state opening.old opening.new.owned.items logger index) }
{
    let mut k = opening.owned.len();
    while k > 0 {
        k -= 1;
        if keep_some(&scans[k].records) {
            continue;
        }
        let Some(place) = place_of(opening.view.ids(), opening.owned[k].logger) else {
            unreachable!()
        };
        let lane = &mut opening.lanes[place];
        match retire_at(
            rt,
            shared,
            opening.want.id,
            lane,
            &mut opening.owned,
            k,
            &scans[k],
        ) {
            Ok(()) => {
                let _ = scans.remove(k);
            }
            Err(refusal) => return Err(refusal),
        }
    }
    Ok(())
}
