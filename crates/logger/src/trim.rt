// Blocks of a lane's records are given up, and a segment without a record that keeps one goes back to its pool.
ghost use Rattle.log_layout.specs.Values.{record_head};
ghost use Rattle.log_segment.specs.Records.{IsProperPart};
ghost use Rattle.logger.specs.Lanes.{IsLane, HoldsAll, IsAt, IsSameLane, HasUsed, IsTrimmable, Trimmed, lane_owner, taken_in};
ghost use Rattle.logger.specs.Trims.{IsWholeAt, IsCuttable, IsRetirable, FreedAt, StaysAt, Cut, Retired};
ghost use Rattle.spin_model.specs.Spun.{token_volume};
ghost use Rattle.std.specs.Prelude.{◌≡◌, ◌-◌, ◌==◌, if◌then◌else◌, IfOk, OnErr, vec_len, vec_capacity};
ghost use Rattle.turn_lock.specs.Passes.{pass_mine};
ghost use Rattle.wol_model.specs.Heads.{IsRecordHead};

use crate::lane::{HeldSegment, Lane, Spot};
use crate::read::place_of_index;
use crate::shared::Shared;
use log_layout::RecHead;
use log_segment::FreeSegment;
use seg_pool::give_item;
use spin_model::{Awake, give_token, take_token};
use std::sync::Wait;
use wol_disk::{Disk, Failed};

// Takes the segment at this place out and frees it. Where that fails it is back at its place, and broken.
fn free_held<D: Disk>(
    held: &mut Vec<HeldSegment<D>>,
    place: usize,
    token: &Awake,
) -> Result<FreeSegment<D>, Failed>
    requires segment { IsWholeAt D.state (token_volume token.now) held.old.items place }
    ensures ok { IfOk result (λ f. FreedAt D.state held.old.items held.new.items place f) }
    ensures err { OnErr result (StaysAt D.state held.old.items held.new.items place) }
    ensures room { vec_capacity held.new ≡ vec_capacity held.old }
{
    let HeldSegment { index, segment } = held.remove(place);
    match segment.retire(token) {
        Ok(free) => Ok(free),
        Err((failed, segment)) => {
            let back = held.insert(place, HeldSegment { index, segment });
            let Ok(()) = back else { unreachable!() };
            Err(failed)
        }
    }
}

// How many records keep a block once one of so many keeps those of `keep`.
fn left_valid(valid: u32, keep: u128) -> u32
    ensures { result ≡ valid - (if keep == 0 then 1 else 0) }
{
    if keep == 0 {
        valid.saturating_sub(1)
    } else {
        valid
    }
}

// Gives up blocks of a record of the segment at this place. Where none of its records keeps a block then, it is freed
// by the one write of its head, and the record's own head is not written.
fn trim_held<D: Disk>(
    held: &mut Vec<HeldSegment<D>>,
    place: usize,
    token: &Awake,
    pos: u32,
    head: &RecHead,
    keep: u128,
) -> Result<Option<FreeSegment<D>>, Failed>
    requires segment { IsCuttable D.state (token_volume token.now) held.old.items place pos
        head.now.owner }
    requires head { IsRecordHead (record_head head.now) }
    requires keep { IsProperPart keep head.now.keep }
    ensures cut { Cut D.state held.old.items held.new.items place pos (record_head head.now) keep
        result }
    ensures room { vec_capacity held.new ≡ vec_capacity held.old }
{
    let segment = &mut held[place].segment;
    if left_valid(segment.valid(), keep) > 0 {
        segment.trim(token, pos, head, keep)?;
        return Ok(None);
    }
    let freed = free_held(held, place, token)?;
    Ok(Some(freed))
}

impl<D: Disk> Lane<D> {
    /// Gives up blocks of the record at a spot: of those that it keeps, those of `keep` are kept. `head` is its head, in
    /// whatever form. Where no record of the segment keeps a block then, the segment is retired and given to the pool.
    /// `Failed` is the disk's; the segment is broken then and stays in the lane.
    pub fn trim<R: Wait>(
        &mut self,
        rt: &R,
        shared: &Shared<D>,
        spot: &Spot,
        head: &RecHead,
        keep: u128,
    ) -> Result<(), Failed>
        requires lane { IsLane D.state self.old }
        requires at { IsAt shared.now self.old }
        requires spot { IsTrimmable self.old spot.now }
        requires head { IsRecordHead (record_head head.now) }
        requires owner { head.now.owner ≡ lane_owner self.old }
        requires keep { IsProperPart keep head.now.keep }
        ensures lane { IsLane D.state self.new }
        ensures same { IsSameLane self.old self.new }
        ensures all { HoldsAll self.old → HoldsAll self.new }
        ensures at { IsAt shared.now self.new }
        ensures taken { taken_in self.new ≡ taken_in self.old }
        ensures used { HasUsed self.old self.new }
        ensures moved { Trimmed D.state self.old self.new spot.now (record_head head.now) keep
            result }
    {
        let lock = &shared.spindles[self.logger as usize];
        let place = place_of_index(&self.held, spot.segment);
        let token = take_token(rt, lock, &mut self.spindle);
        let trimmed = trim_held(&mut self.held, place, &token, spot.pos, head, keep);
        give_token(rt, lock, &mut self.spindle, token);
        match trimmed {
            Ok(Some(segment)) => {
                let pool = &shared.pools[self.logger as usize];
                give_item(rt, pool, &mut self.pool, spot.segment, segment);
                Ok(())
            }
            Ok(None) => Ok(()),
            Err(failed) => Err(failed),
        }
    }

    /// Gives up the held segment of this index with all its records, by one write of its head, and gives it to the pool.
    /// `Failed` is the disk's; the segment is broken then and stays in the lane.
    pub fn retire<R: Wait>(
        &mut self,
        rt: &R,
        shared: &Shared<D>,
        segment: u32,
    ) -> Result<(), Failed>
        requires lane { IsLane D.state self.old }
        requires at { IsAt shared.now self.old }
        requires segment { IsRetirable self.old segment }
        ensures lane { IsLane D.state self.new }
        ensures same { IsSameLane self.old self.new }
        ensures all { HoldsAll self.old → HoldsAll self.new }
        ensures at { IsAt shared.now self.new }
        ensures taken { taken_in self.new ≡ taken_in self.old }
        ensures used { HasUsed self.old self.new }
        ensures retired { Retired D.state self.old self.new segment result }
    {
        let lock = &shared.spindles[self.logger as usize];
        let place = place_of_index(&self.held, segment);
        let token = take_token(rt, lock, &mut self.spindle);
        let freed = free_held(&mut self.held, place, &token);
        give_token(rt, lock, &mut self.spindle, token);
        match freed {
            Ok(free) => {
                let pool = &shared.pools[self.logger as usize];
                give_item(rt, pool, &mut self.pool, segment, free);
                Ok(())
            }
            Err(failed) => Err(failed),
        }
    }
}
