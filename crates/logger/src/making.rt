// A lane is made, comes to hold segments, and is taken apart.
ghost use Rattle.log_segment.specs.Segment.{IsSegment, part_of, segment_volume, owner_of, blocks_of};
ghost use Rattle.seg_pool.specs.Operations.{holds};
ghost use Rattle.spin_model.specs.Operations.{has_token};
ghost use Rattle.std.specs.List.{AllByRecursion};
ghost use Rattle.std.specs.Prelude.{◌≡◌, ◌≢◌, ◌<◌, ◌≤◌, ◌∷◌, [], ◌++◌, false, true, None, length, map, IfOk, IfErr};
ghost use Rattle.turn_lock.specs.Passes.{pass_lock, pass_number, pass_mine, IsFree};

use crate::lane::{HeldSegment, Lane, LaneParts};
use log_segment::{FreeSegment, Segment};
use seg_pool::Pool;
use spin_model::Spindle;
use std::alloc::Global;
use turn_lock::Pass;
use wol_disk::{Disk, NoMemory};

impl<D: Disk> Lane<D> {
    ghost use Rattle.logger.specs.Lanes.{IsLane, AreAccesses, IsSameLane, logger_of, lane_owner, held_in, taken_in, pool_of, spindle_of, segments_in, indexes_in, pool_blocks};
    ghost use Rattle.logger.specs.declared.lane.HeldSegment.{HeldSegment};

    /// A lane that holds nothing yet, with the room for this many segments and for `release`.
    /// Both passes come back where there is no memory.
    pub fn new(
        alloc: Global,
        logger: u32,
        owner: u32,
        segments: u32,
        pool: Pass<Pool<FreeSegment<D>>>,
        spindle: Pass<Spindle>,
    ) -> Result<Lane<D>, (Pass<Pool<FreeSegment<D>>>, Pass<Spindle>, NoMemory)>
        requires few { length (pass_lock pool).base.holders ≤ segments }
        requires pool_volume { (pass_lock pool).base.volume ≡ logger }
        requires spindle_volume { (pass_lock spindle).base.volume ≡ logger }
        requires pool_free { IsFree pool }
        requires spindle_free { IsFree spindle }
        requires settled { has_token (pass_mine spindle) ≡ false }
        requires accesses { AreAccesses (pass_mine spindle) }
        ensures lane { IfOk result (IsLane D.state) }
        ensures logger { IfOk result (λ l. logger_of l ≡ logger) }
        ensures owner { IfOk result (λ l. lane_owner l ≡ owner) }
        ensures segments { IfOk result (λ l. segments_in l ≡ segments) }
        ensures held { IfOk result (λ l. held_in l ≡ []) }
        ensures taken { IfOk result (λ l. taken_in l ≡ None) }
        ensures pool { IfOk result (λ l. pool_of l ≡ pool) }
        ensures spindle { IfOk result (λ l. spindle_of l ≡ spindle) }
        ensures unchanged { IfErr result (λ r. (r.0 ≡ pool) × (r.1 ≡ spindle)) }
    {
        let Ok(held) = Vec::with_capacity(alloc, segments as usize) else {
            return Err((pool, spindle, NoMemory));
        };
        let Ok(parts) = Vec::with_capacity(alloc, segments as usize) else {
            held.destroy_empty();
            return Err((pool, spindle, NoMemory));
        };
        Ok(Lane {
            logger,
            owner,
            held,
            taken: None,
            pool,
            spindle,
            parts,
        })
    }

    /// The volume on whose log its segments are.
    pub fn logger(&self) -> u32
        ensures { result ≡ logger_of self.now }
    {
        self.logger
    }

    /// Holds a segment of the owner, behind those that are held. The lane's pass has its index by the pool's history.
    pub fn hold(&mut self, index: u32, segment: Segment<D>)
        requires lane { IsLane D.state self.old }
        requires below { index < segments_in self.old }
        requires apart { AllByRecursion (λ i. index ≢ i) (indexes_in self.old) }
        requires holds { holds (pass_lock (pool_of self.old)).base (pass_number (pool_of self.old))
            (pass_mine (pool_of self.old)) index ≡ true }
        requires shape { IsSegment D.state segment }
        requires volume { segment_volume segment ≡ logger_of self.old }
        requires owner { owner_of segment ≡ lane_owner self.old }
        requires blocks { blocks_of segment ≡ pool_blocks self.old }
        ensures lane { IsLane D.state self.new }
        ensures same { IsSameLane self.old self.new }
        ensures held { held_in self.new
            ≡ held_in self.old ++ (record { index = index; segment = segment }) ∷ [] }
        ensures taken { taken_in self.new ≡ taken_in self.old }
        ensures pool { pass_mine (pool_of self.new) ≡ pass_mine (pool_of self.old) }
        ensures spindle { pass_mine (spindle_of self.new) ≡ pass_mine (spindle_of self.old) }
    {
        self.held.push_reserved(HeldSegment { index, segment });
    }

    /// Takes the lane apart. The parts of the held segments come in the order of holding, and no memory is taken.
    pub fn release(self) -> LaneParts<D>
        requires lane { IsLane D.state self }
        requires taken { taken_in self ≡ None }
        ensures logger { result.logger ≡ logger_of self }
        ensures held { result.held.items
            ≡ map (λ (h : HeldSegment D). (h.index, part_of h.segment)) (held_in self) }
        ensures pool { result.pool ≡ pool_of self }
        ensures spindle { result.spindle ≡ spindle_of self }
    {
        let Lane {
            logger,
            owner: _,
            mut held,
            taken,
            pool,
            spindle,
            mut parts,
        } = self;
        let None = taken else { unreachable!() };
        held.reverse();
        while let Some(HeldSegment { index, segment }) = held.pop() {
            parts.push_reserved((index, segment.into_part()));
        }
        held.destroy_empty();
        LaneParts {
            logger,
            held: parts,
            pool,
            spindle,
        }
    }
}
