// Reads of a lane's records.
ghost use Rattle.logger.specs.Lanes.{IsLane, HoldsAll, IsAt, IsSameLane, HasUsed, HasIndex, IsReadable, ReadFrom, taken_in, pool_of};
ghost use Rattle.logger.specs.Trims.{IsRetirable, KeepsSoMany};
ghost use Rattle.std.specs.Prelude.{◌≡◌, ℕ, length};
ghost use Rattle.turn_lock.specs.Passes.{pass_mine};

use crate::lane::{HeldSegment, Lane, Spot};
use crate::shared::Shared;
use spin_model::{give_token, take_token};
use std::sync::Wait;
use wol_disk::{Block, Disk, Failed};

/// The place of the first of these segments that has this index.
pub(crate) fn place_of_index<D: Disk>(held: &[HeldSegment<D>], index: u32) -> usize
    requires { (place : ℕ) × HasIndex held.now place index }
    ensures { HasIndex held.now result index }
{
    for (place, h) in held.iter().enumerate() {
        if h.index == index {
            return place;
        }
    }
    unreachable!()
}

impl<D: Disk> Lane<D> {
    /// How many records of the held segment of this index keep a block.
    pub fn valid(&self, segment: u32) -> u32
        requires { IsRetirable self.now segment }
        ensures { KeepsSoMany self.now segment result }
    {
        let place = place_of_index(&self.held, segment);
        self.held[place].segment.valid()
    }

    /// Reads blocks of the record at a spot, from its block `skip` on. `Failed` is the disk's, and after it the bytes
    /// in `out` are open; the segment is as it was.
    pub fn read<R: Wait>(
        &mut self,
        rt: &R,
        shared: &Shared<D>,
        spot: &Spot,
        skip: u32,
        out: &mut [Block],
    ) -> Result<(), Failed>
        requires lane { IsLane D.state self.old }
        requires at { IsAt shared.now self.old }
        requires spot { IsReadable self.old spot.now skip (length out.old) }
        ensures lane { IsLane D.state self.new }
        ensures same { IsSameLane self.old self.new }
        ensures all { HoldsAll self.old → HoldsAll self.new }
        ensures at { IsAt shared.now self.new }
        ensures taken { taken_in self.new ≡ taken_in self.old }
        ensures pool { pass_mine (pool_of self.new) ≡ pass_mine (pool_of self.old) }
        ensures used { HasUsed self.old self.new }
        ensures moved { ReadFrom D.state self.old self.new spot.now skip out.old out.new result }
    {
        let lock = &shared.spindles[self.logger as usize];
        let place = place_of_index(&self.held, spot.segment);
        let token = take_token(rt, lock, &mut self.spindle);
        let held = &mut self.held[place];
        let read = held.segment.read(&token, spot.pos, skip, out);
        give_token(rt, lock, &mut self.spindle, token);
        read
    }
}
