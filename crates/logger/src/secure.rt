// Room on a logger: which held segment has it, and whether the pool gave one.
ghost use Rattle.log_segment.specs.Segment.{IsSegment};
ghost use Rattle.logger.specs.Lanes.{IsLane, HoldsAll, IsAt, IsSameLane, IsFirstWithRoom, HasRoom, HasNoRoom, AreWhole, Secured, IsFit, held_in, taken_in, spindle_of, pool_blocks};
ghost use Rattle.std.specs.List.{AllByRecursion};
ghost use Rattle.std.specs.Prelude.{◌≡◌, ◌≤◌, ◌+◌, ◌⊎◌, true, None, IsSome, MatchOption};
ghost use Rattle.turn_lock.specs.Passes.{pass_mine};

use crate::lane::{HeldSegment, Lane};
use crate::shared::Shared;
use seg_pool::take_item;
use std::mem;
use std::sync::Wait;
use wol_disk::Disk;

/// The place of the first of these segments that has room for so many blocks.
pub(crate) fn first_with_room<D: Disk>(held: &[HeldSegment<D>], count: u32) -> Option<usize>
    requires { AllByRecursion (λ h. IsSegment D.state h.segment) held.now }
    ensures { MatchOption result (HasNoRoom count held.now) (IsFirstWithRoom count held.now) }
{
    for (place, h) in held.iter().enumerate() {
        if h.segment.room() >= count {
            return Some(place);
        }
    }
    None
}

impl<D: Disk> Lane<D> {
    /// Sees to it that `write` has a place for so many blocks: a held segment with room, or one that the pool gives in
    /// this call. False comes exactly where no held segment has room and the pool had none free in this call.
    pub fn secure<R: Wait>(&mut self, rt: &R, shared: &Shared<D>, count: u32) -> bool
        requires lane { IsLane D.state self.old }
        requires at { IsAt shared.now self.old }
        requires none { taken_in self.old ≡ None }
        requires whole { AreWhole (held_in self.old) }
        requires count { (1 ≤ count) × (count ≤ 128) }
        requires fits { count + 2 ≤ pool_blocks self.old }
        ensures lane { IsLane D.state self.new }
        ensures same { IsSameLane self.old self.new }
        ensures all { HoldsAll self.old → HoldsAll self.new }
        ensures at { IsAt shared.now self.new }
        ensures held { held_in self.new ≡ held_in self.old }
        ensures spindle { pass_mine (spindle_of self.new) ≡ pass_mine (spindle_of self.old) }
        ensures moved { Secured self.old self.new count result }
        ensures secured { result ≡ true
            → HasRoom count (held_in self.new) ⊎ IsSome (taken_in self.new) }
    {
        if first_with_room(&self.held, count).is_some() {
            return true;
        }
        let taken = take_item(rt, &shared.pools[self.logger as usize], &mut self.pool);
        let found = taken.is_some();
        let before = mem::replace(&mut self.taken, taken);
        let None = before else { unreachable!() };
        found
    }

    /// How many blocks the segment that `write` would use has room for: the first held one with room for `count`
    /// blocks, else the one that `secure` took. A group of writes needs a block more for each head but the first.
    pub fn fit(&self, count: u32) -> u32
        requires lane { IsLane D.state self.now }
        requires secured { HasRoom count (held_in self.now) ⊎ IsSome (taken_in self.now) }
        requires fits { count + 2 ≤ pool_blocks self.now }
        ensures { IsFit count result self.now }
    {
        match first_with_room(&self.held, count) {
            Some(place) => self.held[place].segment.room(),
            None => self.taken_room(),
        }
    }

    // The room of the taken segment once it is claimed.
    fn taken_room(&self) -> u32
        requires lane { IsLane D.state self.now }
        requires taken { IsSome (taken_in self.now) }
        ensures { result + 2 ≡ pool_blocks self.now }
    {
        match &self.taken {
            Some((_, segment)) => segment.blocks() - 2,
            None => unreachable!(),
        }
    }
}
