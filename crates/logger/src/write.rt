// Writes to a lane.
ghost use Rattle.log_segment.specs.Records.{new_record, group_of, count_of, AreItems};
ghost use Rattle.log_segment.specs.Segment.{IsFree, room_of, free_volume, free_blocks};
ghost use Rattle.logger.specs.Lanes.{IsLane, IsAt, HasRoom, HasNoRoom, IsFirstWithRoom, AreWhole, IsFit, IsGroup, Claimed, HasWritten, lane_owner, held_in, taken_in, pool_blocks, first_count, group_blocks, group_records, spot_result};
ghost use Rattle.logger.specs.declared.lane.HeldSegment.{HeldSegment};
ghost use Rattle.spin_model.specs.Spun.{token_volume};
ghost use Rattle.std.specs.Prelude.{◌≡◌, ◌≤◌, ◌<◌, ◌+◌, ◌-◌, ◌^◌, ◌∷◌, [], ◌⊎◌, ℕ, Some, IsSome, IfOk, length, slice_get};

use crate::lane::{HeldSegment, Lane, Spot};
use crate::secure::first_with_room;
use crate::shared::Shared;
use log_segment::{FreeSegment, Item, Segment};
use spin_model::{Awake, give_token, take_token};
use std::mem;
use std::sync::Wait;
use wol_disk::{Block, Disk, Failed};

// Records to be written: one for each item, of rising versions from `version` on. `from` has the items' blocks in order.
#[derive(Drop)]
struct Group<'a> {
    version: u64,
    items: &'a [Item],
    from: &'a [Block],
}

// The spot of records that begin at this position of a segment, or the segment's index where they weren't written.
fn spot_of(segment: u32, written: Result<u32, Failed>) -> Result<Spot, (u32, Failed)>
    ensures { result ≡ spot_result segment written }
{
    match written {
        Ok(pos) => Ok(Spot { segment, pos }),
        Err(failed) => Err((segment, failed)),
    }
}

// Claims a free segment for the owner, and adds the records to it.
fn claim_and_append<D: Disk>(
    free: FreeSegment<D>,
    token: &Awake,
    owner: u32,
    group: &Group,
) -> (Segment<D>, Result<u32, Failed>)
    requires shape { IsFree D.state free }
    requires volume { token_volume token.now ≡ free_volume free }
    requires group { IsGroup group.now }
    requires room { group_blocks group.now + 2 ≤ free_blocks free }
    ensures claimed { Claimed D.state owner free result.0 (group_records owner group.now)
        result.1 }
    ensures position { IfOk result.1 (λ pos. pos ≡ 1) }
{
    match free.claim(token, owner) {
        Ok(mut segment) => {
            let written = segment.append_group(token, group.version, group.items, group.from);
            (segment, written)
        }
        Err((failed, segment)) => (segment, Err(failed)),
    }
}

impl<D: Disk> Lane<D> {
    /// Writes a record to the first held segment that has room for it, else to the segment that `secure` took, which is
    /// claimed for it. `secure` answered true for this number of blocks, and nothing was written since.
    /// `Failed` is the disk's. The refusal carries the segment's index; the segment is broken then and stays in the lane.
    pub fn write<R: Wait>(
        &mut self,
        rt: &R,
        shared: &Shared<D>,
        version: u64,
        lbn: u64,
        from: &[Block],
    ) -> Result<Spot, (u32, Failed)>
        requires lane { IsLane D.state self.old }
        requires at { IsAt shared.now self.old }
        requires whole { AreWhole (held_in self.old) }
        requires secured { HasRoom (length from.now) (held_in self.old)
            ⊎ IsSome (taken_in self.old) }
        requires fits { length from.now + 2 ≤ pool_blocks self.old }
        requires version { (1 ≤ version) × (version < 2 ^ 63) }
        requires count { (1 ≤ length from.now) × (length from.now ≤ 128) }
        requires range { lbn + length from.now ≤ 2 ^ 32 }
        ensures moved { HasWritten D.state shared.now self.old self.new (length from.now)
            (new_record (lane_owner self.old) version lbn from.now ∷ []) result }
    {
        let item = Item {
            lbn,
            count: from.len() as u32,
        };
        self.write_group(rt, shared, version, &[item], from)
    }

    /// Writes one record for each item, of rising versions from `version` on, to the segment that `write` would use for
    /// the first of them. `from` has the items' blocks in order, and they fit as `fit` says. The answer is the spot of
    /// the first. A stop leaves some first ones of the records.
    /// `Failed` is the disk's. The refusal carries the segment's index; the segment is broken then and stays in the lane.
    pub fn write_group<R: Wait>(
        &mut self,
        rt: &R,
        shared: &Shared<D>,
        version: u64,
        items: &[Item],
        from: &[Block],
    ) -> Result<Spot, (u32, Failed)>
        requires lane { IsLane D.state self.old }
        requires at { IsAt shared.now self.old }
        requires whole { AreWhole (held_in self.old) }
        requires secured { HasRoom (first_count items.now) (held_in self.old)
            ⊎ IsSome (taken_in self.old) }
        requires fits { (fit : ℕ) × IsFit (first_count items.now) fit self.old
            × (length from.now + (length items.now - 1) ≤ fit) }
        requires version { (1 ≤ version) × (version + length items.now ≤ 2 ^ 63) }
        requires some { 1 ≤ length items.now }
        requires items { AreItems items.now }
        requires blocks { count_of items.now ≡ length from.now }
        ensures { HasWritten D.state shared.now self.old self.new (first_count items.now)
            (group_of (lane_owner self.old) version items.now from.now) result }
    {
        let group = Group {
            version,
            items,
            from,
        };
        match first_with_room(&self.held, items[0].count) {
            Some(place) => self.write_held(rt, shared, place, &group),
            None => self.write_taken(rt, shared, &group),
        }
    }

    // Adds the records to the held segment at this place.
    fn write_held<R: Wait>(
        &mut self,
        rt: &R,
        shared: &Shared<D>,
        place: usize,
        group: &Group,
    ) -> Result<Spot, (u32, Failed)>
        requires lane { IsLane D.state self.old }
        requires at { IsAt shared.now self.old }
        requires whole { AreWhole (held_in self.old) }
        requires place { IsFirstWithRoom (first_count group.now.items.now) (held_in self.old)
            place }
        requires room { (o : HeldSegment D) → slice_get (held_in self.old) place ≡ Some o
            → group_blocks group.now ≤ room_of o.segment }
        requires group { IsGroup group.now }
        ensures { HasWritten D.state shared.now self.old self.new (first_count group.now.items.now)
            (group_records (lane_owner self.old) group.now) result }
    {
        let lock = &shared.spindles[self.logger as usize];
        let token = take_token(rt, lock, &mut self.spindle);
        let held = &mut self.held[place];
        let index = held.index;
        let written = held
            .segment
            .append_group(&token, group.version, group.items, group.from);
        give_token(rt, lock, &mut self.spindle, token);
        spot_of(index, written)
    }

    // Claims the taken segment, and adds the records to it.
    fn write_taken<R: Wait>(
        &mut self,
        rt: &R,
        shared: &Shared<D>,
        group: &Group,
    ) -> Result<Spot, (u32, Failed)>
        requires lane { IsLane D.state self.old }
        requires at { IsAt shared.now self.old }
        requires taken { IsSome (taken_in self.old) }
        requires none { HasNoRoom (first_count group.now.items.now) (held_in self.old) }
        requires room { group_blocks group.now + 2 ≤ pool_blocks self.old }
        requires group { IsGroup group.now }
        ensures { HasWritten D.state shared.now self.old self.new (first_count group.now.items.now)
            (group_records (lane_owner self.old) group.now) result }
    {
        let before = mem::replace(&mut self.taken, None);
        let Some((index, free)) = before else {
            unreachable!()
        };
        let lock = &shared.spindles[self.logger as usize];
        let token = take_token(rt, lock, &mut self.spindle);
        let (segment, written) = claim_and_append(free, &token, self.owner, group);
        give_token(rt, lock, &mut self.spindle, token);
        self.held.push_reserved(HeldSegment { index, segment });
        spot_of(index, written)
    }
}
