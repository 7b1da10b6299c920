// Runs of writes: consecutive writes of which some first ones go to one segment together.
ghost use Rattle.log_segment.specs.Records.{count_of};
ghost use Rattle.logger.specs.Lanes.{logger_of, first_count};
ghost use Rattle.manager.specs.Answers.{IsPlaceOf};
ghost use Rattle.manager.specs.Causes.{NoneRose};
ghost use Rattle.manager.specs.Groups.{AreItemsOf, CanRun, CanOffer, HasOffered, IsPlacedRun, HasRun, TellsRun, first_lbn, first_blocks, place_told, ruled_run};
ghost use Rattle.manager.specs.Joining.{GoTogether};
ghost use Rattle.manager.specs.Stands.{IsReady, IsHome, IsSameManager, passed_in};
ghost use Rattle.manager.specs.Writing.{HaveAnswered, NeedsHome, NeedsLogs, TellsFault, IsAsBefore, IsPlacedAnswer, takes_at};
ghost use Rattle.manager.specs.declared.part.Part.{Part};
ghost use Rattle.spin_model.specs.Spun.{state_of};
ghost use Rattle.std.specs.List.{list_any, range_with_len};
ghost use Rattle.std.specs.Prelude.{◌≡◌, ◌↔◌, ◌+◌, ◌≤◌, ◌<◌, ◌^◌, ℕ, None, Some, Err, IfOk, IfSome, OnOk, length, map, replicate, slice_set};
ghost use Rattle.wol_model.specs.Index.{listed_in, is_covered};

use crate::manager::forget;
use crate::{Manager, Part, Place, WriteRefusal};
use log_segment::Item;
use logger::Shared;
use offload_policy::{Room, Step, place};
use std::sync::Wait;
use volume_parts::{list_group, put_group, reserve_places, together};
use wol_disk::{Block, Disk, Failed};

/// The next version where all versions are spent.
const SPENT: u64 = 1 << 63;

/// The most items that one call looks at.
const MOST_ITEMS: usize = 128;

/// How many first items of a run a disk was to take, and where they went, or why not.
#[derive(Clone, Copy, Debug)]
pub struct Ran {
    pub items: usize,
    pub answer: Result<Place, WriteRefusal>,
}

impl<D: Disk> Manager<D> {
    // Asks the lane at this place of the view for room for the first item, and writes it there with others behind it that
    // have room too. `None` comes where it has no room.
    fn offer_group<R: Wait>(
        &mut self,
        rt: &R,
        shared: &Shared<D>,
        lane: usize,
        items: &[Item],
        from: &[Block],
    ) -> Option<Ran>
        requires { CanOffer D.state shared.now self.old lane items.now from.now }
        ensures { HasOffered D.tells D.state shared.now lane items.now from.now
            self.old.rooms.items result self.old self.new }
    {
        let reached = &mut self.lanes[lane];
        let logger = reached.logger();
        let Some((count, written)) = put_group(rt, shared, reached, self.next, items, from) else {
            return None;
        };
        match written {
            Ok(spot) => {
                list_group(
                    &mut self.index,
                    self.next,
                    lane as u32,
                    spot,
                    &items[..count],
                );
                self.next += count as u64;
                self.ups[lane] = true;
                Some(Ran {
                    items: count,
                    answer: Ok(Place::Log { logger }),
                })
            }
            Err((index, Failed)) => {
                let part = Part::Segment {
                    volume: logger,
                    index,
                };
                self.down = Some(part);
                Some(Ran {
                    items: count,
                    answer: Err(WriteRefusal::DiskFault(part)),
                })
            }
        }
    }

    // Offers the lane at this place of the view the items that may go to a log together. `None` comes where it has no
    // room, and that is noted.
    fn try_run<R: Wait>(
        &mut self,
        rt: &R,
        shared: &Shared<D>,
        lane: u32,
        items: &[Item],
        from: &[Block],
    ) -> Option<Ran>
        requires { CanOffer D.state shared.now self.old lane items.now from.now }
        ensures offered { HasOffered D.tells D.state shared.now lane items.now from.now
            (slice_set self.old.rooms.items lane Room.No) result self.old self.new }
        ensures joins { IfSome result (λ r.
            GoTogether self.old.home_up (listed_in self.old.index.entries)
            (passed_in self.old.rooms.items) items.now r.items) }
    {
        let joining = together(&self.index, self.home_up, &self.rooms, items);
        let front = &items[..joining];
        let Some(ran) = self.offer_group(rt, shared, lane as usize, front, from) else {
            self.rooms[lane as usize] = Room::No;
            return None;
        };
        Some(ran)
    }
}

impl<D: Disk> Manager<D> {
    // Asks lanes as the rule says for the first item, until it is placed.
    fn place_run<R: Wait>(
        &mut self,
        rt: &R,
        shared: &Shared<D>,
        covered: bool,
        items: &[Item],
        from: &[Block],
    ) -> Ran
        requires run { CanRun D.state shared.now self.old items.now from.now }
        requires unasked { self.old.rooms.items
            ≡ replicate (length self.old.lanes.items) Room.Unknown }
        requires covered { covered ≡ list_any (is_covered (listed_in self.old.index.entries))
            (range_with_len (first_lbn items.now) (length (first_blocks items.now from.now))) }
        ensures ready { IsReady D.state self.new }
        ensures at { IsHome shared.now self.new }
        ensures same { IsSameManager self.old self.new }
        ensures answer { IsPlacedAnswer result.answer }
        ensures run { HasRun D.tells D.state items.now from.now result.items result.answer
            (ruled_run self.old self.new items.now from.now) self.old self.new }
        ensures placing { IsPlacedRun items.now from.now result.answer self.old self.new }
        ensures fault { TellsFault D.state result.answer self.old self.new }
        ensures calm { OnOk result.answer (NoneRose D.state self.old self.new) }
        ensures unchanged { IsAsBefore result.answer self.old self.new }
    {
        'asking: loop {
            match place(self.home_up, covered, &self.ups, &self.rooms) {
                Step::Ask(lane) => {
                    if let Some(ran) = self.try_run(rt, shared, lane, items, from) {
                        return ran;
                    }
                }
                Step::Home | Step::WakeHome => {
                    let first = items[0];
                    let front = &from[..first.count as usize];
                    return Ran {
                        items: 1,
                        answer: self.write_home(rt, shared, first.lbn, front),
                    };
                }
                Step::Full => {
                    return Ran {
                        items: 0,
                        answer: Err(WriteRefusal::Full),
                    };
                }
                Step::Log(_) | Step::WakeLog(_) => unreachable!(),
            }
        }
    }

    /// Writes some first ones of the items as `write_run` does. Answers also how many a disk was to take where that failed.
    pub fn write_some<R: Wait>(
        &mut self,
        rt: &R,
        shared: &Shared<D>,
        items: &[Item],
        from: &[Block],
    ) -> Ran
        requires ready { IsReady D.state self.old }
        requires at { IsHome shared.now self.old }
        requires some { 1 ≤ length items.now }
        requires items { AreItemsOf self.old.most (state_of D.state self.old.home).size items.now }
        requires blocks { count_of items.now ≤ length from.now }
        ensures ready { IsReady D.state self.new }
        ensures at { IsHome shared.now self.new }
        ensures same { IsSameManager self.old self.new }
        ensures few { result.items ≤ 128 }

        // What the manager stood for, it stands for with these writes as one entry, or with what the refusal says; wherever the call is
        // stopped, each choice of images recovers to a cut by some first ones of them.
        ensures run { HasRun D.tells D.state items.now from.now result.items result.answer
            (ruled_run self.old self.new items.now from.now) self.old self.new }

        // The place of the first is the rule's, with room in each lane but those that were turned away in this call.
        ensures placed { IsPlaceOf (map logger_of self.old.lanes.items) result.answer
            (ruled_run self.old self.new items.now from.now) }
        ensures answered { HaveAnswered (first_count items.now)
            (takes_at (ruled_run self.old self.new items.now from.now) result.answer)
            self.new.rooms.items self.old.lanes.items self.new.lanes.items }

        ensures waking_home { NeedsHome (ruled_run self.old self.new items.now from.now)
            result.answer self.old self.new }
        ensures waking_logs { NeedsLogs (ruled_run self.old self.new items.now from.now)
            result.answer self.old self.new }

        ensures down { (p : Part) → (result.answer ≡ Err (WriteRefusal.Down p))
            ↔ (self.old.down ≡ Some p) }
        ensures versions { (result.answer ≡ Err WriteRefusal.VersionsSpent)
            ↔ ((self.old.down ≡ None) × (self.old.next ≡ 2 ^ 63)) }
        ensures memory { result.answer ≡ Err WriteRefusal.NoMemory
            → (self.old.down ≡ None) × (self.old.next < 2 ^ 63) × (self.old.index.reserved < 1) }
        ensures fault { TellsFault D.state result.answer self.old self.new }
        ensures calm { OnOk result.answer (NoneRose D.state self.old self.new) }
        ensures unchanged { IsAsBefore result.answer self.old self.new }
    {
        forget(&mut self.rooms);
        if let Some(part) = self.down {
            return Ran {
                items: 0,
                answer: Err(WriteRefusal::Down(part)),
            };
        }
        if self.next == SPENT {
            return Ran {
                items: 0,
                answer: Err(WriteRefusal::VersionsSpent),
            };
        }
        let asked = looked_at(items.len());
        let Some(places) = reserve_places(&mut self.index, asked) else {
            return Ran {
                items: 0,
                answer: Err(WriteRefusal::NoMemory),
            };
        };
        let most = versioned(self.next, places);
        let first = items[0];
        let covered = self.index.covered(first.lbn, first.count);
        self.place_run(rt, shared, covered, &items[..most], from)
    }

    /// Writes some first ones of the items, at least one: as one group to one segment of a log, or the first of them home.
    /// Answers how many and where. Each of them goes where `write` would place it behind those before it. A group is the
    /// longest such front, of at most 128 items, that the segment of the first has room for and in which, where a logger
    /// was turned away for the first, none is smaller; it takes two syncs. `from` has the items' blocks in order. Where
    /// there is no memory to list so many items, the first is written alone.
    ///
    /// What is told of a refusal comes in the order of `write`'s, and is that of `write` for the first item.
    pub fn write_run<R: Wait>(
        &mut self,
        rt: &R,
        shared: &Shared<D>,
        items: &[Item],
        from: &[Block],
    ) -> Result<(u32, Place), WriteRefusal>
        requires ready { IsReady D.state self.old }
        requires at { IsHome shared.now self.old }
        requires some { 1 ≤ length items.now }
        requires items { AreItemsOf self.old.most (state_of D.state self.old.home).size items.now }
        requires blocks { count_of items.now ≤ length from.now }
        ensures ready { IsReady D.state self.new }
        ensures at { IsHome shared.now self.new }
        ensures same { IsSameManager self.old self.new }

        // What the manager stood for, it stands for with these writes as one entry, or with what the refusal says; wherever the call is
        // stopped, each choice of images recovers to a cut by some first ones of them.
        ensures run { (tried : ℕ) × HasRun D.tells D.state items.now from.now tried
            (place_told result) (ruled_run self.old self.new items.now from.now) self.old self.new
            × IfOk result (λ told. told.0 ≡ tried) }

        // Its place is the rule's, and which disks were needed and why it was refused is told.
        ensures told { TellsRun D.state items.now from.now (place_told result) self.old self.new }
    {
        told(self.write_some(rt, shared, items, from))
    }
}

// How many of so many items one call looks at.
fn looked_at(items: usize) -> u32
    requires some { 1 ≤ items }
    ensures some { 1 ≤ result }
    ensures within { result ≤ items }
    ensures few { result ≤ 128 }
{
    items.min(MOST_ITEMS) as u32
}

// For how many of so many items there are versions.
fn versioned(next: u64, items: usize) -> usize
    requires left { next < 2 ^ 63 }
    requires some { 1 ≤ items }
    ensures some { 1 ≤ result }
    ensures most { result ≤ items }
    ensures left { next + result ≤ 2 ^ 63 }
{
    let left = SPENT - next;
    if left < items as u64 {
        left as usize
    } else {
        items
    }
}

// What is told of a run: the place with the number of its items.
fn told(ran: Ran) -> Result<(u32, Place), WriteRefusal>
    requires few { ran.items < 2 ^ 32 }
    ensures place { place_told result ≡ ran.answer }
    ensures count { IfOk result (λ told. told.0 ≡ ran.items) }
{
    match ran.answer {
        Ok(place) => Ok((ran.items as u32, place)),
        Err(refusal) => Err(refusal),
    }
}
