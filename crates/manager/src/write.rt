// A write of some blocks, which is a run of one item, and those that go home.
ghost use Rattle.logger.specs.Lanes.{logger_of};
ghost use Rattle.manager.specs.Accesses.{HasUsedOnce};
ghost use Rattle.manager.specs.Answers.{home_write, written, IsPlaceOf};
ghost use Rattle.manager.specs.Causes.{NoneRose};
ghost use Rattle.manager.specs.Seen.{look_of_manager};
ghost use Rattle.manager.specs.Stands.{CanServe, IsReady, IsHome, IsSameManager, Leaves, LeavesPassing, passed_in};
ghost use Rattle.manager.specs.Stops.{StopsWith, StopsClaiming};
ghost use Rattle.manager.specs.Writing.{HaveAnswered, HasLook, NeedsHome, NeedsLogs, TellsFault, IsAsBefore, IsHomeAnswer, ruled_place, takes_at, in_flight};
ghost use Rattle.manager.specs.declared.part.Part.{Part};
ghost use Rattle.spin_model.specs.Spun.{state_of};
ghost use Rattle.std.specs.List.{list_any, range_with_len};
ghost use Rattle.std.specs.Prelude.{◌≡◌, ◌↔◌, ◌+◌, ◌≤◌, ◌<◌, ◌^◌, true, false, None, Some, Err, IsOk, IsSome, IfNone, IfSome, OnOk, length, map};
ghost use Rattle.wol_model.specs.History.{worker};
ghost use Rattle.wol_model.specs.Index.{listed_in, is_covered};

use crate::{Manager, Part, Place, WriteRefusal};
use log_segment::Item;
use logger::Shared;
use std::sync::Wait;
use volume_parts::store_at;
use wol_disk::{Block, Disk, Failed};

impl<D: Disk> Manager<D> {
    // Writes blocks home that no record covers.
    pub(crate) fn write_home<R: Wait>(
        &mut self,
        rt: &R,
        shared: &Shared<D>,
        lbn: u64,
        from: &[Block],
    ) -> Result<Place, WriteRefusal>
        requires serves { CanServe D.state shared.now self.old }
        requires fits { lbn + length from.now ≤ (state_of D.state self.old.home).size }
        requires bare { list_any (is_covered (listed_in self.old.index.entries))
            (range_with_len lbn (length from.now)) ≡ false }
        ensures ready { IsReady D.state self.new }
        ensures at { IsHome shared.now self.new }
        ensures answer { IsHomeAnswer self.old.id result }
        ensures unchanged { self.new ≡ record self.old {
          home = self.new.home;
          spindle = self.new.spindle;
          home_up = true;
          down = self.new.down;
        } }
        ensures stands { LeavesPassing D.tells D.state self.old self.new
            (written self.old.next lbn from.now result) worker }
        ensures waking { HasUsedOnce self.old.spindle self.new.spindle }
        ensures fault { TellsFault D.state result self.old self.new }
        ensures calm { OnOk result (NoneRose D.state self.old self.new) }
        ensures any_moment { StopsWith D.tells D.state self.old self.new None
            (in_flight self.old.next lbn from.now result) }
    {
        let lock = &shared.spindles[self.id as usize];
        self.home_up = true;
        match store_at(rt, lock, &mut self.spindle, &mut self.home, lbn, from) {
            Ok(()) => Ok(Place::Home),
            Err(Failed) => {
                let home = Part::Home { volume: self.id };
                self.down = Some(home);
                Err(WriteRefusal::DiskFault(home))
            }
        }
    }

    /// Writes blocks home as one write with one sync, however many they are, where the rule of placing has them go there without
    /// waking it: home is awake, and no record covers one of them. Else it does nothing, and answers nothing.
    pub fn write_wide<R: Wait>(
        &mut self,
        rt: &R,
        shared: &Shared<D>,
        lbn: u64,
        from: &[Block],
    ) -> Option<Result<Place, WriteRefusal>>
        requires ready { IsReady D.state self.old }
        requires at { IsHome shared.now self.old }
        requires few { length from.now < 2 ^ 32 }
        requires fits { lbn + length from.now ≤ (state_of D.state self.old.home).size }
        ensures ready { IsReady D.state self.new }
        ensures at { IsHome shared.now self.new }
        ensures nothing { IfNone result (self.new ≡ self.old) }
        ensures home { IsSome result ↔ ((self.old.down ≡ None) × (self.old.home_up ≡ true)
            × (list_any (is_covered (listed_in self.old.index.entries))
            (range_with_len lbn (length from.now)) ≡ false)) }
        ensures answer { IfSome result (IsHomeAnswer self.old.id) }
        ensures stands { IfSome result (λ r. LeavesPassing D.tells D.state self.old self.new
            (written self.old.next lbn from.now r) worker) }
        ensures waking { IfSome result (λ r. HasUsedOnce self.old.spindle self.new.spindle) }
        ensures fault { IfSome result (λ r. TellsFault D.state r self.old self.new) }
        ensures calm { IfSome result (λ r. OnOk r (NoneRose D.state self.old self.new)) }
        ensures any_moment { IfSome result (λ r. StopsWith D.tells D.state self.old self.new None
            (in_flight self.old.next lbn from.now r)) }
    {
        if self.down.is_some() || !self.home_up {
            return None;
        }
        if self.index.covered(lbn, from.len() as u32) {
            return None;
        }
        Some(self.write_home(rt, shared, lbn, from))
    }

    /// Writes 1 to `most` blocks from block `lbn` on, at home or to the log of a logger, as the rule of placing says for
    /// the flags at the call, and answers where. A logger has room where a held segment of it has, or where its pool
    /// gives a segment in this call. Home is woken only for a write that goes home, and a logger only for one that goes
    /// to its log. All memory is taken before a pool is asked.
    ///
    /// What is told of a refusal comes in this order: `Down`, `VersionsSpent`, `NoMemory`, then `Full` exactly where the
    /// rule ends without a place, and `DiskFault` only where the count of the part rose in this call.
    pub fn write<R: Wait>(
        &mut self,
        rt: &R,
        shared: &Shared<D>,
        lbn: u64,
        from: &[Block],
    ) -> Result<Place, WriteRefusal>
        requires ready { IsReady D.state self.old }
        requires at { IsHome shared.now self.old }
        requires count { (1 ≤ length from.now) × (length from.now ≤ self.old.most) }
        requires fits { lbn + length from.now ≤ (state_of D.state self.old.home).size }
        ensures ready { IsReady D.state self.new }
        ensures at { IsHome shared.now self.new }
        ensures same { IsSameManager self.old self.new }

        // What the manager stood for, it stands for with this write, or with what its refusal says.
        ensures stands { Leaves D.tells D.state self.old self.new
            (written self.old.next lbn from.now result) (passed_in self.new.rooms.items) worker }

        // The place is the rule's, with room in each lane but those that were turned away in this call.
        ensures placed { IsPlaceOf (map logger_of self.old.lanes.items) result
            (ruled_place self.old self.new lbn from.now) }
        ensures answered { HaveAnswered (length from.now)
            (takes_at (ruled_place self.old self.new lbn from.now) result) self.new.rooms.items
            self.old.lanes.items self.new.lanes.items }
        ensures look { HasLook (ruled_place self.old self.new lbn from.now)
            (home_write lbn from.now) result (look_of_manager self.old) (look_of_manager self.new) }

        ensures waking_home { NeedsHome (ruled_place self.old self.new lbn from.now) result self.old
            self.new }
        ensures waking_logs { NeedsLogs (ruled_place self.old self.new lbn from.now) result self.old
            self.new }

        ensures down { (p : Part) → (result ≡ Err (WriteRefusal.Down p))
            ↔ (self.old.down ≡ Some p) }
        ensures versions { (result ≡ Err WriteRefusal.VersionsSpent)
            ↔ ((self.old.down ≡ None) × (self.old.next ≡ 2 ^ 63)) }
        ensures memory { result ≡ Err WriteRefusal.NoMemory
            → (self.old.down ≡ None) × (self.old.next < 2 ^ 63) × (self.old.index.reserved < 1) }
        ensures fault { TellsFault D.state result self.old self.new }
        ensures calm { OnOk result (NoneRose D.state self.old self.new) }
        ensures unchanged { IsAsBefore result self.old self.new }

        // Wherever the call is stopped, each choice of images recovers to a cut by this call's write; of a segment that it claimed, the images
        // since it was free.
        ensures any_moment { StopsClaiming D.tells D.state (IsOk result) self.old self.new
            (in_flight self.old.next lbn from.now result) }
    {
        let item = Item {
            lbn,
            count: from.len() as u32,
        };
        self.write_some(rt, shared, &[item], from).answer
    }
}
