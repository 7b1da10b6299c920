// Steps of reclaim: a record is read, its due blocks are put home, and what may go of it is given up; or a segment goes with all
// its records.
ghost use Rattle.manager.specs.Causes.{NoneRose};
ghost use Rattle.manager.specs.Reading.{IsReadThrough};
ghost use Rattle.manager.specs.Reclaim.{OnTried, OnKept, OnFailed, TellsStep, KeepsOn, BreaksOff, StopsSince, Always, AreOf, HasFetched, HasStored, HasDropped, HasDroppedSegment, AllGoIn};
ghost use Rattle.manager.specs.Stands.{Keeps, IsReady, IsHome, entries_at};
ghost use Rattle.manager.specs.Stops.{HoldsOn};
ghost use Rattle.manager.specs.declared.base.ManagerBase.{ManagerBase};
ghost use Rattle.redirect_map.specs.Index.{entry_at, HasVersion};
ghost use Rattle.std.specs.Option.{ForSome};
ghost use Rattle.std.specs.Prelude.{◌≡◌, ◌+◌, ℕ, List, true, None, Ok, length, OnOk, IfOk, IsTrue, is_none};
ghost use Rattle.wol_model.specs.Index.{listed_in, is_due, has_going};
ghost use Rattle.wol_model.specs.Log.{has_bit};
ghost use Rattle.wol_promise.specs.Ruled.{Noted};

use crate::read::spot_of;
use crate::{Manager, Part, StepFault};
use garbage_list::may_go;
use logger::Shared;
use std::sync::Wait;
use volume_parts::{forget, head_of, put_at};
use wol_disk::{Block, Disk, Failed};

impl<D: Disk> Manager<D> {
    /// Reads the record of this version, all its blocks, kept or not. `DiskFault` comes only where the count of faults of
    /// the record's segment rose in this call, and brings the manager down; `Down` exactly where it is down.
    pub fn fetch_rec<R: Wait>(
        &mut self,
        rt: &R,
        shared: &Shared<D>,
        version: u64,
        out: &mut [Block],
    ) -> Result<(), StepFault>
        requires ready { IsReady D.state self.old }
        requires at { IsHome shared.now self.old }
        requires there { HasVersion self.old.index.entries version }
        requires count { ForSome (entry_at self.old.index.entries version)
            (λ e. length out.old ≡ length e.listed.keep) }
        ensures ready { IsReady D.state self.new }
        ensures at { IsHome shared.now self.new }
        ensures fault { TellsStep D.state result self.old self.new }
        ensures calm { OnOk result (NoneRose D.state self.old self.new) }
        ensures fetched { OnTried result
            (ForSome (entry_at self.old.index.entries version)
            (λ e. HasFetched e.listed.lane self.old self.new)) }
        ensures read { OnOk result (IsReadThrough D.state self.old self.new) }
        ensures content { (b : ManagerBase) (notes : List Noted)
            → Keeps D.tells D.state self.old b notes
            → OnOk result (AreOf D.tells self.old.index.entries version out.new b notes) }
        ensures keeps { OnKept result (KeepsOn D.tells D.state self.old self.new Always) }
        ensures broke { OnFailed result (BreaksOff D.tells D.state self.old self.new Always) }
        ensures any_moment { OnTried result
            (IsTrue D.tells → StopsSince D.tells D.state self.old self.new Always) }
        ensures since { OnTried result (HoldsOn D.tells D.state self.old self.new Always) }
    {
        if let Some(part) = self.down {
            return Err(StepFault::Down(part));
        }
        let Some(record) = self.index.find(version) else {
            unreachable!()
        };
        match self.read_record(rt, shared, &record, out) {
            Ok(()) => Ok(()),
            Err(part) => {
                self.down = Some(part);
                Err(StepFault::DiskFault(part))
            }
        }
    }

    /// Writes home the blocks of the mask, which are due in the record of this version, syncs once, and then counts them as
    /// home. `from` has the record's blocks, as `fetch_rec` reads them. `DiskFault` comes only where home's count of faults
    /// rose in this call, and brings the manager down; `Down` exactly where it is down.
    pub fn store_home<R: Wait>(
        &mut self,
        rt: &R,
        shared: &Shared<D>,
        version: u64,
        mask: u128,
        from: &[Block],
    ) -> Result<(), StepFault>
        requires ready { IsReady D.state self.old }
        requires at { IsHome shared.now self.old }
        requires there { HasVersion self.old.index.entries version }
        requires due { ForSome (entry_at self.old.index.entries version)
            (λ e. (i : ℕ) → has_bit mask i ≡ true
            → is_due (listed_in self.old.index.entries) e.listed (e.listed.first + i) ≡ true) }
        requires count { ForSome (entry_at self.old.index.entries version)
            (λ e. length from.now ≡ length e.listed.keep) }
        ensures ready { IsReady D.state self.new }
        ensures at { IsHome shared.now self.new }
        ensures fault { TellsStep D.state result self.old self.new }
        ensures calm { OnOk result (NoneRose D.state self.old self.new) }
        ensures stored { OnTried result
            (HasStored D.state version mask from.now self.old self.new result) }
        ensures keeps { OnKept result (KeepsOn D.tells D.state self.old self.new
            (AreOf D.tells self.old.index.entries version from.now)) }
        ensures broke { OnFailed result
            (BreaksOff D.tells D.state self.old self.new
            (AreOf D.tells self.old.index.entries version from.now)) }
        ensures any_moment { OnTried result
            (IsTrue D.tells → StopsSince D.tells D.state self.old self.new
            (AreOf D.tells self.old.index.entries version from.now)) }
    {
        if let Some(part) = self.down {
            return Err(StepFault::Down(part));
        }
        let Some(record) = self.index.find(version) else {
            unreachable!()
        };
        let homed = self.index.homed(version);
        let lock = &shared.spindles[self.id as usize];
        self.home_up = true;
        match put_at(
            rt,
            lock,
            &mut self.spindle,
            &mut self.home,
            record.lbn,
            mask,
            from,
        ) {
            Ok(()) => {
                self.index.set_homed(version, homed | mask);
                Ok(())
            }
            Err(Failed) => {
                let home = Part::Home { volume: self.id };
                self.down = Some(home);
                Err(StepFault::DiskFault(home))
            }
        }
    }

    /// Gives up the blocks of this version's record that may go, and no others, and answers whether the record is gone. A
    /// segment in which no record is left is retired and given to its pool in the same call. `DiskFault` comes only where
    /// the count of faults of the record's segment rose in this call, and brings the manager down; `Down` exactly where it
    /// is down.
    pub fn drop_rec<R: Wait>(
        &mut self,
        rt: &R,
        shared: &Shared<D>,
        version: u64,
    ) -> Result<bool, StepFault>
        requires ready { IsReady D.state self.old }
        requires at { IsHome shared.now self.old }
        requires there { HasVersion self.old.index.entries version }
        requires goes { ForSome (entry_at self.old.index.entries version)
            (λ e. has_going (listed_in self.old.index.entries) e.listed ≡ true) }
        ensures ready { IsReady D.state self.new }
        ensures at { IsHome shared.now self.new }
        ensures fault { TellsStep D.state result self.old self.new }
        ensures calm { OnOk result (NoneRose D.state self.old self.new) }
        ensures gone { IfOk result
            (λ gone. gone ≡ is_none (entry_at self.new.index.entries version)) }
        ensures dropped { OnTried result
            (ForSome (entry_at self.old.index.entries version)
            (λ e. HasDropped version e self.old self.new result)) }
        ensures keeps { OnKept result (KeepsOn D.tells D.state self.old self.new Always) }
        ensures broke { OnFailed result (BreaksOff D.tells D.state self.old self.new Always) }
        ensures any_moment { OnTried result
            (IsTrue D.tells → StopsSince D.tells D.state self.old self.new Always) }
    {
        if let Some(part) = self.down {
            return Err(StepFault::Down(part));
        }
        let Some(record) = self.index.find(version) else {
            unreachable!()
        };
        let given = may_go(&self.index, version);
        let keep = record.keep & !given;
        let head = head_of(self.id, &record);
        let place = record.lane as usize;
        self.ups[place] = true;
        let lane = &mut self.lanes[place];
        let spot = spot_of(&record);
        let segment = Part::Segment {
            volume: lane.logger(),
            index: record.segment,
        };
        match lane.trim(rt, shared, &spot, &head, keep) {
            Ok(()) => {
                self.index.trim(version, given);
                Ok(keep == 0)
            }
            Err(Failed) => {
                self.down = Some(segment);
                Err(StepFault::DiskFault(segment))
            }
        }
    }

    /// How many records keep a block in the segment of this version's record, itself among them.
    pub fn records_beside(&self, version: u64) -> u32
        requires ready { IsReady D.state self.now }
        requires up { self.now.down ≡ None }
        requires there { HasVersion self.now.index.entries version }
        ensures { ForSome (entry_at self.now.index.entries version)
            (λ e. result ≡ entries_at e.listed.lane e.index self.now.index.entries) }
    {
        let Some(record) = self.index.find(version) else {
            unreachable!()
        };
        self.lanes[record.lane as usize].valid(record.segment)
    }

    /// Gives up the segment of this version's record with all its records, of which all that they keep may go. It is
    /// retired by one write of its head, and given to its pool. Answers how many records are gone. `DiskFault` comes only
    /// where the segment's count of faults rose in this call, and brings the manager down; `Down` exactly where it is down.
    pub fn drop_segment<R: Wait>(
        &mut self,
        rt: &R,
        shared: &Shared<D>,
        version: u64,
    ) -> Result<u32, StepFault>
        requires ready { IsReady D.state self.old }
        requires at { IsHome shared.now self.old }
        requires there { HasVersion self.old.index.entries version }
        requires go { ForSome (entry_at self.old.index.entries version)
            (λ e. AllGoIn e.listed.lane e.index self.old.index.entries) }
        ensures ready { IsReady D.state self.new }
        ensures at { IsHome shared.now self.new }
        ensures fault { TellsStep D.state result self.old self.new }
        ensures calm { OnOk result (NoneRose D.state self.old self.new) }
        ensures gone { IfOk result (λ gone. ForSome (entry_at self.old.index.entries version)
            (λ e. gone ≡ entries_at e.listed.lane e.index self.old.index.entries)) }
        ensures dropped { OnTried result
            (ForSome (entry_at self.old.index.entries version)
            (λ e. HasDroppedSegment e.listed.lane e.index self.old self.new result)) }
        ensures keeps { OnKept result (KeepsOn D.tells D.state self.old self.new Always) }
        ensures broke { OnFailed result (BreaksOff D.tells D.state self.old self.new Always) }
        ensures any_moment { OnTried result
            (IsTrue D.tells → StopsSince D.tells D.state self.old self.new Always) }
    {
        if let Some(part) = self.down {
            return Err(StepFault::Down(part));
        }
        let Some(record) = self.index.find(version) else {
            unreachable!()
        };
        let place = record.lane as usize;
        self.ups[place] = true;
        let lane = &mut self.lanes[place];
        let retired = Part::Segment {
            volume: lane.logger(),
            index: record.segment,
        };
        let count = lane.valid(record.segment);
        match lane.retire(rt, shared, record.segment) {
            Ok(()) => {
                forget(
                    &mut self.index,
                    &self.ups,
                    record.lane,
                    record.segment,
                    count,
                );
                Ok(count)
            }
            Err(Failed) => {
                self.down = Some(retired);
                Err(StepFault::DiskFault(retired))
            }
        }
    }
}
