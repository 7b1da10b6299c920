// Blocks of several records are put home with one sync: they are laid there, record by record, then home is synced, and then they
// are marked as home, record by record. Between these calls the manager keeps up what it kept up before.
ghost use Rattle.manager.specs.Causes.{NoneRose};
ghost use Rattle.manager.specs.Reclaim.{OnTried, OnKept, OnFailed, TellsStep, KeepsOn, BreaksOff, StopsSince, Always, AreDue, AreLaid, AreOf, AreHome, HasLaid, HasSynced, with_put};
ghost use Rattle.manager.specs.Stands.{Keeps, IsReady, IsHome};
ghost use Rattle.manager.specs.Stops.{HoldsOn};
ghost use Rattle.manager.specs.declared.base.ManagerBase.{ManagerBase};
ghost use Rattle.redirect_map.specs.Index.{entry_at, changed, HasVersion, IsIndex};
ghost use Rattle.std.specs.Option.{ForSome};
ghost use Rattle.std.specs.Prelude.{◌≡◌, ℕ, List, true, None, length, OnOk, IsTrue};
ghost use Rattle.wol_promise.specs.Ruled.{Noted};

use crate::{Manager, Part, StepFault};
use logger::Shared;
use std::sync::Wait;
use volume_parts::{lay_at, sync_at};
use wol_disk::{Block, Disk, Failed};

impl<D: Disk> Manager<D> {
    /// Writes home the blocks of the mask, which are due in the record of this version, and leaves the sync to `sync_home`. They
    /// stay due: the record covers them, whichever of them a crash leaves. `from` has the record's blocks, as `fetch_rec` reads
    /// them. `DiskFault` comes only where home's count of faults rose in this call, and brings the manager down; `Down` exactly
    /// where it is down.
    pub fn lay_home<R: Wait>(
        &mut self,
        rt: &R,
        shared: &Shared<D>,
        version: u64,
        mask: u128,
        from: &[Block],
    ) -> Result<(), StepFault>
        requires ready { IsReady D.state self.old }
        requires at { IsHome shared.now self.old }
        requires there { HasVersion self.old.index.entries version }
        requires due { AreDue self.old.index.entries version mask }
        requires count { ForSome (entry_at self.old.index.entries version)
            (λ e. length from.now ≡ length e.listed.keep) }
        ensures ready { IsReady D.state self.new }
        ensures at { IsHome shared.now self.new }
        ensures fault { TellsStep D.state result self.old self.new }
        ensures calm { OnOk result (NoneRose D.state self.old self.new) }
        ensures laid { OnTried result
            (HasLaid D.state version mask from.now self.old self.new result) }

        // Home reads as if they were there, and so it does of blocks that were laid there before.
        ensures there { OnOk result ((b : ManagerBase) (notes : List Noted)
            → AreOf D.tells self.old.index.entries version from.now b notes
            → AreLaid D.tells D.state self.new version mask b notes) }
        ensures others { OnOk result ((v w : ℕ) (b : ManagerBase) (notes : List Noted)
            → AreDue self.old.index.entries v w
            → AreOf D.tells self.old.index.entries version from.now b notes
            → Keeps D.tells D.state self.old b notes
            → AreLaid D.tells D.state self.old v w b notes
            → AreLaid D.tells D.state self.new v w b notes) }
        ensures keeps { OnKept result (KeepsOn D.tells D.state self.old self.new
            (AreOf D.tells self.old.index.entries version from.now)) }
        ensures broke { OnFailed result
            (BreaksOff D.tells D.state self.old self.new
            (AreOf D.tells self.old.index.entries version from.now)) }
        ensures any_moment { OnTried result
            (IsTrue D.tells → StopsSince D.tells D.state self.old self.new
            (AreOf D.tells self.old.index.entries version from.now)) }

        // With more steps of this kind, a stop at any moment since an earlier one leaves what stood then.
        ensures since { OnTried result (HoldsOn D.tells D.state self.old self.new
            (AreOf D.tells self.old.index.entries version from.now)) }
    {
        if let Some(part) = self.down {
            return Err(StepFault::Down(part));
        }
        let Some(record) = self.index.find(version) else {
            unreachable!()
        };
        let lock = &shared.spindles[self.id as usize];
        self.home_up = true;
        match lay_at(
            rt,
            lock,
            &mut self.spindle,
            &mut self.home,
            record.lbn,
            mask,
            from,
        ) {
            Ok(()) => Ok(()),
            Err(Failed) => {
                let home = Part::Home { volume: self.id };
                self.down = Some(home);
                Err(StepFault::DiskFault(home))
            }
        }
    }

    /// Syncs home. `DiskFault` comes only where home's count of faults rose in this call, and brings the manager down; `Down`
    /// exactly where it is down.
    pub fn sync_home<R: Wait>(&mut self, rt: &R, shared: &Shared<D>) -> Result<(), StepFault>
        requires ready { IsReady D.state self.old }
        requires at { IsHome shared.now self.old }
        ensures ready { IsReady D.state self.new }
        ensures at { IsHome shared.now self.new }
        ensures fault { TellsStep D.state result self.old self.new }
        ensures calm { OnOk result (NoneRose D.state self.old self.new) }
        ensures synced { OnTried result (HasSynced D.state self.old self.new result) }
        ensures there { OnOk result ((v w : ℕ) (b : ManagerBase) (notes : List Noted)
            → AreLaid D.tells D.state self.old v w b notes
            → AreHome D.tells D.state self.new v w b notes) }
        ensures keeps { OnKept result (KeepsOn D.tells D.state self.old self.new Always) }
        ensures broke { OnFailed result (BreaksOff D.tells D.state self.old self.new Always) }
        ensures any_moment { OnTried result
            (IsTrue D.tells → StopsSince D.tells D.state self.old self.new Always) }
        ensures since { OnTried result (HoldsOn D.tells D.state self.old self.new Always) }
    {
        if let Some(part) = self.down {
            return Err(StepFault::Down(part));
        }
        let lock = &shared.spindles[self.id as usize];
        self.home_up = true;
        match sync_at(rt, lock, &mut self.spindle, &mut self.home) {
            Ok(()) => Ok(()),
            Err(Failed) => {
                let home = Part::Home { volume: self.id };
                self.down = Some(home);
                Err(StepFault::DiskFault(home))
            }
        }
    }

    /// Counts the blocks of the mask, which are due in the record of this version, as home, where they were laid and synced.
    pub fn mark_home(&mut self, version: u64, mask: u128)
        requires ready { IsReady D.state self.old }
        requires up { self.old.down ≡ None }
        requires awake { self.old.home_up ≡ true }
        requires there { HasVersion self.old.index.entries version }
        requires due { AreDue self.old.index.entries version mask }
        ensures ready { IsReady D.state self.new }
        ensures unchanged { self.new ≡ record self.old { index = self.new.index } }
        ensures marked { self.new.index.entries
            ≡ changed version (with_put mask) self.old.index.entries }
        ensures index { IsIndex self.old.index.entries }
        ensures keeps { KeepsOn D.tells D.state self.old self.new
            (AreHome D.tells D.state self.old version mask) }
    {
        let Some(record) = self.index.find(version) else {
            unreachable!()
        };
        let _ = record;
        let homed = self.index.homed(version);
        self.index.set_homed(version, homed | mask);
    }
}
