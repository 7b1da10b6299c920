// Reads: each run of blocks comes from home or from its newest record, and a record can be read with all its blocks.
ghost use Rattle.manager.specs.Answers.{was_read};
ghost use Rattle.manager.specs.Causes.{PartRose, NoneRose};
ghost use Rattle.manager.specs.Reading.{CanReadRun, HasReadRun, ReadsBlocks, TellsSources, IsReadThrough, HasOnlyRead, NeedsSources, NeedsFirstOf};
ghost use Rattle.manager.specs.Reclaim.{AreOf, HasFetched};
ghost use Rattle.manager.specs.Seen.{look_of_manager};
ghost use Rattle.manager.specs.Stands.{CanServe, IsReady, IsHome, IsSameManager, Keeps, Leaves};
ghost use Rattle.manager.specs.Stops.{StopsWith};
ghost use Rattle.manager.specs.declared.base.ManagerBase.{ManagerBase};
ghost use Rattle.manager.specs.declared.part.Part.{Part};
ghost use Rattle.manager.specs.declared.part.Part.TheVariants.{Segment};
ghost use Rattle.redirect_map.specs.Index.{entry_at, IsAnswer, IsIndex};
ghost use Rattle.spin_model.specs.Spun.{state_of};
ghost use Rattle.std.specs.List.{count_by, range_with_len};
ghost use Rattle.std.specs.Prelude.{◌≡◌, ◌↔◌, ◌+◌, ◌≤◌, ◌<◌, List, [], length, OnOk, IfOk, IfErr, IsSome, is_ok, None, Some};
ghost use Rattle.wol_model.specs.Blocks.{after};
ghost use Rattle.wol_model.specs.History.{worker};
ghost use Rattle.wol_model.specs.Index.{listed_in, is_covered};
ghost use Rattle.wol_promise.specs.Policy.{woken};
ghost use Rattle.wol_promise.specs.Ruled.{Noted};

use crate::{Manager, Part, ReadRefusal, Sources};
use logger::{Shared, Spot};
use redirect_map::Rec;
use std::sync::Wait;
use volume_parts::fetch_at;
use wol_disk::{Block, Disk, Failed};

// The same answer, where the refusal names the part.
fn at_part(part: Part, answer: Result<(), Failed>) -> Result<(), Part>
    ensures like { is_ok result ≡ is_ok answer }
    ensures part { IfErr result (λ p. p ≡ part) }
{
    match answer {
        Ok(()) => Ok(()),
        Err(Failed) => Err(part),
    }
}

// Where the log has the record that the index lists so.
pub(crate) fn spot_of(listed: &Rec) -> Spot
    ensures { result ≡ record { segment = listed.now.segment; pos = listed.now.pos } }
{
    Spot {
        segment: listed.segment,
        pos: listed.pos,
    }
}

// The segment on the log of this volume where the index lists the record.
fn segment_of(listed: &Rec, logger: u32) -> Part
    ensures { result ≡ Segment logger listed.now.segment }
{
    Part::Segment {
        volume: logger,
        index: listed.segment,
    }
}

impl<D: Disk> Manager<D> {
    /// Reads the blocks from block `lbn` of the volume on: each as its newest record in a log has it, or as home has it
    /// where no record covers it. Only the disks that have them are woken. Tells how many blocks came from home and
    /// how many from logs. It takes no memory. `DiskFault` brings the manager down; after it the bytes in `out` are open.
    pub fn read<R: Wait>(
        &mut self,
        rt: &R,
        shared: &Shared<D>,
        lbn: u64,
        out: &mut [Block],
    ) -> Result<Sources, ReadRefusal>
        requires ready { IsReady D.state self.old }
        requires at { IsHome shared.now self.old }
        requires count { (1 ≤ length out.old) × (length out.old ≤ self.old.most) }
        requires fits { lbn + length out.old ≤ (state_of D.state self.old.home).size }
        ensures ready { IsReady D.state self.new }
        ensures at { IsHome shared.now self.new }
        ensures same { IsSameManager self.old self.new }
        ensures stands { Leaves D.tells D.state self.old self.new (was_read lbn out.new result) []
            worker }
        ensures look { OnOk result
            (look_of_manager self.new ≡ woken (look_of_manager self.old) lbn (length out.old)) }
        ensures logged { IfOk result (λ s.
            s.logged ≡ count_by (is_covered (listed_in self.old.index.entries))
            (range_with_len lbn (length out.old))) }
        ensures all { IfOk result (λ s. s.home + s.logged ≡ length out.old) }

        // Home is needed exactly where a block isn't covered, and a logger exactly where it has the newest record of one.
        // A refused read needs what some first blocks of the range need.
        ensures needs { NeedsFirstOf self.old self.new lbn (length out.old) }
        ensures needs_all { OnOk result (NeedsSources self.old self.new lbn (length out.old)) }

        ensures down { (p : Part) → (result ≡ Err (ReadRefusal.Down p)) ↔ (self.old.down ≡ Some p) }
        ensures unchanged { IsSome self.old.down → (self.new ≡ self.old) × (out.new ≡ out.old) }
        ensures read { HasOnlyRead D.state self.old self.new }
        ensures cause { (p : Part) → result ≡ Err (ReadRefusal.DiskFault p)
            → (self.new.down ≡ Some p) × PartRose D.state self.old self.new p }
        ensures up { OnOk result (self.new.down ≡ None) }

        // Where it is answered no disk call failed in it.
        ensures calm { OnOk result (NoneRose D.state self.old self.new) }

        ensures any_moment { StopsWith D.tells D.state self.old self.new None [] }
    {
        if let Some(part) = self.down {
            return Err(ReadRefusal::Down(part));
        }
        match self.read_runs(rt, shared, lbn, out) {
            Ok(sources) => Ok(sources),
            Err(part) => {
                self.down = Some(part);
                Err(ReadRefusal::DiskFault(part))
            }
        }
    }

    // Reads blocks that no record covers. The refusal names home.
    fn read_home<R: Wait>(
        &mut self,
        rt: &R,
        shared: &Shared<D>,
        lbn: u64,
        out: &mut [Block],
    ) -> Result<(), Part>
        requires { CanReadRun D.state shared.now self.old lbn (length out.old) None }
        ensures run { HasReadRun D.state shared.now lbn (length out.old) self.old self.new }
        ensures content { ReadsBlocks D.tells D.state self.old lbn (length out.old) out.new result }
        ensures cause { IfErr result (PartRose D.state self.old self.new) }
        ensures calm { OnOk result (NoneRose D.state self.old self.new) }
    {
        self.home_up = true;
        let home = Part::Home { volume: self.id };
        let lock = &shared.spindles[self.id as usize];
        let answer = fetch_at(rt, lock, &mut self.spindle, &mut self.home, lbn, out);
        at_part(home, answer)
    }

    // Reads blocks of which this record is the newest one. The refusal names its segment.
    fn read_log<R: Wait>(
        &mut self,
        rt: &R,
        shared: &Shared<D>,
        record: &Rec,
        lbn: u64,
        out: &mut [Block],
    ) -> Result<(), Part>
        requires { CanReadRun D.state shared.now self.old lbn (length out.old) (Some «record».now) }
        ensures run { HasReadRun D.state shared.now lbn (length out.old) self.old self.new }
        ensures content { ReadsBlocks D.tells D.state self.old lbn (length out.old) out.new result }
        ensures cause { IfErr result (PartRose D.state self.old self.new) }
        ensures calm { OnOk result (NoneRose D.state self.old self.new) }
    {
        let place = record.lane as usize;
        self.ups[place] = true;
        let lane = &mut self.lanes[place];
        let spot = spot_of(record);
        let segment = segment_of(record, lane.logger());
        let skip = (lbn - record.lbn) as u32;
        let answer = lane.read(rt, shared, &spot, skip, out);
        at_part(segment, answer)
    }

    // Reads all blocks of this record of the index, kept or not. The refusal names its segment.
    pub(crate) fn read_record<R: Wait>(
        &mut self,
        rt: &R,
        shared: &Shared<D>,
        record: &Rec,
        out: &mut [Block],
    ) -> Result<(), Part>
        requires serves { CanServe D.state shared.now self.old }
        requires index { IsIndex self.old.index.entries }
        requires there { IsAnswer (entry_at self.old.index.entries «record».now.version)
            (Some «record».now) }
        requires count { length out.old ≡ «record».now.count }
        ensures ready { IsReady D.state self.new }
        ensures at { IsHome shared.now self.new }
        ensures read { IsReadThrough D.state self.old self.new }
        ensures fetched { HasFetched «record».now.lane self.old self.new }
        ensures content { (b : ManagerBase) (notes : List Noted)
            → Keeps D.tells D.state self.old b notes
            → OnOk result
            (AreOf D.tells self.old.index.entries «record».now.version out.new b notes) }
        ensures cause { IfErr result (PartRose D.state self.old self.new) }
        ensures calm { OnOk result (NoneRose D.state self.old self.new) }
    {
        let place = record.lane as usize;
        self.ups[place] = true;
        let lane = &mut self.lanes[place];
        let spot = spot_of(record);
        let segment = segment_of(record, lane.logger());
        let answer = lane.read(rt, shared, &spot, 0, out);
        at_part(segment, answer)
    }

    // Reads blocks that have one source, and tells it.
    fn read_run<R: Wait>(
        &mut self,
        rt: &R,
        shared: &Shared<D>,
        source: Option<Rec>,
        lbn: u64,
        out: &mut [Block],
    ) -> Result<Sources, Part>
        requires run { CanReadRun D.state shared.now self.old lbn (length out.old) source }
        requires few { length out.old ≤ 128 }
        ensures run { HasReadRun D.state shared.now lbn (length out.old) self.old self.new }
        ensures content { ReadsBlocks D.tells D.state self.old lbn (length out.old) out.new result }
        ensures counted { IfOk result (TellsSources self.old.index.entries lbn (length out.old)) }
        ensures cause { IfErr result (PartRose D.state self.old self.new) }
        ensures calm { OnOk result (NoneRose D.state self.old self.new) }
    {
        let count = out.len() as u32;
        match source {
            None => {
                self.read_home(rt, shared, lbn, out)?;
                Ok(Sources {
                    home: count,
                    logged: 0,
                })
            }
            Some(record) => {
                self.read_log(rt, shared, &record, lbn, out)?;
                Ok(Sources {
                    home: 0,
                    logged: count,
                })
            }
        }
    }

    // Reads run after run.
    fn read_runs<R: Wait>(
        &mut self,
        rt: &R,
        shared: &Shared<D>,
        lbn: u64,
        out: &mut [Block],
    ) -> Result<Sources, Part>
        requires serves { CanServe D.state shared.now self.old }
        requires most { length out.old ≤ 128 }
        requires fits { lbn + length out.old ≤ (state_of D.state self.old.home).size }
        ensures ready { IsReady D.state self.new }
        ensures at { IsHome shared.now self.new }
        ensures read { IsReadThrough D.state self.old self.new }
        ensures look { OnOk result
            (look_of_manager self.new ≡ woken (look_of_manager self.old) lbn (length out.old)) }
        ensures needs { NeedsFirstOf self.old self.new lbn (length out.old) }
        ensures needs_all { OnOk result (NeedsSources self.old self.new lbn (length out.old)) }
        ensures content { ReadsBlocks D.tells D.state self.old lbn (length out.old) out.new result }
        ensures counted { IfOk result (TellsSources self.old.index.entries lbn (length out.old)) }
        ensures cause { IfErr result (PartRose D.state self.old self.new) }
        ensures calm { OnOk result (NoneRose D.state self.old self.new) }
    {
        let mut sources = Sources { home: 0, logged: 0 };
        let mut done = 0;
        'runs: while done < out.len() {
            let at = lbn + done as u64;
            let (source, count) = self.index.newest_run(at, out.len() - done);
            let run = self.read_run(rt, shared, source, at, &mut out[done..done + count])?;
            sources.home += run.home;
            sources.logged += run.logged;
            done += count;
        }
        Ok(sources)
    }
}
