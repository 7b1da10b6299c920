// What a manager is asked for.
ghost use Rattle.log_segment.specs.Records.{count_of};
ghost use Rattle.manager.specs.Groups.{AreItemsOf};
ghost use Rattle.std.specs.Prelude.{◌≤◌, ◌+◌, length};
ghost use Rattle.volume_tests.specs.Rigs.{IsRig};

use crate::rig::Rig;
use log_segment::Item;
use manager::{Place, ReadRefusal, Sources, StepFault, WriteRefusal};
use reclaimer::{
    Drain, Fetched, Gone, drain_step, fetch, give_up_group, invalidate_one, put_group, put_home,
};
use std::sync::Wait;
use wol_disk::Block;

impl Rig {
    /// Sets whether home and the logger count as awake.
    pub fn begin(&mut self, home: bool, logger: bool)
        requires { IsRig self.old }
        ensures { IsRig self.new }
    {
        self.manager.begin(home, &[logger]);
    }

    pub fn write<R: Wait>(
        &mut self,
        rt: &R,
        lbn: u64,
        from: &[Block],
    ) -> Result<Place, WriteRefusal>
        requires rig { IsRig self.old }
        requires count { (1 ≤ length from.now) × (length from.now ≤ 4) }
        requires fits { lbn + length from.now ≤ 8 }
        ensures { IsRig self.new }
    {
        self.manager.write(rt, &self.shared, lbn, from)
    }

    /// Writes some first ones of the items.
    pub fn write_run<R: Wait>(
        &mut self,
        rt: &R,
        items: &[Item],
        from: &[Block],
    ) -> Result<(u32, Place), WriteRefusal>
        requires rig { IsRig self.old }
        requires some { 1 ≤ length items.now }
        requires few { length items.now ≤ 16 }
        requires items { AreItemsOf 4 8 items.now }
        requires blocks { count_of items.now ≤ length from.now }
        ensures { IsRig self.new }
    {
        self.manager.write_run(rt, &self.shared, items, from)
    }

    pub fn read<R: Wait>(
        &mut self,
        rt: &R,
        lbn: u64,
        out: &mut [Block],
    ) -> Result<Sources, ReadRefusal>
        requires rig { IsRig self.old }
        requires count { (1 ≤ length out.old) × (length out.old ≤ 4) }
        requires fits { lbn + length out.old ≤ 8 }
        ensures { IsRig self.new }
    {
        self.manager.read(rt, &self.shared, lbn, out)
    }

    /// Reads the next record with due blocks.
    pub fn fetch<R: Wait>(&mut self, rt: &R) -> Result<Fetched, StepFault>
        requires { IsRig self.old }
        ensures { IsRig self.new }
    {
        fetch(rt, &mut self.manager, &self.shared, &mut self.fetched)
    }

    /// Puts home what was fetched.
    pub fn put_home<R: Wait>(&mut self, rt: &R) -> Result<u32, StepFault>
        requires { IsRig self.old }
        ensures { IsRig self.new }
    {
        put_home(rt, &mut self.manager, &self.shared, &self.fetched)
    }

    pub fn invalidate_one<R: Wait>(&mut self, rt: &R) -> Result<Gone, StepFault>
        requires { IsRig self.old }
        ensures { IsRig self.new }
    {
        invalidate_one(rt, &mut self.manager, &self.shared)
    }

    /// Puts home what is due of many records.
    pub fn put_group<R: Wait>(&mut self, rt: &R) -> Result<u32, StepFault>
        requires { IsRig self.old }
        ensures { IsRig self.new }
    {
        put_group(rt, &mut self.manager, &self.shared, &mut self.fetched)
    }

    /// Gives up what may go of a record, or a segment.
    pub fn give_up_group<R: Wait>(&mut self, rt: &R) -> Result<Option<u32>, StepFault>
        requires { IsRig self.old }
        ensures { IsRig self.new }
    {
        give_up_group(rt, &mut self.manager, &self.shared)
    }

    pub fn drain_step<R: Wait>(&mut self, rt: &R) -> Result<Drain, StepFault>
        requires { IsRig self.old }
        ensures { IsRig self.new }
    {
        drain_step(rt, &mut self.manager, &self.shared, &mut self.fetched)
    }
}
