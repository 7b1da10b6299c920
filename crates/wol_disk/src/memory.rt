// A disk in memory. It keeps a record of all that was done to it, and so each image that it might have left.
ghost use Rattle.std.specs.Prelude.{◌≡◌, ◌+◌, ◌≤◌, ◌<◌, [], ◌∷◌, ◌++◌, length, take, drop, option_map, OnOk, OnErr, IfOk, IfSome, IsErr, Some};
ghost use Rattle.wol_disk.specs.Disk.{reads, only, put, added, settled, AddsSomeOf, Passes, IsUnchanged};
ghost use Rattle.wol_disk.specs.Plan.{GoesByPlan, no_plan, with_call};
ghost use Rattle.wol_disk.specs.Record.{values_after, chosen};
ghost use Rattle.wol_disk.specs.Zeros.{zeros};
ghost use Rattle.wol_disk.specs.declared.record.Call.TheVariants.{Wrote, Synced};

use crate::plan::FaultPlan;
use crate::record::Call;
use crate::restart::choose_all;
use crate::values::BlockValues;
use crate::{Block, Disk, Failed, NoMemory};
use std::alloc::{AllocError, Global};

/// A disk in memory, which tells its content and fails where it was planned to.
///
/// Its count of faults is the sum of two: the calls that failed since they were planned to, and those that found no
/// memory. In a call in which neither rises it does not fail.
#[derive(Drop)]
pub struct MemDisk {
    alloc: Global,
    first: Vec<Block>,
    now: Vec<Block>,
    calls: Vec<Call>,
    plan: FaultPlan,
    ghost same_size: { length now.items ≡ length first.items },
    ghost now_is: { now.items ≡ reads (values_after calls.items (only first.items)) },
}

// So many blocks of zero bytes.
fn zero_blocks(alloc: Global, n: usize) -> Result<Vec<Block>, AllocError>
    ensures { IfOk result (λ blocks. blocks.items ≡ zeros n) }
{
    let mut blocks = Vec::new(alloc);
    for count in 0..n {
        let _done = count;
        blocks.push([0; 512])?;
    }
    Ok(blocks)
}

// Writes the blocks from place `at` on.
fn put_blocks(blocks: &mut [Block], at: usize, from: &[Block])
    requires { at + length from.now ≤ length blocks.old }
    ensures { blocks.new ≡ put at from.now blocks.old }
{
    blocks[at..at + from.len()].copy_from_slice(from);
}

// Writes the blocks and records it.
fn overwrite(
    alloc: Global,
    now: &mut Vec<Block>,
    calls: &mut Vec<Call>,
    at: usize,
    from: &[Block],
) -> Result<(), AllocError>
    requires { at + length from.now ≤ length now.old.items }
    ensures ok { OnOk result (now.new.items ≡ put at from.now now.old.items) }
    ensures calls { OnOk result
        ((v : _) × (v.items ≡ from.now) × (calls.new.items ≡ calls.old.items ++ Wrote at v ∷ [])) }
    ensures err { OnErr result (now.new.items ≡ now.old.items) }
    ensures calls_err { OnErr result (calls.new.items ≡ calls.old.items) }
{
    let copy = Vec::from_slice(alloc, from)?;
    calls.push(Call::Wrote(at, copy))?;
    put_blocks(now, at, from);
    Ok(())
}

// Records a sync.
fn note_sync(calls: &mut Vec<Call>) -> Result<(), AllocError>
    ensures ok { OnOk result (calls.new.items ≡ calls.old.items ++ Synced ∷ []) }
    ensures err { OnErr result (calls.new.items ≡ calls.old.items) }
    ensures keeps { (start : _)
        → reads (values_after calls.new.items start) ≡ reads (values_after calls.old.items start) }
{
    calls.push(Call::Synced)?;
    Ok(())
}

impl MemDisk {
    ghost use Rattle.wol_disk.specs.BlockValues.{all_values};
    ghost use Rattle.wol_disk.specs.Later.{added_each};
    ghost use Rattle.wol_disk.specs.Memory.{mem_state, mem_values, plan_of};

    /// A disk of so many zero blocks, of which no call is planned to fail.
    pub fn new(alloc: Global, blocks: u64) -> Result<MemDisk, NoMemory>
        ensures values { IfOk result (λ m. (mem_state m).values ≡ Some (only (zeros blocks))) }
        ensures size { IfOk result (λ m. (mem_state m).size ≡ blocks) }
        ensures faults { IfOk result (λ m. (mem_state m).faults ≡ 0) }
        ensures plan { IfOk result (λ m. plan_of m ≡ no_plan) }
    {
        let first = zero_blocks(alloc, blocks as usize)?;
        let disk = MemDisk::of_blocks(alloc, first)?;
        Ok(disk)
    }

    /// Makes the call with that number fail. Calls are counted from 0 since the disk was made; a number that has
    /// passed has no effect.
    pub fn fail(&mut self, call: u64) -> Result<(), NoMemory>
        ensures ok { OnOk result (plan_of self.new ≡ with_call call (plan_of self.old)) }
        ensures err { OnErr result (plan_of self.new ≡ plan_of self.old) }
        ensures unchanged { IsUnchanged (mem_state self.old) (mem_state self.new) }
    {
        self.plan.add(call)?;
        Ok(())
    }

    // A disk that begins with these blocks.
    fn of_blocks(alloc: Global, first: Vec<Block>) -> Result<MemDisk, AllocError>
        ensures values { IfOk result (λ m. mem_values m ≡ only first.items) }
        ensures size { IfOk result (λ m. (mem_state m).size ≡ length first.items) }
        ensures faults { IfOk result (λ m. (mem_state m).faults ≡ 0) }
        ensures plan { IfOk result (λ m. plan_of m ≡ no_plan) }
    {
        let now = Vec::from_slice(alloc, &first)?;
        Ok(MemDisk {
            alloc,
            first,
            now,
            calls: Vec::new(alloc),
            plan: FaultPlan::new(alloc),
        })
    }

    // One more value of one block. It is no call of the disk.
    fn add_value(&mut self, at: usize, value: Block) -> Result<(), AllocError>
        requires { at < (mem_state self.old).size }
        ensures values { OnOk result
            (mem_values self.new ≡ added at (value ∷ []) (mem_values self.old)) }
        ensures size { (mem_state self.new).size ≡ (mem_state self.old).size }
        ensures faults { (mem_state self.new).faults ≡ (mem_state self.old).faults }
        ensures plan { plan_of self.new ≡ plan_of self.old }
    {
        overwrite(self.alloc, &mut self.now, &mut self.calls, at, &[value])
    }

    // More values of one block, the latest last.
    fn add_values(&mut self, at: usize, later: &[Block]) -> Result<(), AllocError>
        requires { at < (mem_state self.old).size }
        ensures values { OnOk result
            (mem_values self.new ≡ added_each at later.now (mem_values self.old)) }
        ensures size { (mem_state self.new).size ≡ (mem_state self.old).size }
        ensures faults { (mem_state self.new).faults ≡ (mem_state self.old).faults }
        ensures plan { plan_of self.new ≡ plan_of self.old }
    {
        for value in later {
            self.add_value(at, *value)?;
        }
        Ok(())
    }

    /// A disk whose blocks have these values, and of which no call is planned to fail.
    pub fn from_values(alloc: Global, values: &[BlockValues]) -> Result<MemDisk, NoMemory>
        ensures values { IfOk result (λ m. (mem_state m).values ≡ Some (all_values values.now)) }
        ensures size { IfOk result (λ m. (mem_state m).size ≡ length values.now) }
        ensures faults { IfOk result (λ m. (mem_state m).faults ≡ 0) }
        ensures plan { IfOk result (λ m. plan_of m ≡ no_plan) }
    {
        let oldest = BlockValues::oldest_blocks(alloc, values)?;
        let mut disk = MemDisk::of_blocks(alloc, oldest)?;
        for (at, block) in values.iter().enumerate() {
            disk.add_values(at, block.later())?;
        }
        Ok(disk)
    }

    /// Adds the values of its blocks to the list, in order.
    pub fn list_values(&self, list: &mut Vec<BlockValues>) -> Result<(), NoMemory>
        ensures { OnOk result
            (all_values list.new.items ≡ all_values list.old.items ++ mem_values self.entry.now) }
    {
        for (i, first) in self.first.iter().enumerate() {
            list.push(BlockValues::after(self.alloc, first, &self.calls, i)?)?;
        }
        Ok(())
    }

    /// Leaves one image, as a crash does: block i takes the value at place `choice[i]` modulo the number of its
    /// values, the oldest at place 0, and the last value where `choice` is shorter.
    ///
    /// It begins the record of images anew: the moments of the clock from before it mean nothing after it. It is no
    /// call of the disk, so the numbers of the calls go on.
    pub fn restart(&mut self, choice: &[u32])
        ensures values { (vs : _) → (mem_state self.old).values ≡ Some vs
            → (mem_state self.new).values ≡ Some (only (chosen choice.now vs)) }
        ensures size { (mem_state self.new).size ≡ (mem_state self.old).size }
        ensures faults { (mem_state self.new).faults ≡ (mem_state self.old).faults }
        ensures plan { plan_of self.new ≡ plan_of self.old }
    {
        choose_all(&self.first, &self.calls, choice, &mut self.now);
        self.first.copy_from_slice(&self.now);
        self.calls.clear();
    }
}

impl Disk for MemDisk {
    ghost use Rattle.std.specs.Prelude.{true};
    ghost use Rattle.wol_disk.specs.Memory.{mem_state, mem_sound, mem_told, plan_of};

    ghost state = { mem_state };

    ghost sound = { mem_sound };

    ghost tells = { true };

    ghost told = { λ yes m. mem_told m };

    fn blocks(&self) -> u64 {
        self.now.len() as u64
    }

    fn read(&mut self, at: u64, out: &mut [Block]) -> Result<(), Failed>
        requires { at + length out.old ≤ (mem_state self.old).size }
        ensures content { OnOk result (IfSome (mem_state self.old).values
            (λ vs. out.new ≡ take (length out.old) (drop at (reads vs)))) }
        ensures values { (mem_state self.new).values ≡ (mem_state self.old).values }
        ensures passes { Passes (mem_state self.old) (mem_state self.new) (IsErr result) }
        ensures plan { GoesByPlan (plan_of self.old) (plan_of self.new) (IsErr result) }
        ensures no_memory { (plan_of self.new).short ≡ (plan_of self.old).short }
    {
        self.plan.begin()?;
        let at = at as usize;
        out.copy_from_slice(&self.now[at..at + out.len()]);
        Ok(())
    }

    fn write(&mut self, at: u64, from: &[Block]) -> Result<(), Failed>
        requires { at + length from.now ≤ (mem_state self.old).size }
        ensures ok { OnOk result ((mem_state self.new).values
            ≡ option_map (added at from.now) (mem_state self.old).values) }
        ensures err { OnErr result
            (AddsSomeOf at from.now (mem_state self.old).values (mem_state self.new).values) }
        ensures passes { Passes (mem_state self.old) (mem_state self.new) (IsErr result) }
        ensures plan { GoesByPlan (plan_of self.old) (plan_of self.new) (IsErr result) }
    {
        self.plan.begin()?;
        match overwrite(
            self.alloc,
            &mut self.now,
            &mut self.calls,
            at as usize,
            from,
        ) {
            Ok(()) => Ok(()),
            Err(_) => {
                self.plan.lack();
                Err(Failed)
            }
        }
    }

    fn sync(&mut self) -> Result<(), Failed>
        ensures ok { OnOk result
            ((mem_state self.new).values ≡ option_map settled (mem_state self.old).values) }
        ensures err { OnErr result ((mem_state self.new).values ≡ (mem_state self.old).values) }
        ensures passes { Passes (mem_state self.old) (mem_state self.new) (IsErr result) }
        ensures plan { GoesByPlan (plan_of self.old) (plan_of self.new) (IsErr result) }
    {
        self.plan.begin()?;
        match note_sync(&mut self.calls) {
            Ok(()) => Ok(()),
            Err(_) => {
                self.plan.lack();
                Err(Failed)
            }
        }
    }
}
