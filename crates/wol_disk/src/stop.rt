// A disk that stops once its fuse has passed so many calls.
ghost use Rattle.std.specs.Prelude.{◌≡◌, ◌+◌, ◌≤◌, length, take, drop, option_map, OnOk, OnErr, IfSome, IsErr, IsNone};
ghost use Rattle.wol_disk.specs.Disk.{State, only, reads, added, settled, Rose, AddsSomeOf, Passes, IsUnchanged};

use crate::{Block, Disk, Failed, MemDisk};
use std::alloc::Global;
use std::sync::Arc;
use std::sync::atomic::{AtomicU64, Ordering};

/// So many calls, of all the disks that share it. Every later call of theirs fails.
#[derive(Drop)]
pub struct Fuse {
    calls: u64,
    drawn: AtomicU64,
}

// What becomes of one call.
#[derive(Clone, Copy)]
enum Step {
    Pass,
    // The first call that is refused.
    Stop,
    Stopped,
}

impl Fuse {
    ghost use Rattle.wol_disk.specs.Stop.{length_of};

    /// A fuse that passes so many calls.
    pub fn new(calls: u64) -> Fuse
        ensures { length_of result ≡ calls }
    {
        Fuse {
            calls,
            drawn: AtomicU64::new(0),
        }
    }

    /// How many calls passed so far.
    pub fn passed(&self) -> u64
        ensures { result ≤ length_of self.now }
    {
        self.drawn.load(Ordering::SeqCst).min(self.calls)
    }

    fn step(&self) -> Step {
        let number = self.drawn.fetch_add(1, Ordering::SeqCst);
        if number < self.calls {
            Step::Pass
        } else if number == self.calls {
            Step::Stop
        } else {
            Step::Stopped
        }
    }
}

/// A disk that does what its inner disk does until its fuse has passed its calls, and fails from then on.
///
/// Where the first call that is refused is a write of n blocks, the first n/2 of them, rounded down, are written
/// before it fails. It has a count of faults of its own, which without a fuse rises exactly where that of its inner
/// disk does.
#[derive(Drop)]
pub struct StopDisk<D: Disk> {
    inner: D,
    fuse: Option<Arc<Fuse, Global>>,
    faults: u64,
}

impl<D: Disk> StopDisk<D> {
    ghost use Rattle.wol_disk.specs.Stop.{counted, inner_of, fuse_of, stop_state};

    /// The disk as it is, with a count of no faults.
    pub fn new(inner: D, fuse: Option<Arc<Fuse, Global>>) -> StopDisk<D>
        ensures inner { inner_of result ≡ inner }
        ensures fuse { fuse_of result ≡ fuse }
        ensures state { IsUnchanged (counted (D.state inner) 0) (stop_state D.state result) }
    {
        StopDisk {
            inner,
            fuse,
            faults: 0,
        }
    }

    /// Its count of faults.
    pub fn faults(&self) -> u64
        ensures { result ≡ (stop_state D.state self.now).faults }
    {
        self.faults
    }

    /// The inner disk.
    pub fn inner(&self) -> &D
        ensures { result.now ≡ inner_of self.now }
    {
        &self.inner
    }

    /// Gives the inner disk back.
    pub fn into_inner(self) -> D
    where
        D: Drop,
        ensures { result ≡ inner_of self }
    {
        let StopDisk { inner, .. } = self;
        inner
    }

    fn step(&self) -> Step
        ensures { IsNone (fuse_of self.now) → result ≡ Step.Pass }
    {
        match &self.fuse {
            Some(fuse) => fuse.step(),
            None => Step::Pass,
        }
    }

    fn fail(&mut self)
        ensures inner { self.new.inner ≡ self.old.inner }
        ensures fuse { self.new.fuse ≡ self.old.fuse }
        ensures counts { self.old.faults ≤ self.new.faults }
        ensures rose { Rose self.old.faults self.new.faults }
    {
        self.faults = self.faults.saturating_add(1);
    }
}

impl StopDisk<MemDisk> {
    ghost use Rattle.wol_disk.specs.Memory.{mem_state, mem_values, plan_of};
    ghost use Rattle.wol_disk.specs.Record.{chosen};
    ghost use Rattle.wol_disk.specs.Stop.{inner_of, fuse_of};

    /// Leaves one image of the inner disk, as a crash does.
    pub fn restart(&mut self, choice: &[u32])
        ensures values { mem_values (inner_of self.new)
            ≡ only (chosen choice.now (mem_values (inner_of self.old))) }
        ensures size { (mem_state (inner_of self.new)).size ≡ (mem_state (inner_of self.old)).size }
        ensures plan { plan_of (inner_of self.new) ≡ plan_of (inner_of self.old) }
        ensures fuse { fuse_of self.new ≡ fuse_of self.old }
        ensures faults { self.new.faults ≡ self.old.faults }
    {
        self.inner.restart(choice);
    }
}

impl<D: Disk> Disk for StopDisk<D> {
    ghost use Rattle.wol_disk.specs.Stop.{inner_of, fuse_of, stop_state, counted_sound};

    ghost state = { λ s. stop_state D.state s };

    ghost sound = { λ s. counted_sound (D.state (inner_of s)) s.faults (D.sound (inner_of s)) };

    ghost tells = { D.tells };

    ghost told = { λ yes s. D.told yes (inner_of s) };

    fn blocks(&self) -> u64 {
        self.inner.blocks()
    }

    fn read(&mut self, at: u64, out: &mut [Block]) -> Result<(), Failed>
        requires { at + length out.old ≤ (stop_state D.state self.old).size }
        ensures content { OnOk result (IfSome (stop_state D.state self.old).values
            (λ vs. out.new ≡ take (length out.old) (drop at (reads vs)))) }
        ensures values { (stop_state D.state self.new).values
            ≡ (stop_state D.state self.old).values }
        ensures passes { Passes (stop_state D.state self.old) (stop_state D.state self.new)
            (IsErr result) }
        ensures fuse { fuse_of self.new ≡ fuse_of self.old }
        ensures without_fuse { IsNone (fuse_of self.old)
            → Passes (D.state (inner_of self.old)) (D.state (inner_of self.new)) (IsErr result) }
    {
        let read = match self.step() {
            Step::Pass => self.inner.read(at, out),
            _ => Err(Failed),
        };
        if read.is_err() {
            self.fail();
        }
        read
    }

    fn write(&mut self, at: u64, from: &[Block]) -> Result<(), Failed>
        requires { at + length from.now ≤ (stop_state D.state self.old).size }
        ensures ok { OnOk result ((stop_state D.state self.new).values
            ≡ option_map (added at from.now) (stop_state D.state self.old).values) }
        ensures err { OnErr result (AddsSomeOf at from.now (stop_state D.state self.old).values
            (stop_state D.state self.new).values) }
        ensures passes { Passes (stop_state D.state self.old) (stop_state D.state self.new)
            (IsErr result) }
        ensures fuse { fuse_of self.new ≡ fuse_of self.old }
        ensures without_fuse { IsNone (fuse_of self.old)
            → Passes (D.state (inner_of self.old)) (D.state (inner_of self.new)) (IsErr result) }
    {
        let written = match self.step() {
            Step::Pass => self.inner.write(at, from),
            Step::Stop => {
                let _ = self.inner.write(at, &from[..from.len() / 2]);
                Err(Failed)
            }
            Step::Stopped => Err(Failed),
        };
        if written.is_err() {
            self.fail();
        }
        written
    }

    fn sync(&mut self) -> Result<(), Failed>
        ensures ok { OnOk result ((stop_state D.state self.new).values
            ≡ option_map settled (stop_state D.state self.old).values) }
        ensures err { OnErr result
            ((stop_state D.state self.new).values ≡ (stop_state D.state self.old).values) }
        ensures passes { Passes (stop_state D.state self.old) (stop_state D.state self.new)
            (IsErr result) }
        ensures fuse { fuse_of self.new ≡ fuse_of self.old }
        ensures without_fuse { IsNone (fuse_of self.old)
            → Passes (D.state (inner_of self.old)) (D.state (inner_of self.new)) (IsErr result) }
    {
        let synced = match self.step() {
            Step::Pass => self.inner.sync(),
            _ => Err(Failed),
        };
        if synced.is_err() {
            self.fail();
        }
        synced
    }
}
