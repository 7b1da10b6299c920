// A disk as its callers see it.
ghost use Rattle.std.specs.Prelude.{◌≡◌, ◌+◌, ◌≤◌, length, take, drop, option_map, OnOk, OnErr, IfSome, IsErr, IsTrue, Bool, ⊤};
ghost use Rattle.wol_disk.specs.Disk.{State, Passes, IsDisk, TellsContent, added, settled, reads, AddsSomeOf};

use std::alloc::{AllocError, AllocFailed};

/// What a disk reads and writes whole or not at all: 512 bytes.
pub type Block = [u8; 512];

/// A call of a disk failed. It comes only where the disk's count of faults rose in that call.
#[derive(Clone, Copy, Debug, PartialEq, Eq)]
pub struct Failed;

/// There was no memory.
#[derive(Clone, Copy, Debug, PartialEq, Eq)]
pub struct NoMemory;

impl From<AllocError> for NoMemory {
    fn from(_error: AllocError) -> NoMemory {
        NoMemory
    }
}

impl<T: Drop> From<AllocFailed<T>> for NoMemory {
    fn from(_error: AllocFailed<T>) -> NoMemory {
        NoMemory
    }
}

/// A disk of blocks, which may lose at a crash what was written since the last sync, block by block.
///
/// Its state tells, where the disk tells its content, the values that each block had since the last sync that
/// succeeded. An image is what a crash may leave: one of those values for each block, independently.
pub trait Disk {
    /// Its blocks, its clock, the images since each moment of it, and its count of faults.
    ghost state: { Self → State };

    /// Whether disks of this type tell their content. It is a fact of the type, so that of several disks of one
    /// type all tell it or none needs to.
    ghost tells: { Bool };

    /// The number of blocks, which never changes.
    fn blocks(&self) -> u64
        ensures { result ≡ (state self.now).size };

    /// Reads the blocks from place `at` on. After `Failed` the bytes in `out` are open.
    fn read(&mut self, at: u64, out: &mut [Block]) -> Result<(), Failed>
        requires { at + length out.old ≤ (state self.old).size }
        ensures content { OnOk result (IfSome (state self.old).values
            (λ vs. out.new ≡ take (length out.old) (drop at (reads vs)))) }
        ensures values { (state self.new).values ≡ (state self.old).values }
        ensures passes { Passes (state self.old) (state self.new) (IsErr result) };

    /// Writes the blocks from place `at` on. After `Failed` each of them may have been written or not.
    fn write(&mut self, at: u64, from: &[Block]) -> Result<(), Failed>
        requires { at + length from.now ≤ (state self.old).size }
        ensures ok { OnOk result
            ((state self.new).values ≡ option_map (added at from.now) (state self.old).values) }
        ensures err { OnErr result
            (AddsSomeOf at from.now (state self.old).values (state self.new).values) }
        ensures passes { Passes (state self.old) (state self.new) (IsErr result) };

    /// Makes what was written last. After it a crash leaves what a read gives; a sync that failed changes nothing.
    fn sync(&mut self) -> Result<(), Failed>
        ensures ok { OnOk result
            ((state self.new).values ≡ option_map settled (state self.old).values) }
        ensures err { OnErr result ((state self.new).values ≡ (state self.old).values) }
        ensures passes { Passes (state self.old) (state self.new) (IsErr result) };

    /// What holds of each disk: the disk as it reads is one of its images.
    ghost sound: { (d : Self) → IsDisk (state d) };

    /// Each disk of a type that tells its content tells it.
    ghost told: { IsTrue tells → (d : Self) → TellsContent (state d) };
}
