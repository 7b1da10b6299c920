// A disk in memory that counts its calls and its syncs.
ghost use Rattle.std.specs.Prelude.{◌≡◌, ◌+◌, ◌≤◌, length, take, drop, option_map, OnOk, OnErr, IfSome, IsErr, true};
ghost use Rattle.volume_tests.specs.Counting.{counting_state};
ghost use Rattle.wol_disk.specs.Disk.{added, settled, reads, AddsSomeOf, Passes};
ghost use Rattle.wol_disk.specs.Memory.{mem_sound, mem_told};

use wol_disk::{Block, Disk, Failed, MemDisk};

/// A disk in memory, how often it was called, and how often it was synced.
#[derive(Drop)]
pub struct CountingDisk {
    inner: MemDisk,
    calls: u64,
    syncs: u64,
}

impl CountingDisk {
    /// The disk, which is to be counted from now on.
    pub fn new(inner: MemDisk) -> CountingDisk
        ensures { result.inner ≡ inner }
    {
        CountingDisk {
            inner,
            calls: 0,
            syncs: 0,
        }
    }

    /// How often it was read, written and synced.
    pub fn calls(&self) -> u64 {
        self.calls
    }

    /// How often it was synced.
    pub fn syncs(&self) -> u64 {
        self.syncs
    }

    /// The disk itself.
    pub fn into_inner(self) -> MemDisk
        ensures { result ≡ self.inner }
    {
        let CountingDisk { inner, .. } = self;
        inner
    }
}

impl Disk for CountingDisk {
    ghost state = { counting_state };

    ghost sound = { λ d. mem_sound d.inner };

    ghost tells = { true };

    ghost told = { λ yes d. mem_told d.inner };

    fn blocks(&self) -> u64 {
        self.inner.blocks()
    }

    fn read(&mut self, at: u64, out: &mut [Block]) -> Result<(), Failed> {
        self.calls = self.calls.saturating_add(1);
        self.inner.read(at, out)
    }

    fn write(&mut self, at: u64, from: &[Block]) -> Result<(), Failed> {
        self.calls = self.calls.saturating_add(1);
        self.inner.write(at, from)
    }

    fn sync(&mut self) -> Result<(), Failed> {
        self.calls = self.calls.saturating_add(1);
        self.syncs = self.syncs.saturating_add(1);
        self.inner.sync()
    }
}
