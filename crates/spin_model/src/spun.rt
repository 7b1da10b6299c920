// A part of an image, which is read and written by a token alone.
ghost use Rattle.std.specs.Prelude.{◌≡◌, ◌+◌, ◌≤◌, length, take, drop, option_map, OnOk, OnErr, IfSome, IsErr};
ghost use Rattle.wol_disk.specs.Disk.{Passes, AddsSomeOf, added, settled, reads};

use crate::Awake;
use wol_disk::{Block, Disk, Failed};

/// A part of a disk of one volume. It is the only way to the disk: each access is lent a token of the volume's spindle.
#[derive(Drop)]
pub struct Spun<D: Disk> {
    volume: u32,
    inner: D,
}

impl<D: Disk> Spun<D> {
    ghost use Rattle.spin_model.specs.Spun.{volume_of, disk_of, state_of, token_volume};

    /// The part `inner` of an image of this volume.
    pub fn new(volume: u32, inner: D) -> Spun<D>
        ensures volume { volume_of result ≡ volume }
        ensures disk { disk_of result ≡ inner }
    {
        Spun { volume, inner }
    }

    /// How many blocks of 512 bytes the part has.
    pub fn blocks(&self) -> u64
        ensures { result ≡ (state_of D.state self.now).size }
    {
        self.inner.blocks()
    }

    /// Reads blocks from block `at` on. `Failed` is the disk's, and after it the bytes in `out` are open.
    pub fn read(&mut self, token: &Awake, at: u64, out: &mut [Block]) -> Result<(), Failed>
        requires volume { token_volume token.now ≡ volume_of self.old }
        requires fits { at + length out.old ≤ (state_of D.state self.old).size }
        ensures content { OnOk result (IfSome (state_of D.state self.old).values
            (λ vs. out.new ≡ take (length out.old) (drop at (reads vs)))) }
        ensures values { (state_of D.state self.new).values ≡ (state_of D.state self.old).values }
        ensures passes { Passes (state_of D.state self.old) (state_of D.state self.new)
            (IsErr result) }
        ensures volume { volume_of self.new ≡ volume_of self.old }
    {
        let _ = token;
        self.inner.read(at, out)
    }

    /// Writes blocks from block `at` on. After `Failed`, which is the disk's, any of them may have been written.
    pub fn write(&mut self, token: &Awake, at: u64, from: &[Block]) -> Result<(), Failed>
        requires volume { token_volume token.now ≡ volume_of self.old }
        requires fits { at + length from.now ≤ (state_of D.state self.old).size }
        ensures ok { OnOk result ((state_of D.state self.new).values
            ≡ option_map (added at from.now) (state_of D.state self.old).values) }
        ensures err { OnErr result (AddsSomeOf at from.now (state_of D.state self.old).values
            (state_of D.state self.new).values) }
        ensures passes { Passes (state_of D.state self.old) (state_of D.state self.new)
            (IsErr result) }
        ensures volume { volume_of self.new ≡ volume_of self.old }
    {
        let _ = token;
        self.inner.write(at, from)
    }

    /// After it a crash leaves what a read gives. `Failed` is the disk's, and changes nothing.
    pub fn sync(&mut self, token: &Awake) -> Result<(), Failed>
        requires volume { token_volume token.now ≡ volume_of self.old }
        ensures ok { OnOk result ((state_of D.state self.new).values
            ≡ option_map settled (state_of D.state self.old).values) }
        ensures err { OnErr result
            ((state_of D.state self.new).values ≡ (state_of D.state self.old).values) }
        ensures passes { Passes (state_of D.state self.old) (state_of D.state self.new)
            (IsErr result) }
        ensures volume { volume_of self.new ≡ volume_of self.old }
    {
        let _ = token;
        self.inner.sync()
    }

    /// The disk, for a bay that takes the part back.
    pub fn into_inner(self) -> D
        ensures { result ≡ disk_of self }
    {
        let Spun { volume: _, inner } = self;
        inner
    }
}
