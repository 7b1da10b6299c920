// A volume that is served.
use wol_disk::Block;

/// Why a volume refused what it was asked in one turn.
#[derive(Clone, Copy, Debug, PartialEq, Eq)]
pub enum Refusal {
    /// It was down before.
    Down,
    /// It has no version left to give to a write.
    VersionsSpent,
    /// There was no memory.
    NoMemory,
    /// A call of a disk failed in this turn, and brought it down.
    Broke,
}

/// A volume whose one client is the session. Each call is one turn, after which the volume is what the turn says.
pub trait Volume {
    ghost use Rattle.nbd_session.specs.Turns.{Turn, look_turn, read_turn, write_turn};
    ghost use Rattle.std.specs.Prelude.{◌≡◌, ◌≤◌, ◌<◌, ◌+◌, ◌^◌, ℕ, length};

    /// A turn that was taken, and the volume before and behind it. It is this that says which refusal comes when.
    ghost Turned: { Turn → Self → Self → Type 0 };

    /// That it can take turns. Each turn leaves it so.
    ghost Ready: { Self → Type 0 };

    /// The number of its blocks.
    ghost home: { Self → ℕ };

    /// The most blocks that it is asked to read or write in one turn.
    ghost most: { Self → ℕ };

    /// The number of its blocks, which no call changes.
    fn home(&self) -> u64
        ensures { result ≡ home self.now };

    /// The most blocks of one turn, from 1 to 128, which no call changes.
    fn most(&self) -> u32
        ensures is { result ≡ most self.now }
        ensures some { 1 ≤ result }
        ensures few { result ≤ 128 };

    /// Looks whether it is up: `Down` exactly where it isn't.
    fn look(&mut self) -> Result<(), Refusal>
        requires ready { Ready self.old }
        ensures ready { Ready self.new }
        ensures turned { Turned (look_turn result) self.old self.new }
        ensures same_home { home self.new ≡ home self.old }
        ensures same_most { most self.new ≡ most self.old };

    /// Reads the blocks from place `at` on. After a refusal what stands in `out` is open.
    fn read(&mut self, at: u64, out: &mut [Block]) -> Result<(), Refusal>
        requires ready { Ready self.old }
        requires some { 1 ≤ length out.old }
        requires few { length out.old ≤ most self.old }
        requires fits { at + length out.old ≤ home self.old }
        ensures ready { Ready self.new }
        ensures turned { Turned (read_turn at (length out.old) out.new result) self.old self.new }
        ensures same_home { home self.new ≡ home self.old }
        ensures same_most { most self.new ≡ most self.old };

    /// Writes the blocks from place `at` on, and makes them last.
    fn write(&mut self, at: u64, from: &[Block]) -> Result<(), Refusal>
        requires ready { Ready self.old }
        requires some { 1 ≤ length from.now }
        requires few { length from.now ≤ most self.old }
        requires fits { at + length from.now ≤ home self.old }
        ensures ready { Ready self.new }
        ensures turned { Turned (write_turn at from.now result) self.old self.new }
        ensures same_home { home self.new ≡ home self.old }
        ensures same_most { most self.new ≡ most self.old };
}
