// Sources and sinks of bytes, as their callers see them.
ghost use Rattle.std.specs.Io.KnownBytes.{ReadConsumes};
ghost use Rattle.std.specs.Io.{ReadsAtMost};
ghost use Rattle.std.specs.Prelude.{◌≡◌, ◌≤◌, ℕ, List, Option, OnOk, OnErr};
ghost use Rattle.wol_disk.specs.Disk.{Rose};
ghost use Rattle.wol_io.specs.Streams.{SinkTakes};

use wol_disk::Failed;

/// Where bytes come from.
pub trait Source {
    /// The bytes that are left, where the source tells them.
    ghost left: { Self → Option (List ℕ) };

    /// How many calls have failed. The count never falls, and stands still at the end of its type.
    ghost faults: { Self → ℕ };

    /// Which borrow the source is, where it is one: no call changes it, so that the lender gets back what was left.
    ghost borrow: { Self → ℕ } = { λ _. 0 };

    /// Takes the next bytes into the front of `out` and answers how many. `Ok(0)` where `out` has room means that nothing
    /// is left. `Failed` comes only where the count of faults rose in this call; it takes nothing, and what stands in
    /// `out` then is open.
    fn read(&mut self, out: &mut [u8]) -> Result<usize, Failed>
        ensures size { ReadsAtMost result out.new }
        ensures content { ReadConsumes (left self.old) (left self.new) result out.new }
        ensures later { faults self.old ≤ faults self.new }
        ensures cause { OnErr result (Rose (faults self.old) (faults self.new)) }
        ensures calm { OnOk result (faults self.new ≡ faults self.old) }
        ensures same_borrow { borrow self.new ≡ borrow self.old };
}

/// Where bytes go to.
pub trait Sink {
    /// The bytes that it took, where the sink tells them.
    ghost taken: { Self → Option (List ℕ) };

    /// How many calls have failed. The count never falls, and stands still at the end of its type.
    ghost faults: { Self → ℕ };

    /// Appends the whole piece. `Failed` comes only where the count of faults rose in this call, and appends a front of
    /// the piece, maybe nothing and maybe all of it.
    fn write(&mut self, piece: &[u8]) -> Result<(), Failed>
        ensures content { SinkTakes (taken self.old) (taken self.new) result piece.now }
        ensures later { faults self.old ≤ faults self.new }
        ensures cause { OnErr result (Rose (faults self.old) (faults self.new)) }
        ensures calm { OnOk result (faults self.new ≡ faults self.old) };
}

/// A borrowed source, so that its owner has it again afterwards.
impl<S: Source> Source for &mut S {
    ghost left = { λ s. S.left s.now };

    ghost faults = { λ s. S.faults s.now };

    ghost borrow = { λ s. s.ghost_name };

    fn read(&mut self, out: &mut [u8]) -> Result<usize, Failed> {
        (**self).read(out)
    }
}

/// A borrowed sink.
impl<S: Sink> Sink for &mut S {
    ghost taken = { λ s. S.taken s.now };

    ghost faults = { λ s. S.faults s.now };

    fn write(&mut self, piece: &[u8]) -> Result<(), Failed> {
        (**self).write(piece)
    }
}
