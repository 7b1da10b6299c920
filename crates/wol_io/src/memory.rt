// Sources and sinks in memory, which fail where they were planned to.
ghost use Rattle.std.specs.Io.KnownBytes.{ReadConsumes};
ghost use Rattle.std.specs.Io.{ReadsAtMost};
ghost use Rattle.std.specs.Prelude.{◌≡◌, ◌≢◌, ◌↔◌, ◌<◌, ◌≤◌, [], ◌++◌, length, drop, IsErr, IfOk, OnOk, OnErr};
ghost use Rattle.wol_disk.specs.Disk.{Rose};
ghost use Rattle.wol_io.specs.Memory.{handed, most_of};
ghost use Rattle.wol_io.specs.Plan.{after_call, faults_of, FallsShort, fresh};
ghost use Rattle.wol_io.specs.Streams.{SinkTakes};

use crate::plan::Plan;
use crate::streams::{Sink, Source};
use std::alloc::Global;
use std::marker::Model;
use wol_disk::Failed;

/// Bytes in memory, handed out in cuts.
#[derive(Drop)]
pub struct MemSource {
    bytes: Vec<u8>,
    at: usize,
    cuts: Vec<usize>,
    turn: usize,
    plan: Plan,
}

impl Model for MemSource {
    ghost use Rattle.std.specs.Prelude.{◌≤◌, drop, length};
    ghost use Rattle.wol_io.specs.Memory.{SourceValue};

    ghost Value = { SourceValue };

    ghost view = { λ s. record { left = drop s.at s.bytes.items; cuts = drop s.turn s.cuts.items; plan = s.plan } };

    ghost invariant = { λ s. (s.at ≤ length s.bytes.items) × (s.turn ≤ length s.cuts.items) };
}

impl MemSource {
    /// Call i hands out at most `cuts[i]` bytes, but at least one while bytes are left, and all that fit once the cuts are
    /// used up. The call numbered `fail_at`, counted from 0, fails; its cut is used up.
    pub fn new(bytes: Vec<u8>, cuts: Vec<usize>, fail_at: Option<u64>) -> MemSource
        ensures { result ≡ record { left = bytes.items; cuts = cuts.items; plan = fresh fail_at } }
    {
        MemSource {
            bytes,
            at: 0,
            cuts,
            turn: 0,
            plan: Plan::new(fail_at),
        }
    }
}

// The most that a call hands out, at least one byte, and the turn of the next call.
fn next_cut(cuts: &[usize], turn: usize) -> (usize, usize)
    requires { turn ≤ length cuts.now }
    ensures some { 0 < result.0 }
    ensures most { result.0 ≡ most_of (drop turn cuts.now) }
    ensures turn { drop result.1 cuts.now ≡ drop 1 (drop turn cuts.now) }
    ensures within { result.1 ≤ length cuts.now }
{
    match cuts.get(turn) {
        Some(cut) => ((*cut).max(1), turn + 1),
        None => (usize::MAX, turn),
    }
}

impl Source for MemSource {
    ghost use Rattle.std.specs.Prelude.{Some};

    ghost left = { λ s. Some s.left };

    ghost faults = { λ s. faults_of s.plan };

    fn read(&mut self, out: &mut [u8]) -> Result<usize, Failed>
        ensures size { ReadsAtMost result out.new }
        ensures content { ReadConsumes (Some self.old.left) (Some self.new.left) result out.new }
        ensures later { faults_of self.old.plan ≤ faults_of self.new.plan }
        ensures cause { OnErr result (Rose (faults_of self.old.plan) (faults_of self.new.plan)) }
        ensures calm { OnOk result (faults_of self.new.plan ≡ faults_of self.old.plan) }
        ensures planned { IsErr result ↔ (self.old.plan.before ≡ Some 0) }
        ensures handed { IfOk result
            (λ count. count ≡ handed self.old.cuts (length self.old.left) (length out.old)) }
        ensures rest { self.new.cuts ≡ drop 1 self.old.cuts }
        ensures plan { self.new.plan ≡ after_call self.old.plan }
    {
        let (most, turn) = next_cut(&self.cuts, self.turn);
        self.turn = turn;
        self.plan.take_call()?;
        let left = self.bytes.len() - self.at;
        let count = left.min(most).min(out.len());
        let start = self.at;
        let end = start + count;
        out[..count].copy_from_slice(&self.bytes[start..end]);
        self.at = end;
        Ok(count)
    }
}

/// Keeps in memory what it takes.
#[derive(Drop)]
pub struct MemSink {
    bytes: Vec<u8>,
    plan: Plan,
}

impl Model for MemSink {
    ghost use Rattle.wol_io.specs.Memory.{SinkValue};

    ghost Value = { SinkValue };

    ghost view = { λ s. record { taken = s.bytes.items; plan = s.plan } };
}

impl MemSink {
    /// The call numbered `fail_at`, counted from 0, fails.
    pub fn new(alloc: Global, fail_at: Option<u64>) -> MemSink
        ensures { result ≡ record { taken = []; plan = fresh fail_at } }
    {
        MemSink {
            bytes: Vec::new(alloc),
            plan: Plan::new(fail_at),
        }
    }

    /// The bytes that it took.
    pub fn bytes(&self) -> &[u8]
        ensures { result.now ≡ self.now.taken }
    {
        &self.bytes
    }
}

impl Sink for MemSink {
    ghost use Rattle.std.specs.Prelude.{Some};

    ghost taken = { λ s. Some s.taken };

    ghost faults = { λ s. faults_of s.plan };

    /// Appends nothing in a call that fails. Besides the planned call, one that finds no memory fails.
    fn write(&mut self, piece: &[u8]) -> Result<(), Failed>
        ensures content { SinkTakes (Some self.old.taken) (Some self.new.taken) result piece.now }
        ensures later { faults_of self.old.plan ≤ faults_of self.new.plan }
        ensures cause { OnErr result (Rose (faults_of self.old.plan) (faults_of self.new.plan)) }
        ensures calm { OnOk result (faults_of self.new.plan ≡ faults_of self.old.plan) }
        ensures planned { self.old.plan.before ≡ Some 0
            → IsErr result × (self.new.plan ≡ after_call self.old.plan) }
        ensures ok { OnOk result (self.new
            ≡ record { taken = self.old.taken ++ piece.now; plan = after_call self.old.plan }) }
        ensures err { OnErr result (self.new.taken ≡ self.old.taken) }
        ensures short { self.old.plan.before ≢ Some 0
            → OnErr result (FallsShort (after_call self.old.plan) self.new.plan) }
    {
        self.plan.take_call()?;
        if self.bytes.extend_from_slice(piece).is_err() {
            self.plan.fall_short();
            return Err(Failed);
        }
        Ok(())
    }
}
