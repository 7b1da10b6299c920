// A record of a log as an index names it.
ghost use Rattle.block_cells.specs.Masks.{in_mask};
ghost use Rattle.block_cells.specs.Runs.{runs_of};
ghost use Rattle.std.specs.List.{list_any, range_with_len};
ghost use Rattle.std.specs.Prelude.{◌≡◌, ◌≤◌, ◌&&◌, not, if◌then◌else◌};
ghost use Rattle.wol_model.specs.Log.{marks_of};

use crate::mask::moved;

/// A record of blocks that were off-loaded under one version, and its place in a log.
#[derive(Clone, Copy, Debug, PartialEq, Eq)]
pub struct Rec {
    /// The version under which the blocks were written. No two records of a volume have one version.
    pub version: u64,
    /// The number of the first block in the volume; a block has 512 bytes.
    pub lbn: u64,
    /// How many blocks the record has, 1 to 128.
    pub count: u32,
    /// The blocks that it still keeps: bit i is block `lbn + i`. It covers these alone.
    pub keep: u128,
    /// The lane, that is the place in the volume's view of the logger that has the record.
    pub lane: u32,
    /// The segment of that logger.
    pub segment: u32,
    /// The place of the record's head in the segment, in blocks.
    pub pos: u32,
}

// One where a run of kept blocks begins, after a block that is kept or not.
fn begins(before: bool, kept: bool) -> u32
    ensures value { result ≡ (if kept && not before then 1 else 0) }
    ensures few { result ≤ 1 }
{
    if kept && !before { 1 } else { 0 }
}

impl Rec {
    /// Whether the record keeps this block.
    pub fn keeps(&self, lbn: u64) -> bool
        ensures { result ≡ in_mask self.now.lbn self.now.keep lbn }
    {
        moved(self.keep, self.lbn, lbn) & 1 == 1
    }

    /// Whether the record keeps a block of this range.
    pub fn meets(&self, lbn: u64, count: u32) -> bool
        ensures { result
            ≡ list_any (in_mask self.now.lbn self.now.keep) (range_with_len lbn count) }
    {
        let before = self.lbn.saturating_sub(lbn);
        let kept = moved(self.keep, self.lbn, lbn + before);
        kept != 0 && before.saturating_add(u64::from(kept.trailing_zeros())) < u64::from(count)
    }

    /// In how many runs of blocks in a row the kept blocks lie. An index needs one reserved place for each.
    pub fn runs(&self) -> u32
        requires { self.now.count ≤ 128 }
        ensures value { result ≡ runs_of (marks_of self.now.count self.now.keep) }
        ensures few { result ≤ self.now.count }
    {
        let mut runs = 0;
        let mut before = false;
        for i in 0..self.count {
            let kept = self.keep >> i & 1 == 1;
            runs += begins(before, kept);
            before = kept;
        }
        runs
    }
}
