// The pieces of a request: runs of blocks that lie in the volume and aren't too long.
ghost use Rattle.msr_trace.specs.Lines.{trace_line};
ghost use Rattle.std.specs.Iterator.{YieldsFirst, item_count};
ghost use Rattle.std.specs.Prelude.{◌≡◌, ◌+◌, ◌-◌, ◌/◌, ◌%◌, ◌<◌, ◌≤◌, All};
ghost use Rattle.wol_model.specs.Trace as trace;
ghost use Rattle.wol_model.specs.TraceLaws.{LiesIn};

use crate::format::Line;
use std::marker::Model;
use wol_model::Piece;

/// The pieces of a line that are left, in order.
#[derive(Drop)]
pub struct Pieces {
    home: u64,
    most: u32,
    first: u64,
    count: u64,
}

impl Model for Pieces {
    ghost use Rattle.std.specs.Prelude.{◌<◌, List};
    ghost use Rattle.wol_model.specs.Trace.{cut_run};
    ghost use Rattle.wol_model.specs.declared.trace.Piece.{Piece};

    ghost Value = { List Piece };

    ghost view = { λ p. cut_run p.count p.home p.most p.first p.count };

    ghost invariant = { λ p. (0 < p.most) × (p.first < p.home) };
}

impl Line {
    /// The pieces of the line on a volume of `home` blocks, each of at most `most` blocks. The run of blocks that the bytes
    /// touch begins at the block of the offset, modulo the volume's blocks. It is cut where the volume ends, going on at
    /// block 0, and after each `most` blocks from there or from the last cut. A line of size 0 has no piece.
    pub fn pieces(&self, home: u64, most: u32) -> Pieces
        requires home { 0 < home }
        requires most { 0 < most }
        ensures content { result ≡ trace.pieces home most (trace_line self.now) }
        ensures lies { All (LiesIn home most) result }
    {
        Pieces {
            home,
            most,
            first: within(self.offset / 512, home),
            count: blocks_touched(self.offset, self.size),
        }
    }
}

// The block of a volume that stands for a block of a disk. Most are the same, and a division takes as long as all else here.
#[tactic(auto, using(crate::proofs::Runs::same_within))]
fn within(block: u64, home: u64) -> u64
    requires { 0 < home }
    ensures { result ≡ block % home }
{
    if block < home { block } else { block % home }
}

// How many blocks the bytes touch, none where there is no byte.
fn blocks_touched(offset: u64, size: u64) -> u64
    ensures touched { 0 < size → result ≡ (offset + size + 511) / 512 - offset / 512 }
    ensures none { size ≡ 0 → result ≡ 0 }
{
    if size == 0 {
        return 0;
    }
    let end = (u128::from(offset) + u128::from(size)).div_ceil(512);
    (end - u128::from(offset / 512)) as u64
}

impl Iterator for Pieces {
    type Item = Piece;

    ghost next_gives = { YieldsFirst (λ rest. rest) };

    ghost remaining = { item_count (λ rest. rest) };

    fn next(&mut self) -> Option<Piece> {
        if self.count == 0 {
            return None;
        }
        let lbn = self.first;
        let count = self.count.min(u64::from(self.most)).min(self.home - lbn);
        self.first = behind(lbn + count, self.home);
        self.count -= count;
        Some(Piece {
            lbn,
            count: count as u32,
        })
    }
}

// The block behind a run that ends here, which is block 0 where the volume ends.
fn behind(end: u64, home: u64) -> u64
    requires some { 0 < home }
    requires within { end ≤ home }
    ensures { result ≡ end % home }
{
    if end == home { 0 } else { end }
}
