// Segments that nobody owns.
ghost use Rattle.log_segment.specs.Kept.{IsFreeInAll, IsIdleOrClaimed};
ghost use Rattle.spin_model.specs.Spun.{state_of, token_volume};
ghost use Rattle.std.specs.Prelude.{◌≡◌, ◌≤◌, [], List, Some, IfOk, IfErr};
ghost use Rattle.wol_disk.specs.Disk.{Block, Values, LeavesOnly, Rose};

use crate::Segment;
use crate::head::claim_part;
use seg_pool::Blank;
use spin_model::{Awake, Spun};
use wol_disk::{Disk, Failed};

/// A segment that says in each image of its part that it is free.
#[derive(Drop)]
pub struct FreeSegment<D: Disk> {
    pub(crate) part: Spun<D>,
    pub(crate) blocks: u32,
}

impl<D: Disk> Blank for FreeSegment<D> {
    ghost use Rattle.log_segment.specs.Segment.{IsBlank};

    ghost blank = { IsBlank D.state };
}

impl<D: Disk> FreeSegment<D> {
    ghost use Rattle.log_segment.specs.Segment.{IsSegment, IsFree, IsWhole, IsBroken, Holds, given_by, free_part, disk_of, free_disk, free_volume, free_blocks, segment_volume, owner_of, blocks_of, place_of, valid_of};

    /// The segment that is this part.
    pub fn new(part: Spun<D>) -> FreeSegment<D>
        requires size { (4 ≤ (state_of D.state part).size)
            × ((state_of D.state part).size ≤ 65536) }
        requires idle { IsFreeInAll (state_of D.state part) }
        ensures shape { IsFree D.state result }
        ensures part { free_part result ≡ part }
    {
        let blocks = part.blocks() as u32;
        FreeSegment { part, blocks }
    }

    /// How many blocks of 512 bytes it has.
    pub fn blocks(&self) -> u32
        ensures { result ≡ free_blocks self.now }
    {
        self.blocks
    }

    /// The part, for a bay that takes it back.
    pub fn into_part(self) -> Spun<D>
        ensures { result ≡ free_part self }
    {
        let FreeSegment { part, blocks: _ } = self;
        part
    }

    /// Makes it a segment of the volume `owner`, without a record: the first gate is on the disk before the head.
    /// `Failed` is the disk's. The refusal carries the segment, which is broken: it may be free or owned.
    pub fn claim(self, token: &Awake, owner: u32) -> Result<Segment<D>, (Failed, Segment<D>)>
        requires shape { IsFree D.state self }
        requires volume { token_volume token.now ≡ free_volume self }
        ensures shape { IsSegment D.state (given_by result) }
        ensures volume { segment_volume (given_by result) ≡ free_volume self }
        ensures blocks { blocks_of (given_by result) ≡ free_blocks self }
        ensures owner { owner_of (given_by result) ≡ owner }
        ensures place { place_of (given_by result) ≡ 1 }
        ensures valid { valid_of (given_by result) ≡ 0 }
        ensures whole { IfOk result IsWhole }
        ensures ok { (vs : List (Values Block)) → (free_disk D.state self).values ≡ Some vs
            → IfOk result (λ s. Holds D.state s []) }
        ensures err { IfErr result (λ e. IsBroken e.1) }
        ensures any_moment { LeavesOnly (free_disk D.state self) (disk_of D.state (given_by result))
            (IsIdleOrClaimed owner) }
        ensures cause { IfErr result
            (λ e. Rose (free_disk D.state self).faults (disk_of D.state e.1).faults) }
        ensures calm { IfOk result
            (λ s. (disk_of D.state s).faults ≡ (free_disk D.state self).faults) }
    {
        let FreeSegment { mut part, blocks } = self;
        match claim_part(&mut part, token, owner) {
            Ok(()) => Ok(Segment::with(part, owner, blocks, false)),
            Err(failed) => Err((failed, Segment::with(part, owner, blocks, true))),
        }
    }
}
