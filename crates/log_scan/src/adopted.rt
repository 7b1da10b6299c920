// A part that was scanned, as the segment that it is.
ghost use Rattle.log_scan.specs.Adopted.{IfFree, IfHeld, adopted_part, count_kept};
ghost use Rattle.log_scan.specs.Scan.{IsScan, IsScanOf};
ghost use Rattle.log_segment.specs.Segment.{IsFree, IsSegment, IsWhole, Holds, owner_of, place_of, valid_of};
ghost use Rattle.spin_model.specs.Spun.{state_of};
ghost use Rattle.std.specs.Prelude.{◌≡◌, ◌≤◌, List, None, Some};
ghost use Rattle.wol_disk.specs.Disk.{Block, Values, only, reads};
ghost use Rattle.wol_model.specs.Log.{Record, IsLog};

use crate::{Found, Scan};
use log_segment::{FreeSegment, Segment};
use spin_model::Spun;
use wol_disk::Disk;

/// The segment that a part is.
#[derive(Drop)]
pub enum Adopted<D: Disk> {
    /// Nobody owns it.
    Free(FreeSegment<D>),
    /// A volume owns it.
    Held(Segment<D>),
}

// How many of the records keep a block.
fn count_valid(found: &[Found]) -> usize
    ensures { result ≡ count_kept found.now }
{
    let mut valid = 0;
    for one in found {
        if one.head.keep != 0 {
            valid += 1;
        }
    }
    valid
}

/// The segment that the part is by its scan, after which nothing may have been written to the part.
pub fn adopt<D: Disk>(part: Spun<D>, scan: &Scan) -> Adopted<D>
    requires size { (4 ≤ (state_of D.state part).size) × ((state_of D.state part).size ≤ 65536) }
    requires shape { IsScan (state_of D.state part).size scan.now }
    requires scanned { (vs : List (Values Block)) → (state_of D.state part).values ≡ Some vs
        → (vs ≡ only (reads vs)) × IsScanOf (reads vs) scan.now }
    ensures free { IfFree result (IsFree D.state) }
    ensures free_owner { IfFree result (λ f. scan.now.owner ≡ None) }
    ensures held { IfHeld result (IsSegment D.state) }
    ensures held_owner { IfHeld result (λ s. scan.now.owner ≡ Some (owner_of s)) }
    ensures whole { IfHeld result IsWhole }
    ensures place { IfHeld result (λ s. place_of s ≡ scan.now.end) }
    ensures valid { IfHeld result (λ s. valid_of s ≡ count_kept scan.now.records.items) }
    ensures part { adopted_part result ≡ part }
    ensures holds { (vs : List (Values Block)) → (state_of D.state part).values ≡ Some vs
        → IfHeld result
        (λ s. (rs : List Record) → IsLog (reads vs) (owner_of s) rs → Holds D.state s rs) }
{
    match scan.owner {
        None => Adopted::Free(FreeSegment::new(part)),
        Some(owner) => {
            let valid = count_valid(&scan.records) as u32;
            Adopted::Held(Segment::restored(part, owner, scan.end, valid))
        }
    }
}
