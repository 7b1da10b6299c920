// A part that is scanned and becomes the segment that it is.
ghost use Rattle.log_scan.specs.Adopted.{IfFree, IfHeld, adopted_part};
ghost use Rattle.log_segment.specs.Segment.{IsFree, IsSegment, IsWhole};
ghost use Rattle.spin_model.specs.Spun.{volume_of, state_of, token_volume};
ghost use Rattle.std.specs.Prelude.{◌≡◌, ◌≤◌, IfOk, IfErr};

use log_scan::calls::scan;
use log_scan::{Adopted, ScanFault, adopt};
use spin_model::{Awake, Spun};
use std::alloc::Global;
use wol_disk::Disk;

/// Scans a part and adopts it. The refusal carries the part.
pub fn open_segment<D: Disk>(
    alloc: Global,
    token: &Awake,
    part: Spun<D>,
) -> Result<Adopted<D>, (ScanFault, Spun<D>)>
    requires volume { token_volume token.now ≡ volume_of part }
    requires size { (4 ≤ (state_of D.state part).size) × ((state_of D.state part).size ≤ 65536) }
    ensures free { IfOk result (λ a. IfFree a (IsFree D.state)) }
    ensures held { IfOk result (λ a. IfHeld a (λ s. IsSegment D.state s × IsWhole s)) }
    ensures volume { IfOk result (λ a. volume_of (adopted_part a) ≡ volume_of part) }
    ensures volume_err { IfErr result (λ e. volume_of e.1 ≡ volume_of part) }
{
    let mut scanned = part;
    match scan(alloc, token, &mut scanned) {
        Ok(found) => Ok(adopt(scanned, &found)),
        Err(fault) => Err((fault, scanned)),
    }
}
