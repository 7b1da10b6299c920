// A segment from its claim until it is retired.
ghost use Rattle.log_segment.specs.Segment.{IsFree, free_disk, free_volume, free_blocks, disk_of, segment_volume};
ghost use Rattle.spin_model.specs.Spun.{token_volume};
ghost use Rattle.std.specs.Prelude.{◌≡◌, ◌<◌, ◌≤◌, ◌^◌, ◌+◌, length, List, Some, IfOk, IfErr};
ghost use Rattle.wol_disk.specs.Disk.{Block, Values, Rose};

use log_layout::RecHead;
use log_segment::{FreeSegment, Segment};
use spin_model::Awake;
use wol_disk::{Block, Disk, Failed};

/// Claims a segment, adds two records of one block, reads the second back, gives both up, and retires the segment.
pub fn live<D: Disk>(
    free: FreeSegment<D>,
    token: &Awake,
    owner: u32,
    from: &[Block],
    out: &mut [Block],
) -> Result<FreeSegment<D>, (Failed, Segment<D>)>
    requires shape { IsFree D.state free }
    requires volume { token_volume token.now ≡ free_volume free }
    requires long { 5 ≤ free_blocks free }
    requires one { (length from.now ≡ 1) × (length out.old ≡ 1) }
    ensures shape { IfOk result (IsFree D.state) }
    ensures volume { IfOk result (λ f. free_volume f ≡ free_volume free) }
    ensures blocks { IfOk result (λ f. free_blocks f ≡ free_blocks free) }
    ensures calm { IfOk result (λ f. (free_disk D.state f).faults ≡ (free_disk D.state free).faults) }
    ensures cause { IfErr result
        (λ e. Rose (free_disk D.state free).faults (disk_of D.state e.1).faults) }
    ensures content { (vs : List (Values Block)) → (free_disk D.state free).values ≡ Some vs
        → IfOk result (λ f. out.new ≡ from.now) }
{
    let mut segment = match free.claim(token, owner) {
        Ok(segment) => segment,
        Err(refusal) => return Err(refusal),
    };
    let first = match segment.append(token, 1, 7, from) {
        Ok(position) => position,
        Err(failed) => return Err((failed, segment)),
    };
    let second = match segment.append(token, 2, 9, from) {
        Ok(position) => position,
        Err(failed) => return Err((failed, segment)),
    };
    match segment.read(token, second, 0, out) {
        Ok(()) => {}
        Err(failed) => return Err((failed, segment)),
    }
    let older = RecHead {
        form: 2,
        keep: 1,
        owner,
        version: 1,
        lbn: 7,
        count: 1,
    };
    let newer = RecHead {
        form: 2,
        keep: 1,
        owner,
        version: 2,
        lbn: 9,
        count: 1,
    };
    match segment.trim(token, first, &older, 0) {
        Ok(()) => {}
        Err(failed) => return Err((failed, segment)),
    }
    match segment.trim(token, second, &newer, 0) {
        Ok(()) => {}
        Err(failed) => return Err((failed, segment)),
    }
    segment.retire(token)
}
