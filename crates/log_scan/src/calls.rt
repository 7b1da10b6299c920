// The scan of a segment. Its name and that of a type differ in the case of a letter, so it stands in a module.
ghost use Rattle.log_scan.specs.Scan.{IsScan, IsScanOf, IsDamaged, IsFirstFault, ReadsOnly};
ghost use Rattle.log_scan.specs.declared.ScanFault.TheVariants as fault;
ghost use Rattle.spin_model.specs.Spun.{volume_of, state_of, token_volume};
ghost use Rattle.std.specs.Prelude.{◌≡◌, ◌≤◌, ◌<◌, ◌^◌, ℕ, List, Some, option_map, IfOk, OnOk, IsErrOf};
ghost use Rattle.wol_disk.specs.Disk.{Block, Values, only, settled, reads, LeavesOnly, Rose, IsImageOf};

use crate::reading::{read_block, read_records};
use crate::{Scan, ScanFault};
use log_layout::{SegHead, read_seg};
use spin_model::{Awake, Spun};
use std::alloc::Global;
use wol_disk::Disk;

// Reads a segment that has one image.
fn read_segment<D: Disk>(
    alloc: Global,
    part: &mut Spun<D>,
    token: &Awake,
    blocks: u32,
) -> Result<Scan, ScanFault>
    requires volume { token_volume token.now ≡ volume_of part.old }
    requires size { (state_of D.state part.old).size ≡ blocks }
    requires small { (4 ≤ blocks) × (blocks ≤ 65536) }
    ensures shape { IfOk result (IsScan blocks) }
    ensures scanned { (bs : List Block) → (state_of D.state part.old).values ≡ Some (only bs)
        → IfOk result (IsScanOf bs) }
    ensures damaged { (bs : List Block) (block : ℕ)
        → (state_of D.state part.old).values ≡ Some (only bs)
        → IsErrOf result (fault.Damaged block) → IsDamaged bs × IsFirstFault bs block }
    ensures kept { ReadsOnly D.state part.old part.new result }
{
    let block = match read_block(part, token, 0) {
        Ok(block) => block,
        Err(_) => return Err(ScanFault::Failed),
    };
    match read_seg(&block) {
        None => Err(ScanFault::Damaged { block: 0 }),
        Some(SegHead::Free) => Ok(Scan {
            owner: None,
            records: Vec::new(alloc),
            end: 1,
        }),
        Some(SegHead::Owned(owner)) => match read_records(alloc, part, token, blocks, owner) {
            Ok((records, end)) => Ok(Scan {
                owner: Some(owner),
                records,
                end,
            }),
            Err(fault) => Err(fault),
        },
    }
}

/// Reads a segment: a sync, after which its part has one image, then its head, and where it is owned each record's head
/// up to a gate or the segment's end. It changes no image.
///
/// `Damaged` comes exactly where the blocks are neither free nor a log of some records and no call of the part failed.
/// `Failed` is the disk's, and comes before `Damaged`.
pub fn scan<D: Disk>(alloc: Global, token: &Awake, part: &mut Spun<D>) -> Result<Scan, ScanFault>
    requires volume { token_volume token.now ≡ volume_of part.old }
    requires size { (4 ≤ (state_of D.state part.old).size)
        × ((state_of D.state part.old).size ≤ 65536) }
    ensures shape { IfOk result (IsScan (state_of D.state part.old).size) }
    ensures scanned { (vs : List (Values Block)) → (state_of D.state part.old).values ≡ Some vs
        → IfOk result (IsScanOf (reads vs)) }
    ensures damaged { (vs : List (Values Block)) (block : ℕ)
        → (state_of D.state part.old).values ≡ Some vs
        → IsErrOf result (fault.Damaged block)
        → IsDamaged (reads vs) × IsFirstFault (reads vs) block }
    ensures settled { OnOk result ((state_of D.state part.new).values
        ≡ option_map settled (state_of D.state part.old).values) }
    ensures size { (state_of D.state part.new).size ≡ (state_of D.state part.old).size }
    ensures volume { volume_of part.new ≡ volume_of part.old }
    ensures cause { IsErrOf result fault.Failed
        → Rose (state_of D.state part.old).faults (state_of D.state part.new).faults }
    ensures calm { OnOk result
        ((state_of D.state part.new).faults ≡ (state_of D.state part.old).faults) }
    ensures quiet { (block : ℕ) → IsErrOf result (fault.Damaged block)
        → (state_of D.state part.new).faults ≡ (state_of D.state part.old).faults }
    ensures any_moment { LeavesOnly (state_of D.state part.old) (state_of D.state part.new)
        (IsImageOf (state_of D.state part.old).values) }
{
    match part.sync(token) {
        Ok(()) => {
            let blocks = part.blocks() as u32;
            read_segment(alloc, part, token, blocks)
        }
        Err(_) => Err(ScanFault::Failed),
    }
}
