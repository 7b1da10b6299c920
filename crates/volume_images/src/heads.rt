// The heads of an image's segments are read.
ghost use Rattle.log_layout.specs.Values.{segment_head};
ghost use Rattle.spin_model.specs.Spun.{volume_of, state_of, token_volume};
ghost use Rattle.std.specs.Prelude.{◌≡◌, ◌≤◌, ◌∷◌, [], Some, List, option_map, IfOk, OnOk, IfSome, IfNone, IsErrOf};
ghost use Rattle.volume_images.specs.Accepted.{HasHead, IsHeadless, IsConfigured};
ghost use Rattle.volume_images.specs.Reads.{IsOnlyRead};
ghost use Rattle.volume_images.specs.declared.heads.HeadFault.TheVariants as fault;
ghost use Rattle.wol_disk.specs.Disk.{Block, Values, Rose, IsImageOf, reads, settled};
ghost use Rattle.wol_model.specs.Heads.{SegmentHead};

use log_layout::{SegHead, read_seg};
use spin_model::{Awake, Spun};
use wol_disk::{Block, Disk, Failed};

/// Why the head of a segment wasn't read.
#[derive(Clone, Copy, Debug, PartialEq, Eq)]
pub(crate) enum HeadFault {
    /// The first block is no head, or its owner isn't configured.
    Damaged,
    /// A call of the part failed.
    Failed,
}

impl From<Failed> for HeadFault {
    ghost from_gives = { λ _ e. e ≡ fault.Failed };

    fn from(_failed: Failed) -> HeadFault {
        HeadFault::Failed
    }
}

// The head that a block is, of nobody or of one of so many volumes.
fn head_in(block: &Block, volumes: u32) -> Option<SegHead>
    ensures found { IfSome result (λ head. HasHead volumes (block.now ∷ []) (segment_head head)) }
    ensures none { IfNone result (IsHeadless volumes (block.now ∷ [])) }
{
    match read_seg(block) {
        Some(SegHead::Free) => Some(SegHead::Free),
        Some(SegHead::Owned(owner)) if owner < volumes => Some(SegHead::Owned(owner)),
        _ => None,
    }
}

/// Reads the head of a segment, after a sync.
pub(crate) fn read_head<D: Disk>(
    token: &Awake,
    part: &mut Spun<D>,
    volumes: u32,
) -> Result<SegHead, HeadFault>
    requires volume { token_volume token.now ≡ volume_of part.old }
    requires size { 1 ≤ (state_of D.state part.old).size }
    ensures content { (vs : List (Values Block)) → (state_of D.state part.old).values ≡ Some vs
        → IfOk result (λ head. HasHead volumes (reads vs) (segment_head head)) }
    ensures always { IfOk result (λ head. (c : List Block)
        → IsImageOf (state_of D.state part.new).values c
        → HasHead volumes c (segment_head head)) }
    ensures configured { IfOk result (λ head. IsConfigured volumes (segment_head head)) }
    ensures damaged { (vs : List (Values Block)) → (state_of D.state part.old).values ≡ Some vs
        → IsErrOf result HeadFault.Damaged → IsHeadless volumes (reads vs) }
    ensures settled { OnOk result ((state_of D.state part.new).values
        ≡ option_map settled (state_of D.state part.old).values) }
    ensures read { IsOnlyRead (state_of D.state part.old) (state_of D.state part.new) }
    ensures volume { volume_of part.new ≡ volume_of part.old }
    ensures cause { IsErrOf result HeadFault.Failed
        → Rose (state_of D.state part.old).faults (state_of D.state part.new).faults }
    ensures calm { (IsErrOf result HeadFault.Failed → ⊥)
        → (state_of D.state part.new).faults ≡ (state_of D.state part.old).faults }
{
    part.sync(token)?;
    let mut head = [[0; 512]; 1];
    part.read(token, 0, &mut head)?;
    match head_in(&head[0], volumes) {
        Some(head) => Ok(head),
        None => Err(HeadFault::Damaged),
    }
}
