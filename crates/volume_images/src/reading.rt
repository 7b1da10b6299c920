// What one image says is read: its label, its view, and the heads of its segments.
ghost use Rattle.log_layout.specs.Values.{shape_of};
ghost use Rattle.spin_model.specs.Spun.{volume_of, state_of, token_volume};
ghost use Rattle.std.specs.Prelude.{◌≡◌, ◌≤◌, ◌<◌, ◌^◌, [], ℕ, List, length, option_map, IfOk, IfErr, OnOk, IsErrOf, All, vec_capacity};
ghost use Rattle.volume_images.specs.Accepted.{head_place};
ghost use Rattle.volume_images.specs.Heads.{SayHeads, AlwaysSay, IsDamagedSegment, RoseAt, AreCalm};
ghost use Rattle.volume_images.specs.ImageParts.{ArePartsOf, IsReadImage, IsCalmImage, MayOpen, MayNotOpen};
ghost use Rattle.volume_images.specs.Reads.{AreOnlyRead};
ghost use Rattle.wol_disk.specs.Disk.{settled};
ghost use Rattle.wol_model.specs.Heads.{IsShape};

use crate::heads::{HeadFault, read_head};
use crate::parts::ImageParts;
use log_layout::{Label, SegHead, View};
use logger_view::{ViewFault, load};
use spin_model::{Awake, Spun};
use wol_disk::Disk;

/// Why an image isn't opened, by what it says or by a call of its parts that failed.
#[derive(Clone, Copy, Debug, PartialEq, Eq)]
pub enum ImageFault {
    /// This block of the image is damaged.
    Damaged { block: u64 },
    /// The label isn't the configured one.
    LabelDiffers,
    /// A call of the part of label and view failed.
    LabelFault,
    /// A call of this segment's part failed.
    SegmentFault(u32),
}

/// The place in its image of a segment's first block.
pub fn head_place(label: &Label, index: u32) -> u64
    requires { IsShape (shape_of label.now) }
    ensures { result ≡ head_place (shape_of label.now) index }
{
    2 + label.home + u64::from(index) * u64::from(label.segment_blocks)
}

// Reads the heads of all segments in order, up to the first that is damaged or fails.
fn read_heads<D: Disk>(
    token: &Awake,
    label: &Label,
    volumes: u32,
    segments: &mut [Spun<D>],
    heads: &mut Vec<SegHead>,
) -> Result<(), ImageFault>
    requires shape { IsShape (shape_of label.now) }
    requires volume { All (λ p. token_volume token.now ≡ volume_of p) segments.old }
    requires size { All (λ p. 1 ≤ (state_of D.state p).size) segments.old }
    requires few { length segments.old < 2 ^ 32 }
    requires empty { heads.old.items ≡ [] }
    requires room { length segments.old ≤ vec_capacity heads.old }
    ensures ok { OnOk result
        (SayHeads D.state volumes segments.old (length segments.old) heads.new.items) }
    ensures always { OnOk result (AlwaysSay D.state volumes segments.new heads.new.items) }
    ensures damaged { (block : ℕ) → IsErrOf result (ImageFault.Damaged block)
        → IsDamagedSegment D.state volumes (shape_of label.now) segments.old block }
    ensures label { IsErrOf result ImageFault.LabelDiffers → ⊥ }
    ensures label_part { IsErrOf result ImageFault.LabelFault → ⊥ }
    ensures cause { (index : ℕ) → IsErrOf result (ImageFault.SegmentFault index)
        → RoseAt D.state index segments.old segments.new }
    ensures before { (index : ℕ) → IsErrOf result (ImageFault.SegmentFault index)
        → (before : List SegHead) × SayHeads D.state volumes segments.old index before }
    ensures calm { ((index : ℕ) → IsErrOf result (ImageFault.SegmentFault index) → ⊥)
        → AreCalm D.state segments.old segments.new }
    ensures read { AreOnlyRead D.state segments.old segments.new }
{
    for (index, part) in segments.iter_mut().enumerate() {
        match read_head(token, part, volumes) {
            Ok(head) => heads.push_reserved(head),
            Err(HeadFault::Damaged) => {
                let block = head_place(label, index as u32);
                return Err(ImageFault::Damaged { block });
            }
            Err(HeadFault::Failed) => return Err(ImageFault::SegmentFault(index as u32)),
        }
    }
    Ok(())
}

/// Reads what an image says: label and view after a sync, and then the heads of the segments in order, each after a sync.
/// `want` is the configured label, and `volumes` how many volumes are configured.
pub(crate) fn read_image<D: Disk>(
    token: &Awake,
    want: &Label,
    volumes: u32,
    parts: &mut ImageParts<D>,
    heads: &mut Vec<SegHead>,
) -> Result<View, ImageFault>
    requires shape { IsShape (shape_of want.now) }
    requires parts { ArePartsOf D.state (token_volume token.now) (shape_of want.now) parts.old }
    requires empty { heads.old.items ≡ [] }
    requires room { want.now.segments ≤ vec_capacity heads.old }
    ensures ok { IfOk result (λ view.
        MayOpen D.state volumes want.now.id (shape_of want.now) parts.old view heads.new.items) }
    ensures always { OnOk result
        (AlwaysSay D.state volumes parts.new.segments.items heads.new.items) }
    ensures synced { OnOk result ((state_of D.state parts.new.label).values
        ≡ option_map settled (state_of D.state parts.old.label).values) }
    ensures refused { IfErr result
        (MayNotOpen D.state volumes want.now.id (shape_of want.now) parts.old parts.new) }
    ensures calm { OnOk result (IsCalmImage D.state parts.old parts.new) }
    ensures read { IsReadImage D.state parts.old parts.new }
{
    let (label, view) = match load(token, &mut parts.label, want.id) {
        Ok(found) => found,
        Err(ViewFault::Damaged { block }) => {
            return Err(ImageFault::Damaged {
                block: u64::from(block),
            });
        }
        Err(ViewFault::Failed) => return Err(ImageFault::LabelFault),
    };
    if label != *want {
        return Err(ImageFault::LabelDiffers);
    }
    read_heads(token, want, volumes, &mut parts.segments, heads)?;
    Ok(view)
}
