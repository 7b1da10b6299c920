// An image goes out of its bay to be opened, and comes back where it is refused.
ghost use Rattle.log_layout.specs.Values.{shape_of};
ghost use Rattle.spin_model.specs.Spun.{token_volume};
ghost use Rattle.std.specs.Prelude.{◌≡◌, ◌≤◌, [], List, Option, option_map, IfOk, IfErr, OnOk, OnErr, IfSome, IsErrOf, vec_capacity};
ghost use Rattle.volume_images.specs.Formatted.{part_sizes};
ghost use Rattle.volume_images.specs.Sent.{IsSentOut, IsOpenable, IsGivenBack};
ghost use Rattle.wol_bay.specs.Bay.{IsHome, IsOut, sent_out};
ghost use Rattle.wol_bay.specs.Refusals.{blocks_at, refusal, IsAnswered};
ghost use Rattle.wol_disk.specs.Disk.{Block, Values, Rose};
ghost use Rattle.wol_model.specs.Heads.{IsShape};

use crate::image::part_sizes;
use crate::parts::ImageParts;
use crate::reading::{ImageFault, read_image};
use log_layout::{Label, SegHead, View};
use spin_model::Awake;
use std::alloc::Global;
use wol_bay::{Bay, BayFault};
use wol_disk::Disk;

/// An image that is out of its bay, with the list in which the bay handed it out as room for its way back.
#[derive(Drop)]
pub struct OutParts<D: Disk> {
    pub image: ImageParts<D>,
    pub room: Vec<D>,
}

/// An image that may be opened: its parts, its view, and the heads of its segments.
#[derive(Drop)]
pub struct OutImage<D: Disk> {
    pub parts: OutParts<D>,
    pub view: View,
    pub heads: Vec<SegHead>,
}

/// Takes the image with the sizes of this label out of the bay. After a refusal it is there as it was.
pub(crate) fn send_out<B: Bay>(
    alloc: Global,
    bay: &mut B,
    name: &str,
    want: &Label,
) -> Result<OutParts<B::Part>, BayFault>
    requires shape { IsShape (shape_of want.now) }
    requires home { IsHome name.now (B.state bay.old) }
    ensures out { IfOk result (IsSentOut B.Part.state want.now.id (shape_of want.now)
        (blocks_at name.now (B.state bay.old).told)) }
    ensures ok { OnOk result ((B.state bay.new).told
        ≡ option_map (sent_out name.now (part_sizes (shape_of want.now)))
        (B.state bay.old).told) }
    ensures err { OnErr result ((B.state bay.new).told ≡ (B.state bay.old).told) }
    // each cause but want of memory
    ensures refused { (IsErrOf result BayFault.NoMemory → ⊥)
        → IfSome (B.state bay.old).told
        (λ t. IsAnswered (refusal name.now (part_sizes (shape_of want.now)) t) result) }
    ensures cause { IsErrOf result BayFault.Failed
        → Rose (B.state bay.old).faults (B.state bay.new).faults }
    ensures calm { (IsErrOf result BayFault.Failed → ⊥)
        → (B.state bay.new).faults ≡ (B.state bay.old).faults }
    ensures counts { (B.state bay.old).faults ≤ (B.state bay.new).faults }
{
    let Ok(sizes) = part_sizes(alloc, want) else {
        return Err(BayFault::NoMemory);
    };
    let Ok(room) = Vec::with_capacity(alloc, want.segments as usize) else {
        return Err(BayFault::NoMemory);
    };
    match bay.attach(name, &sizes) {
        Ok(mut parts) => {
            let image = ImageParts::take_apart(want.id, &mut parts, room);
            Ok(OutParts { image, room: parts })
        }
        Err(fault) => {
            room.destroy_empty();
            Err(fault)
        }
    }
}

/// Reads an image that is out. Where it may not be opened it goes back to the bay.
pub(crate) fn read_out<B: Bay>(
    token: &Awake,
    bay: &mut B,
    name: &str,
    want: &Label,
    volumes: u32,
    out: OutParts<B::Part>,
    heads: Vec<SegHead>,
) -> Result<OutImage<B::Part>, ImageFault>
    requires shape { IsShape (shape_of want.now) }
    requires token { token_volume token.now ≡ want.now.id }
    requires out { (blocks : Option (List (Values Block)))
        × IsSentOut B.Part.state want.now.id (shape_of want.now) blocks out }
    requires name { IsOut name.now (part_sizes (shape_of want.now)) (B.state bay.old) }
    requires empty { heads.items ≡ [] }
    requires room { want.now.segments ≤ vec_capacity heads }
    ensures ok { IfOk result
        (IsOpenable B.Part.state volumes want.now.id (shape_of want.now) out.image) }
    ensures unchanged { OnOk result (B.state bay.new ≡ B.state bay.old) }
    ensures refused { IfErr result (IsGivenBack B.Part.state volumes want.now.id (shape_of want.now)
        name.now out.image (B.state bay.old) (B.state bay.new)) }
{
    let OutParts { mut image, room } = out;
    let mut heads = heads;
    match read_image(token, want, volumes, &mut image, &mut heads) {
        Ok(view) => Ok(OutImage {
            parts: OutParts { image, room },
            view,
            heads,
        }),
        Err(fault) => {
            bay.detach(name, image.put_together(room));
            Err(fault)
        }
    }
}
