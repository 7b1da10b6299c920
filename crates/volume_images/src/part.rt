// One part of an image is written, in the list of all of them.
ghost use Rattle.std.specs.Prelude.{◌≡◌, ◌<◌, ◌⊎◌, List, OnOk, OnErr, IsSome, slice_index_or, vec_len};
ghost use Rattle.volume_images.specs.Contents.{changed, Fits};
ghost use Rattle.wol_model.specs.Blocks.{changed_at};
ghost use Rattle.volume_images.specs.Settled.{AreSettled, HasFault, joined_blocks};
ghost use Rattle.wol_bay.specs.Parts.{sizes_of, blocks_of};
ghost use Rattle.wol_disk.specs.Disk.{Block, IsImageOf};

use crate::content::{Content, store_content};
use spin_model::{Awake, Spun};
use wol_disk::{Disk, Failed};

/// Writes the content to the part at this place and syncs it. The part leaves the list for that time, since it is
/// reached by the token of its volume alone.
pub(crate) fn store<D: Disk>(
    token: &Awake,
    parts: &mut Vec<D>,
    place: usize,
    content: Content,
) -> Result<(), Failed>
    requires place { place < vec_len parts.old }
    requires fits { (d : D) → Fits content (D.state (slice_index_or parts.old.items place d)).size }
    ensures sizes { sizes_of D.state parts.new.items ≡ sizes_of D.state parts.old.items }
    ensures ok { (bss : List (List Block)) → AreSettled D.state bss parts.old.items
        → OnOk result (AreSettled D.state (changed_at place (changed content) bss) parts.new.items) }
    ensures images { (bss : List (List Block)) (c : List Block)
        → AreSettled D.state bss parts.old.items → IsImageOf (blocks_of D.state parts.new.items) c
        → (c ≡ joined_blocks bss) ⊎ (c ≡ joined_blocks (changed_at place (changed content) bss)) }
    ensures told { IsSome (blocks_of D.state parts.old.items)
        → IsSome (blocks_of D.state parts.new.items) }
    ensures cause { OnErr result (HasFault D.state place parts.new.items) }
{
    let mut part = Spun::new(token.volume(), parts.swap_remove(place));
    let stored = store_content(token, &mut part, content);
    parts.push_reserved(part.into_inner());
    let last = parts.len() - 1;
    parts.swap(place, last);
    stored
}
