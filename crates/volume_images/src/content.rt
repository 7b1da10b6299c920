// What a format writes to a part of an image.
ghost use Rattle.logger_view.specs.Stored.{IsWithOrWithout};
ghost use Rattle.spin_model.specs.Spun.{volume_of, state_of, token_volume};
ghost use Rattle.std.specs.Prelude.{◌≡◌, List, option_map, OnOk, IsErr, IsSome};
ghost use Rattle.volume_images.specs.Contents.{changed, Fits};
ghost use Rattle.wol_disk.specs.Disk.{Block, only, reads, Rose, IsImageOf};

use log_layout::{Label, View};
use logger_view::{store_free, store_label, store_view};
use spin_model::{Awake, Spun};
use wol_disk::{Disk, Failed};

/// What a format writes to a part before it syncs it.
#[derive(Clone, Copy)]
pub(crate) enum Content {
    /// The view, to block 1.
    View(View),
    /// Nothing: the part stays as it is.
    Nothing,
    /// The head of a free segment, to block 0.
    FreeHead,
    /// The label, to block 0.
    Label(Label),
}

/// Writes the content to the part and syncs it. Whatever it answers, an image of the part is one from before, or one
/// with the content.
pub(crate) fn store_content<D: Disk>(
    token: &Awake,
    part: &mut Spun<D>,
    content: Content,
) -> Result<(), Failed>
    requires volume { token_volume token.now ≡ volume_of part.old }
    requires fits { Fits content (state_of D.state part.old).size }
    ensures ok { OnOk result ((state_of D.state part.new).values
        ≡ option_map (λ vs. only (changed content (reads vs)))
        (state_of D.state part.old).values) }
    ensures images { (c : List Block) → IsImageOf (state_of D.state part.new).values c
        → IsWithOrWithout (changed content) (state_of D.state part.old) c }
    ensures told { IsSome (state_of D.state part.old).values
        → IsSome (state_of D.state part.new).values }
    ensures size { (state_of D.state part.new).size ≡ (state_of D.state part.old).size }
    ensures cause { IsErr result
        → Rose (state_of D.state part.old).faults (state_of D.state part.new).faults }
    ensures calm { OnOk result
        ((state_of D.state part.new).faults ≡ (state_of D.state part.old).faults) }
{
    match content {
        Content::View(view) => store_view(token, part, &view),
        Content::Nothing => part.sync(token),
        Content::FreeHead => store_free(token, part),
        Content::Label(label) => store_label(token, part, &label),
    }
}
