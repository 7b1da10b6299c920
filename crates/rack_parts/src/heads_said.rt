// What the images that are out say, while volumes are opened.
ghost use Rattle.rack_parts.specs.Parts.{IsLaidOut, is_owned_by};
ghost use Rattle.std.specs.Prelude.{◌≡◌, ◌≤◌, [], length, vec_capacity};

use crate::rack::ImageRest;
use log_layout::{SegHead, View};
use spin_model::Spun;
use volume_images::{ImageParts, OutImage, OutParts};
use wol_disk::Disk;

/// The view of an image, and the heads of its segments.
#[derive(Drop)]
pub struct Said {
    pub view: View,
    pub heads: Vec<SegHead>,
}

/// Whether a head names this owner.
pub(crate) fn is_owned_by(head: SegHead, owner: u32) -> bool
    ensures { result ≡ is_owned_by owner head }
{
    match head {
        SegHead::Free => false,
        SegHead::Owned(found) => found == owner,
    }
}

impl Said {
    ghost use Rattle.rack_parts.specs.Parts.{owned_count};
    ghost use Rattle.std.specs.Prelude.{◌≡◌};

    /// How many segments the volume owns in this image.
    pub(crate) fn owned(&self, owner: u32) -> usize
        ensures { result ≡ owned_count owner self.now }
    {
        self.heads
            .iter()
            .filter(|head| is_owned_by(**head, owner))
            .count()
    }
}

/// All parts of an image that is out are here, in this empty list of segments.
pub fn lay_out<D: Disk>(image: OutImage<D>, segments: Vec<Option<Spun<D>>>) -> (Said, ImageRest<D>)
    requires empty { segments.items ≡ [] }
    requires room { length image.parts.image.segments.items ≤ vec_capacity segments }
    ensures { IsLaidOut image result.0 result.1 }
{
    let OutImage { parts, view, heads } = image;
    let OutParts { image, room } = parts;
    let ImageParts {
        label,
        home,
        segments: mut row,
    } = image;
    let mut segments = segments;
    row.reverse();
    while let Some(part) = row.pop() {
        segments.push_reserved(Some(part));
    }
    let rest = ImageRest {
        label,
        home: Some(home),
        segments,
        row,
        room,
    };
    (Said { view, heads }, rest)
}
