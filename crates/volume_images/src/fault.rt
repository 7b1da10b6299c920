// Why not all images of a configuration were formatted.
ghost use Rattle.std.specs.Prelude.{◌≡◌};
ghost use Rattle.volume_images.specs.declared.fault.RackFault.TheVariants as fault;

use wol_disk::NoMemory;

/// A part of a volume's image, or the bay that has the image.
#[derive(Clone, Copy, Debug, PartialEq, Eq)]
pub enum PartName {
    /// The bay itself.
    Bay,
    /// The part of label and view.
    Label,
    /// The home.
    Home,
    /// The segment with this index.
    Segment(u32),
}

/// Why not all images were formatted.
#[derive(Clone, Copy, Debug, PartialEq, Eq)]
pub enum RackFault {
    /// A call of this part of the volume's image failed. It comes only where the part's count of faults rose.
    Failed { volume: u32, part: PartName },
    /// There was no memory.
    NoMemory,
}

impl From<NoMemory> for RackFault {
    ghost from_gives = { λ _ e. e ≡ fault.NoMemory };

    fn from(_error: NoMemory) -> RackFault {
        RackFault::NoMemory
    }
}
