// What a volume is opened of.
use log_layout::{Label, View};
use logger::Lane;
use spin_model::{Spindle, SpindleBase, Spun};
use turn_lock::PassOf;
use wol_disk::Disk;

/// A segment whose head names the volume that is opened.
pub struct OwnedPart<D: Disk> {
    /// The volume in whose image it lies.
    pub logger: u32,
    /// Its index there.
    pub index: u32,
    /// The place of its first block in that image.
    pub first_block: u64,
    pub part: Spun<D>,
}

/// What a volume is opened of: what the configuration and its image say, its disks, and its passes.
pub struct Opening<D: Disk> {
    /// The label that the configuration asks for.
    pub want: Label,
    /// The label of the image.
    pub label: Label,
    /// The view of the image.
    pub view: View,
    /// For each configured volume whether its image was opened.
    pub present: Vec<bool>,
    /// The most blocks of one write.
    pub most: u32,
    pub home: Spun<D>,
    pub spindle: PassOf<Spindle, SpindleBase>,
    /// A lane for each logger of the view whose image was opened, in view order.
    pub lanes: Vec<Lane<D>>,
    /// The segments that the volume owns, by rising logger and index.
    pub owned: Vec<OwnedPart<D>>,
}
