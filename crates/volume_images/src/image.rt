// The image of one volume is made anew and formatted, and so are those of a configuration.
ghost use Rattle.log_layout.specs.Values.{shape_of};
ghost use Rattle.std.specs.Prelude.{ℕ, ◌≡◌, ◌≤◌, ◌<◌, length, slice_index_or, ◌∷◌, ◌++◌, replicate, List, IfOk, OnOk, IfErr, IsErrOf, IsSome};
ghost use Rattle.volume_images.specs.Formatted.{part_sizes, blank_parts, formatted_parts, free_segment, IsUnlabelledOrFormatted};
ghost use Rattle.volume_images.specs.Formats.{LeavesImages, LeavesSound, LeavesZeros, LosesNone};
ghost use Rattle.volume_images.specs.Left.{IsTold, LeavesImage, HasFailed, fault_of_bay};
ghost use Rattle.volume_images.specs.Settled.{AreSettled};
ghost use Rattle.volume_images.specs.Volumes.{shape_in, NoneOut};
ghost use Rattle.volume_images.specs.declared.fault.PartName.{PartName};
ghost use Rattle.wol_bay.specs.Bay.{IsHome, outs};
ghost use Rattle.wol_bay.specs.Parts.{sizes_of, blocks_of};
ghost use Rattle.wol_config.specs.Configs.{IsValid};
ghost use Rattle.wol_config.specs.declared.config.VolumeConf.{VolumeConf};
ghost use Rattle.wol_disk.specs.Disk.{Block, Rose, IsImageOf};
ghost use Rattle.wol_disk.specs.Zeros.{zeros};
ghost use Rattle.wol_model.specs.Heads.{IsShape};

use crate::content::Content;
use crate::fault::{PartName, RackFault};
use crate::part::store;
use log_layout::{Label, View};
use spin_model::{Awake, Spindle};
use std::alloc::Global;
use wol_bay::{Bay, BayFault};
use wol_config::{Config, VolumeConf};
use wol_disk::{Disk, NoMemory};

// The place of the part of label and view.
const LABEL: usize = 0;

// The place of the home. The segments stand behind it.
const HOME: usize = 1;

/// The label that the configuration asks for.
pub fn label_of(config: &Config, id: u32) -> Label
    requires config { IsValid config.now }
    requires within { id < length config.now.volumes.items }
    ensures id { result.id ≡ id }
    ensures shape { (d : VolumeConf)
        → shape_of result ≡ shape_in config.now (slice_index_or config.now.volumes.items id d) }
    ensures in_range { IsShape (shape_of result) }
{
    let volume = &config.volumes[id as usize];
    Label {
        id,
        home: volume.home,
        segments: volume.segments,
        segment_blocks: config.segment_blocks,
    }
}

/// The sizes of the parts of an image, in blocks.
pub(crate) fn part_sizes(alloc: Global, label: &Label) -> Result<Vec<u64>, NoMemory>
    requires { IsShape (shape_of label.now) }
    ensures { IfOk result (λ sizes. sizes.items ≡ part_sizes (shape_of label.now)) }
{
    let mut sizes = vec![in alloc; u64::from(label.segment_blocks); 2 + label.segments as usize]?;
    sizes[LABEL] = 2;
    sizes[HOME] = label.home;
    Ok(sizes)
}

// Makes each segment a free one.
fn free_segments<D: Disk>(token: &Awake, label: &Label, parts: &mut Vec<D>) -> Result<(), PartName>
    requires shape { IsShape (shape_of label.now) }
    requires sizes { sizes_of D.state parts.old.items ≡ part_sizes (shape_of label.now) }
    ensures sizes { sizes_of D.state parts.new.items ≡ sizes_of D.state parts.old.items }
    ensures ok { (front home : List Block)
        → AreSettled D.state (front ∷ home
        ∷ replicate label.now.segments (zeros label.now.segment_blocks)) parts.old.items
        → OnOk result (AreSettled D.state
        (front ∷ home ∷ replicate label.now.segments (free_segment label.now.segment_blocks))
        parts.new.items) }
    ensures images { (front home c : List Block)
        → AreSettled D.state (front ∷ home
        ∷ replicate label.now.segments (zeros label.now.segment_blocks)) parts.old.items
        → IsImageOf (blocks_of D.state parts.new.items) c
        → (rest : List Block) × (c ≡ front ++ rest) }
    ensures told { IsSome (blocks_of D.state parts.old.items)
        → IsSome (blocks_of D.state parts.new.items) }
    ensures cause { IfErr result (HasFailed D.state parts.new.items) }
{
    for index in 0..label.segments {
        if store(token, parts, 2 + index as usize, Content::FreeHead).is_err() {
            return Err(PartName::Segment(index));
        }
    }
    Ok(())
}

// Formats an image of zeros: the view, the home, the segments, and last the label, each synced.
fn format_parts<D: Disk>(
    token: &Awake,
    label: &Label,
    view: &View,
    parts: &mut Vec<D>,
) -> Result<(), PartName>
    requires shape { IsShape (shape_of label.now) }
    requires blank { AreSettled D.state (blank_parts (shape_of label.now)) parts.old.items }
    ensures sizes { sizes_of D.state parts.new.items ≡ sizes_of D.state parts.old.items }
    ensures ok { OnOk result (AreSettled D.state
        (formatted_parts label.now.id (shape_of label.now) view.now) parts.new.items) }
    ensures images { (c : List Block) → IsImageOf (blocks_of D.state parts.new.items) c
        → IsUnlabelledOrFormatted label.now.id (shape_of label.now) view.now c }
    ensures told { IsSome (blocks_of D.state parts.old.items)
        → IsSome (blocks_of D.state parts.new.items) }
    ensures cause { IfErr result (HasFailed D.state parts.new.items) }
{
    if store(token, parts, LABEL, Content::View(*view)).is_err() {
        return Err(PartName::Label);
    }
    if store(token, parts, HOME, Content::Nothing).is_err() {
        return Err(PartName::Home);
    }
    free_segments(token, label, parts)?;
    if store(token, parts, LABEL, Content::Label(*label)).is_err() {
        return Err(PartName::Label);
    }
    Ok(())
}

/// Makes the image of a volume anew and formats it: the view, a home of zeros, free segments, and last the label, whose id is that of the
/// volume. It is back in the bay at each exit; where it isn't whole it has no label.
pub fn format_image<B: Bay>(
    alloc: Global,
    bay: &mut B,
    volume: &VolumeConf,
    label: &Label,
    timeout: u64,
) -> Result<(), RackFault>
    requires shape { IsShape (shape_of label.now) }
    requires timeout { 0 < timeout }
    requires home { IsHome volume.now.name (B.state bay.old) }
    ensures home { outs (B.state bay.new) ≡ outs (B.state bay.old) }
    ensures left { IsTold (LeavesImage result volume.now.name label.now.id (shape_of label.now)
        volume.now.view) (B.state bay.old).told (B.state bay.new).told }
    ensures volume { (n : ℕ) (part : PartName) → IsErrOf result (RackFault.Failed n part)
        → n ≡ label.now.id }
    ensures cause { (n : ℕ) (part : PartName) → IsErrOf result (RackFault.Failed n part)
        → Rose (B.state bay.old).faults (B.state bay.new).faults }
    ensures calm { ((n : ℕ) (part : PartName) → IsErrOf result (RackFault.Failed n part) → ⊥)
        → (B.state bay.new).faults ≡ (B.state bay.old).faults }
    ensures counts { (B.state bay.old).faults ≤ (B.state bay.new).faults }
{
    let name = volume.name.as_str();
    let sizes = part_sizes(alloc, label)?;
    let mut parts = match bay.create(name, &sizes) {
        Ok(parts) => parts,
        Err(fault) => return Err(fault_of_bay(label, fault)),
    };
    let mut spindle = Spindle::new(label.id, timeout);
    let token = spindle.need();
    let formatted = format_parts(&token, label, &volume.view, &mut parts);
    spindle.done(token);
    bay.detach(name, parts);
    match formatted {
        Ok(()) => Ok(()),
        Err(part) => Err(RackFault::Failed {
            volume: label.id,
            part,
        }),
    }
}

// What a format answers where the bay doesn't make the image with this label.
fn fault_of_bay(label: &Label, fault: BayFault) -> RackFault
    ensures { result ≡ fault_of_bay label.now.id fault }
{
    match fault {
        BayFault::NoMemory => RackFault::NoMemory,
        _ => RackFault::Failed {
            volume: label.id,
            part: PartName::Bay,
        },
    }
}

/// Makes the image of each volume anew, in the order of the configuration: the view, a home of zeros and free segments,
/// and last the label. Each image is back in the bay at each exit.
///
/// `Failed` names the first volume and part a call of which failed; it ends the format. After a stop within, an image
/// that isn't whole has no label.
pub fn format<B: Bay>(alloc: Global, bay: &mut B, config: &Config) -> Result<(), RackFault>
    requires config { IsValid config.now }
    requires home { NoneOut config.now (B.state bay.old) }
    ensures home { outs (B.state bay.new) ≡ outs (B.state bay.old) }
    ensures left { IsTold (LeavesImages config.now result) (B.state bay.old).told
        (B.state bay.new).told }
    // also after a stop within
    ensures any_exit { IsTold (LosesNone config.now) (B.state bay.old).told (B.state bay.new).told }
    ensures sound { OnOk result
        (IsTold (LeavesSound config.now) (B.state bay.old).told (B.state bay.new).told) }
    ensures zeros { OnOk result
        (IsTold (LeavesZeros config.now) (B.state bay.old).told (B.state bay.new).told) }
    ensures volume { (n : ℕ) (part : PartName) → IsErrOf result (RackFault.Failed n part)
        → n < length config.now.volumes.items }
    ensures cause { (n : ℕ) (part : PartName) → IsErrOf result (RackFault.Failed n part)
        → Rose (B.state bay.old).faults (B.state bay.new).faults }
    ensures calm { ((n : ℕ) (part : PartName) → IsErrOf result (RackFault.Failed n part) → ⊥)
        → (B.state bay.new).faults ≡ (B.state bay.old).faults }
    ensures counts { (B.state bay.old).faults ≤ (B.state bay.new).faults }
{
    for (id, volume) in config.volumes.iter().enumerate() {
        let label = Label {
            id: id as u32,
            home: volume.home,
            segments: volume.segments,
            segment_blocks: config.segment_blocks,
        };
        format_image(alloc, bay, volume, &label, config.timeout)?;
    }
    Ok(())
}
