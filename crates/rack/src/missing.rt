// The image of one volume, which has none, is made, where no other image has a segment of it.
ghost use Rattle.log_layout.specs.declared.segment.SegHead.TheVariants.{Owned};
ghost use Rattle.rack.specs.Missing.{LeavesMissing, RefusesMissing};
ghost use Rattle.rack.specs.Opening.{fault_at, said_at};
ghost use Rattle.rack.specs.Surveying.{Hinders, HindersNot};
ghost use Rattle.std.specs.Prelude.{◌≡◌, ◌<◌, ◌≤◌, ◌^◌, ℕ, Some, Contains, IfErr, IfNone, IfSome, IsTrue, length, slice_get};
ghost use Rattle.volume_images.specs.Left.{IsTold};
ghost use Rattle.volume_images.specs.Volumes.{NoneOut};
ghost use Rattle.wol_bay.specs.Bay.{outs};
ghost use Rattle.wol_config.specs.Configs.{IsValid};
ghost use Rattle.wol_config.specs.declared.config.VolumeConf.{VolumeConf};

use crate::survey::{Survey, survey_images};
use log_layout::SegHead;
use rack_parts::{Said, VolumeFault};
use std::alloc::Global;
use std::sync::Wait;
use volume_images::{RackFault, format_image, label_of};
use wol_bay::Bay;
use wol_config::Config;
use wol_disk::NoMemory;

/// Why the image of a volume wasn't made. But for `Format` nothing was written.
#[derive(Clone, Copy, Debug, PartialEq, Eq)]
pub enum MissingFault {
    /// The volume has an image, which may be opened.
    There,
    /// The view of another volume's image names the volume, whose log may have had newer blocks of it: its image was lost.
    InView { volume: u32 },
    /// This segment of another volume's image is one of the volume's log.
    HasSegment { logger: u32, index: u32 },
    /// The image of this volume was refused, so that what it has isn't known: another volume's, or the volume's own, which is
    /// there then.
    Refused { volume: u32, fault: VolumeFault },
    /// A call of the bay or of a part of the new image failed, or there was no memory.
    Format(RackFault),
}

// The first segment with this owner.
fn segment_of(heads: &[SegHead], owner: u32) -> Option<u32>
    requires few { length heads.now < 2 ^ 32 }
    ensures some { (i : ℕ) → result ≡ Some i → slice_get heads.now i ≡ Some (Owned owner) }
    ensures none { IfNone result (Contains heads.now (Owned owner) → ⊥) }
{
    for (index, head) in heads.iter().enumerate() {
        if *head == SegHead::Owned(owner) {
            return Some(index as u32);
        }
    }
    None
}

// Why the image of volume `id` may not be made, by what is said of this one.
fn hindrance_at(survey: &Survey, volume: u32, id: u32) -> Option<MissingFault>
    requires within { volume < length survey.now.faults.items }
    requires count { length survey.now.said.items ≡ length survey.now.faults.items }
    requires few { (own : Said) → said_at survey.now.said.items volume ≡ Some own
        → length own.heads.items < 2 ^ 32 }
    ensures some { IfSome result (Hinders id volume (said_at survey.now.said.items volume)
        (fault_at survey.now.faults.items volume)) }
    ensures none { IfNone result (HindersNot id volume (said_at survey.now.said.items volume)
        (fault_at survey.now.faults.items volume)) }
{
    let fault = survey.faults[volume as usize];
    if volume == id {
        let Some(fault) = fault else {
            return Some(MissingFault::There);
        };
        if fault == VolumeFault::Absent {
            return None;
        }
        return Some(MissingFault::Refused { volume: id, fault });
    }
    if let Some(fault) = fault {
        return Some(MissingFault::Refused { volume, fault });
    }
    let Some(said) = &survey.said[volume as usize] else {
        return None;
    };
    if said.view.ids().contains(&id) {
        return Some(MissingFault::InView { volume });
    }
    let index = segment_of(&said.heads, id)?;
    Some(MissingFault::HasSegment {
        logger: volume,
        index,
    })
}

// Why the image of volume `id` may not be made: what the first volume in order stands in the way with.
fn hindrance(survey: &Survey, id: u32) -> Option<MissingFault>
    requires volumes { length survey.now.faults.items < 2 ^ 32 }
    requires count { length survey.now.said.items ≡ length survey.now.faults.items }
    requires few { (k : ℕ) (own : Said) → said_at survey.now.said.items k ≡ Some own
        → length own.heads.items < 2 ^ 32 }
    ensures some { IfSome result (λ fault. (k : ℕ) × (k < length survey.now.faults.items)
        × Hinders id k (said_at survey.now.said.items k) (fault_at survey.now.faults.items k)
        fault) }
    ensures none { IfNone result ((k : ℕ) → k < length survey.now.faults.items
        → HindersNot id k (said_at survey.now.said.items k) (fault_at survey.now.faults.items k)) }
{
    for volume in 0..survey.faults.len() {
        if let Some(fault) = hindrance_at(survey, volume as u32, id) {
            return Some(fault);
        }
    }
    None
}

/// Makes the image of volume `id`, which has none: the view of the configuration, a home of zeros and free segments, and last the label.
/// All other images are read before, and it is made only where each of them may be opened, doesn't name the volume in its view, and has
/// no segment of its log: so no block was logged there or is, and the volume is all zeros then. Nothing is written to another image.
pub fn format_missing<R: Wait, B: Bay>(
    alloc: Global,
    rt: &R,
    bay: &mut B,
    config: &Config,
    id: u32,
) -> Result<(), MissingFault>
    requires config { IsValid config.now }
    requires home { NoneOut config.now (B.state bay.old) }
    requires within { id < length config.now.volumes.items }
    ensures home { outs (B.state bay.new) ≡ outs (B.state bay.old) }
    // what is left of each image, also after a stop within; at `Ok` the new one is whole and recovers to zeros
    ensures left { (v : VolumeConf) → slice_get config.now.volumes.items id ≡ Some v
        → IsTrue B.Part.tells → IsTold (LeavesMissing config.now id v result)
        (B.state bay.old).told (B.state bay.new).told }
    ensures refused { IfErr result (RefusesMissing B.Part.tells B.Part.state config.now id
        (B.state bay.old) (B.state bay.new)) }
    ensures counts { (B.state bay.old).faults ≤ (B.state bay.new).faults }
{
    let survey = match survey_images(alloc, rt, bay, config) {
        Ok(survey) => survey,
        Err(NoMemory) => return Err(MissingFault::Format(RackFault::NoMemory)),
    };
    if let Some(fault) = hindrance(&survey, id) {
        return Err(fault);
    }
    let volume = &config.volumes[id as usize];
    let label = label_of(config, id);
    match format_image(alloc, bay, volume, &label, config.timeout) {
        Ok(()) => Ok(()),
        Err(fault) => Err(MissingFault::Format(fault)),
    }
}
