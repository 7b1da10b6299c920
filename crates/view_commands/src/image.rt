// The view in the image of one volume is changed.
ghost use Rattle.std.specs.Prelude.{ℕ, ◌≡◌, ◌<◌, ◌≤◌, ◌+◌, ◌∷◌, [], length, slice_get, Some, Err};
ghost use Rattle.view_change.specs.Changes.{id_of};
ghost use Rattle.view_commands.specs.Images.{ChangesInBay, fault_of_bay, stop_of, told_as};
ghost use Rattle.view_commands.specs.Orders.{IsOfWords};
ghost use Rattle.view_commands.specs.declared.order.Stop.TheVariants as stop;
ghost use Rattle.view_commands.specs.declared.order.ViewRefusal.{ViewRefusal};
ghost use Rattle.volume_images.specs.Volumes.{shape_in};
ghost use Rattle.wol_bay.specs.Bay.{IsHome, outs};
ghost use Rattle.wol_config.specs.Configs.{IsValid};
ghost use Rattle.wol_config.specs.declared.config.VolumeConf.{VolumeConf};
ghost use Rattle.wol_model.specs.Images.{image_size};

use crate::order::{Stop, ViewRefusal};
use log_layout::View;
use report::{Fault, Trouble};
use spin_model::Spindle;
use std::alloc::Global;
use view_change::{Change, ChangeRefusal, change};
use volume_images::{ImageParts, label_of};
use wol_bay::{Bay, BayFault};
use wol_config::Config;
use wol_disk::{Disk, NoMemory};

// How many blocks of an image have label and view.
const LABEL_BLOCKS: u64 = 2;

// The sizes of the two parts of an image: that of label and view, and all the rest.
fn two_sizes(config: &Config, volume: u32) -> [u64; 2]
    requires config { IsValid config.now }
    requires volume { volume < length config.now.volumes.items }
    ensures { (v : VolumeConf) → slice_get config.now.volumes.items volume ≡ Some v
        → (rest : ℕ) × (result ≡ 2 ∷ rest ∷ []) × (2 + rest ≡ image_size (shape_in config.now v)) }
{
    let label = label_of(config, volume);
    let segments = u64::from(label.segments) * u64::from(label.segment_blocks);
    [LABEL_BLOCKS, label.home + segments]
}

// What is told of a volume whose image the bay doesn't hand out.
fn fault_of_bay(volume: u32, fault: BayFault) -> Fault
    ensures { result ≡ fault_of_bay volume fault }
{
    let trouble = match fault {
        BayFault::NoMemory => return Fault::Memory,
        BayFault::Absent => Trouble::Absent,
        BayFault::WrongLength { bytes } => Trouble::Length { bytes },
        BayFault::Failed => Trouble::Bay,
    };
    Fault::Volume { volume, trouble }
}

// What is told where the view wasn't changed.
fn stop_of(volume: u32, refusal: ChangeRefusal) -> Stop
    ensures { result ≡ stop_of volume refusal }
{
    match refusal {
        ChangeRefusal::Unknown { .. } => Stop::Refused(ViewRefusal::UnknownLogger),
        ChangeRefusal::Itself => Stop::Refused(ViewRefusal::Itself),
        ChangeRefusal::Already { .. } => Stop::Refused(ViewRefusal::Already),
        ChangeRefusal::NotThere { .. } => Stop::Refused(ViewRefusal::NotThere),
        ChangeRefusal::ViewFull => Stop::Refused(ViewRefusal::ViewFull),
        ChangeRefusal::Damaged { block } => {
            let block = u64::from(block);
            let trouble = Trouble::Damaged { volume, block };
            Stop::Fault(Fault::Volume { volume, trouble })
        }
        ChangeRefusal::Failed => {
            let trouble = Trouble::Label;
            Stop::Fault(Fault::Volume { volume, trouble })
        }
    }
}

// What is told of how the change ended.
fn told_as(volume: u32, answer: Result<View, ChangeRefusal>) -> Result<View, Stop>
    ensures { result ≡ told_as volume answer }
{
    match answer {
        Ok(view) => Ok(view),
        Err(refusal) => Err(stop_of(volume, refusal)),
    }
}

/// Changes the view in the image of one volume. The image is back in the bay at each exit.
pub(crate) fn change_image<B: Bay>(
    alloc: Global,
    config: &Config,
    bay: &mut B,
    volume: u32,
    asked: &Change,
) -> Result<View, Stop>
    requires config { IsValid config.now }
    requires volume { volume < length config.now.volumes.items }
    requires logger { id_of asked.now < length config.now.volumes.items }
    requires home { (v : VolumeConf) → slice_get config.now.volumes.items volume ≡ Some v
        → IsHome v.name (B.state bay.old) }
    ensures home { outs (B.state bay.new) ≡ outs (B.state bay.old) }
    ensures counts { (B.state bay.old).faults ≤ (B.state bay.new).faults }
    ensures changes { (v : VolumeConf) → slice_get config.now.volumes.items volume ≡ Some v
        → ChangesInBay B.Part.tells config.now volume v asked.now (B.state bay.old)
        (B.state bay.new) result }
    ensures known { (r : ViewRefusal) → result ≡ Err (stop.Refused r) → IsOfWords r → ⊥ }
    ensures no_sink { result ≡ Err stop.Sink → ⊥ }
{
    let name = config.volumes[volume as usize].name.as_str();
    let mut parts = match bay.attach(name, &two_sizes(config, volume)) {
        Ok(parts) => parts,
        Err(fault) => return Err(Stop::Fault(fault_of_bay(volume, fault))),
    };
    let mut image = ImageParts::take_apart(volume, &mut parts, Vec::new(alloc));
    let mut spindle = Spindle::new(volume, config.timeout);
    let token = spindle.need();
    let volumes = config.volumes.len() as u32;
    let answer = change(&token, &mut image.label, volume, volumes, asked);
    spindle.done(token);
    bay.detach(name, image.put_together(parts));
    told_as(volume, answer)
}
