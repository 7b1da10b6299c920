// The images of a configuration are taken out of their bay.
ghost use Rattle.rack.specs.Opening.{IsNextOpened, IsNextRefused, IsBackAtOnce, AreAsked, HasSentOut, HasAllBack};
ghost use Rattle.rack.specs.Opens.{KeepsOthers, fault_in_image, fault_of_image};
ghost use Rattle.rack_parts.specs.Locks.{IsInOrder, AreSettled, AreSpindlesOf};
ghost use Rattle.rack_parts.specs.Rests.{IsSpindleLock};
ghost use Rattle.std.specs.Prelude.{◌≡◌, ◌<◌, length, slice_get, Some, ℕ, IfOk, IfErr, OnErr};
ghost use Rattle.volume_images.specs.Left.{IsTold};
ghost use Rattle.volume_images.specs.Volumes.{NoneOut};
ghost use Rattle.wol_bay.specs.Bay.{IsHome};
ghost use Rattle.wol_config.specs.Configs.{IsValid};
ghost use Rattle.wol_config.specs.declared.config.VolumeConf.{VolumeConf};

use manager::Part;
use manager_recovery::OpenRefusal;
use rack_parts::{ImageRest, Issued, Said, VolumeFault, give_back, lay_out};
use spin_model::Spindle;
use std::alloc::Global;
use std::sync::Wait;
use volume_images::{ImageFault, ImageRefusal, label_of, open_image};
use wol_bay::Bay;
use wol_config::Config;
use wol_disk::{Disk, NoMemory};

/// The images of a configuration as they were taken out: what each that is out says, what is here of it, and why each other
/// was refused.
pub(crate) struct Images<D: Disk> {
    pub said: Vec<Option<Said>>,
    pub out: Vec<Option<ImageRest<D>>>,
    pub faults: Vec<Option<VolumeFault>>,
}

impl<D: Disk> Images<D> {
    ghost use Rattle.rack.specs.Making.{AreNewImages, HasRoom, PushesImage};
    ghost use Rattle.std.specs.Prelude.{◌≡◌, ◌≤◌, ◌<◌, ◌∷◌, ◌++◌, [], length, None, IfOk, vec_capacity};

    fn new(alloc: Global, volumes: usize) -> Result<Images<D>, NoMemory>
        ensures { IfOk result (AreNewImages volumes) }
    {
        let said = Vec::with_capacity(alloc, volumes)?;
        let faults = Vec::with_capacity(alloc, volumes)?;
        let out = Vec::with_capacity(alloc, volumes)?;
        Ok(Images { said, out, faults })
    }

    // The next image is out, or was refused for this.
    fn push(&mut self, opened: Result<(Said, ImageRest<D>), VolumeFault>)
        requires room { HasRoom self.old }
        ensures { PushesImage self.old self.new opened }
    {
        match opened {
            Ok((said, image)) => {
                self.said.push_reserved(Some(said));
                self.out.push_reserved(Some(image));
                self.faults.push_reserved(None);
            }
            Err(fault) => {
                self.said.push_reserved(None);
                self.out.push_reserved(None);
                self.faults.push_reserved(Some(fault));
            }
        }
    }
}

// The fault of volume `id` where its image was refused for this; None stands for want of memory.
fn fault_of_image(id: u32, refusal: ImageRefusal) -> Option<VolumeFault>
    ensures { result ≡ fault_of_image id refusal }
{
    match refusal {
        ImageRefusal::Absent => Some(VolumeFault::Absent),
        ImageRefusal::WrongLength { bytes } => Some(VolumeFault::WrongLength { bytes }),
        ImageRefusal::BayFailed => Some(VolumeFault::BayFailed),
        ImageRefusal::Fault(fault) => Some(fault_in_image(id, fault)),
        ImageRefusal::NoMemory => None,
    }
}

fn fault_in_image(id: u32, fault: ImageFault) -> VolumeFault
    ensures { result ≡ fault_in_image id fault }
{
    match fault {
        ImageFault::Damaged { block } => {
            VolumeFault::Refused(OpenRefusal::Damaged { volume: id, block })
        }
        ImageFault::LabelDiffers => VolumeFault::Refused(OpenRefusal::LabelDiffers),
        ImageFault::LabelFault => VolumeFault::LabelFault,
        ImageFault::SegmentFault(index) => {
            VolumeFault::Refused(OpenRefusal::DiskFault(Part::Segment { volume: id, index }))
        }
    }
}

// Takes one image out and lays it out, or tells why it was refused.
fn open_next<R: Wait, B: Bay>(
    alloc: Global,
    rt: &R,
    bay: &mut B,
    config: &Config,
    id: u32,
    spindle: &mut Issued<Spindle>,
) -> Result<Result<(Said, ImageRest<B::Part>), VolumeFault>, NoMemory>
    requires config { IsValid config.now }
    requires within { id < length config.now.volumes.items }
    requires home { (v : VolumeConf) → slice_get config.now.volumes.items id ≡ Some v
        → IsHome v.name (B.state bay.old) }
    requires spindle { IsSpindleLock (length config.now.volumes.items) id config.now.timeout
        spindle.old.lock }
    requires passes { IsInOrder spindle.old × AreSettled id spindle.old }
    ensures opened { IfOk result
        (λ r. IfOk r (λ pair. (v : VolumeConf) → slice_get config.now.volumes.items id ≡ Some v
        → IsNextOpened B.Part.tells B.Part.state config.now id v (B.state bay.old) (B.state bay.new)
        pair.0 pair.1)) }
    ensures refused { IfOk result
        (λ r. IfErr r (λ fault. (v : VolumeConf) → slice_get config.now.volumes.items id ≡ Some v
        → IsNextRefused B.Part.tells B.Part.state config.now id v (B.state bay.old)
        (B.state bay.new) fault)) }
    ensures err { OnErr result (IsBackAtOnce (B.state bay.old) (B.state bay.new)) }
    ensures spindle { spindle.new.lock ≡ spindle.old.lock }
    ensures passes { IsInOrder spindle.new × AreSettled id spindle.new }
{
    let volume = &config.volumes[id as usize];
    let Ok(segments) = Vec::with_capacity(alloc, volume.segments as usize) else {
        return Err(NoMemory);
    };
    let name = volume.name.as_str();
    let want = label_of(config, id);
    let count = config.volumes.len() as u32;
    let pass = &mut spindle.passes[id as usize];
    match open_image(alloc, rt, bay, name, &want, count, &spindle.lock, pass) {
        Ok(image) => Ok(Ok(lay_out(image, segments))),
        Err(refusal) => {
            segments.destroy_empty();
            match fault_of_image(id, refusal) {
                Some(fault) => Ok(Err(fault)),
                None => Err(NoMemory),
            }
        }
    }
}

/// Takes the images out in order. Where there is no memory each is in the bay.
pub(crate) fn open_images<R: Wait, B: Bay>(
    alloc: Global,
    rt: &R,
    bay: &mut B,
    config: &Config,
    spindles: &mut [Issued<Spindle>],
) -> Result<Images<B::Part>, NoMemory>
    requires config { IsValid config.now }
    requires home { NoneOut config.now (B.state bay.old) }
    requires count { length spindles.old ≡ length config.now.volumes.items }
    requires spindles { AreSpindlesOf (length config.now.volumes.items) config.now.timeout
        spindles.old }
    ensures asked { IfOk result (AreAsked B.Part.tells B.Part.state config.now (B.state bay.old)
        (B.state bay.new) (length config.now.volumes.items)) }
    ensures out { IfOk result (λ i. HasSentOut config.now i.out.items
        (length config.now.volumes.items) (B.state bay.old) (B.state bay.new)) }
    ensures err { OnErr result (HasAllBack B.Part.tells (B.state bay.old) (B.state bay.new)) }
    ensures others { IsTold (KeepsOthers config.now) (B.state bay.old).told (B.state bay.new).told }
    ensures count { length spindles.new ≡ length spindles.old }
    ensures spindles { AreSpindlesOf (length config.now.volumes.items) config.now.timeout
        spindles.new }
{
    let mut images = Images::new(alloc, config.volumes.len())?;
    for id in 0..config.volumes.len() {
        match open_next(alloc, rt, bay, config, id as u32, &mut spindles[id]) {
            Ok(opened) => images.push(opened),
            Err(NoMemory) => {
                let Images {
                    said: _,
                    out,
                    faults: _,
                } = images;
                give_back(bay, config, out);
                return Err(NoMemory);
            }
        }
    }
    Ok(images)
}
