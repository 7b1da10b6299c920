// All volumes of a bay are opened.
ghost use Rattle.manager.specs.declared.part.Part.{Part};
ghost use Rattle.manager_recovery.specs.declared.refusal.OpenRefusal.TheVariants.{DiskFault};
ghost use Rattle.rack.specs.Opening.{IsTaken, BringsAllBack};
ghost use Rattle.rack.specs.BayRuns.{QuietRun};
ghost use Rattle.rack.specs.Closes.{HasFaultAt, HasFaultIn};
ghost use Rattle.rack.specs.Opens.{AreViewsAsRead, BeganWith, WereThere, AreRefused, LeavesAll, HasFaulty, KeepsOthers, KeepsAllSound, KeepsViews};
ghost use Rattle.rack.specs.Owners.{HadRefused};
ghost use Rattle.rack_parts.specs.Racks.{IsRack, IsUnused, AreUnused, KeepToViews};
ghost use Rattle.rack_parts.specs.Rests.{IsImageOut, out_names};
ghost use Rattle.rack_parts.specs.declared.volume_fault.VolumeFault.TheVariants.{Refused};
ghost use Rattle.std.specs.Prelude.{ℕ, ◌≡◌, ◌<◌, ◌≤◌, List, length, All, ◌++◌, None, Some, slice_get, option_map, IfOk, OnErr, IfSome, IsTrue};
ghost use Rattle.volume_images.specs.Left.{IsTold};
ghost use Rattle.volume_images.specs.Volumes.{NoneOut, images_read, shapes_of};
ghost use Rattle.wol_bay.specs.Bay.{outs};
ghost use Rattle.wol_config.specs.Configs.{IsValid};
ghost use Rattle.wol_disk.specs.Disk.{Rose};
ghost use Rattle.wol_model.specs.Images.{AreSound};

use crate::close_all;
use crate::images::{Images, open_images};
use crate::lists::Lists;
use crate::volumes::open_volumes;
use rack_parts::{Issued, IssuedPool, Rack, end_spindles, give_back, issue_pools, issue_spindles};
use spin_model::Spindle;
use std::alloc::Global;
use std::sync::Wait;
use wol_bay::Bay;
use wol_config::Config;
use wol_disk::{Disk, NoMemory};

// The images that are out, and the locks of all spindles and pools.
struct Taken<D: Disk> {
    images: Images<D>,
    spindles: Vec<Issued<Spindle>>,
    pools: Vec<IssuedPool<D>>,
}

// Takes the images out and makes the locks. Where there is no memory each image is in the bay.
fn take_out<R: Wait, B: Bay>(
    alloc: Global,
    rt: &R,
    bay: &mut B,
    config: &Config,
) -> Result<Taken<B::Part>, NoMemory>
    requires config { IsValid config.now }
    requires home { NoneOut config.now (B.state bay.old) }
    ensures taken { IfOk result
        (IsTaken B.Part.tells B.Part.state config.now (B.state bay.old) (B.state bay.new)) }
    ensures back { OnErr result
        (BringsAllBack B.Part.tells B.Part.state config.now (B.state bay.old) (B.state bay.new)) }
    ensures others { IsTold (KeepsOthers config.now) (B.state bay.old).told (B.state bay.new).told }
    ensures counts { (B.state bay.old).faults ≤ (B.state bay.new).faults }
{
    let count = config.volumes.len() as u32;
    let mut spindles = issue_spindles(alloc, count, config.timeout)?;
    let Images {
        said,
        mut out,
        faults,
    } = match open_images(alloc, rt, bay, config, &mut spindles) {
        Ok(images) => images,
        Err(NoMemory) => {
            end_spindles(spindles);
            return Err(NoMemory);
        }
    };
    match issue_pools(alloc, config, said.as_slice(), out.as_mut_slice()) {
        Ok(pools) => Ok(Taken {
            images: Images { said, out, faults },
            spindles,
            pools,
        }),
        Err(NoMemory) => {
            give_back(bay, config, out);
            end_spindles(spindles);
            Err(NoMemory)
        }
    }
}

/// Opens all volumes of the configuration. First the images are taken out of the bay in order, and each is refused or read;
/// then the volumes whose images are out are opened in order. A volume that isn't opened has its fault.
///
/// After `NoMemory` every image is back in the bay.
pub fn open_all<R: Wait, B: Bay>(
    alloc: Global,
    rt: &R,
    bay: &mut B,
    config: &Config,
) -> Result<Rack<B::Part>, NoMemory>
    requires config { IsValid config.now }
    requires home { NoneOut config.now (B.state bay.old) }
    ensures rack { IfOk result (IsRack B.Part.state config.now (B.state bay.new)) }
    ensures out { IfOk result (λ r. outs (B.state bay.new)
        ≡ option_map (λ os. os ++ out_names config.now config.now.volumes.items
        r.rest.images.items) (outs (B.state bay.old))) }
    ensures began { IfOk result (λ r. IsTrue B.Part.tells
        → IfSome (B.state bay.old).told (λ t. BeganWith B.Part.state config.now t r)) }
    ensures there { IfOk result (λ r. IsTrue B.Part.tells
        → IfSome (B.state bay.old).told (λ t. WereThere config.now r.rest.images.items t)) }
    ensures refused { IfOk result
        (AreRefused B.Part.tells B.Part.state config.now (B.state bay.old) (B.state bay.new)) }
    // a volume used no disk but those of its own image and of the view that this says, and no pool but those of that view, also
    // where its opening was refused
    ensures users { IfOk result (λ r. IsTrue B.Part.tells
        → IfSome (B.state bay.old).told (λ t. (views : ℕ → List ℕ) × KeepToViews views r
        × AreViewsAsRead config.now r.rest.images.items t views)) }
    // no pass of a station was used
    ensures fresh { IfOk result (λ r. AreUnused r.stations.items) }
    ensures fresh_keepers { IfOk result (λ r. All (λ p. IsUnused p) r.keepers.items) }
    // the list of parts that came back with a fault only grows; it is the same where all images are out
    ensures faulty { IfOk result
        (λ r. IsTold HasFaulty (B.state bay.old).told (B.state bay.new).told) }
    ensures unfaulty { IfOk result
        (λ r. ((k : ℕ) → k < length (shapes_of config.now) → IsImageOut r.rest.images.items k)
        → IsTold (λ old new. new.faulty ≡ old.faulty) (B.state bay.old).told
        (B.state bay.new).told) }
    ensures kept { IfOk result (λ r. IsTrue B.Part.tells
        → IsTold (HadRefused config.now r.rest.images.items) (B.state bay.old).told
        (B.state bay.new).told) }
    // the part that refuses a volume whose image is out is here, and had a fault
    ensures failed { IfOk result
        (λ r. (k : ℕ) (p : Part) → slice_get r.faults.items k ≡ Some (Some (Refused (DiskFault p)))
        → IsImageOut r.rest.images.items k → HasFaultAt B.Part.state r.rest p) }
    // where the images at entry are sound as they read, and no call failed, each volume is open
    ensures complete { IfOk result (λ r. IsTrue B.Part.tells
        → IfSome (B.state bay.old).told
        (λ t. AreSound (shapes_of config.now) (images_read config.now t)
        → (HasFaultIn B.Part.state r.rest → ⊥)
        → (Rose (B.state bay.old).faults (B.state bay.new).faults → ⊥)
        → (k : ℕ) → k < length (shapes_of config.now) → slice_get r.faults.items k ≡ Some None)) }
    ensures home { OnErr result (outs (B.state bay.new) ≡ outs (B.state bay.old)) }
    // each image left in the bay recovers to what one at entry did, also after a stop within, and the logs of a volume whose image
    // isn't there stay
    ensures left { OnErr result (IsTrue B.Part.tells
        → IsTold (LeavesAll B.Part.tells B.Part.state config.now (B.state bay.old)
        (B.state bay.new)) (B.state bay.old).told (B.state bay.new).told) }
    ensures sound { OnErr result (IsTrue B.Part.tells
        → IsTold (KeepsAllSound config.now) (B.state bay.old).told (B.state bay.new).told) }
    // and no label or view was changed
    ensures views { OnErr result (IsTrue B.Part.tells
        → IsTold (KeepsViews config.now) (B.state bay.old).told (B.state bay.new).told) }
    // the run of the bay, in which nothing was done with its volumes
    ensures run { OnErr result
        (QuietRun B.Part.tells config.now (B.state bay.old) (B.state bay.new)) }
    ensures others { IsTold (KeepsOthers config.now) (B.state bay.old).told (B.state bay.new).told }
    ensures counts { (B.state bay.old).faults ≤ (B.state bay.new).faults }
{
    let lists = Lists::new(alloc, config.volumes.len())?;
    let Taken {
        images,
        spindles,
        pools,
    } = match take_out(alloc, rt, bay, config) {
        Ok(taken) => taken,
        Err(NoMemory) => {
            lists.destroy();
            return Err(NoMemory);
        }
    };
    let Images { said, out, faults } = images;
    let mut rack = lists.filled(spindles, pools, out, faults);
    match open_volumes(&mut rack, alloc, rt, config, said.as_slice()) {
        Ok(()) => Ok(rack),
        Err(NoMemory) => {
            let _spindles = close_all(rack, bay, config);
            Err(NoMemory)
        }
    }
}
