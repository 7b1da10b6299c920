// All volumes of a bay are cleaned.
ghost use Rattle.cleaning.specs.Lines.{fault_of};
ghost use Rattle.cleaning.specs.Racks.{CanCleanAll, CleansAll, IsWorked};
ghost use Rattle.cleaning.specs.Runs.{CleansBay, Completes, MayComplete};
ghost use Rattle.rack.specs.NotOpened.{LeavesBay};
ghost use Rattle.rack.specs.Opens.{KeepsOthers, KeepsViews};
ghost use Rattle.replay.specs.declared.stop.Stop.TheVariants.{Fault as fault};
ghost use Rattle.std.specs.Prelude.{◌≡◌, ◌≤◌, IsTrue};
ghost use Rattle.volume_images.specs.Left.{IsTold};
ghost use Rattle.volume_images.specs.Volumes.{NoneOut};
ghost use Rattle.wol_bay.specs.Bay.{outs};
ghost use Rattle.wol_config.specs.Configs.{IsValid};

use crate::lines::append_cleaned;
use crate::station::clean_volume;
use log_cleaner::CleanFault;
use rack::{Rack, Work, first_closed, trouble_of_part, with_open};
use replay::Stop;
use report::Fault;
use std::alloc::Global;
use std::sync::Wait;
use wol_bay::Bay;
use wol_config::Config;
use wol_disk::Disk;
use wol_io::Sink;

// What ends the command, by a volume's refusal.
fn stop_of(volume: u32, refusal: CleanFault) -> Stop
    ensures { result ≡ fault (fault_of volume refusal) }
{
    match refusal {
        CleanFault::DiskFault(part) => Stop::Fault(Fault::Volume {
            volume,
            trouble: trouble_of_part(part),
        }),
        CleanFault::VersionsSpent => Stop::Fault(Fault::Versions { volume }),
        CleanFault::NoMemory => Stop::Fault(Fault::Memory),
    }
}

// Cleans the volumes of a rack in order, and prints the line of each.
fn clean_open<D: Disk, R: Wait, K: Sink>(
    rt: &R,
    alloc: Global,
    rack: &mut Rack<D>,
    config: &Config,
    out: &mut K,
) -> Result<(), Stop>
    requires valid { IsValid config.now }
    requires can { CanCleanAll config.now rack.old }
    ensures worked { IsWorked rack.old rack.new }
    ensures cleans { CleansAll D.tells D.state config.now rack.old rack.new
        (K.faults out.old) (K.faults out.new) (K.taken out.old) (K.taken out.new) result }
    ensures later { K.faults out.old ≤ K.faults out.new }
{
    let mut text = Vec::new(alloc);
    for volume in 0..config.volumes.len() {
        let cleaned = match clean_volume(rt, alloc, rack, config, volume) {
            Ok(cleaned) => cleaned,
            Err(refusal) => return Err(stop_of(volume as u32, refusal)),
        };
        append_cleaned(config.volumes[volume].name.as_bytes(), &cleaned, &mut text)?;
        out.write(&text)?;
        text.clear();
    }
    Ok(())
}

// Cleans the volumes of a rack, if all of them are open.
#[derive(Drop)]
struct Cleaning;

impl<R: Wait, D: Disk, K: Sink> Work<R, D, (), K> for Cleaning {
    ghost use Rattle.cleaning.specs.Racks.{CleansRack};
    ghost use Rattle.std.specs.Prelude.{◌≤◌};

    type Answer = Result<(), Stop>;

    ghost Ready = { λ work config given out. Unit {0} };

    ghost Did = { λ work config before after given rest out now answer.
        (K.faults out ≤ K.faults now) × CleansRack D.tells D.state config before after
        (K.faults out) (K.faults now) (K.taken out) (K.taken now) answer };

    fn run(
        self,
        rt: &R,
        alloc: Global,
        config: &Config,
        rack: &mut Rack<D>,
        _given: &mut (),
        out: &mut K,
    ) -> Result<(), Stop> {
        if let Some(fault) = first_closed(rack.faults.as_slice()) {
            return Err(Stop::Fault(fault));
        }
        clean_open(rt, alloc, rack, config, out)
    }
}

/// Opens all volumes of the configuration, cleans each in order, prints its line, and closes them. Where a volume
/// isn't open nothing is cleaned, and the fault is that of the first such volume. A volume for whose next chunk no
/// logger of its view has room has ` full` at the end of its line, and the next volume is cleaned.
///
/// `Fault`: a volume isn't open; or a call of a disk of a volume failed, or its versions are spent, and the lines of
/// the volumes before it were printed; or there was no memory. `Sink`: the sink failed. At each exit every image is
/// back in the bay, and recovers for each volume to the array that it recovered to before.
pub fn clean_volumes<R: Wait, K: Sink, B: Bay>(
    rt: &R,
    alloc: Global,
    config: &Config,
    bay: &mut B,
    out: &mut K,
) -> Result<(), Stop>
    requires valid { IsValid config.now }
    requires home { NoneOut config.now (B.state bay.old) }
    ensures none_out { NoneOut config.now (B.state bay.new) }
    ensures outs { outs (B.state bay.new) ≡ outs (B.state bay.old) }
    ensures counts { (B.state bay.old).faults ≤ (B.state bay.new).faults }
    // each image that is left recovers to what one at entry did, also after a stop within, and where a
    // call of a disk failed
    ensures leaves { LeavesBay B.Part.tells B.Part.state config.now
        (B.state bay.old) (B.state bay.new) }
    // no label or view is changed
    ensures views { IsTrue B.Part.tells
        → IsTold (KeepsViews config.now) (B.state bay.old).told (B.state bay.new).told }
    // images of names that aren't configured are as they were
    ensures others { IsTold (KeepsOthers config.now)
        (B.state bay.old).told (B.state bay.new).told }
    ensures cleans { CleansBay B.Part.tells B.Part.state config.now (B.state bay.old)
        (B.state bay.new)
        (K.faults out.old) (K.faults out.new) (K.taken out.old) (K.taken out.new) result }
    ensures later { K.faults out.old ≤ K.faults out.new }
    ensures complete { MayComplete B.Part.tells config.now (B.state bay.old) (B.state bay.new)
        (K.faults out.old) (K.faults out.new) → Completes result }
{
    let closed = with_open(rt, alloc, config, bay, Cleaning, &mut (), out)?;
    closed.answer
}
