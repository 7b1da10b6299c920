// All volumes of a bay are looked at.
ghost use Rattle.inspection.specs.Lines.{PrintsVolumes, first_of};
ghost use Rattle.inspection.specs.Racks.{CanLook};
ghost use Rattle.inspection.specs.Runs.{Completes, Inspects, MayComplete};
ghost use Rattle.inspection.specs.declared.calls.Stop.TheVariants.{Sink as sink_failed, Memory as no_memory};
ghost use Rattle.rack.specs.Opens.{KeepsAllSound};
ghost use Rattle.std.specs.Prelude.{◌≡◌, ◌≤◌, ◌<◌, Err, IsTrue};
ghost use Rattle.volume_images.specs.Left.{IsTold};
ghost use Rattle.volume_images.specs.Volumes.{NoneOut};
ghost use Rattle.wol_bay.specs.Bay.{outs};
ghost use Rattle.wol_config.specs.Configs.{IsValid};
ghost use Rattle.wol_disk.specs.Disk.{Rose};

use crate::asked::Asked;
use crate::found::{append_next, findings_for};
use rack::{Rack, close_all, open_all};
use report::Trouble;
use std::alloc::Global;
use std::sync::Wait;
use std::thread::Threads;
use wol_bay::Bay;
use wol_config::Config;
use wol_disk::{Disk, Failed, NoMemory};
use wol_io::Sink;

/// Why not all volumes were looked at.
#[derive(Debug, Drop)]
pub enum Stop {
    /// The sink failed.
    Sink,
    /// There was no memory.
    Memory,
}

impl From<Failed> for Stop {
    ghost from_gives = { λ _ e. e ≡ sink_failed };

    fn from(_e: Failed) -> Stop {
        Stop::Sink
    }
}

impl From<NoMemory> for Stop {
    ghost from_gives = { λ _ e. e ≡ no_memory };

    fn from(_e: NoMemory) -> Stop {
        Stop::Memory
    }
}

// The first of what may be wrong.
fn first_of(first: Option<Trouble>, other: Option<Trouble>) -> Option<Trouble>
    ensures { result ≡ first_of first other }
{
    match first {
        Some(trouble) => Some(trouble),
        None => other,
    }
}

// Prints what is asked of each volume of a rack, in order, and answers what is wrong with the first that isn't in order.
fn print_volumes<D: Disk + Send, R: Threads + Wait + Sync, K: Sink>(
    rt: &R,
    alloc: Global,
    asked: Asked,
    rack: &mut Rack<D>,
    config: &Config,
    out: &mut K,
) -> Result<Option<Trouble>, Stop>
    requires valid { IsValid config.now }
    requires rack { CanLook config.now rack.old }
    ensures { PrintsVolumes D.tells D.state config.now asked rack.old rack.new result
        (K.faults out.old) (K.faults out.new) (K.taken out.old) (K.taken out.new) }
{
    let mut room = findings_for(alloc, asked, rack.stations.len())?;
    let findings = room.as_mut_slice();
    let mut found = 0;
    let mut first = None;
    let mut text = Vec::new(alloc);
    for number in 0..config.volumes.len() {
        let volume = number as u32;
        let trouble = append_next(
            rt, alloc, asked, rack, findings, &mut found, config, volume, &mut text,
        )?;
        out.write(&text)?;
        text.clear();
        first = first_of(first, trouble);
    }
    Ok(first)
}

/// Opens all volumes of the configuration, prints the lines of each in order, and closes them. It answers what is wrong
/// with the first volume that isn't in order, or nothing where all are. A volume is in order where it was opened and no
/// call of a disk failed while it was looked at. For `Check` runs of eight volumes are looked at, at most four at a time,
/// each by a thread where one can be had, before the lines of the run are printed; for `Dump` each is printed before the
/// next is looked at.
///
/// `Sink`: the sink failed. `Memory`: there was no memory, and the lines of some first volumes were printed. At each exit
/// every image is back in the bay.
pub fn inspect<R: Threads + Wait + Sync, K: Sink, B: Bay>(
    rt: &R,
    alloc: Global,
    asked: Asked,
    config: &Config,
    bay: &mut B,
    out: &mut K,
) -> Result<Option<Trouble>, Stop>
where
    B::Part: Send,
    requires config { IsValid config.now }
    requires home { NoneOut config.now (B.state bay.old) }
    ensures none_out { NoneOut config.now (B.state bay.new) }
    ensures home { outs (B.state bay.new) ≡ outs (B.state bay.old) }
    ensures content { Inspects B.Part.tells B.Part.state config.now asked (B.state bay.old)
        (B.state bay.new) result (K.faults out.old) (K.faults out.new) (K.taken out.old)
        (K.taken out.new) }
    ensures later { K.faults out.old ≤ K.faults out.new }
    // images that a crash might have left sound before are sound behind it
    ensures sound { IsTrue B.Part.tells
        → IsTold (KeepsAllSound config.now) (B.state bay.old).told (B.state bay.new).told }
    ensures complete { MayComplete B.Part.tells config.now (B.state bay.old) (B.state bay.new)
        (K.faults out.old) (K.faults out.new) → Completes result }
{
    let mut rack = open_all(alloc, rt, bay, config)?;
    let answer = print_volumes(rt, alloc, asked, &mut rack, config, out);
    close_all(rack, bay, config);
    answer
}
