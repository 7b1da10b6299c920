// The view of a volume of a bay is changed.
ghost use Rattle.inspection.specs.Runs.{MayComplete};
ghost use Rattle.rack.specs.NotOpened.{LeavesBay};
ghost use Rattle.rack.specs.Opens.{KeepsOthers};
ghost use Rattle.std.specs.Prelude.{◌≡◌, ◌<◌, ◌≤◌, length, Err, IsTrue};
ghost use Rattle.view_change.specs.Changes.{id_of};
ghost use Rattle.view_commands.specs.Runs.{ChangesView, ChangesVolume, Completes};
ghost use Rattle.view_commands.specs.declared.order.Stop.TheVariants as stop;
ghost use Rattle.volume_images.specs.Left.{IsTold};
ghost use Rattle.volume_images.specs.Volumes.{NoneOut};
ghost use Rattle.wol_bay.specs.Bay.{outs};
ghost use Rattle.wol_config.specs.Configs.{IsValid};

use crate::draining::Draining;
use crate::image::change_image;
use crate::order::{Order, Stop, ViewRefusal};
use crate::printing::print_view;
use log_layout::View;
use rack::{Closed, with_open};
use std::alloc::Global;
use std::sync::Wait;
use view_change::Change;
use wol_bay::Bay;
use wol_config::{Config, number_named};
use wol_disk::NoMemory;
use wol_io::Sink;

// Changes the view of a volume of a bay, all of whose volumes are opened first.
fn change_volume<R: Wait, B: Bay>(
    rt: &R,
    alloc: Global,
    config: &Config,
    bay: &mut B,
    volume: u32,
    change: Change,
) -> Result<View, Stop>
    requires config { IsValid config.now }
    requires home { NoneOut config.now (B.state bay.old) }
    requires volume { volume < length config.now.volumes.items }
    requires logger { id_of change < length config.now.volumes.items }
    ensures none_out { NoneOut config.now (B.state bay.new) }
    ensures home { outs (B.state bay.new) ≡ outs (B.state bay.old) }
    ensures counts { (B.state bay.old).faults ≤ (B.state bay.new).faults }
    ensures content { ChangesVolume B.Part.tells B.Part.state config.now volume change
        (B.state bay.old) (B.state bay.new) result }
    ensures leaves { LeavesBay B.Part.tells B.Part.state config.now (B.state bay.old)
        (B.state bay.new) }
    // images of names that aren't configured are as they were
    ensures others { IsTrue B.Part.tells
        → IsTold (KeepsOthers config.now) (B.state bay.old).told (B.state bay.new).told }
    ensures complete { MayComplete B.Part.tells config.now (B.state bay.old) (B.state bay.new) 0 0
        → Completes result }
    ensures no_sink { result ≡ Err stop.Sink → ⊥ }
{
    let work = Draining { volume, change };
    let Closed {
        answer,
        spindles: _spindles,
    } = with_open(rt, alloc, config, bay, work, &mut (), &mut ())?;
    match answer {
        Ok(()) => change_image(alloc, config, bay, volume, &change),
        Err(fault) => Err(Stop::Fault(fault)),
    }
}

/// Changes the view of a volume of a bay by a logger more or less, and prints it. All volumes are opened first, and where the
/// logger is to leave the view, the volume is drained; then all are closed, and the view is changed in the image of the volume
/// alone. Of the drain the clauses say only what it is for: sound images stay sound, so that no log of the volume is left on a
/// logger that its view names no longer. The view of the configuration stays: only a format reads it.
///
/// `Refused`: a name isn't configured, which is told before anything is opened, that of the volume first; or the view can't be
/// changed so, as it was at entry. `Fault`: the first volume that isn't open, else the volume itself, where a part of it or the
/// bay failed, or want of memory. `Sink`: the sink failed, and the view is changed. At each exit every image is back in the bay.
pub fn change_view<R: Wait, K: Sink, B: Bay>(
    rt: &R,
    alloc: Global,
    order: &Order<'_>,
    config: &Config,
    bay: &mut B,
    out: &mut K,
) -> Result<(), Stop>
    requires config { IsValid config.now }
    requires home { NoneOut config.now (B.state bay.old) }
    // each exit
    ensures none_out { NoneOut config.now (B.state bay.new) }
    ensures home { outs (B.state bay.new) ≡ outs (B.state bay.old) }
    ensures counts { (B.state bay.old).faults ≤ (B.state bay.new).faults }
    ensures later { K.faults out.old ≤ K.faults out.new }
    ensures content { ChangesView B.Part.tells B.Part.state config.now order.now (B.state bay.old)
        (B.state bay.new)
        (K.faults out.old) (K.faults out.new) (K.taken out.old) (K.taken out.new) result }
    ensures leaves { LeavesBay B.Part.tells B.Part.state config.now (B.state bay.old)
        (B.state bay.new) }
    // images of names that aren't configured are as they were
    ensures others { IsTrue B.Part.tells
        → IsTold (KeepsOthers config.now) (B.state bay.old).told (B.state bay.new).told }
    ensures complete { MayComplete B.Part.tells config.now (B.state bay.old) (B.state bay.new)
        (K.faults out.old) (K.faults out.new)
        → Completes result }
{
    let Some(volume) = number_named(&config.volumes, order.volume.as_bytes()) else {
        return Err(Stop::Refused(ViewRefusal::UnknownVolume));
    };
    let Some(logger) = number_named(&config.volumes, order.logger.as_bytes()) else {
        return Err(Stop::Refused(ViewRefusal::UnknownLogger));
    };
    let volume = volume as u32;
    let change = order.change(logger as u32);
    let view = change_volume(rt, alloc, config, bay, volume, change)?;
    print_view(alloc, config, volume, &view, out)
}
