// A volume of a bay is served.
ghost use Rattle.inspection.specs.Runs.{MayComplete};
ghost use Rattle.nbd_serving.specs.Runs.{Completes, ServesNamed};
ghost use Rattle.nbd_serving.specs.Wires.{wire};
ghost use Rattle.rack.specs.Opens.{KeepsAllSound, KeepsOthers};
ghost use Rattle.std.specs.Prelude.{◌≡◌, ◌≤◌, IsTrue};
ghost use Rattle.volume_images.specs.Left.{IsTold};
ghost use Rattle.volume_images.specs.Volumes.{NoneOut};
ghost use Rattle.wol_bay.specs.Bay.{outs};
ghost use Rattle.wol_config.specs.Configs.{IsValid};
ghost use Rattle.wol_disk.specs.Disk.{Rose};

use crate::serving::{Beginning, Serving};
use crate::stop::Stop;
use nbd_session::Ended;
use rack::{Closed, with_open};
use std::alloc::Global;
use std::sync::Wait;
use wol_bay::Bay;
use wol_config::{Config, number_named};
use wol_io::{Sink, Source};

/// Serves the volume of this name to a client, whose requests the source gives and whose replies the sink takes, at once or
/// behind a handshake on the same source and sink. All volumes are opened first, so that a client that is told of the volume
/// finds it open, and closed when the session has ended; the session is the one client of the volume, and nothing is reclaimed
/// within it but where no log has room for a write. A write is durable before its reply is begun.
///
/// A disk's fault in the session is an error of a reply, and ends nothing. `Unknown`: no volume has the name, which is told
/// before anything is opened. `Fault`: the first volume that isn't open, or want of memory in the handshake or before the first
/// request was looked at. `Unagreed`: the handshake ended without a session. `Source`, `Sink`: a call of it failed. At each exit
/// every image is back in the bay.
pub fn serve_volume<R: Wait, S: Source, K: Sink, B: Bay>(
    rt: &R,
    alloc: Global,
    beginning: Beginning,
    name: &str,
    config: &Config,
    bay: &mut B,
    input: &mut S,
    out: &mut K,
) -> Result<Ended, Stop>
    requires config { IsValid config.now }
    requires home { NoneOut config.now (B.state bay.old) }
    // each exit
    ensures none_out { NoneOut config.now (B.state bay.new) }
    ensures home { outs (B.state bay.new) ≡ outs (B.state bay.old) }
    ensures counts { (B.state bay.old).faults ≤ (B.state bay.new).faults }
    ensures content { ServesNamed B.Part.tells B.Part.state config.now beginning name.now
        (B.state bay.old) (B.state bay.new)
        (wire (S.left input.old) (S.faults input.old) (K.taken out.old) (K.faults out.old))
        (wire (S.left input.new) (S.faults input.new) (K.taken out.new) (K.faults out.new))
        result }
    // images of names that aren't configured are as they were
    ensures others { IsTrue B.Part.tells
        → IsTold (KeepsOthers config.now) (B.state bay.old).told (B.state bay.new).told }
    ensures sound { IsTrue B.Part.tells
        → IsTold (KeepsAllSound config.now) (B.state bay.old).told (B.state bay.new).told }
    ensures complete { (Rose (S.faults input.old) (S.faults input.new) → ⊥)
        → MayComplete B.Part.tells config.now (B.state bay.old) (B.state bay.new) (K.faults out.old)
        (K.faults out.new)
        → Completes result }
{
    let Some(volume) = number_named(&config.volumes, name.as_bytes()) else {
        return Err(Stop::Unknown);
    };
    let work = Serving {
        volume: volume as u32,
        beginning,
    };
    let Closed {
        answer,
        spindles: _spindles,
    } = with_open(rt, alloc, config, bay, work, input, out)?;
    answer
}
