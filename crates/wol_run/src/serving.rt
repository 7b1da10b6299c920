// A volume of the configuration, served to a client, at once or behind a handshake.
ghost use Rattle.command_words.specs.Values.{served_by};
ghost use Rattle.solo.specs.Images.{NoneOut};
ghost use Rattle.std.specs.Prelude.{◌≡◌, ◌<◌};
ghost use Rattle.wol_disk.specs.Disk.{Rose};
ghost use Rattle.wol_run.specs.Completing.{IsUnhindered};
ghost use Rattle.wol_run.specs.Serving.{EndsAtClient, RunsServing};
ghost use Rattle.wol_run.specs.Settings.{OfRead};
ghost use Rattle.nbd_serving.specs.Wires.{wire};

use crate::settings::config_of;
use command_words::ServedName;
use nbd_serving::{Beginning, serve_volume, status_of};
use std::alloc::Global;
use std::sync::Wait;
use wol_bay::Bay;
use wol_io::{Sink, Source};

/// Serves a volume of the configuration that a source has to a client, whose requests the second source gives and whose replies
/// the sink takes, at once or behind a handshake on both, and answers the status. Nothing but replies is printed.
///
/// 0: the client ended the session. 2: the first source's bytes are no configuration. 4, 5, 6, 12: that of the first volume that
/// isn't open; a disk's fault within the session is an error of a reply. 7: the sink failed. 8: a source failed. 9: there was no
/// memory. 14: the client's bytes are no requests, or no handshake that can be agreed on. 15: no volume has the name. Where the
/// configuration isn't had the bay, the second source and the sink are as they were.
pub fn serve<R: Wait, C: Source, S: Source, K: Sink, B: Bay>(
    rt: &R,
    alloc: Global,
    beginning: Beginning,
    name: ServedName<'_>,
    source: &mut C,
    input: &mut S,
    out: &mut K,
    bay: &mut B,
) -> u8
    requires home { NoneOut (B.state bay.old) }
    ensures home { NoneOut (B.state bay.new) }
    ensures content { OfRead (C.left source.old) (λ read. RunsServing B.Part.tells B.Part.state
        beginning (served_by name.entry) read (C.left source.old) (C.faults source.old)
        (C.faults source.new) (B.state bay.old) (B.state bay.new)
        (wire (S.left input.old) (S.faults input.old) (K.taken out.old) (K.faults out.old))
        (wire (S.left input.new) (S.faults input.new) (K.taken out.new) (K.faults out.new))
        result) }
    ensures complete { IsUnhindered B.Part.tells (C.left source.old) (C.faults source.old)
        (C.faults source.new) (B.state bay.old) (B.state bay.new) (K.faults out.old)
        (K.faults out.new) → ¬ Rose (S.faults input.old) (S.faults input.new)
        → EndsAtClient result }
    ensures cause { result ≡ 7 → Rose (K.faults out.old) (K.faults out.new) }
    ensures calm { K.faults out.old < K.faults out.new → result ≡ 7 }
{
    let config = match config_of(alloc, source) {
        Ok(config) => config,
        Err(fault) => return fault.status(),
    };
    let answer = serve_volume(rt, alloc, beginning, name.volume, &config, bay, input, out);
    status_of(&answer)
}
