// The volumes of the configuration, looked at.
ghost use Rattle.solo.specs.Images.{NoneOut};
ghost use Rattle.std.specs.Prelude.{◌≡◌};
ghost use Rattle.wol_run.specs.Completing.{IsUnhindered};
ghost use Rattle.wol_run.specs.Inspecting.{RunsLook, status_of_first};
ghost use Rattle.wol_run.specs.Settings.{OfRead};
ghost use Rattle.wol_run.specs.Tops.{IsDoneOrMemory, TellsSink};

use crate::settings::config_of;
use crate::telling::{NO_MEMORY, end_with, tell_fault};
use inspection::{Asked, Stop};
use report::Trouble;
use std::alloc::Global;
use std::sync::Wait;
use std::thread::Threads;
use wol_bay::Bay;
use wol_io::{Sink, Source};

/// Opens the volumes of the configuration that a source has, prints the lines of each, and answers the status.
///
/// 0: all volumes are in order. 2: the source's bytes are no configuration. 7: the sink failed. 8: the source failed. 9:
/// there was no memory, and what was printed before are the lines of some first volumes, or none. 4, 5, 6, 12: that of the
/// first volume that isn't in order. Where the configuration isn't had the bay is as it was.
pub fn inspect<R: Threads + Wait + Sync, C: Source, K: Sink, B: Bay>(
    rt: &R,
    alloc: Global,
    asked: Asked,
    source: &mut C,
    out: &mut K,
    bay: &mut B,
) -> u8
where
    B::Part: Send,
    requires home { NoneOut (B.state bay.old) }
    ensures home { NoneOut (B.state bay.new) }
    ensures content { OfRead (C.left source.old) (λ read. RunsLook B.Part.tells B.Part.state asked
        read (C.left source.old) (C.faults source.old) (C.faults source.new) (B.state bay.old)
        (B.state bay.new) result (K.taken out.old) (K.taken out.new)) }
    ensures complete { IsUnhindered B.Part.tells (C.left source.old) (C.faults source.old)
        (C.faults source.new) (B.state bay.old) (B.state bay.new) (K.faults out.old)
        (K.faults out.new) → IsDoneOrMemory result }
    ensures sink { TellsSink (K.faults out.old) (K.faults out.new) result }
{
    let config = match config_of(alloc, source) {
        Ok(config) => config,
        Err(fault) => return tell_fault(alloc, out, &[], &fault),
    };
    match inspection::inspect(rt, alloc, asked, &config, bay, out) {
        Ok(first) => status_of_first(first),
        Err(Stop::Sink) => 7,
        Err(Stop::Memory) => end_with(out, NO_MEMORY, 9),
    }
}

// The status of the first volume that isn't in order.
fn status_of_first(first: Option<Trouble>) -> u8
    ensures { result ≡ status_of_first first }
{
    match first {
        None => 0,
        Some(trouble) => trouble.status(),
    }
}
