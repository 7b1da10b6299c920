// The volumes of the configuration, cleaned.
ghost use Rattle.solo.specs.Images.{NoneOut};
ghost use Rattle.wol_run.specs.Cleaning.{RunsCleaning};
ghost use Rattle.wol_run.specs.Completing.{HaveVersionsToClean, IsUnhindered};
ghost use Rattle.wol_run.specs.Settings.{OfRead};
ghost use Rattle.wol_run.specs.Tops.{IsDoneOrMemory, TellsSink};

use crate::settings::config_of;
use crate::telling::tell_fault;
use cleaning::clean_volumes;
use replay::Stop;
use std::alloc::Global;
use std::sync::Wait;
use wol_bay::Bay;
use wol_io::{Sink, Source};

/// Cleans the volumes of the configuration that a source has, prints a line for each, and answers the status.
///
/// 0: all volumes were cleaned; one whose logs have no room for the next copy is told so, and is no fault. 2: the source's bytes
/// are no configuration. 4, 5, 6, 12: that of the first volume that isn't open, or 4, where a call of a disk failed. 7: the sink
/// failed. 8: the source failed. 9: there was no memory. 11: a volume has no version left for a copy. At 4, 9 and 11 the lines of
/// the volumes before were printed. Where the configuration isn't had the bay is as it was.
pub fn clean<R: Wait, C: Source, K: Sink, B: Bay>(
    rt: &R,
    alloc: Global,
    source: &mut C,
    out: &mut K,
    bay: &mut B,
) -> u8
    requires home { NoneOut (B.state bay.old) }
    ensures home { NoneOut (B.state bay.new) }
    ensures content { OfRead (C.left source.old) (λ read. RunsCleaning B.Part.tells B.Part.state
        read (C.left source.old) (C.faults source.old) (C.faults source.new) (B.state bay.old)
        (B.state bay.new) (K.faults out.old) (K.faults out.new) result (K.taken out.old)
        (K.taken out.new)) }
    ensures complete { (free : IsUnhindered B.Part.tells (C.left source.old) (C.faults source.old)
        (C.faults source.new) (B.state bay.old) (B.state bay.new) (K.faults out.old)
        (K.faults out.new)) → HaveVersionsToClean (C.left source.old) free.images.entry
        → IsDoneOrMemory result }
    ensures sink { TellsSink (K.faults out.old) (K.faults out.new) result }
{
    let config = match config_of(alloc, source) {
        Ok(config) => config,
        Err(fault) => return tell_fault(alloc, out, &[], &fault),
    };
    match clean_volumes(rt, alloc, &config, bay, out) {
        Ok(()) => 0,
        Err(Stop::Sink) => 7,
        Err(Stop::Fault(fault)) => tell_fault(alloc, out, &config.volumes, &fault),
    }
}
