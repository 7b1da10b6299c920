// The view of a volume of the configuration, changed.
ghost use Rattle.command_words.specs.Values.{named_by};
ghost use Rattle.solo.specs.Images.{NoneOut};
ghost use Rattle.std.specs.Prelude.{◌≡◌, ◌⊎◌};
ghost use Rattle.view_commands.specs.Orders.{refusal_text};
ghost use Rattle.wol_run.specs.Completing.{IsUnhindered};
ghost use Rattle.wol_run.specs.Settings.{OfRead};
ghost use Rattle.wol_run.specs.Tops.{EndsWith, IsDoneOrMemory, TellsNoMemory, TellsSink};
ghost use Rattle.wol_run.specs.Viewing.{RunsViewChange};

use crate::settings::config_of;
use crate::telling::{NO_MEMORY, end_with, tell_fault};
use command_words::ViewNames;
use std::alloc::Global;
use std::sync::Wait;
use view_commands::{Order, Stop, Verb, ViewRefusal, refusal_line};
use wol_bay::Bay;
use wol_disk::NoMemory;
use wol_io::{Sink, Source};

/// Lets a volume of the configuration that a source has log for another, or no more, prints the new view, and answers the status.
///
/// 0: the view is changed. 2: the source's bytes are no configuration. 4, 5, 6, 12: that of the first volume that isn't open, or
/// 4, where a call of a disk failed. 7: the sink failed, and the view is changed. 8: the source failed. 9: there was no memory.
/// 15: a name isn't configured, or the view can't be changed so. Where the configuration isn't had the bay is as it was.
pub fn change_view<R: Wait, C: Source, K: Sink, B: Bay>(
    rt: &R,
    alloc: Global,
    verb: Verb,
    names: ViewNames<'_>,
    source: &mut C,
    out: &mut K,
    bay: &mut B,
) -> u8
    requires home { NoneOut (B.state bay.old) }
    ensures home { NoneOut (B.state bay.new) }
    ensures content { OfRead (C.left source.old) (λ read. RunsViewChange B.Part.tells B.Part.state
        verb (named_by names.entry) read (C.left source.old) (C.faults source.old)
        (C.faults source.new) (B.state bay.old) (B.state bay.new) (K.faults out.old)
        (K.faults out.new) result (K.taken out.old) (K.taken out.new)) }
    ensures complete { IsUnhindered B.Part.tells (C.left source.old) (C.faults source.old)
        (C.faults source.new) (B.state bay.old) (B.state bay.new) (K.faults out.old)
        (K.faults out.new) → IsDoneOrMemory result ⊎ (result ≡ 15) }
    ensures sink { TellsSink (K.faults out.old) (K.faults out.new) result }
{
    let config = match config_of(alloc, source) {
        Ok(config) => config,
        Err(fault) => return tell_fault(alloc, out, &[], &fault),
    };
    let order = Order {
        verb,
        volume: names.volume,
        logger: names.logger,
    };
    match view_commands::change_view(rt, alloc, &order, &config, bay, out) {
        Ok(()) => 0,
        Err(Stop::Sink) => 7,
        Err(Stop::Refused(refusal)) => tell_refusal(alloc, out, &order, refusal),
        Err(Stop::Fault(fault)) => tell_fault(alloc, out, &config.volumes, &fault),
    }
}

// Writes the line of a refusal, and answers its status. Where there is no memory to make the line, it is that of want of memory.
fn tell_refusal<K: Sink>(alloc: Global, out: &mut K, order: &Order<'_>, refusal: ViewRefusal) -> u8
    ensures content { EndsWith (refusal_text order.now refusal) 15 result (K.taken out.old)
        (K.taken out.new)
        ⊎ TellsNoMemory result (K.taken out.old) (K.taken out.new) }
    ensures sink { TellsSink (K.faults out.old) (K.faults out.new) result }
{
    let mut text = Vec::new(alloc);
    match refusal_line(order, refusal, &mut text) {
        Ok(()) => end_with(out, &text, refusal.status()),
        Err(NoMemory) => end_with(out, NO_MEMORY, 9),
    }
}
