// The image of one volume of the configuration, which has none, formatted.
ghost use Rattle.command_words.specs.Values.{missing_by};
ghost use Rattle.rack.specs.declared.missing.MissingFault.{MissingFault};
ghost use Rattle.report.specs.Names.{name_at};
ghost use Rattle.report.specs.Words.{line_of, word_of};
ghost use Rattle.solo.specs.Images.{NoneOut};
ghost use Rattle.std.specs.Prelude.{◌≡◌, ◌<◌, ◌⊎◌, length, map};
ghost use Rattle.wol_config.specs.Configs.{IsValid};
ghost use Rattle.wol_config.specs.Documents.{names_of};
ghost use Rattle.wol_model.specs.Images.{image_size};
ghost use Rattle.wol_run.specs.Adding.{RunsMissing, made_line, missing_status, missing_text};
ghost use Rattle.wol_run.specs.Settings.{OfRead};
ghost use Rattle.wol_run.specs.Tops.{EndsWith, TellsNoMemory, TellsSink};

use crate::formatting::{fault_of, image_size};
use crate::settings::config_of;
use crate::telling::{NO_MEMORY, end_with, tell_fault};
use command_words::MissingName;
use rack::{MissingFault, trouble_of};
use report::Word::{Number, Text};
use report::{Fault, Word, append_line, format_line};
use std::alloc::Global;
use std::sync::Wait;
use wol_bay::Bay;
use wol_config::{Config, number_named};
use wol_disk::NoMemory;
use wol_io::{Sink, Source};

/// Makes the image of one volume of the configuration that a source has, prints its line, and answers the status. The volume has no image
/// yet, and no other volume's image has a segment of its log.
///
/// 0: the image is whole. 2: the source's bytes are no configuration. 4: a call of the bay or of an image's part failed. 5, 12: another
/// volume's image was refused, or the volume's own, which is there then; 12 is another's that isn't there. 7: the sink failed. 8: the
/// source failed. 9: there was no memory. 15: no volume has the name, it has an image, or another image names it in its view or has a
/// segment of its log. Of other images nothing was written, and but at 0, 4, 7 and 9 nothing at all; at 7 and 9 the image may be whole.
pub fn format_missing<R: Wait, C: Source, K: Sink, B: Bay>(
    rt: &R,
    alloc: Global,
    name: MissingName<'_>,
    source: &mut C,
    out: &mut K,
    bay: &mut B,
) -> u8
    requires home { NoneOut (B.state bay.old) }
    ensures home { NoneOut (B.state bay.new) }
    ensures content { OfRead (C.left source.old) (λ read. RunsMissing B.Part.tells B.Part.state
        (missing_by name.entry) read (C.left source.old) (C.faults source.old) (C.faults source.new)
        (B.state bay.old) (B.state bay.new) result (K.taken out.old) (K.taken out.new)) }
    ensures sink { TellsSink (K.faults out.old) (K.faults out.new) result }
{
    let config = match config_of(alloc, source) {
        Ok(config) => config,
        Err(fault) => return tell_fault(alloc, out, &[], &fault),
    };
    let text = name.volume.as_bytes();
    let Some(id) = number_named(&config.volumes, text) else {
        return tell_words(
            alloc,
            out,
            &[Text(b"fault"), Number(15), Text(b"unknown"), Text(text)],
        );
    };
    match rack::format_missing(alloc, rt, bay, &config, id as u32) {
        Ok(()) => tell_made(alloc, out, &config, id),
        Err(fault) => tell_missing(alloc, out, &config, text, fault),
    }
}

// Writes the line of the image that was made.
fn tell_made<K: Sink>(alloc: Global, out: &mut K, config: &Config, id: usize) -> u8
    requires valid { IsValid config.now }
    requires within { id < length config.now.volumes.items }
    ensures content { EndsWith (made_line config.now id) 0 result (K.taken out.old)
        (K.taken out.new) ⊎ TellsNoMemory result (K.taken out.old) (K.taken out.new) }
    ensures sink { TellsSink (K.faults out.old) (K.faults out.new) result }
{
    let volume = &config.volumes[id];
    let mut line = Vec::new(alloc);
    match format_line(&volume.name, image_size(config, volume), &mut line) {
        Ok(()) => end_with(out, &line, 0),
        Err(NoMemory) => end_with(out, NO_MEMORY, 9),
    }
}

// Writes the line that says why an image wasn't made, and answers its status.
fn tell_missing<K: Sink>(
    alloc: Global,
    out: &mut K,
    config: &Config,
    name: &[u8],
    fault: MissingFault,
) -> u8
    ensures content { EndsWith (missing_text config.now name.now fault) (missing_status fault)
        result (K.taken out.old) (K.taken out.new)
        ⊎ TellsNoMemory result (K.taken out.old) (K.taken out.new) }
    ensures sink { TellsSink (K.faults out.old) (K.faults out.new) result }
{
    match fault {
        MissingFault::There => tell_words(
            alloc,
            out,
            &[Text(b"fault"), Number(15), Text(b"there"), Text(name)],
        ),
        MissingFault::InView { volume } => {
            let words = [
                Text(b"fault"),
                Number(15),
                Text(b"in view of"),
                Text(name_of(config, volume)),
            ];
            tell_words(alloc, out, &words)
        }
        MissingFault::HasSegment { logger, index } => {
            let words = [
                Text(b"fault"),
                Number(15),
                Text(b"records segment"),
                Number(u64::from(index)),
                Text(b"of"),
                Text(name_of(config, logger)),
            ];
            tell_words(alloc, out, &words)
        }
        MissingFault::Refused { volume, fault } => {
            let trouble = trouble_of(fault);
            tell_fault(
                alloc,
                out,
                &config.volumes,
                &Fault::Volume { volume, trouble },
            )
        }
        MissingFault::Format(fault) => tell_fault(alloc, out, &config.volumes, &fault_of(fault)),
    }
}

// Writes a line of words at status 15, or where there is no memory to make it the line of that.
fn tell_words<K: Sink>(alloc: Global, out: &mut K, words: &[Word<'_>]) -> u8
    ensures content { EndsWith (line_of (map word_of words.now)) 15 result (K.taken out.old)
        (K.taken out.new) ⊎ TellsNoMemory result (K.taken out.old) (K.taken out.new) }
    ensures sink { TellsSink (K.faults out.old) (K.faults out.new) result }
{
    let mut line = Vec::new(alloc);
    match append_line(words, &mut line) {
        Ok(()) => end_with(out, &line, 15),
        Err(NoMemory) => end_with(out, NO_MEMORY, 9),
    }
}

// The name of a volume, or none where it isn't configured.
fn name_of(config: &Config, volume: u32) -> &[u8]
    ensures { result.now ≡ name_at (names_of config.now.volumes.items) volume }
{
    match config.volumes.get(volume as usize) {
        Some(conf) => conf.name.as_bytes(),
        None => b"",
    }
}
