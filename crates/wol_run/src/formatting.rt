// The images of the configuration, formatted.
ghost use Rattle.solo.specs.Images.{NoneOut};
ghost use Rattle.std.specs.Prelude.{◌≡◌, IfOk};
ghost use Rattle.volume_images.specs.Volumes.{shape_in};
ghost use Rattle.wol_config.specs.Configs.{IsValid};
ghost use Rattle.wol_model.specs.Heads.{IsShape};
ghost use Rattle.wol_model.specs.Images.{image_size};
ghost use Rattle.wol_run.specs.Formatting.{RunsFormat, fault_of, format_lines, trouble_of};
ghost use Rattle.wol_run.specs.Settings.{OfRead};
ghost use Rattle.wol_run.specs.Tops.{TellsSink};

use crate::settings::config_of;
use crate::telling::{NO_MEMORY, end_with, tell_fault};
use rack::{PartName, RackFault};
use report::{Fault, Trouble, format_line};
use std::alloc::Global;
use wol_bay::Bay;
use wol_config::{Config, VolumeConf};
use wol_disk::NoMemory;
use wol_io::{Sink, Source};

/// Makes the images of the configuration that a source has anew, prints a line for each volume, and answers the status.
///
/// 0: all volumes are formatted. 2: the source's bytes are no configuration. 4: a call of the bay or of an image's part
/// failed; the line names the first. 7: the sink failed. 8: the source failed. 9: there was no memory. Where the
/// configuration isn't had the bay is as it was.
pub fn format<C: Source, K: Sink, B: Bay>(
    alloc: Global,
    source: &mut C,
    out: &mut K,
    bay: &mut B,
) -> u8
    requires home { NoneOut (B.state bay.old) }
    ensures home { NoneOut (B.state bay.new) }
    ensures content { OfRead (C.left source.old) (λ read. RunsFormat read (C.left source.old)
        (C.faults source.old) (C.faults source.new) (B.state bay.old) (B.state bay.new) result
        (K.taken out.old) (K.taken out.new)) }
    ensures sink { TellsSink (K.faults out.old) (K.faults out.new) result }
{
    let config = match config_of(alloc, source) {
        Ok(config) => config,
        Err(fault) => return tell_fault(alloc, out, &[], &fault),
    };
    if let Err(fault) = rack::format(alloc, bay, &config) {
        return tell_fault(alloc, out, &config.volumes, &fault_of(fault));
    }
    match lines_of(alloc, &config) {
        Ok(lines) => end_with(out, &lines, 0),
        Err(NoMemory) => end_with(out, NO_MEMORY, 9),
    }
}

// A line for each volume.
fn lines_of(alloc: Global, config: &Config) -> Result<Vec<u8>, NoMemory>
    requires valid { IsValid config.now }
    ensures { IfOk result (λ lines. lines.items ≡ format_lines config.now) }
{
    let mut lines = Vec::new(alloc);
    for volume in &config.volumes {
        format_line(&volume.name, image_size(config, volume), &mut lines)?;
    }
    Ok(lines)
}

/// How many blocks the image of a volume has.
pub(crate) fn image_size(config: &Config, volume: &VolumeConf) -> u64
    requires shape { IsShape (shape_in config.now volume.now) }
    ensures { result ≡ image_size (shape_in config.now volume.now) }
{
    2 + volume.home + u64::from(volume.segments) * u64::from(config.segment_blocks)
}

/// What is told of a format that wasn't done.
pub(crate) fn fault_of(fault: RackFault) -> Fault
    ensures { result ≡ fault_of fault }
{
    match fault {
        RackFault::Failed { volume, part } => Fault::Volume {
            volume,
            trouble: trouble_of(volume, part),
        },
        RackFault::NoMemory => Fault::Memory,
    }
}

// What is told of a part of a volume's image that failed.
fn trouble_of(volume: u32, part: PartName) -> Trouble
    ensures { result ≡ trouble_of volume part }
{
    match part {
        PartName::Bay => Trouble::Bay,
        PartName::Label => Trouble::Label,
        PartName::Home => Trouble::Home,
        PartName::Segment(index) => Trouble::Segment {
            logger: volume,
            index,
        },
    }
}
