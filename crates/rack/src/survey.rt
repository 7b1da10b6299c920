// What all images of a bay say, each of which is in the bay again.
ghost use Rattle.rack.specs.Opening.{HasAllBack};
ghost use Rattle.rack.specs.Opens.{KeepsOthers};
ghost use Rattle.rack.specs.Surveying.{Surveys};
ghost use Rattle.std.specs.Prelude.{IfOk};
ghost use Rattle.volume_images.specs.Left.{IsTold};
ghost use Rattle.volume_images.specs.Volumes.{NoneOut};
ghost use Rattle.wol_config.specs.Configs.{IsValid};

use crate::images::{Images, open_images};
use rack_parts::{Said, VolumeFault, end_spindles, give_back, issue_spindles};
use std::alloc::Global;
use std::sync::Wait;
use wol_bay::Bay;
use wol_config::Config;
use wol_disk::NoMemory;

/// What each image says, and why each other was refused.
#[derive(Drop)]
pub(crate) struct Survey {
    pub said: Vec<Option<Said>>,
    pub faults: Vec<Option<VolumeFault>>,
}

/// Takes the images out in order, reads what they say, and gives each back to the bay, to which nothing is written.
pub(crate) fn survey_images<R: Wait, B: Bay>(
    alloc: Global,
    rt: &R,
    bay: &mut B,
    config: &Config,
) -> Result<Survey, NoMemory>
    requires config { IsValid config.now }
    requires home { NoneOut config.now (B.state bay.old) }
    ensures back { HasAllBack B.Part.tells (B.state bay.old) (B.state bay.new) }
    ensures asked { IfOk result
        (Surveys B.Part.tells B.Part.state config.now (B.state bay.old) (B.state bay.new)) }
    ensures others { IsTold (KeepsOthers config.now) (B.state bay.old).told (B.state bay.new).told }
{
    let count = config.volumes.len() as u32;
    let mut spindles = issue_spindles(alloc, count, config.timeout)?;
    let opened = open_images(alloc, rt, bay, config, &mut spindles);
    end_spindles(spindles);
    match opened {
        Ok(Images { said, out, faults }) => {
            give_back(bay, config, out);
            Ok(Survey { said, faults })
        }
        Err(NoMemory) => Err(NoMemory),
    }
}
