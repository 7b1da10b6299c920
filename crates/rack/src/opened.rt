// All volumes of a bay are opened, and closed behind a work.
ghost use Rattle.rack.specs.Sessions.{OpensAndCloses};
ghost use Rattle.rack.specs.Opens.{KeepsAllSound, KeepsOthers, KeepsViews, LeavesAll};
ghost use Rattle.rack.specs.BayRuns.{QuietRun};
ghost use Rattle.std.specs.Prelude.{◌≡◌, ◌≤◌, IfOk, OnErr, IsTrue};
ghost use Rattle.volume_images.specs.Left.{IsTold};
ghost use Rattle.volume_images.specs.Volumes.{NoneOut};
ghost use Rattle.wol_bay.specs.Bay.{outs};
ghost use Rattle.wol_config.specs.Configs.{IsValid};

use crate::work::Work;
use crate::{close_all, open_all};
use rack_parts::ClosedSpindle;
use std::alloc::Global;
use std::sync::Wait;
use wol_bay::Bay;
use wol_config::Config;
use wol_disk::NoMemory;

/// What a work answered, and the spindles of the rack that was closed behind it, in order.
#[derive(Drop)]
pub struct Closed<T> {
    pub answer: T,
    pub spindles: Vec<ClosedSpindle>,
}

/// Opens all volumes of the configuration, does the work with them, and closes them, whatever the work answered.
///
/// `NoMemory`: the volumes weren't opened, and the work wasn't begun; no label or view was changed. At each exit every image is
/// back in the bay.
pub fn with_open<R: Wait, B: Bay, S, K, W: Work<R, B::Part, S, K>>(
    rt: &R,
    alloc: Global,
    config: &Config,
    bay: &mut B,
    work: W,
    given: &mut S,
    out: &mut K,
) -> Result<Closed<W::Answer>, NoMemory>
    requires config { IsValid config.now }
    requires home { NoneOut config.now (B.state bay.old) }
    requires ready { W.Ready work config.now given.old out.old }
    // each exit
    ensures none_out { NoneOut config.now (B.state bay.new) }
    ensures home { outs (B.state bay.new) ≡ outs (B.state bay.old) }
    ensures counts { (B.state bay.old).faults ≤ (B.state bay.new).faults }
    // images that a crash might have left sound before are sound behind it, whatever was written
    ensures sound { IsTrue B.Part.tells
        → IsTold (KeepsAllSound config.now) (B.state bay.old).told (B.state bay.new).told }
    ensures others { IsTold (KeepsOthers config.now) (B.state bay.old).told (B.state bay.new).told }
    // the work was done with the rack while it was open
    ensures did { IfOk result (λ c. OpensAndCloses B.Part.tells B.Part.state config.now
        (λ before after.
        W.Did work config.now before after given.old given.new out.old out.new c.answer)
        (B.state bay.old) (B.state bay.new) c.spindles.items) }
    // without memory
    ensures left { OnErr result (IsTrue B.Part.tells
        → IsTold (LeavesAll B.Part.tells B.Part.state config.now (B.state bay.old)
        (B.state bay.new))
        (B.state bay.old).told (B.state bay.new).told) }
    ensures views { OnErr result (IsTrue B.Part.tells
        → IsTold (KeepsViews config.now) (B.state bay.old).told (B.state bay.new).told) }
    // the run of the bay, in which nothing was written; else it is told with what the work did
    ensures run { OnErr result
        (QuietRun B.Part.tells config.now (B.state bay.old) (B.state bay.new)) }
    ensures unread { OnErr result (given.new ≡ given.old) }
    ensures unwritten { OnErr result (out.new ≡ out.old) }
{
    let mut rack = open_all(alloc, rt, bay, config)?;
    let answer = work.run(rt, alloc, config, &mut rack, given, out);
    let spindles = close_all(rack, bay, config);
    Ok(Closed { answer, spindles })
}
