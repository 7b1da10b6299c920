// What is done with an open rack.
use crate::Rack;
use std::alloc::Global;
use wol_config::Config;
use wol_disk::Disk;

/// What is done with the volumes of a rack while they are open. `S` is what it reads besides, `K` what it writes to,
/// and `R` what runs it.
pub trait Work<R, D: Disk, S, K>: Drop {
    ghost use Rattle.rack.specs.Again.{IsOpenRack, IsRackAgain};
    ghost use Rattle.rack_parts.specs.declared.rack.Rack.{Rack};
    ghost use Rattle.wol_config.specs.Configs.{IsValid};
    ghost use Rattle.wol_config.specs.declared.config.Config.{Config};

    /// What it answers.
    type Answer;

    /// What it needs besides a rack that was opened.
    ghost Ready: { Self → Config → S → K → Type 0 };

    /// What it does: to the rack, to what it reads and to what it writes to.
    ghost Did: { Self → Config → Rack D → Rack D → S → S → K → K → Self.Answer → Type 0 };

    /// Does it. The rack was opened with this configuration.
    fn run(
        self,
        rt: &R,
        alloc: Global,
        config: &Config,
        rack: &mut Rack<D>,
        given: &mut S,
        out: &mut K,
    ) -> Self::Answer
        requires config { IsValid config.now }
        requires rack { IsOpenRack D.state config.now rack.old }
        requires ready { Ready self config.now given.old out.old }
        // the rack has again all that it came with
        ensures again { IsRackAgain rack.old rack.new }
        ensures did { Did self config.now rack.old rack.new given.old given.new out.old out.new
            result };
}
