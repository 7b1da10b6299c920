// All volumes are open: one of them is drained, where its view is to lose a logger.
ghost use Rattle.inspection.specs.Racks.{numbers_of, CanLook, IsSameRack};
ghost use Rattle.report.specs.declared.fault.Fault.TheVariants.{Volume};
ghost use Rattle.std.specs.Prelude.{◌≡◌, ◌<◌, ◌≤◌, ◌^◌, Some, Ok, Err, Contains, length, slice_get, IfSome, IfNone, IfErr, OnOk};
ghost use Rattle.view_commands.specs.Drains.{TellsDrain, trouble_of_step};
ghost use Rattle.wol_config.specs.Configs.{IsValid};

use inspection::place_of;
use manager::StepFault;
use rack::{Rack, Work, first_closed, trouble_of_part};
use reclaimer::Fetch;
use report::Fault;
use std::alloc::Global;
use std::sync::Wait;
use view_change::{Change, drain_all};
use wol_config::Config;
use wol_disk::{Disk, NoMemory};

// What is told of a volume whose drain was refused so.
fn fault_of(volume: u32, fault: StepFault) -> Fault
    ensures { result ≡ Volume volume (trouble_of_step fault) }
{
    let part = match fault {
        StepFault::DiskFault(part) => part,
        StepFault::Down(part) => part,
    };
    Fault::Volume {
        volume,
        trouble: trouble_of_part(part),
    }
}

// Drains the volume.
fn drain_volume<D: Disk, R: Wait>(
    rt: &R,
    alloc: Global,
    rack: &mut Rack<D>,
    config: &Config,
    volume: u32,
) -> Result<(), Fault>
    requires rack { CanLook config.now rack.old }
    requires there { Contains (numbers_of rack.old.stations.items) volume }
    ensures same { IsSameRack rack.old rack.new }
    ensures drained { TellsDrain D.tells D.state rack.old rack.new volume result }
{
    let Ok(mut room) = Fetch::new(alloc) else {
        return Err(Fault::Memory);
    };
    let _ = config;
    let place = place_of(&rack.stations, volume);
    match drain_all(rt, &mut rack.stations[place], &rack.shared, &mut room) {
        Ok(_) => Ok(()),
        Err(fault) => Err(fault_of(volume, fault)),
    }
}

/// Sees that all volumes are open, and drains the one whose view is to lose a logger.
#[derive(Drop)]
pub(crate) struct Draining {
    pub volume: u32,
    pub change: Change,
}

impl<R: Wait, D: Disk> Work<R, D, (), ()> for Draining {
    ghost use Rattle.std.specs.Prelude.{◌<◌, length};
    ghost use Rattle.view_commands.specs.Drains.{TellsRack};

    type Answer = Result<(), Fault>;

    ghost Ready = { λ work config given out. work.volume < length config.volumes.items };

    ghost Did = { λ work config before after given rest out now answer. TellsRack D.tells D.state work.change work.volume before after answer };

    fn run(
        self,
        rt: &R,
        alloc: Global,
        config: &Config,
        rack: &mut Rack<D>,
        _given: &mut (),
        _out: &mut (),
    ) -> Result<(), Fault> {
        if let Some(fault) = first_closed(rack.faults.as_slice()) {
            return Err(fault);
        }
        match self.change {
            Change::Add(_) => Ok(()),
            Change::Remove(_) => drain_volume(rt, alloc, rack, config, self.volume),
        }
    }
}
