// What ends a run.
ghost use Rattle.msr_trace.specs.Reading.{is_no_memory};
ghost use Rattle.replay.specs.Stops.{fault_of_trace};
ghost use Rattle.replay.specs.declared.stop.Stop.TheVariants.{Sink as sink_failed, Fault as fault};
ghost use Rattle.report.specs.declared.fault.Fault.TheVariants.{Memory as memory};
ghost use Rattle.std.specs.Prelude.{◌≡◌};

use msr_trace::TraceFault;
use report::Fault;
use wol_disk::{Failed, NoMemory};

/// What ended a run before it was done.
#[derive(Debug, Drop)]
pub enum Stop {
    /// The line of this fault is to be written.
    Fault(Fault),
    /// The sink failed.
    Sink,
}

impl From<Failed> for Stop {
    ghost from_gives = { λ _ e. e ≡ sink_failed };

    fn from(_e: Failed) -> Stop {
        Stop::Sink
    }
}

impl From<NoMemory> for Stop {
    ghost from_gives = { λ _ e. e ≡ fault memory };

    fn from(_e: NoMemory) -> Stop {
        Stop::Fault(Fault::Memory)
    }
}

/// What is told of a trace that gives no further line.
pub fn fault_of_trace(fault: TraceFault) -> Fault
    ensures { result ≡ fault_of_trace fault }
{
    match fault {
        TraceFault::Source => Fault::TraceSource,
        TraceFault::Bad { line, why } => Fault::Line { line, why },
        TraceFault::Spent => Fault::Lines,
        TraceFault::NoMemory => Fault::Memory,
    }
}

/// Whether there was no memory for a line.
pub(crate) fn is_memory(fault: TraceFault) -> bool
    ensures { result ≡ is_no_memory fault }
{
    match fault {
        TraceFault::Source => false,
        TraceFault::Bad { .. } => false,
        TraceFault::Spent => false,
        TraceFault::NoMemory => true,
    }
}
