// What a window ends a run with.
ghost use Rattle.replay.specs.Endings.{fault_of_part, fault_of_read, fault_of_write, fault_of_outcome, fault_of_step, fault_of_window, first_refused, lacked_memory};
ghost use Rattle.std.specs.List.{list_any};
ghost use Rattle.std.specs.Prelude.{◌≡◌, length};

use manager::{Part, ReadRefusal, StepFault, WriteRefusal};
use rack::trouble_of_part;
use report::Fault;
use request_workers::{Outcome, Request, Window};

// A call of a part failed, and its volume is down.
fn fault_of_part(volume: u32, part: Part) -> Fault
    ensures { result ≡ fault_of_part volume part }
{
    Fault::Volume {
        volume,
        trouble: trouble_of_part(part),
    }
}

fn fault_of_read(volume: u32, refusal: ReadRefusal) -> Fault
    ensures { result ≡ fault_of_read volume refusal }
{
    match refusal {
        ReadRefusal::DiskFault(part) => fault_of_part(volume, part),
        ReadRefusal::Down(part) => fault_of_part(volume, part),
    }
}

// No request is refused as full.
fn fault_of_write(volume: u32, refusal: WriteRefusal) -> Option<Fault>
    ensures { result ≡ fault_of_write volume refusal }
{
    match refusal {
        WriteRefusal::Full => None,
        WriteRefusal::DiskFault(part) => Some(fault_of_part(volume, part)),
        WriteRefusal::Down(part) => Some(fault_of_part(volume, part)),
        WriteRefusal::VersionsSpent => Some(Fault::Versions { volume }),
        WriteRefusal::NoMemory => Some(Fault::Memory),
    }
}

// What is told of a request of this volume with this outcome, if it was refused.
fn fault_of_outcome(volume: u32, outcome: &Outcome) -> Option<Fault>
    ensures { result ≡ fault_of_outcome volume outcome.now }
{
    match *outcome {
        Outcome::Read { .. } => None,
        Outcome::Wrote { .. } => None,
        Outcome::NoRead(refusal) => Some(fault_of_read(volume, refusal)),
        Outcome::NoWrite(refusal) => fault_of_write(volume, refusal),
        Outcome::NotRun => None,
    }
}

// Whether a request was refused for want of memory.
fn lacked_memory(outcomes: &[Outcome]) -> bool
    ensures { result ≡ list_any lacked_memory outcomes.now }
{
    outcomes.iter().any(|outcome| matches!(outcome, Outcome::NoWrite(WriteRefusal::NoMemory)))
}

// What is told of the first refused request.
fn first_refused(requests: &[Request], outcomes: &[Outcome]) -> Option<Fault>
    requires count { length outcomes.now ≡ length requests.now }
    ensures { result ≡ first_refused requests.now outcomes.now }
{
    for (at, request) in requests.iter().enumerate() {
        let fault = fault_of_outcome(request.volume, &outcomes[at]);
        if fault.is_some() {
            return fault;
        }
    }
    None
}

fn fault_of_step(volume: u32, fault: StepFault) -> Fault
    ensures { result ≡ fault_of_step volume fault }
{
    match fault {
        StepFault::DiskFault(part) => fault_of_part(volume, part),
        StepFault::Down(part) => fault_of_part(volume, part),
    }
}

/// What a window of these requests ends the run with, if it does: want of memory of a request, or else the first refused
/// request, or else the first refused step of reclaim.
pub(crate) fn fault_of_window(requests: &[Request], window: &Window) -> Option<Fault>
    requires count { length window.now.outcomes.items ≡ length requests.now }
    ensures { result ≡ fault_of_window requests.now window.now }
{
    if lacked_memory(window.outcomes.as_slice()) {
        return Some(Fault::Memory);
    }
    let refused = first_refused(requests, window.outcomes.as_slice());
    if refused.is_some() {
        return refused;
    }
    match window.fault {
        Some((volume, fault)) => Some(fault_of_step(volume, fault)),
        None => None,
    }
}
