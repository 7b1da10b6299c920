// Windows over a floor.
ghost use Rattle.request_turns.specs.Counts.{CountsMore};
ghost use Rattle.request_workers.specs.Crews.{IsCrew};
ghost use Rattle.std.specs.Prelude.{◌≡◌, ◌≤◌, ◌<◌, ◌^◌, [], ℕ, List, map, length, vec_len, vec_capacity, slice_index_or, sum_by, OnOk, OnErr, IfOk};
ghost use Rattle.window_desks.specs.Floors.{IsFloor, IsOn, AreInside, HasRun, IsAsItWas};
ghost use Rattle.window_desks.specs.Requests.{AreOfVolumes};
ghost use Rattle.window_desks.specs.Worked.{first_fault};
ghost use Rattle.window_desks.specs.declared.desk.Desk.{Desk};

use crate::crew::Crew;
use crate::slices::run_window;
use logger::Shared;
use manager::StepFault;
use request_turns::Tally;
use std::alloc::Global;
use std::sync::Wait;
use trace_windows::Request;
use window_desks::hand_out::hand_out;
use window_desks::{Desk, Floor, HelperRoom, Reclaim, Window};
use wol_disk::{Disk, NoMemory};
use wol_io::Gate;

// What was reclaimed by the workers and the helper.
fn reclaimed<D: Disk>(desks: &[Desk<D>], help: &HelperRoom) -> Tally
    ensures { CountsMore (sum_by (λ (d : Desk _). d.tally.blocks) desks.now)
        (sum_by (λ (d : Desk _). d.tally.records) desks.now) help.now.tally result }
{
    let mut tally = help.tally;
    for desk in desks {
        tally.add(desk.tally);
    }
    tally
}

// The first volume of which the reclaim turn was refused, with the refusal.
fn refused_turn<D: Disk>(desks: &[Desk<D>]) -> Option<(u32, StepFault)>
    requires { length desks.now ≤ 2 ^ 32 }
    ensures { result ≡ first_fault 0 (map (λ (d : Desk _). d.fault) desks.now) }
{
    for k in 0..desks.len() {
        if let Some(fault) = desks[k].fault {
            return Some((k as u32, fault));
        }
    }
    None
}

/// Runs one window of requests: each volume's in order, the volumes cut in order into runs of as many as their number
/// divided by the workers' count, rounded up, and each run by a worker of the crew, or all by the caller alone, as
/// `Sharing` says. The caller serves a run too, and those whose worker is not there. After the first request of a volume that
/// isn't answered its later ones are not run.
///
/// Writes of a volume with no read between them are served together, as many as have at most 128 blocks: those that go to one
/// log in a row take one turn, and leave one entry. The gate is passed before each request that is run, in no turn: for writes
/// that are served together before the first of them, so also for those that a refusal among them keeps from being run.
///
/// In mode `Between` each volume in order has one reclaim turn after the requests. In mode `Beside` it has one too, and where
/// workers serve the window the caller reclaims beside them, a step on each volume at a time, until a round of steps did
/// nothing, and at most in as many rounds as there are requests and one more. `NoMemory` comes before a request is run.
pub fn window<'e, 'l, D: Disk, G: Gate, R: Wait>(
    rt: &R,
    alloc: Global,
    floor: &mut Floor<'l, D>,
    shared: &'l Shared<D>,
    requests: &[Request],
    crew: &mut Crew<'e, 'l, D, G>,
    reclaim: Reclaim,
) -> Result<Window, NoMemory>
    requires floor { IsFloor floor.old }
    requires shared { IsOn shared.now floor.old.locks.now }
    requires crew { IsCrew crew.old }
    requires volumes { AreOfVolumes (length floor.old.locks.now) requests.now }
    requires within { AreInside floor.old.locks.now requests.now }
    requires few { length floor.old.locks.now ≤ 2 ^ 32 }
    ensures floor { IsFloor floor.new }
    ensures crew { IsCrew crew.new }
    ensures run { IfOk result (HasRun D.tells requests.now reclaim floor.old floor.new) }
    ensures unchanged { OnErr result (IsAsItWas floor.old floor.new) }
{
    let mut outcomes = Vec::with_capacity(alloc, requests.len())?;
    hand_out(floor.desks.as_mut_slice(), requests)?;
    floor.help.tally = Tally::new();
    floor.help.fault = None;
    run_window(rt, floor, shared, crew, requests, reclaim, &mut outcomes);
    let tally = reclaimed(floor.desks.as_slice(), &floor.help);
    let refused = refused_turn(floor.desks.as_slice());
    let fault = floor.help.fault.or(refused);
    Ok(Window {
        outcomes,
        blocks: tally.blocks,
        records: tally.records,
        fault,
    })
}
