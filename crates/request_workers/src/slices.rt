// One window of requests over a floor.
ghost use Rattle.request_turns.specs.Counts.{Counts};
ghost use Rattle.request_workers.specs.Crews.{IsCrew};
ghost use Rattle.request_workers.specs.Shares.{CanShare, HasRunOn};
ghost use Rattle.std.specs.Prelude.{◌≡◌, ◌≤◌, ◌<◌, [], ℕ, List, None, length, vec_capacity, slice_index_or};
ghost use Rattle.window_desks.specs.Desks.{HaveOwn};
ghost use Rattle.window_desks.specs.Requests.{AreOfVolumes};
ghost use Rattle.window_desks.specs.declared.desk.Desk.{Desk};

use crate::crew::Crew;
use crate::hands::{hands_for, rounds_for, serve_all, shares_for};
use logger::Shared;
use request_turns::Outcome;
use std::sync::Wait;
use trace_windows::Request;
use window_desks::{Floor, Reclaim, close_all, collect};
use wol_disk::Disk;
use wol_io::Gate;

/// Serves the requests, reclaims, and moves the outcomes into `out`, in the order of the requests.
pub(crate) fn run_window<'e, 'l, D: Disk, G: Gate, R: Wait>(
    rt: &R,
    floor: &mut Floor<'l, D>,
    shared: &'l Shared<D>,
    crew: &mut Crew<'e, 'l, D, G>,
    requests: &[Request],
    reclaim: Reclaim,
    out: &mut Vec<Outcome>,
)
    requires can { CanShare shared.now floor.old }
    requires count { length floor.old.desks.items ≡ length floor.old.locks.now }
    requires crew { IsCrew crew.old }
    requires own { HaveOwn requests.now floor.old.desks.items }
    requires faultless { (k : ℕ) (d : Desk _) → k < length floor.old.desks.items
        → (slice_index_or floor.old.desks.items k d).fault ≡ None }
    requires fresh { (k : ℕ) (d : Desk _) → k < length floor.old.desks.items
        → Counts 0 0 (slice_index_or floor.old.desks.items k d).tally }
    requires volumes { AreOfVolumes (length floor.old.desks.items) requests.now }
    requires empty { out.old.items ≡ [] }
    requires room { length requests.now ≤ vec_capacity out.old }
    ensures run { HasRunOn D.tells requests.now out.new.items reclaim floor.old floor.new }
    ensures crew { IsCrew crew.new }
{
    let hands = hands_for(crew.workers, requests);
    let rounds = rounds_for(hands, requests.len());
    let shares = shares_for(crew.workers, floor.desks.len(), rounds, reclaim);
    serve_all(rt, floor, shared, crew, hands, shares);
    let desks = floor.desks.as_mut_slice();
    close_all(rt, floor.locks, shared, desks, &mut floor.work, reclaim);
    collect(floor.desks.as_mut_slice(), requests, out);
}
