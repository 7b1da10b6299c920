// Serving the requests of one volume, in batches of consecutive writes.
ghost use Rattle.request_turns.specs.Answered.{HasAnsweredMany};
ghost use Rattle.request_turns.specs.Counts.{HasCounted};
ghost use Rattle.request_turns.specs.Requests.{IsWithin};
ghost use Rattle.std.specs.Prelude.{◌≡◌, ◌≤◌, ◌<◌, ◌+◌, ◌++◌, All, length, replicate, vec_len, vec_capacity, slice_range};
ghost use Rattle.turn_lock.specs.Passes.{pass_lock};
ghost use Rattle.window_desks.specs.Batches.{IsBatch};
ghost use Rattle.window_desks.specs.Desks.{IsDeskAt, IsReadyDesk, IsReadyAt};
ghost use Rattle.window_desks.specs.Requests.{was_answered};
ghost use Rattle.window_desks.specs.Served.{HasServed, HasServedUpTo};

use crate::batch::first_batch;
use crate::desk::Desk;
use crate::work_room::WorkRoom;
use logger::Shared;
use manager::Manager;
use request_turns::{Outcome, read_turn, write_many_turn};
use std::sync::Wait;
use trace_windows::Request;
use turn_lock::TurnLock;
use wol_disk::Disk;
use wol_io::Gate;
use wol_model::Kind;

// Some first ones of the requests from `at` up to `end`, in one turn: how many, and what became of each of them.
fn answer_first<D: Disk, R: Wait>(
    rt: &R,
    lock: &TurnLock<Manager<D>>,
    shared: &Shared<D>,
    desk: &mut Desk<D>,
    work: &mut WorkRoom,
    at: usize,
    end: usize,
) -> (usize, Outcome)
    requires at { IsDeskAt lock.now shared.now desk.old }
    requires within { All (IsWithin (pass_lock desk.old.worker).base) desk.old.requests.items }
    requires some { at < end }
    requires end { end ≤ length desk.old.requests.items }
    requires batch { IsBatch (slice_range desk.old.requests.items at end) }
    ensures answered { HasAnsweredMany D.tells (slice_range desk.old.requests.items at end) result.0
        result.1 desk.old.worker desk.new.worker }
    ensures id { desk.new.id ≡ desk.old.id }
    ensures requests { desk.new.requests ≡ desk.old.requests }
    ensures outcomes { desk.new.outcomes ≡ desk.old.outcomes }
    ensures fault { desk.new.fault ≡ desk.old.fault }
    ensures counted { HasCounted D.tells desk.old.tally desk.new.tally desk.old.worker
        desk.new.worker }
{
    let requests = &desk.requests.as_slice()[at..end];
    let first = &requests[0];
    match first.kind {
        Kind::Read => {
            let outcome = read_turn(rt, lock, &mut desk.worker, shared, first, &mut work.payload);
            (1, outcome)
        }
        Kind::Write => write_many_turn(
            rt,
            lock,
            &mut desk.worker,
            shared,
            requests,
            &mut work.payload,
            &mut work.fetch,
            &mut desk.tally,
        ),
    }
}

fn is_answered(outcome: &Outcome) -> bool
    ensures { result ≡ was_answered outcome.now }
{
    matches!(outcome, Outcome::Read { .. } | Outcome::Wrote { .. })
}

// Tells the same of so many requests.
fn tell(outcomes: &mut Vec<Outcome>, outcome: Outcome, count: usize)
    requires { vec_len outcomes.old + count ≤ vec_capacity outcomes.old }
    ensures items { outcomes.new.items ≡ outcomes.old.items ++ replicate count outcome }
    ensures room { vec_capacity outcomes.new ≡ vec_capacity outcomes.old }
{
    for _told in 0..count {
        outcomes.push_reserved(outcome);
    }
}

// Serves some first ones of the requests from `at` up to `end` in one turn. Where that is refused, no later one of the desk
// is run. Answers where the next one is.
fn serve_turn<D: Disk, R: Wait>(
    rt: &R,
    lock: &TurnLock<Manager<D>>,
    shared: &Shared<D>,
    desk: &mut Desk<D>,
    work: &mut WorkRoom,
    at: usize,
    end: usize,
) -> usize
    requires ready { IsReadyAt lock.now shared.now at desk.old }
    requires some { at < end }
    requires end { end ≤ length desk.old.requests.items }
    requires batch { IsBatch (slice_range desk.old.requests.items at end) }
    ensures later { at < result }
    ensures served { HasServedUpTo D.tells at result desk.old desk.new }
{
    let (count, outcome) = answer_first(rt, lock, shared, desk, work, at, end);
    let next = at + count;
    tell(&mut desk.outcomes, outcome, count);
    if is_answered(&outcome) {
        return next;
    }
    let all = desk.requests.len();
    tell(&mut desk.outcomes, Outcome::NotRun, all - next);
    all
}

// Serves the batch that begins at `at`: passes the gate for each of its requests, and then takes as few turns as groups
// allow. Answers where the next batch begins.
fn serve_batch<D: Disk, G: Gate, R: Wait>(
    rt: &R,
    lock: &TurnLock<Manager<D>>,
    shared: &Shared<D>,
    desk: &mut Desk<D>,
    work: &mut WorkRoom,
    gate: &G,
    at: usize,
) -> usize
    requires ready { IsReadyAt lock.now shared.now at desk.old }
    requires some { at < length desk.old.requests.items }
    ensures later { at < result }
    ensures served { HasServedUpTo D.tells at result desk.old desk.new }
{
    let end = at + first_batch(&desk.requests[at..]);
    for k in at..end {
        gate.pass(desk.requests[k].number);
    }
    let mut next = at;
    'turns: while next < end {
        next = serve_turn(rt, lock, shared, desk, work, next, end);
    }
    next
}

/// Serves the requests of a desk's volume, in order.
pub(crate) fn serve_desk<D: Disk, G: Gate, R: Wait>(
    rt: &R,
    lock: &TurnLock<Manager<D>>,
    shared: &Shared<D>,
    desk: &mut Desk<D>,
    work: &mut WorkRoom,
    gate: &G,
)
    requires ready { IsReadyDesk lock.now shared.now desk.old }
    ensures { HasServed D.tells desk.old.requests.items desk.old desk.new }
{
    let mut next = 0;
    'batches: while next < desk.requests.len() {
        next = serve_batch(rt, lock, shared, desk, work, gate, next);
    }
}
