// Who serves the desks of a window: the caller alone, or the workers beside it.
ghost use Rattle.request_workers.specs.Crews.{IsCrew, IsPartCrew, IsSameCrew};
ghost use Rattle.request_workers.specs.Shares.{CanHelp, CanShare, HasHelpedOn, HasShared, IsLastRun, size_of_runs};
ghost use Rattle.std.specs.Prelude.{◌≡◌, ◌≤◌, ◌<◌, ◌+◌, ◌++◌, [], ℕ, length, vec_len, vec_capacity};

use crate::crew::{Crew, Seat, run_size};
use crate::job::Job;
use logger::Shared;
use std::sync::Wait;
use trace_windows::Request;
use window_desks::{Desk, Floor, Reclaim, Sharing, Workers, help, serve_run};
use wol_disk::Disk;
use wol_io::Gate;

// A window of fewer requests is served by the caller alone. In memory one thread serves 64 requests in some 400 microseconds. The
// number stems from threads that started anew for each window: with workers that stay a smaller one may pay.
const FEW: usize = 64;

/// How a window is shared out.
#[derive(Clone, Copy)]
pub(crate) struct Shares {
    /// How many desks a run has. They are cut in order, and the last may be shorter.
    pub run: usize,
    /// How many the caller keeps.
    pub kept: usize,
    /// How many rounds the helper makes at most.
    pub rounds: usize,
    pub reclaim: Reclaim,
}

/// Who serves the desks of a window.
#[derive(Clone, Copy)]
pub(crate) enum Hands {
    /// The caller alone, one after another.
    One,
    /// The caller and the workers.
    Many,
}

// Whether all requests are of one volume.
fn is_of_one(requests: &[Request]) -> bool {
    let Some(first) = requests.first() else {
        return true;
    };
    for request in requests {
        if request.volume != first.volume {
            return false;
        }
    }
    true
}

/// Who serves these requests. It is a matter of speed alone: each answer serves a window as its contract says.
pub(crate) fn hands_for(workers: Workers, requests: &[Request]) -> Hands {
    let alone = requests.len() < FEW || is_of_one(requests);
    if alone && workers.sharing == Sharing::WherePays {
        return Hands::One;
    }
    Hands::Many
}

/// How many rounds the helper makes at most in a window of so many requests: none where the caller alone serves, since the
/// reclaim turns right behind its requests do all that such rounds would.
pub(crate) fn rounds_for(hands: Hands, requests: usize) -> usize {
    match hands {
        Hands::One => 0,
        Hands::Many => requests.saturating_add(1),
    }
}

/// How so many desks are shared out. In mode `Beside` the caller keeps none, since it is the helper.
pub(crate) fn shares_for(workers: Workers, desks: usize, rounds: usize, reclaim: Reclaim) -> Shares
    requires { 1 ≤ workers.count }
    ensures reclaim { result.reclaim ≡ reclaim }
    ensures run { result.run ≡ size_of_runs workers.count desks }
{
    let run = run_size(workers, desks);
    let kept = match reclaim {
        Reclaim::Off | Reclaim::Between => run,
        Reclaim::Beside => 0,
    };
    Shares {
        run,
        kept,
        rounds,
        reclaim,
    }
}

// How many of so many desks the last run has.
fn last_run(desks: usize, size: usize) -> usize
    requires some { 0 < desks }
    requires size { 0 < size }
    ensures { IsLastRun size desks result }
{
    (desks - 1) % size + 1
}

// Moves the last run of desks into a room, in their order. The room takes no memory: where it is too small, those before
// stay.
fn cut_run<D: Disk>(desks: &mut Vec<Desk<D>>, room: &mut Vec<Desk<D>>, size: usize)
    requires some { 0 < vec_len desks.old }
    requires size { 0 < size }
    requires empty { room.old.items ≡ [] }
    ensures cut { desks.old.items ≡ desks.new.items ++ room.new.items }
    ensures run { size ≤ vec_capacity room.old
        → IsLastRun size (length desks.old.items) (length room.new.items) }
    ensures room { vec_capacity desks.new ≡ vec_capacity desks.old }
{
    for _ in 0..last_run(desks.len(), size) {
        if room.len() == room.capacity() {
            break;
        }
        let Some(desk) = desks.pop() else {
            unreachable!()
        };
        room.push_reserved(desk);
    }
    room.as_mut_slice().reverse();
}

// Makes the helper's rounds, in mode `Beside` alone.
fn help_in<'l, D: Disk, R: Wait>(
    rt: &R,
    floor: &mut Floor<'l, D>,
    shared: &Shared<D>,
    rounds: usize,
    reclaim: Reclaim,
)
    requires { CanHelp shared.now floor.old }
    ensures helped { HasHelpedOn D.tells reclaim floor.old floor.new }
    ensures desks { floor.new.desks ≡ floor.old.desks }
{
    match reclaim {
        Reclaim::Off => {}
        Reclaim::Between => {}
        Reclaim::Beside => help(
            rt,
            floor.locks,
            shared,
            rounds,
            floor.helpers.as_mut_slice(),
            &mut floor.help,
        ),
    }
}

// Serves the desks that are left, and in mode `Beside` makes the helper's rounds.
fn serve_kept<'l, D: Disk, G: Gate, R: Wait>(
    rt: &R,
    floor: &mut Floor<'l, D>,
    shared: &Shared<D>,
    gate: &G,
    shares: Shares,
)
    requires { CanShare shared.now floor.old }
    ensures { HasShared D.tells shares.reclaim floor.old floor.new }
{
    let run = floor.desks.as_mut_slice();
    serve_run(rt, floor.locks, shared, 0, run, &mut floor.work, gate);
    help_in(rt, floor, shared, shares.rounds, shares.reclaim);
}

// Hands each worker that is there the last run of desks, serves the others meanwhile, and takes the runs back.
fn serve_shared<'e, 'l, D: Disk, G: Gate, R: Wait>(
    rt: &R,
    floor: &mut Floor<'l, D>,
    shared: &'l Shared<D>,
    crew: &mut Crew<'e, 'l, D, G>,
    shares: Shares,
)
    requires can { CanShare shared.now floor.old }
    requires crew { IsPartCrew crew.old }
    requires run { 0 < shares.run }
    ensures shared { HasShared D.tells shares.reclaim floor.old floor.new }
    ensures crew { IsPartCrew crew.new }
    ensures still { IsSameCrew crew.old crew.new }
{
    let Some(seat) = crew.seats.pop() else {
        serve_kept(rt, floor, shared, crew.gate, shares);
        return;
    };
    let all = crew.errands;
    let errands = &all[crew.seats.len()];
    if floor.desks.len() <= shares.kept || !errands.has_worker() {
        serve_shared(rt, floor, shared, crew, shares);
        crew.seats.push_reserved(seat);
        return;
    }
    let Seat {
        mut sender,
        mut room,
        work,
    } = seat;
    cut_run(&mut floor.desks, &mut room, shares.run);
    let job = Job {
        locks: floor.locks,
        shared,
        start: floor.desks.len(),
        desks: room,
        work,
    };
    errands.give(&mut sender, job);
    serve_shared(rt, floor, shared, crew, shares);
    let Job {
        locks: _,
        shared: _,
        start: _,
        desks: mut room,
        work,
    } = errands.get_back(rt, &mut sender);
    let Ok(()) = floor.desks.append(&mut room) else {
        unreachable!()
    };
    crew.seats.push_reserved(Seat { sender, room, work });
}

/// Serves all desks, in mode `Beside` with a helper.
pub(crate) fn serve_all<'e, 'l, D: Disk, G: Gate, R: Wait>(
    rt: &R,
    floor: &mut Floor<'l, D>,
    shared: &'l Shared<D>,
    crew: &mut Crew<'e, 'l, D, G>,
    hands: Hands,
    shares: Shares,
)
    requires can { CanShare shared.now floor.old }
    requires crew { IsCrew crew.old }
    requires run { 0 < shares.run }
    ensures shared { HasShared D.tells shares.reclaim floor.old floor.new }
    ensures crew { IsCrew crew.new }
{
    match hands {
        Hands::One => serve_kept(rt, floor, shared, crew.gate, shares),
        Hands::Many => serve_shared(rt, floor, shared, crew, shares),
    }
}
