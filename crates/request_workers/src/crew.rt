// Who serves windows: the caller, and the workers that it hands jobs.
ghost use Rattle.request_workers.specs.Crews.{AreIdleSeats, AreOver, IsCrew, IsOverCrew, threads_beside};
ghost use Rattle.request_workers.specs.Shares.{size_of_runs};
ghost use Rattle.std.specs.Prelude.{◌≡◌, ◌≤◌, ◌<◌, ℕ, length, slice_index_or};

use crate::job::Job;
use errands::{Errands, Sender};
use std::thread::yield_now;
use window_desks::{Desk, Reclaim, Sharing, WorkRoom, Workers};
use wol_disk::Disk;

// How often the caller looks whether a worker came, where all windows are to be served by workers.
const LOOKS: u32 = 1_000_000;

/// What the caller has of one worker: the end that hands over, room for the desks of a job, and what they are served in.
#[derive(Drop)]
pub struct Seat<'l, D: Disk> {
    pub(crate) sender: Sender<Job<'l, D>>,
    pub(crate) room: Vec<Desk<D>>,
    pub(crate) work: WorkRoom,
}

/// Who serves the windows of a run.
#[derive(Drop)]
pub struct Crew<'e, 'l, D: Disk, G> {
    pub(crate) errands: &'e [Errands<Job<'l, D>>],
    pub(crate) seats: Vec<Seat<'l, D>>,
    pub(crate) workers: Workers,
    pub(crate) gate: &'e G,
}

/// How many threads serve beside the caller: it is one of the workers, and in mode `Beside` the helper.
pub fn threads_for(workers: u32, reclaim: Reclaim) -> u32
    ensures { result ≡ threads_beside workers reclaim }
{
    match reclaim {
        Reclaim::Off | Reclaim::Between => workers.saturating_sub(1),
        Reclaim::Beside => workers,
    }
}

/// How many of so many desks a worker serves: all workers serve as many, and the last one what is left.
pub fn run_size(workers: Workers, desks: usize) -> usize
    requires { 1 ≤ workers.count }
    ensures { result ≡ size_of_runs workers.count desks }
{
    desks.div_ceil(workers.count as usize).max(1)
}

// Waits some time for a worker.
fn await_worker<D: Disk>(errands: &Errands<Job<'_, D>>) {
    for _ in 0..LOOKS {
        if errands.has_worker() {
            return;
        }
        yield_now();
    }
}

// Tells the worker of each seat that nothing more comes.
fn end_each<'l, D: Disk>(errands: &[Errands<Job<'l, D>>], seats: &mut [Seat<'l, D>])
    requires count { length seats.old ≡ length errands.now }
    requires idle { AreIdleSeats errands.now seats.old }
    ensures { AreOver errands.entry.now seats.new }
{
    for k in 0..seats.len() {
        errands[k].end(&mut seats[k].sender);
    }
}

impl<'e, 'l, D: Disk, G> Crew<'e, 'l, D, G> {
    /// The caller, with the seats for the workers of these errands, one for each.
    pub fn new(
        errands: &'e [Errands<Job<'l, D>>],
        seats: Vec<Seat<'l, D>>,
        workers: Workers,
        gate: &'e G,
    ) -> Crew<'e, 'l, D, G>
        requires workers { (1 ≤ workers.count) × (workers.count ≤ 64) }
        requires count { length seats.items ≡ length errands.now }
        requires idle { AreIdleSeats errands.now seats.items }
        ensures crew { IsCrew result }
        ensures errands { result.errands.now ≡ errands.now }
        ensures parts { result ≡ record {
          errands = errands.entry;
          seats = seats.entry;
          workers = workers;
          gate = gate.entry;
        } }
    {
        Crew {
            errands,
            seats,
            workers,
            gate,
        }
    }

    /// Where its workers are handed their jobs.
    pub fn errands(&self) -> &'e [Errands<Job<'l, D>>]
        ensures { result ≡ self.now.errands }
    {
        self.errands
    }

    /// The gate that is passed before each request.
    pub fn gate(&self) -> &'e G
        ensures { result ≡ self.now.gate }
    {
        self.gate
    }

    /// Waits until the workers came, some time at most, where all windows are to be served by them.
    pub fn gather(&self) {
        if self.workers.sharing == Sharing::Always {
            for errands in self.errands {
                await_worker(errands);
            }
        }
    }

    /// Tells each worker that nothing more comes. After that the crew serves no window.
    pub fn end(&mut self)
        requires { IsCrew self.old }
        ensures over { IsOverCrew self.new }
        ensures only { self.new ≡ record self.old { seats = self.new.seats } }
    {
        end_each(self.errands, self.seats.as_mut_slice());
    }
}
