// Errands, each with a worker and a seat.
ghost use Rattle.request_workers.specs.Crews.{IsPool};

use crate::crew::Seat;
use crate::job::Job;
use errands::{Errands, Worker};
use std::alloc::Global;
use window_desks::WorkRoom;
use wol_disk::{Disk, NoMemory};

/// The places where workers are handed their jobs, with the two ends of each.
#[derive(Drop)]
pub struct Pool<'l, D: Disk> {
    pub errands: Vec<Errands<Job<'l, D>>>,
    pub seats: Vec<Seat<'l, D>>,
    pub workers: Vec<Worker<Job<'l, D>>>,
}

impl<'l, D: Disk> Pool<'l, D> {
    // One place more, for jobs of so many desks at most.
    fn add(&mut self, alloc: Global, size: usize) -> Result<(), NoMemory>
        requires { IsPool self.old }
        ensures { IsPool self.new }
    {
        let Ok((errands, sender, worker)) = Errands::new(alloc) else {
            return Err(NoMemory);
        };
        let room = Vec::with_capacity(alloc, size)?;
        let work = WorkRoom::new(alloc)?;
        self.errands.reserve(1)?;
        self.seats.reserve(1)?;
        self.workers.reserve(1)?;
        self.errands.push_reserved(errands);
        self.seats.push_reserved(Seat { sender, room, work });
        self.workers.push_reserved(worker);
        Ok(())
    }

    /// For so many workers, or for as many as there is memory for, and jobs of so many desks at most.
    pub fn new(alloc: Global, count: u32, size: usize) -> Pool<'l, D>
        ensures { IsPool result }
    {
        let mut pool = Pool {
            errands: Vec::new(alloc),
            seats: Vec::new(alloc),
            workers: Vec::new(alloc),
        };
        for _ in 0..count {
            if pool.add(alloc, size).is_err() {
                break;
            }
        }
        pool
    }
}
