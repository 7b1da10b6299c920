// What a worker is handed, and how it serves it.
use errands::Errand;
use logger::Shared;
use manager::Manager;
use std::sync::Wait;
use turn_lock::TurnLock;
use window_desks::{Desk, WorkRoom, serve_run};
use wol_disk::Disk;
use wol_io::Gate;

/// An errand that knows how it is served. The gate is passed before each request.
pub trait Task<G>: Errand {
    fn serve<R: Wait>(&mut self, rt: &R, gate: &G)
        requires { Self.ready self.old }
        ensures { Self.served self.old self.new };
}

/// Desks of which the requests are to be served, those of the volumes from `start` on, and what they are served in.
#[derive(Drop)]
pub struct Job<'l, D: Disk> {
    pub(crate) locks: &'l [TurnLock<Manager<D>>],
    pub(crate) shared: &'l Shared<D>,
    pub(crate) start: usize,
    pub(crate) desks: Vec<Desk<D>>,
    pub(crate) work: WorkRoom,
}

impl<'l, D: Disk> Errand for Job<'l, D> {
    ghost use Rattle.request_workers.specs.Jobs.{IsReadyJob, IsServedJob};

    ghost ready = { IsReadyJob };

    ghost served = { IsServedJob D.tells };
}

impl<'l, D: Disk, G: Gate> Task<G> for Job<'l, D> {
    fn serve<R: Wait>(&mut self, rt: &R, gate: &G) {
        let locks = self.locks;
        let shared = self.shared;
        let start = self.start;
        let run = self.desks.as_mut_slice();
        serve_run(rt, locks, shared, start, run, &mut self.work, gate);
    }
}
