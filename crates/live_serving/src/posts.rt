// All volumes, each with its own door and in its own thread.
ghost use Rattle.nbd_doors.specs.Doors.{ServesDoor};
ghost use Rattle.nbd_serving.specs.Turns.{MakesTurn};
ghost use Rattle.nbd_serving.specs.Workers.{CanServe};
ghost use Rattle.std.specs.Prelude.{◌≡◌, ◌≤◌, ◌<◌, ◌^◌, ℕ, length, slice_index_or};

use logger::Shared;
use manager::Manager;
use nbd_doors::{Door, serve_door};
use nbd_serving::WorkerVolume;
use nbd_session::Export;
use reclaimer::Fetch;
use std::alloc::Global;
use std::sync::Wait;
use std::thread::{self, Threads};
use turn_lock::{Pass, TurnLock};
use wol_disk::Disk;

/// What a thread does.
pub trait Duty {
    /// What it needs.
    ghost Ready: { Self → Type 0 };

    /// What it makes of it.
    ghost Did: { Self → Self → Type 0 };

    /// Does it to its end.
    fn serve<R: Wait>(&mut self, rt: &R, alloc: Global)
        requires { Ready self.old }
        ensures { Did self.old self.new };
}

/// Does all duties at once, each in a thread of its own, until the last has come to its end.
pub fn serve_all<T: Duty + Send, R: Threads + Wait + Sync>(rt: &R, alloc: Global, duties: &mut [T])
    requires some { 1 ≤ length duties.old }
    requires ready { (k : ℕ) (d : T) → k < length duties.old
        → T.Ready (slice_index_or duties.old k d) }
    ensures { (k : ℕ) (d : T) → k < length duties.old
        → T.Did (slice_index_or duties.old k d) (slice_index_or duties.new k d) }
{
    let count = duties.len();
    thread::for_each_mut(
        rt,
        duties,
        count,
        &|_, duty: &mut T|
            requires { T.Ready duty.now }
            ensures { T.Did duty.old duty.new }
        { duty.serve(rt, alloc) },
    );
}

// Serves the clients of a door at a worker. The reference to the worker's pass is the same behind it.
fn serve_clients<R: Wait, D: Disk, G: Door>(
    rt: &R,
    alloc: Global,
    name: &[u8],
    volume: &mut WorkerVolume<'_, R, D>,
    door: &mut G,
)
    requires ready { CanServe volume.old.lock.now volume.old.worker.now volume.old.shared.now
        volume.old.home volume.old.most }
    requires short { length name.now ≤ 4096 }
    requires small { volume.old.home ≤ 2 ^ 32 }
    ensures same_reference { volume.new.worker.ghost_name ≡ volume.old.worker.ghost_name }
    ensures ready { CanServe volume.old.lock.now volume.new.worker.now volume.old.shared.now
        volume.old.home volume.old.most }
    ensures served { ServesDoor G.In.left G.In.faults G.Out.taken G.Out.faults (MakesTurn D.tells)
        name.now volume.old.home volume.old.most G.Gave door.old volume.old.worker.now door.new
        volume.new.worker.now }
{
    serve_door(rt, alloc, name, volume, door)
}

// Serves the clients of a door at a worker's pass.
fn serve_at<R: Wait, D: Disk, G: Door>(
    rt: &R,
    alloc: Global,
    export: &Export<'_>,
    lock: &TurnLock<Manager<D>>,
    worker: &mut Pass<Manager<D>>,
    shared: &Shared<D>,
    fetch: &mut Fetch,
    most: u32,
    door: &mut G,
)
    requires { CanServe lock.now worker.old shared.now export.now.blocks most }
    ensures ready { CanServe lock.now worker.new shared.now export.now.blocks most }
    ensures served { ServesDoor G.In.left G.In.faults G.Out.taken G.Out.faults (MakesTurn D.tells)
        export.now.name.now export.now.blocks most G.Gave door.old worker.old door.new worker.new }
{
    let mut volume = WorkerVolume {
        rt,
        lock,
        worker,
        shared,
        fetch,
        home: export.blocks,
        most,
    };
    serve_clients(rt, alloc, export.name, &mut volume, door);
}

/// A volume's worker at its lock, what it serves, and the door of its clients.
#[derive(Drop)]
pub struct Post<'p, D: Disk, G> {
    pub export: Export<'p>,
    pub lock: &'p TurnLock<Manager<D>>,
    pub shared: &'p Shared<D>,
    /// The most blocks of one turn.
    pub most: u32,
    /// Room for drains.
    pub fetch: Fetch,
    pub worker: Pass<Manager<D>>,
    pub door: G,
}

/// It serves the clients of its door, one after another, until there are no more.
impl<D: Disk, G: Door> Duty for Post<'_, D, G> {
    ghost use Rattle.live_serving.specs.Posts.{CanServePost, ServesPost};
    ghost use Rattle.nbd_serving.specs.Turns.{MakesTurn};

    ghost Ready = { CanServePost };

    ghost Did = { ServesPost G.In.left G.In.faults G.Out.taken G.Out.faults (MakesTurn D.tells)
        G.Gave };

    fn serve<R: Wait>(&mut self, rt: &R, alloc: Global) {
        serve_at(
            rt,
            alloc,
            &self.export,
            self.lock,
            &mut self.worker,
            self.shared,
            &mut self.fetch,
            self.most,
            &mut self.door,
        );
    }
}
