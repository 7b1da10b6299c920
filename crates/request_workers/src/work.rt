// What a worker does until nothing more comes.
ghost use Rattle.errands.specs.Ends.{IsTold, IsWaiting};
ghost use Rattle.request_workers.specs.Crews.{AreTold, AreToldFrom, AreWaiting, AreWaitingFrom};
ghost use Rattle.std.specs.Prelude.{◌≡◌, ◌<◌, ◌≤◌, ◌+◌, ℕ, length, slice_index_or};

use crate::job::Task;
use errands::{Errands, Worker};
use std::sync::Wait;
use std::thread;
use std::thread::Threads;

// Serves what is handed over, until nothing more comes.
fn work<T: Task<G>, G, R: Wait>(rt: &R, errands: &Errands<T>, worker: &mut Worker<T>, gate: &G)
    requires { IsWaiting errands.now worker.old }
    ensures { IsTold errands.entry.now worker.new }
{
    for _ in rt.forever() {
        let Some(mut task) = errands.take(rt, worker) else {
            return;
        };
        task.serve(rt, gate);
        errands.leave(worker, task);
    }
    unreachable!()
}

// The workers of a run, one after another.
fn work_run<T: Task<G>, G, R: Wait>(
    rt: &R,
    errands: &[Errands<T>],
    start: usize,
    gate: &G,
    run: &mut [Worker<T>],
)
    requires within { start + length run.old ≤ length errands.now }
    requires waiting { AreWaitingFrom start errands.now run.old }
    ensures count { length run.new ≡ length run.old }
    ensures told { AreToldFrom start errands.entry.now run.new }
{
    for k in 0..run.len() {
        work(rt, &errands[start + k], &mut run[k], gate);
    }
}

/// All workers, each in a thread of its own, until they are told that nothing more comes.
pub fn work_all<T: Task<G> + Send, G: Sync, R: Threads + Wait + Sync>(
    rt: &R,
    errands: &[Errands<T>],
    gate: &G,
    workers: &mut [Worker<T>],
)
    requires count { length workers.old ≡ length errands.now }
    requires waiting { AreWaiting errands.now workers.old }
    ensures { AreTold errands.entry.now workers.new }
{
    thread::for_each_chunk_mut(
        rt,
        workers,
        1,
        &|start: usize, run: &mut [Worker<T>]|
            requires { (start + length run.now ≤ length errands.now)
                × AreWaitingFrom start errands.now run.now }
            ensures { (length run.new ≡ length run.old)
                × AreToldFrom start errands.entry.now run.new }
        { work_run(rt, errands, start, gate, run) },
    );
}
