// Serving the desks of a run, one after another.
ghost use Rattle.std.specs.Prelude.{◌≤◌, ◌+◌, length};
ghost use Rattle.window_desks.specs.Desks.{AreReady, AreServed};

use crate::desk::Desk;
use crate::serve::serve_desk;
use crate::work_room::WorkRoom;
use logger::Shared;
use manager::Manager;
use std::sync::Wait;
use turn_lock::TurnLock;
use wol_disk::Disk;
use wol_io::Gate;

/// Serves the desks of a run, which begins at the volume `start`, one after another: each desk's requests in order, and none
/// of them after the first that isn't answered. The gate is passed before the requests that are run, in no turn.
pub fn serve_run<D: Disk, G: Gate, R: Wait>(
    rt: &R,
    locks: &[TurnLock<Manager<D>>],
    shared: &Shared<D>,
    start: usize,
    run: &mut [Desk<D>],
    work: &mut WorkRoom,
    gate: &G,
)
    requires within { start + length run.old ≤ length locks.now }
    requires ready { AreReady locks.now shared.now start run.old }
    ensures { AreServed D.tells run.old run.new }
{
    for k in 0..run.len() {
        serve_desk(rt, &locks[start + k], shared, &mut run[k], work, gate);
    }
}
