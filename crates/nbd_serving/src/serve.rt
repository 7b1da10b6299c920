// A session at the worker of a volume.
ghost use Rattle.nbd_session.specs.Sessions.{CountsFaults, IsSession};
ghost use Rattle.nbd_serving.specs.Turns.{MakesTurn};
ghost use Rattle.nbd_serving.specs.Workers.{CanServe};
ghost use Rattle.std.specs.Prelude.{◌≡◌};

use crate::worker::WorkerVolume;
use logger::Shared;
use manager::Manager;
use nbd_session::{Ended, NbdFault, serve};
use reclaimer::Fetch;
use std::alloc::Global;
use std::sync::Wait;
use turn_lock::{Pass, TurnLock};
use wol_disk::Disk;
use wol_io::{Sink, Source};

// Serves a worker's volume. The reference to its pass is the same behind it.
fn serve_volume<R: Wait, D: Disk, S: Source, K: Sink>(
    rt: &R,
    alloc: Global,
    volume: &mut WorkerVolume<'_, R, D>,
    input: &mut S,
    out: &mut K,
) -> Result<Ended, NbdFault>
    requires { CanServe volume.old.lock.now volume.old.worker.now volume.old.shared.now
        volume.old.home volume.old.most }
    ensures same_reference { volume.new.worker.ghost_name ≡ volume.old.worker.ghost_name }
    ensures ready { CanServe volume.old.lock.now volume.new.worker.now volume.old.shared.now
        volume.old.home volume.old.most }
    ensures session { IsSession (MakesTurn D.tells) volume.old.home volume.old.most
        volume.old.worker.now volume.new.worker.now
        (S.left input.old) (S.left input.new) (K.taken out.old) (K.taken out.new) result }
    ensures faults { CountsFaults (S.faults input.old) (S.faults input.new) (K.faults out.old)
        (K.faults out.new) result }
{
    serve(rt, alloc, volume, input, out)
}

/// Serves a volume, which has `home` blocks and takes at most `most` in one turn, to a client, as `serve` of `nbd_session`
/// does: each turn is one of the volume's worker, at its lock, where the helper and the keeper may have turns of their own
/// meanwhile. A write that no log has room for drains all records within its turn.
///
/// `NoMemory` comes before the first request is looked at.
pub fn serve_worker<R: Wait, D: Disk, S: Source, K: Sink>(
    rt: &R,
    alloc: Global,
    lock: &TurnLock<Manager<D>>,
    worker: &mut Pass<Manager<D>>,
    shared: &Shared<D>,
    home: u64,
    most: u32,
    input: &mut S,
    out: &mut K,
) -> Result<Ended, NbdFault>
    requires { CanServe lock.now worker.old shared.now home most }
    ensures ready { CanServe lock.now worker.new shared.now home most }
    ensures session { IsSession (MakesTurn D.tells) home most worker.old worker.new
        (S.left input.old) (S.left input.new) (K.taken out.old) (K.taken out.new) result }
    ensures faults { CountsFaults (S.faults input.old) (S.faults input.new) (K.faults out.old)
        (K.faults out.new) result }
{
    let Ok(mut fetch) = Fetch::new(alloc) else {
        return Err(NbdFault::NoMemory);
    };
    let mut volume = WorkerVolume {
        rt,
        lock,
        worker,
        shared,
        fetch: &mut fetch,
        home,
        most,
    };
    serve_volume(rt, alloc, &mut volume, input, out)
}
