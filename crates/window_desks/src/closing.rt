// The reclaim turns after the requests.
ghost use Rattle.std.specs.Prelude.{◌≡◌, ◌<◌, ℕ, length, slice_index_or, None};
ghost use Rattle.window_desks.specs.Closed.{HasClosedDesk, AreClosed};
ghost use Rattle.window_desks.specs.Desks.{IsDeskAt, AreAt, ShareDesks};
ghost use Rattle.window_desks.specs.declared.desk.Desk.{Desk};

use crate::desk::Desk;
use crate::request::Reclaim;
use crate::work_room::WorkRoom;
use logger::Shared;
use manager::Manager;
use request_turns::reclaim_turn;
use std::sync::Wait;
use turn_lock::TurnLock;
use wol_disk::Disk;

// One reclaim turn of a desk's volume.
fn close_one<D: Disk, R: Wait>(
    rt: &R,
    lock: &TurnLock<Manager<D>>,
    shared: &Shared<D>,
    desk: &mut Desk<D>,
    work: &mut WorkRoom,
)
    requires { IsDeskAt lock.now shared.now desk.old }
    ensures { HasClosedDesk D.tells Reclaim.Between desk.old desk.new }
{
    desk.fault = reclaim_turn(
        rt,
        lock,
        &mut desk.worker,
        shared,
        &mut work.fetch,
        &mut desk.tally,
    );
}

// One reclaim turn of each volume in order.
fn close_each<D: Disk, R: Wait>(
    rt: &R,
    locks: &[TurnLock<Manager<D>>],
    shared: &Shared<D>,
    desks: &mut [Desk<D>],
    work: &mut WorkRoom,
)
    requires count { length desks.old ≡ length locks.now }
    requires passes { AreAt locks.now desks.old }
    requires shared { ShareDesks shared.now desks.old }
    ensures { AreClosed D.tells Reclaim.Between desks.old desks.new }
{
    for k in 0..desks.len() {
        close_one(rt, &locks[k], shared, &mut desks[k], work);
    }
}

/// The reclaim turns of a window, none in mode `Off`: one of each volume, in order, in both other modes. What a turn refuses
/// is its desk's fault, and the later turns are taken all the same.
pub fn close_all<D: Disk, R: Wait>(
    rt: &R,
    locks: &[TurnLock<Manager<D>>],
    shared: &Shared<D>,
    desks: &mut [Desk<D>],
    work: &mut WorkRoom,
    reclaim: Reclaim,
)
    requires count { length desks.old ≡ length locks.now }
    requires passes { AreAt locks.now desks.old }
    requires shared { ShareDesks shared.now desks.old }
    requires faultless { (k : ℕ) (d : Desk _) → k < length desks.old
        → (slice_index_or desks.old k d).fault ≡ None }
    ensures { AreClosed D.tells reclaim desks.old desks.new }
{
    match reclaim {
        Reclaim::Off => {}
        Reclaim::Between => close_each(rt, locks, shared, desks, work),
        Reclaim::Beside => close_each(rt, locks, shared, desks, work),
    }
}
