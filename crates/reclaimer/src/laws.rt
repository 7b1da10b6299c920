// The laws of reclaim, each as a clause of a function without a body.
ghost use Rattle.manager.specs.Seen.{look_of_manager};
ghost use Rattle.reclaimer.specs.Counts.{NothingTaken, TakenAddsUp};
ghost use Rattle.reclaimer.specs.Fetches.{DataIsKept, due_entry, going_entry};
ghost use Rattle.std.specs.Prelude.{◌≡◌, None};
ghost use Rattle.wol_promise.specs.Policy.{IsIdleLook};

use manager::Manager;
use wol_disk::Disk;

/// What was fetched in one turn stays the data of its version in each later turn.
pub fn fetch_laws()
    ensures stays { DataIsKept }
{}

/// Where `fetch` and `invalidate_one` find nothing, nothing is left to reclaim while the disks that are asleep stay asleep.
pub fn idle_laws<D: Disk>(_m: &Manager<D>)
    ensures idle { due_entry _m.now ≡ None → going_entry _m.now ≡ None
        → IsIdleLook (look_of_manager _m.now) }
{}

/// What steps in a row take off adds up.
pub fn count_laws()
    ensures adds { TakenAddsUp }
    ensures none { NothingTaken }
{}
