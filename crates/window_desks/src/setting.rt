// Stations into their locks and passes, and back.
ghost use Rattle.std.specs.Prelude.{◌≡◌, ◌≤◌, ◌<◌, [], ℕ, List, map, length, vec_len, vec_capacity, IfOk, IfErr};
ghost use Rattle.window_desks.specs.Floors.{AreWhole};
ghost use Rattle.window_desks.specs.Stations.{AreMoved, AreSetUp, AreStations};

use crate::desk::Desk;
use crate::floor::Passes;
use crate::helper::HelperRoom;
use crate::work_room::WorkRoom;
use manager::{Manager, Station};
use reclaimer::Fetch;
use request_turns::Tally;
use std::alloc::Global;
use turn_lock::TurnLock;
use wol_disk::{Disk, NoMemory};

fn move_all<D: Disk>(alloc: Global, locks: &mut Vec<TurnLock<Manager<D>>>, passes: &mut Passes<D>)
    requires lock_room { vec_len passes.old.room ≤ vec_capacity locks.old }
    requires desk_room { vec_len passes.old.room ≤ vec_capacity passes.old.desks }
    requires helper_room { vec_len passes.old.room ≤ vec_capacity passes.old.helpers }
    requires keeper_room { vec_len passes.old.room ≤ vec_capacity passes.old.keepers }
    requires no_lock { locks.old.items ≡ [] }
    requires no_desk { passes.old.desks.items ≡ [] }
    requires no_helper { passes.old.helpers.items ≡ [] }
    requires no_keeper { passes.old.keepers.items ≡ [] }
    ensures { AreSetUp passes.old.room.items locks.new.items passes.new }
{
    passes.room.as_mut_slice().reverse();
    while let Some(station) = passes.room.pop() {
        let Station {
            id,
            lock,
            worker,
            helper,
            keeper,
        } = station;
        locks.push_reserved(lock);
        passes.desks.push_reserved(Desk {
            id,
            worker,
            requests: Vec::new(alloc),
            outcomes: Vec::new(alloc),
            tally: Tally::new(),
            fault: None,
        });
        passes.helpers.push_reserved(helper);
        passes.keepers.push_reserved(keeper);
    }
}

/// The stations' locks, and their passes by their use. Gives the stations back where there is no memory.
#[tactic(auto, using(crate::proofs::Stationed::whole_of))]
pub fn set_up<D: Disk>(
    alloc: Global,
    stations: Vec<Station<D>>,
) -> Result<(Vec<TurnLock<Manager<D>>>, Passes<D>), (Vec<Station<D>>, NoMemory)>
    requires stations { AreStations stations.items }
    ensures moved { IfOk result (λ r. AreMoved stations.items r.0.items r.1) }
    ensures whole { IfOk result (λ r. AreWhole r.0.items r.1) }
    ensures refused { IfErr result (λ r. r.0 ≡ stations) }
{
    let count = stations.len();
    let Ok(work) = WorkRoom::new(alloc) else {
        return Err((stations, NoMemory));
    };
    let Ok(fetch) = Fetch::new(alloc) else {
        return Err((stations, NoMemory));
    };
    let Ok(desks) = Vec::with_capacity(alloc, count) else {
        return Err((stations, NoMemory));
    };
    let Ok(helpers) = Vec::with_capacity(alloc, count) else {
        return Err((stations, NoMemory));
    };
    let Ok(keepers) = Vec::with_capacity(alloc, count) else {
        return Err((stations, NoMemory));
    };
    // The last, since a list of locks can't be let go.
    let Ok(mut locks) = Vec::with_capacity(alloc, count) else {
        return Err((stations, NoMemory));
    };
    let mut passes = Passes {
        desks,
        helpers,
        keepers,
        help: HelperRoom {
            fetch,
            tally: Tally::new(),
            fault: None,
        },
        work,
        room: stations,
    };
    move_all(alloc, &mut locks, &mut passes);
    Ok((locks, passes))
}

/// The stations of these locks and passes, as they are. It takes no memory.
pub fn take_down<D: Disk>(
    mut locks: Vec<TurnLock<Manager<D>>>,
    passes: Passes<D>,
) -> Vec<Station<D>>
    requires { AreWhole locks.items passes }
    ensures moved { AreMoved result.items locks.items passes }
    ensures stations { AreStations result.items }
{
    let Passes {
        mut desks,
        mut helpers,
        mut keepers,
        help: _,
        work: _,
        mut room,
    } = passes;
    while let Some(lock) = locks.pop() {
        let Desk {
            id,
            worker,
            requests: _,
            outcomes: _,
            tally: _,
            fault: _,
        } = desks.pop().unwrap();
        let helper = helpers.pop().unwrap();
        let keeper = keepers.pop().unwrap();
        room.push_reserved(Station {
            id,
            lock,
            worker,
            helper,
            keeper,
        });
    }
    locks.destroy_empty();
    room.as_mut_slice().reverse();
    room
}
