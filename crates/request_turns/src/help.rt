// A helper's turns, one step of reclaim each.
ghost use Rattle.manager.specs.Stands.{IsShared};
ghost use Rattle.reclaimer.specs.Fetches.{HasData};
ghost use Rattle.request_turns.specs.Counts.{CountsMore, HasCounted, ReclaimsNothing, gone_count};
ghost use Rattle.request_turns.specs.Helped.{HasHelped, AreKept, HasNoneDue, HasNoneToPut, HasNoneToGo, HasTakenSome};
ghost use Rattle.request_turns.specs.Turns.{look_seen, notes_seen, WasDown, faulty_part};
ghost use Rattle.std.specs.Prelude.{◌≡◌, ◌↔◌, true, false, Ok, OnOk, IfOk, IfErr, IsSome, IsTrue};
ghost use Rattle.turn_lock.specs.Passes.{pass_lock, IsPassAt};
ghost use Rattle.wol_model.specs.History.{helper};

use crate::answer::has_failed;
use crate::noted::leave_step;
use crate::tally::Tally;
use logger::Shared;
use manager::{Manager, StepFault};
use reclaimer::{Fetch, Fetched, Gone, fetch, invalidate_one, put_home};
use std::sync::Wait;
use turn_lock::{Pass, TurnLock};
use wol_disk::Disk;

// Whether a record was fetched.
fn was_found(fetched: Fetched) -> bool
    ensures { (result ≡ false) ↔ (fetched ≡ Fetched.Nothing) }
{
    match fetched {
        Fetched::Some { .. } => true,
        Fetched::Nothing => false,
    }
}

/// Reads a record with due blocks in one turn. Tells whether there was one within reach: then `room` has it, and else it is
/// empty.
pub fn fetch_turn<D: Disk, R: Wait>(
    rt: &R,
    lock: &TurnLock<Manager<D>>,
    pass: &mut Pass<Manager<D>>,
    shared: &Shared<D>,
    room: &mut Fetch,
) -> Result<bool, StepFault>
    requires pass { IsPassAt lock.now helper pass.old }
    requires shared { IsShared shared.now (pass_lock pass.old).base }
    ensures helped { HasHelped D.tells pass.old pass.new }
    ensures counted { ReclaimsNothing D.tells pass.old pass.new }
    ensures data { HasData D.tells room.new (pass_lock pass.new).base (notes_seen pass.new) }
    ensures room { IfOk result (λ some. IsTrue some ↔ IsSome room.new) }
    ensures nothing { result ≡ Ok false → HasNoneDue (look_seen pass.new) }
    ensures cause { IfErr result (λ f. WasDown (faulty_part f) (notes_seen pass.new)) }
    ensures kept { OnOk result (AreKept pass.old pass.new) }
{
    let mut turn = lock.enter(rt, pass);
    let answer = fetch(rt, &mut turn.value, shared, room);
    leave_step(lock, turn, pass, has_failed(&answer));
    match answer {
        Ok(fetched) => Ok(was_found(fetched)),
        Err(fault) => Err(fault),
    }
}

/// Puts home in one turn what was fetched and is due still. Tells whether there was anything.
pub fn put_turn<D: Disk, R: Wait>(
    rt: &R,
    lock: &TurnLock<Manager<D>>,
    pass: &mut Pass<Manager<D>>,
    shared: &Shared<D>,
    room: &Fetch,
    tally: &mut Tally,
) -> Result<bool, StepFault>
    requires pass { IsPassAt lock.now helper pass.old }
    requires shared { IsShared shared.now (pass_lock pass.old).base }
    requires data { HasData D.tells room.now (pass_lock pass.old).base (notes_seen pass.old) }
    ensures helped { HasHelped D.tells pass.old pass.new }
    ensures counted { HasCounted D.tells tally.old tally.new pass.old pass.new }
    ensures nothing { result ≡ Ok false → ReclaimsNothing D.tells pass.old pass.new
        × HasNoneToPut (look_seen pass.new) room.now }
    ensures some { result ≡ Ok true → HasTakenSome D.tells pass.old pass.new }
    ensures cause { IfErr result (λ f. WasDown (faulty_part f) (notes_seen pass.new)) }
    ensures kept { OnOk result (AreKept pass.old pass.new) }
{
    let mut turn = lock.enter(rt, pass);
    let answer = put_home(rt, &mut turn.value, shared, room);
    leave_step(lock, turn, pass, has_failed(&answer));
    match answer {
        Ok(blocks) => {
            tally.count(blocks, 0);
            Ok(blocks > 0)
        }
        Err(fault) => Err(fault),
    }
}

// Counts a record that is gone. Tells whether something was given up.
fn count_gone(gone: Gone, tally: &mut Tally) -> bool
    ensures counted { CountsMore 0 (gone_count gone) tally.old tally.new }
    ensures nothing { (result ≡ false) ↔ (gone ≡ Gone.Nothing) }
{
    match gone {
        Gone::Version(_) => {
            tally.count(0, 1);
            true
        }
        Gone::Trimmed(_) => true,
        Gone::Nothing => false,
    }
}

/// Gives up in one turn what may go of a record. Tells whether there was one within reach.
pub fn drop_turn<D: Disk, R: Wait>(
    rt: &R,
    lock: &TurnLock<Manager<D>>,
    pass: &mut Pass<Manager<D>>,
    shared: &Shared<D>,
    tally: &mut Tally,
) -> Result<bool, StepFault>
    requires pass { IsPassAt lock.now helper pass.old }
    requires shared { IsShared shared.now (pass_lock pass.old).base }
    ensures helped { HasHelped D.tells pass.old pass.new }
    ensures counted { HasCounted D.tells tally.old tally.new pass.old pass.new }
    ensures nothing { result ≡ Ok false → ReclaimsNothing D.tells pass.old pass.new
        × HasNoneToGo (look_seen pass.new) }
    ensures some { result ≡ Ok true → HasTakenSome D.tells pass.old pass.new }
    ensures cause { IfErr result (λ f. WasDown (faulty_part f) (notes_seen pass.new)) }
    ensures kept { OnOk result (AreKept pass.old pass.new) }
{
    let mut turn = lock.enter(rt, pass);
    let answer = invalidate_one(rt, &mut turn.value, shared);
    leave_step(lock, turn, pass, has_failed(&answer));
    match answer {
        Ok(gone) => Ok(count_gone(gone, tally)),
        Err(fault) => Err(fault),
    }
}
