// Reclaim in one turn: all that is due goes home, and then what may go is given up.
ghost use Rattle.manager.specs.Seen.{look_of_manager};
ghost use Rattle.manager.specs.Stands.{IsReady, IsHome, IsShared};
ghost use Rattle.reclaimer.specs.Fetches.{due_entry, going_entry};
ghost use Rattle.request_turns.specs.Closed.{Reclaims, HasClosed, HasReclaimed};
ghost use Rattle.request_turns.specs.Counts.{HasCounted};
ghost use Rattle.std.specs.Prelude.{◌≡◌, ◌<◌, ◌≤◌, ℕ, true, false, None, Ok, OnOk, length};
ghost use Rattle.turn_lock.specs.Passes.{pass_lock, IsPassAt};
ghost use Rattle.wol_model.specs.History.{worker};
ghost use Rattle.wol_model.specs.Index.{listed_in, left};
ghost use Rattle.wol_promise.specs.Policy.{IsIdleLook};

use crate::answer::{has_failed, refusal_in};
use crate::noted::leave_step_in_place;
use crate::tally::Tally;
use logger::Shared;
use manager::{Manager, StepFault};
use reclaimer::{Fetch, give_up_group, put_group};
use std::sync::Wait;
use turn_lock::{Pass, TurnLock};
use wol_disk::Disk;

// Puts home what is due, in groups of records with one sync each.
fn put_due<R: Wait, D: Disk>(
    rt: &R,
    m: &mut Manager<D>,
    shared: &Shared<D>,
    room: &mut Fetch,
    tally: &mut Tally,
) -> Result<(), StepFault>
    requires ready { IsReady D.state m.old }
    requires at { IsHome shared.now m.old }
    ensures reclaims { Reclaims D.tells D.state shared.now result tally.old tally.new m.old m.new }
    ensures nothing { OnOk result (due_entry m.new ≡ None) }
    ensures no_more { OnOk result
        (left (listed_in m.new.index.entries) ≤ left (listed_in m.old.index.entries)) }
{
    'steps: loop {
        let blocks = put_group(rt, m, shared, room)?;
        if blocks == 0 {
            return Ok(());
        }
        tally.count(blocks, 0);
    }
}

// Gives up what may go, record by record, or by segments that go whole. Tells whether there was anything.
fn give_up<R: Wait, D: Disk>(
    rt: &R,
    m: &mut Manager<D>,
    shared: &Shared<D>,
    tally: &mut Tally,
) -> Result<bool, StepFault>
    requires ready { IsReady D.state m.old }
    requires at { IsHome shared.now m.old }
    ensures reclaims { Reclaims D.tells D.state shared.now result tally.old tally.new m.old m.new }
    ensures nothing { OnOk result (going_entry m.new ≡ None) }
    ensures none { result ≡ Ok false → m.new ≡ m.old }
    ensures fewer { result ≡ Ok true
        → left (listed_in m.new.index.entries) < left (listed_in m.old.index.entries) }
{
    let mut some = false;
    'steps: loop {
        let Some(records) = give_up_group(rt, m, shared)? else {
            return Ok(some);
        };
        tally.count(0, records);
        some = true;
    }
}

// Puts home what is due, and then gives up what may go, until nothing of either is left within reach. It stands apart so that
// the many turns that find no record stay short.
#[inline(never)]
fn reclaim_all<R: Wait, D: Disk>(
    rt: &R,
    m: &mut Manager<D>,
    shared: &Shared<D>,
    room: &mut Fetch,
    tally: &mut Tally,
) -> Result<(), StepFault>
    requires ready { IsReady D.state m.old }
    requires at { IsHome shared.now m.old }
    ensures reclaims { Reclaims D.tells D.state shared.now result tally.old tally.new m.old m.new }
    ensures idle { OnOk result (IsIdleLook (look_of_manager m.new)) }
{
    'steps: loop {
        put_due(rt, m, shared, room, tally)?;
        if !give_up(rt, m, shared, tally)? {
            return Ok(());
        }
    }
}

// Whether no disk call failed and there is no record, so that nothing is due and nothing may go.
fn is_bare<D: Disk>(m: &Manager<D>) -> bool
    ensures { result ≡ true → (m.now.down ≡ None) × (length m.now.index.entries ≡ 0) }
{
    m.down().is_none() && m.index().is_empty()
}

// The same, with what was reclaimed. Most turns find no record, and are over at once.
fn reclaim_anew<R: Wait, D: Disk>(
    rt: &R,
    m: &mut Manager<D>,
    shared: &Shared<D>,
    room: &mut Fetch,
) -> (Result<(), StepFault>, Tally)
    requires ready { IsReady D.state m.old }
    requires at { IsHome shared.now m.old }
    ensures { HasReclaimed D.tells D.state shared.now result.0 result.1 m.old m.new }
{
    let mut done = Tally::new();
    if is_bare(m) {
        return (Ok(()), done);
    }
    let answer = reclaim_all(rt, m, shared, room, &mut done);
    (answer, done)
}

/// One turn in which all that is due goes home and all that may go is given up, within reach. A refused step ends it. Where a
/// disk call failed, nothing of the turn is counted.
pub fn reclaim_turn<D: Disk, R: Wait>(
    rt: &R,
    lock: &TurnLock<Manager<D>>,
    pass: &mut Pass<Manager<D>>,
    shared: &Shared<D>,
    room: &mut Fetch,
    tally: &mut Tally,
) -> Option<StepFault>
    requires pass { IsPassAt lock.now worker pass.old }
    requires shared { IsShared shared.now (pass_lock pass.old).base }
    ensures closed { HasClosed D.tells result pass.old pass.new }
    ensures counted { HasCounted D.tells tally.old tally.new pass.old pass.new }
{
    lock.enter_in_place(rt, pass);
    let (answer, done) = lock.change(
        pass,
        |m: &mut Manager<D>|
            requires { IsReady D.state m.now × IsHome shared.now m.now }
            ensures { HasReclaimed D.tells D.state shared.entry.now result.0 result.1 m.old m.new }
        { reclaim_anew(rt, m, shared, room) },
    );
    let failed = has_failed(&answer);
    leave_step_in_place(lock, pass, failed);
    tally.add_unless(failed, done);
    refusal_in(answer)
}
