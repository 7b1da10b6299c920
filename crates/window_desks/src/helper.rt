// A helper beside the workers.
ghost use Rattle.manager.specs.Stands.{IsShared};
ghost use Rattle.request_turns.specs.Counts.{HasCounted};
ghost use Rattle.request_turns.specs.Helped.{HasHelped, AreKept};
ghost use Rattle.request_turns.specs.Turns.{notes_seen, WasDown, faulty_part};
ghost use Rattle.std.specs.Prelude.{◌≡◌, ◌⊎◌, ◌^◌, ◌≤◌, ◌<◌, length, Option, Some, None, Err, is_ok, true, false};
ghost use Rattle.turn_lock.specs.Passes.{pass_lock, IsPassAt};
ghost use Rattle.window_desks.specs.Counted.{HaveCounted};
ghost use Rattle.window_desks.specs.Helped.{ArePassesAt, AreSharing, AreHelped, AreAllKept, IsCause, HaveHelped};
ghost use Rattle.wol_model.specs.History.{helper};

use logger::Shared;
use manager::{Manager, StepFault};
use reclaimer::Fetch;
use request_turns::{Tally, drop_turn, fetch_turn, put_turn};
use std::sync::Wait;
use turn_lock::{Pass, TurnLock};
use wol_disk::Disk;

/// What the helper has: room for a record, what it reclaimed, and the first refusal, with its volume.
#[derive(Drop)]
pub struct HelperRoom {
    pub(crate) fetch: Fetch,
    /// What was reclaimed in this window.
    pub tally: Tally,
    /// The first refused step of this window, with its volume.
    pub fault: Option<(u32, StepFault)>,
}

impl HelperRoom {
    // Takes the answer of a step: whether it did something.
    fn took(&mut self, volume: u32, answer: Result<bool, StepFault>) -> bool
        ensures kept { (f : _) → self.old.fault ≡ Some f → self.new.fault ≡ Some f }
        ensures fault { (f : _) → self.new.fault ≡ Some f
            → (self.old.fault ≡ Some f) ⊎ ((f.0 ≡ volume) × (answer ≡ Err f.1)) }
        ensures fetch { self.new.fetch ≡ self.old.fetch }
        ensures tally { self.new.tally ≡ self.old.tally }
        ensures none { self.new.fault ≡ None → is_ok answer ≡ true }
    {
        match answer {
            Ok(did) => did,
            Err(fault) => {
                if self.fault.is_none() {
                    self.fault = Some((volume, fault));
                }
                false
            }
        }
    }
}

// Three steps on a volume, each in a turn of its own. Tells whether one of them did something.
fn help_one<D: Disk, R: Wait>(
    rt: &R,
    lock: &TurnLock<Manager<D>>,
    pass: &mut Pass<Manager<D>>,
    shared: &Shared<D>,
    volume: u32,
    help: &mut HelperRoom,
) -> bool
    requires pass { IsPassAt lock.now helper pass.old }
    requires shared { IsShared shared.now (pass_lock pass.old).base }
    ensures helped { HasHelped D.tells pass.old pass.new }
    ensures counted { HasCounted D.tells help.old.tally help.new.tally pass.old pass.new }
    ensures all_kept { help.new.fault ≡ None → AreKept pass.old pass.new }
    ensures kept { (f : _) → help.old.fault ≡ Some f → help.new.fault ≡ Some f }
    ensures fault { (f : _) → help.new.fault ≡ Some f
        → (help.old.fault ≡ Some f)
        ⊎ ((f.0 ≡ volume) × WasDown (faulty_part f.1) (notes_seen pass.new)) }
{
    let fetched = fetch_turn(rt, lock, pass, shared, &mut help.fetch);
    let fetched = help.took(volume, fetched);
    let put = put_turn(rt, lock, pass, shared, &help.fetch, &mut help.tally);
    let put = help.took(volume, put);
    let dropped = drop_turn(rt, lock, pass, shared, &mut help.tally);
    let dropped = help.took(volume, dropped);
    fetched | put | dropped
}

// Three steps on each volume in order. Tells whether one of them did something.
fn help_round<D: Disk, R: Wait>(
    rt: &R,
    locks: &[TurnLock<Manager<D>>],
    shared: &Shared<D>,
    helpers: &mut [Pass<Manager<D>>],
    help: &mut HelperRoom,
) -> bool
    requires count { length helpers.old ≡ length locks.now }
    requires few { length helpers.old ≤ 2 ^ 32 }
    requires passes { ArePassesAt locks.now helper helpers.old }
    requires shared { AreSharing shared.now helpers.old }
    requires cause { IsCause helpers.old help.old.fault }
    ensures { HaveHelped D.tells help.old help.new helpers.old helpers.new }
{
    let mut did = false;
    for k in 0..helpers.len() {
        let some = help_one(rt, &locks[k], &mut helpers[k], shared, k as u32, help);
        did |= some;
    }
    did
}

/// Makes rounds until one did nothing, and at most this many. In a round the helper fetches a record, puts one home and drops
/// one on each volume, in order, each in a turn of its own. A step that is refused keeps none of the others from being taken.
pub fn help<D: Disk, R: Wait>(
    rt: &R,
    locks: &[TurnLock<Manager<D>>],
    shared: &Shared<D>,
    rounds: usize,
    helpers: &mut [Pass<Manager<D>>],
    help: &mut HelperRoom,
)
    requires count { length helpers.old ≡ length locks.now }
    requires few { length helpers.old ≤ 2 ^ 32 }
    requires passes { ArePassesAt locks.now helper helpers.old }
    requires shared { AreSharing shared.now helpers.old }
    requires cause { IsCause helpers.old help.old.fault }
    ensures helped { AreHelped D.tells helpers.old helpers.new }
    ensures counted { HaveCounted D.tells help.old.tally help.new.tally helpers.old helpers.new }
    ensures all_kept { AreAllKept help.new.fault helpers.old helpers.new }
    ensures refused { help.new.fault ≡ None → help.old.fault ≡ None }
    ensures cause { IsCause helpers.new help.new.fault }
{
    for _ in 0..rounds {
        if !help_round(rt, locks, shared, helpers, help) {
            break;
        }
    }
}
