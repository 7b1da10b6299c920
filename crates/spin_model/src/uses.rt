// Turns of a spindle's lock, one use each.
ghost use Rattle.spin_model.specs.Operations.{operation_of, has_token};
ghost use Rattle.spin_model.specs.Spindles.{SpindleView, StandsFor, HasMade, state_after};
ghost use Rattle.spin_model.specs.Spun.{token_volume};
ghost use Rattle.spin_model.specs.Turns.{HasLeft};
ghost use Rattle.std.specs.Prelude.{true, false, ◌≡◌, ◌<◌, ◌^◌, ◌∷◌, [], ◌++◌, List};
ghost use Rattle.turn_lock.specs.Histories.{Entry, Begins};
ghost use Rattle.turn_lock.specs.Passes.{pass_lock, pass_number, pass_seen, pass_mine, IsPassOf, IsFree, IsInTurnWith, IsSamePass};
ghost use Rattle.wol_model.specs.Journal.{Started, Began, Needed, Done};

use crate::{Awake, Spindle};
use std::marker::Brand;
use std::sync::Wait;
use turn_lock::{Named, Pass, TurnLock};

const STARTED: u64 = 1;

const BEGAN: u64 = 2;

const NEEDED: u64 = 3;

const DONE: u64 = 4;

// Ends a turn in which the spindle stayed in its place. The operation goes through this call, so that the caller's proof
// can name it.
fn leave<N: Named>(lock: &TurnLock<Spindle>, pass: &mut Pass<Spindle>, operation: &[u64])
    requires name { N.operation ≡ operation.now }
    requires own { IsPassOf lock.now pass.old }
    requires value { (s : SpindleView) × IsInTurnWith s pass.old
        × StandsFor s (pass_lock pass.old).base
        (pass_seen pass.old ++ (pass_number pass.old, operation.now) ∷ []) }
    ensures { HasLeft operation.entry.now pass.old pass.new }
{
    let _ = operation;
    lock.leave_in_place::<N>(pass);
}

/// One turn, in which the account starts at `t0` where the disk never went down before.
pub fn start_turn<R: Wait>(rt: &R, lock: &TurnLock<Spindle>, pass: &mut Pass<Spindle>, t0: u64)
    requires own { IsPassOf lock.now pass.old }
    requires free { IsFree pass.old }
    ensures same { IsSamePass pass.old pass.new }
    ensures free { IsFree pass.new }
    ensures mine { pass_mine pass.new
        ≡ pass_mine pass.old ++ (pass_number pass.old, operation_of (Started t0)) ∷ [] }
    ensures seen { (before : List Entry) × Begins (pass_seen pass.old) before
        × (pass_seen pass.new ≡ before ++ (pass_number pass.old, operation_of (Started t0)) ∷ []) }
    ensures token { has_token (pass_mine pass.new) ≡ has_token (pass_mine pass.old) }
{
    lock.enter_in_place(rt, pass);
    lock.change(
        pass,
        |spindle: &mut Spindle|
            ensures { HasMade (Started t0) spindle.old spindle.new }
        { spindle.start(t0) },
    );
    leave::<Brand>(lock, pass, &[STARTED, t0]);
}

/// One turn, in which the moment `t` comes and the disk may go down. The answer is whether it is awake.
pub fn begin_turn<R: Wait>(
    rt: &R,
    lock: &TurnLock<Spindle>,
    pass: &mut Pass<Spindle>,
    t: u64,
) -> bool
    requires own { IsPassOf lock.now pass.old }
    requires free { IsFree pass.old }
    ensures same { IsSamePass pass.old pass.new }
    ensures free { IsFree pass.new }
    ensures mine { pass_mine pass.new
        ≡ pass_mine pass.old ++ (pass_number pass.old, operation_of (Began t)) ∷ [] }
    ensures seen { (before : List Entry) × Begins (pass_seen pass.old) before
        × (pass_seen pass.new ≡ before ++ (pass_number pass.old, operation_of (Began t)) ∷ []) }
    ensures token { has_token (pass_mine pass.new) ≡ has_token (pass_mine pass.old) }
    ensures answer { result ≡ (state_after (pass_lock pass.new).base (pass_seen pass.new)).awake }
{
    lock.enter_in_place(rt, pass);
    let awake = lock.change(
        pass,
        |spindle: &mut Spindle|
            ensures made { HasMade (Began t) spindle.old spindle.new }
            ensures answer { result ≡ spindle.new.awake }
        { spindle.begin(t) },
    );
    leave::<Brand>(lock, pass, &[BEGAN, t]);
    awake
}

/// One turn, in which the disk is needed. The token is for accesses to the parts of the spindle's volume,
/// and the pass has no other one.
pub fn take_token<R: Wait>(rt: &R, lock: &TurnLock<Spindle>, pass: &mut Pass<Spindle>) -> Awake
    requires own { IsPassOf lock.now pass.old }
    requires free { IsFree pass.old }
    requires has_none { has_token (pass_mine pass.old) ≡ false }
    ensures same { IsSamePass pass.old pass.new }
    ensures free { IsFree pass.new }
    ensures mine { pass_mine pass.new
        ≡ pass_mine pass.old ++ (pass_number pass.old, operation_of Needed) ∷ [] }
    ensures seen { (before : List Entry) × Begins (pass_seen pass.old) before
        × (pass_seen pass.new ≡ before ++ (pass_number pass.old, operation_of Needed) ∷ []) }
    ensures has_one { has_token (pass_mine pass.new) ≡ true }
    ensures volume { token_volume result ≡ (pass_lock pass.old).base.volume }
{
    lock.enter_in_place(rt, pass);
    let token = lock.change(
        pass,
        |spindle: &mut Spindle|
            requires { spindle.now.out < 2 ^ 32 }
            ensures made { HasMade Needed spindle.old spindle.new }
            ensures volume { token_volume result ≡ spindle.old.volume }
        { spindle.need() },
    );
    leave::<Brand>(lock, pass, &[NEEDED]);
    token
}

/// One turn, in which the token comes back.
pub fn give_token<R: Wait>(rt: &R, lock: &TurnLock<Spindle>, pass: &mut Pass<Spindle>, token: Awake)
    requires own { IsPassOf lock.now pass.old }
    requires free { IsFree pass.old }
    requires has_one { has_token (pass_mine pass.old) ≡ true }
    requires volume { token_volume token ≡ (pass_lock pass.old).base.volume }
    ensures same { IsSamePass pass.old pass.new }
    ensures free { IsFree pass.new }
    ensures mine { pass_mine pass.new
        ≡ pass_mine pass.old ++ (pass_number pass.old, operation_of Done) ∷ [] }
    ensures seen { (before : List Entry) × Begins (pass_seen pass.old) before
        × (pass_seen pass.new ≡ before ++ (pass_number pass.old, operation_of Done) ∷ []) }
    ensures has_none { has_token (pass_mine pass.new) ≡ false }
{
    lock.enter_in_place(rt, pass);
    let lent = &token;
    lock.change(
        pass,
        |spindle: &mut Spindle|
            requires volume { token_volume lent.now ≡ spindle.now.volume }
            requires out { 0 < spindle.now.out }
            ensures { HasMade Done spindle.old spindle.new }
        { spindle.count_back(lent) },
    );
    leave::<Brand>(lock, pass, &[DONE]);
    token.spend();
}
