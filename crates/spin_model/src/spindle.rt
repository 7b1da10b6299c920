// A disk's spindle, awake or in standby, with the sums over its journal.
ghost use Rattle.energy.specs.Sums.{AreSumsOf};
ghost use Rattle.spin_model.specs.Operations.{operation_of};
ghost use Rattle.spin_model.specs.Spindles.{SpindleView, StandsFor, HasMade, IsSameSpindle, base_of, is_idle, standby_until, state_after, sums_until};
ghost use Rattle.spin_model.specs.Spun.{token_volume};
ghost use Rattle.std.specs.Prelude.{true, false, not, nat_le, ◌==◌, ◌&&◌, if◌then◌else◌, ◌≡◌, ◌<◌, ◌≤◌, ◌+◌, ◌-◌, ◌^◌, ◌∷◌, [], ◌++◌, ℕ, List, max};
ghost use Rattle.turn_lock.specs.Histories.{Entry};
ghost use Rattle.wol_model.specs.Journal.{Started, Began, Needed, Done, IsJournal};

use crate::Awake;
use energy::Sums;
use std::marker::Model;
use turn_lock::Object;

/// The account of one disk's spin states: the sums over the times that it went down and came up, and not each of them.
/// All moments and times count units of 100 ns.
#[derive(Drop)]
pub struct Spindle {
    volume: u32,
    timeout: u64,
    moment: u64,
    last_use: u64,
    awake: bool,
    out: u64,
    wakes: u64,
    sleeps: u64,
    /// The time in standby, without the one that goes on.
    standby: u64,
}

impl Model for Spindle {
    ghost use Rattle.spin_model.specs.Spindles.{SpindleView, IsKept};

    ghost Value = { SpindleView };

    ghost view = { λ s. record { volume = s.volume; timeout = s.timeout; moment = s.moment; last_use = s.last_use; awake = s.awake; out = s.out; wakes = s.wakes; sleeps = s.sleeps; standby = s.standby } };

    ghost invariant = { λ s. IsKept (record { volume = s.volume; timeout = s.timeout; moment = s.moment; last_use = s.last_use; awake = s.awake; out = s.out; wakes = s.wakes; sleeps = s.sleeps; standby = s.standby }) };
}

/// What a spindle was made with, as the base of its lock.
pub struct SpindleBase {
    pub volume: u32,
    pub timeout: u64,
}

impl Object for Spindle {
    ghost use Rattle.spin_model.specs.Spindles.{StandsFor};

    type Base = SpindleBase;

    ghost stands = { StandsFor };
}

impl Spindle {
    /// A spindle that is awake, never went down, and of which all moments are 0.
    pub fn new(volume: u32, timeout: u64) -> Spindle
        requires { 0 < timeout }
        ensures volume { result.volume ≡ volume }
        ensures timeout { result.timeout ≡ timeout }
        ensures stands { StandsFor result (base_of result) [] }
    {
        Spindle {
            volume,
            timeout,
            moment: 0,
            last_use: 0,
            awake: true,
            out: 0,
            wakes: 0,
            sleeps: 0,
            standby: 0,
        }
    }

    /// The account starts at `t0` where the disk never went down yet; else nothing changes.
    /// It sets the moment now, the last use and the journal's start.
    pub fn start(&mut self, t0: u64)
        ensures same { IsSameSpindle self.old self.new }
        ensures out { self.new.out ≡ self.old.out }
        ensures stands { (b : SpindleBase) (es : List Entry) (n : ℕ) → StandsFor self.old b es
            → StandsFor self.new b (es ++ (n, operation_of (Started t0)) ∷ []) }
    {
        if self.has_turned() {
            return;
        }
        self.moment = t0;
        self.last_use = t0;
    }

    /// The moment `t` comes, or nothing where a later one came before. The disk goes down into standby where it is
    /// awake, no token is out, and its last use lies at least the timeout back. The answer is whether it is awake.
    pub fn begin(&mut self, t: u64) -> bool
        ensures same { IsSameSpindle self.old self.new }
        ensures out { self.new.out ≡ self.old.out }
        ensures answer { result ≡ self.new.awake }
        ensures stands { (b : SpindleBase) (es : List Entry) (n : ℕ) → StandsFor self.old b es
            → StandsFor self.new b (es ++ (n, operation_of (Began t)) ∷ []) }
    {
        self.moment = t.max(self.moment);
        self.rest();
        self.awake
    }

    /// The disk is used now: it comes up where it is in standby, and stays awake until the token comes back.
    pub fn need(&mut self) -> Awake
        requires { self.old.out < 2 ^ 32 }
        ensures volume { token_volume result ≡ self.old.volume }
        ensures same { IsSameSpindle self.old self.new }
        ensures out { self.new.out ≡ self.old.out + 1 }
        ensures stands { HasMade Needed self.old self.new }
    {
        self.wake();
        self.out += 1;
        Awake::of(self.volume)
    }

    /// Takes a token back.
    pub fn done(&mut self, token: Awake)
        requires volume { token_volume token ≡ self.old.volume }
        requires out { 0 < self.old.out }
        ensures same { IsSameSpindle self.old self.new }
        ensures out { self.new.out + 1 ≡ self.old.out }
        ensures stands { HasMade Done self.old self.new }
    {
        self.count_back(&token);
        token.spend();
    }

    /// The same where the caller spends the token, since a closure can't hold one.
    pub(crate) fn count_back(&mut self, token: &Awake)
        requires volume { token_volume token.now ≡ self.old.volume }
        requires out { 0 < self.old.out }
        ensures same { IsSameSpindle self.old self.new }
        ensures out { self.new.out + 1 ≡ self.old.out }
        ensures stands { HasMade Done self.old self.new }
    {
        let _ = token;
        self.out -= 1;
    }

    /// Whether the disk is awake, and not in standby.
    pub fn is_awake(&self) -> bool
        ensures { result ≡ self.now.awake }
    {
        self.awake
    }

    /// The last moment that came.
    pub fn moment(&self) -> u64
        ensures { result ≡ self.now.moment }
    {
        self.moment
    }

    /// The sums over the disk's journal until `to`: how often it came up and went down, and its time in standby.
    pub fn sums_until(&self, to: u64) -> Sums
        requires { self.now.moment ≤ to }
        ensures sums { result ≡ sums_until self.now to }
        ensures journal { (b : SpindleBase) (es : List Entry) → StandsFor self.now b es
            → AreSumsOf result (state_after b es).journal to }
        ensures legal { (b : SpindleBase) (es : List Entry) → StandsFor self.now b es
            → IsJournal (state_after b es).from (state_after b es).journal to }
    {
        Sums {
            wakes: self.wakes,
            sleeps: self.sleeps,
            standby: self.standby_until(to),
        }
    }

    // The time in standby until a moment, with the one that goes on.
    fn standby_until(&self, to: u64) -> u64
        requires { self.now.moment ≤ to }
        ensures value { result ≡ standby_until self.now to }
        ensures within { result ≤ to }
    {
        if self.awake {
            self.standby
        } else {
            self.standby + (to - (self.last_use + self.timeout))
        }
    }

    fn has_turned(&self) -> bool
        ensures { result ≡ not (self.now.sleeps == 0) }
    {
        self.sleeps > 0
    }

    // Puts the disk down where it is idle now.
    fn rest(&mut self)
        ensures { self.new ≡ (if is_idle self.old
            then record self.old { awake = false; sleeps = self.old.sleeps + 1 }
            else self.old) }
    {
        if self.is_idle() {
            self.awake = false;
            self.sleeps += 1;
        }
    }

    fn is_idle(&self) -> bool
        ensures { result ≡ is_idle self.now }
    {
        self.awake && (self.out == 0 && self.moment - self.last_use >= self.timeout)
    }

    // The disk is used now, and comes up where it is in standby.
    fn wake(&mut self)
        ensures { self.new ≡ record self.old {
          awake = true;
          last_use = self.old.moment;
          wakes = (if self.old.awake then self.old.wakes else self.old.wakes + 1);
          standby = standby_until self.old self.old.moment;
        } }
    {
        let standby = self.standby_until(self.moment);
        if !self.awake {
            self.awake = true;
            self.wakes += 1;
        }
        self.standby = standby;
        self.last_use = self.moment;
    }
}
