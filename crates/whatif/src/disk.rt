// One disk: when it was last used, whether it is in standby, and what it used so far.
ghost use Rattle.std.specs.List.{AllByRecursion};
ghost use Rattle.std.specs.Prelude.{◌≡◌, ◌<◌, ◌≤◌, ◌+◌, ◌-◌, ◌*◌, ◌^◌, ℕ, true, List, length, map, max};
ghost use Rattle.whatif.specs.Disks.{AreDisks, IsDisk, IsKept, moments_of, standby_of};
ghost use Rattle.wol_model.specs.Blocks.{changed_at};
ghost use Rattle.whatif.specs.Machine.{accessed};
ghost use Rattle.whatif.specs.Waits.{lag, lag_among};
ghost use Rattle.wol_model.specs.Journal.{SpindleState, Started, Began, ArePowers, awake_time, new_spindle, used, wakes, sleeps, standby, units};

use crate::policy::Used;
use wol_model::Powers;

/// A disk of which no journal is kept, but the sums over it. All moments and times count units of 100 ns.
#[derive(Clone, Copy)]
pub(crate) struct Disk {
    /// When the account began.
    pub from: u64,
    /// The moment that came last.
    pub moment: u64,
    pub awake: bool,
    /// When it was last used, where it is awake; else when it went down.
    pub since: u64,
    pub wakes: u64,
    pub sleeps: u64,
    /// The time in standby, without the one that goes on.
    pub standby: u64,
    /// When it came up last, where it ever did.
    pub up_at: Option<u64>,
}

impl Disk {
    pub(crate) fn new(from: u64) -> Disk
        ensures kept { IsKept result }
        ensures moment { result.moment ≡ from }
        ensures stands { (timeout : ℕ) → IsDisk result (used timeout new_spindle 0 (Started from)) }
    {
        Disk {
            from,
            moment: from,
            awake: true,
            since: from,
            wakes: 0,
            sleeps: 0,
            standby: 0,
            up_at: None,
        }
    }

    pub(crate) fn is_awake(&self) -> bool
        ensures { result ≡ self.now.awake }
    {
        self.awake
    }

    /// A moment comes. The disk goes down where its last use lies at least the timeout back, and it did so at its end.
    pub(crate) fn begin(&mut self, at: u64, timeout: u64)
        requires kept { IsKept self.old }
        requires timeout { 10000 ≤ timeout }
        ensures kept { IsKept self.new }
        ensures moment { self.new.moment ≡ max at self.old.moment }
        ensures stands { (s : SpindleState) → IsDisk self.old s
            → IsDisk self.new (used timeout s 0 (Began at)) }
    {
        let moment = at.max(self.moment);
        if self.awake && moment - self.since >= timeout {
            *self = Disk {
                moment,
                awake: false,
                since: self.since + timeout,
                sleeps: self.sleeps + 1,
                ..*self
            };
        } else {
            self.moment = moment;
        }
    }

    /// The disk is used now, and comes up for it.
    pub(crate) fn access(&mut self)
        requires kept { IsKept self.old }
        ensures kept { IsKept self.new }
        ensures moment { self.new.moment ≡ self.old.moment }
        ensures stands { (timeout : ℕ) (s : SpindleState) → IsDisk self.old s
            → IsDisk self.new (accessed timeout s) }
        ensures awake { self.new.awake ≡ true }
        ensures now { self.new.since ≡ self.new.moment }
    {
        if self.awake {
            self.since = self.moment;
        } else {
            *self = Disk {
                awake: true,
                since: self.moment,
                wakes: self.wakes + 1,
                standby: self.standby + (self.moment - self.since),
                up_at: Some(self.moment),
                ..*self
            };
        }
    }

    /// How long it lets wait now, where it takes so long to come up.
    pub(crate) fn lag(&self, wake: u64) -> u64
        requires kept { IsKept self.now }
        ensures few { result ≤ wake }
        ensures value { (s : SpindleState) → IsDisk self.now s → result ≡ lag wake s }
    {
        match self.up_at {
            Some(at) => wake.saturating_sub(self.moment - at),
            None => 0,
        }
    }

    // The time in standby until the end of the account.
    fn standby_until(&self, to: u64) -> u64
        requires kept { IsKept self.now }
        requires to { self.now.moment ≤ to }
        ensures value { result ≡ standby_of self.now self.now.awake to }
        ensures bound { self.now.from + result ≤ to }
    {
        if self.awake {
            self.standby
        } else {
            self.standby + (to - self.since)
        }
    }

    /// What it used until the end of the account.
    pub(crate) fn used_until(&self, to: u64, powers: &Powers) -> Used
        requires kept { IsKept self.now }
        requires to { self.now.moment ≤ to }
        requires powers { ArePowers powers.now }
        ensures value { (s : SpindleState) → IsDisk self.now s
            → result ≡ record {
              wakes = wakes s.journal;
              sleeps = sleeps s.journal;
              awake = awake_time s.journal s.from to;
              standby = standby s.journal to;
              units = units powers.now s.journal s.from to;
            } }
        ensures few_wakes { 10000 * result.wakes < 2 ^ 64 }
        ensures few_sleeps { 10000 * result.sleeps < 2 ^ 64 }
        ensures few_units { result.units < 2 ^ 110 }
    {
        let standby = self.standby_until(to);
        let awake = to - self.from - standby;
        Used {
            wakes: self.wakes,
            sleeps: self.sleeps,
            awake,
            standby,
            units: u128::from(awake) * u128::from(powers.awake_mw)
                + u128::from(standby) * u128::from(powers.standby_mw)
                + u128::from(self.wakes) * u128::from(powers.wake_mj) * 10_000_000,
        }
    }
}

/// The disk at a place is used.
pub(crate) fn access_at(disks: &mut [Disk], disk: u32)
    requires within { disk < length disks.old }
    requires kept { AllByRecursion IsKept disks.old }
    ensures kept { AllByRecursion IsKept disks.new }
    ensures moments { moments_of disks.new ≡ moments_of disks.old }
    ensures stands { (timeout : ℕ) (ss : List SpindleState) → AreDisks disks.old ss
        → AreDisks disks.new (changed_at disk (accessed timeout) ss) }
    // a further use at this moment changes nothing
    ensures again { (timeout : ℕ) (ss : List SpindleState) → AreDisks disks.new ss
        → AreDisks disks.new (changed_at disk (accessed timeout) ss) }
{
    disks[disk as usize].access();
}

/// How long the disk at a place lets wait now.
pub(crate) fn lag_at(disks: &[Disk], disk: u32, wake: u64) -> u64
    requires within { disk < length disks.now }
    requires kept { AllByRecursion IsKept disks.now }
    ensures few { result ≤ wake }
    ensures value { (ss : List SpindleState) → AreDisks disks.now ss → result ≡ lag_among wake ss disk }
{
    disks[disk as usize].lag(wake)
}
