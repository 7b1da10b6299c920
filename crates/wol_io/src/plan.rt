// Which call of a stream in memory fails, and how many did.
ghost use Rattle.std.specs.Prelude.{◌≡◌, ◌≤◌, ◌↔◌, IsErr, OnErr, OnOk};
ghost use Rattle.wol_disk.specs.Disk.{Rose};
ghost use Rattle.wol_io.specs.Plan.{after_call, fresh, faults_of, FallsShort};

use std::marker::Model;
use wol_disk::Failed;

#[derive(Drop)]
pub struct Plan {
    before: Option<u64>,
    planned: u64,
    short: u64,
}

impl Model for Plan {
    ghost use Rattle.std.specs.Option.{ForSome};
    ghost use Rattle.std.specs.Prelude.{◌≡◌};
    ghost use Rattle.wol_io.specs.Plan.{Plan};

    ghost Value = { Plan };

    ghost view = { λ p. record { before = p.before; planned = p.planned; short = p.short } };

    // One call at most fails by plan.
    ghost invariant = { λ p. ForSome p.before (λ _. p.planned ≡ 0) };
}

impl Plan {
    // The call with that number fails, counted from 0.
    pub fn new(fail_at: Option<u64>) -> Plan
        ensures { result ≡ fresh fail_at }
    {
        Plan {
            before: fail_at,
            planned: 0,
            short: 0,
        }
    }

    // Counts a call, which fails exactly where it was planned to.
    pub fn take_call(&mut self) -> Result<(), Failed>
        ensures plan { self.new ≡ after_call self.old }
        ensures due { IsErr result ↔ (self.old.before ≡ Some 0) }
        ensures later { faults_of self.old ≤ faults_of self.new }
        ensures cause { OnErr result (Rose (faults_of self.old) (faults_of self.new)) }
        ensures calm { OnOk result (faults_of self.new ≡ faults_of self.old) }
    {
        match self.before {
            Some(0) => {
                self.before = None;
                self.planned = 1;
                Err(Failed)
            }
            Some(before) => {
                self.before = Some(before - 1);
                Ok(())
            }
            None => Ok(()),
        }
    }

    // Counts a call that found no memory.
    pub fn fall_short(&mut self)
        ensures { FallsShort self.old self.new }
    {
        self.short = self.short.saturating_add(1);
    }
}
