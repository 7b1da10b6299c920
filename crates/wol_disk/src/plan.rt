// The calls of a disk in memory that are to fail.
ghost use Rattle.std.specs.Prelude.{◌≡◌, ◌≤◌, OnOk, OnErr, IsErr};
ghost use Rattle.wol_disk.specs.Disk.{next_count};
ghost use Rattle.wol_disk.specs.Plan.{Plan, GoesByPlan};

use crate::Failed;
use std::alloc::{AllocError, Global};
use std::marker::Model;

#[derive(Drop)]
pub struct FaultPlan {
    calls: Vec<u64>,
    made: u64,
    planned: u64,
    short: u64,
}

impl Model for FaultPlan {
    ghost Value = { Plan };

    ghost view = { λ p. record { calls = p.calls.items; made = p.made; planned = p.planned; short = p.short } };
}

impl FaultPlan {
    ghost use Rattle.wol_disk.specs.Plan.{no_plan, with_call};

    // No call is to fail.
    pub fn new(alloc: Global) -> FaultPlan
        ensures { result ≡ no_plan }
    {
        FaultPlan {
            calls: Vec::new(alloc),
            made: 0,
            planned: 0,
            short: 0,
        }
    }

    // The call with that number is to fail.
    pub fn add(&mut self, call: u64) -> Result<(), AllocError>
        ensures ok { OnOk result (self.new ≡ with_call call self.old) }
        ensures err { OnErr result (self.new ≡ self.old) }
    {
        self.calls.push(call)?;
        Ok(())
    }

    // Counts a call, and answers whether it is to fail.
    pub fn begin(&mut self) -> Result<(), Failed>
        ensures plan { GoesByPlan self.old self.new (IsErr result) }
        ensures no_memory { self.new.short ≡ self.old.short }
    {
        let number = self.made;
        self.made = self.made.saturating_add(1);
        if self.calls.contains(&number) {
            self.planned = self.planned.saturating_add(1);
            Err(Failed)
        } else {
            Ok(())
        }
    }

    // Counts the want of memory in the call that was begun last.
    pub fn lack(&mut self)
        ensures short { self.new ≡ record self.old { short = next_count self.old.short } }
        ensures counts { self.old.short ≤ self.new.short }
    {
        self.short = self.short.saturating_add(1);
    }
}
