// A spindle whose lock is closed.
ghost use Rattle.spin_model.specs.Spindles.{sums_until};
ghost use Rattle.std.specs.Prelude.{◌≡◌, ◌≤◌};

use energy::Sums;
use spin_model::Spindle;
use std::marker::Model;

/// A spindle whose lock is closed. Its account is over: only closing makes one, and none of its calls uses the disk.
#[derive(Drop)]
pub struct ClosedSpindle {
    spindle: Spindle,
}

impl Model for ClosedSpindle {
    ghost use Rattle.spin_model.specs.Spindles.{SpindleView};

    ghost Value = { SpindleView };

    ghost view = { λ s. s.spindle };
}

impl ClosedSpindle {
    /// A spindle whose lock was closed just now.
    pub(crate) fn new(spindle: Spindle) -> ClosedSpindle
        ensures { result ≡ spindle }
    {
        ClosedSpindle { spindle }
    }

    /// The sums over the disk's journal until `to`, a moment in units of 100 ns that is none before the last one that came.
    pub fn sums_until(&self, to: u64) -> Sums
        requires { self.now.moment ≤ to }
        ensures { result ≡ sums_until self.now to }
    {
        self.spindle.sums_until(to)
    }
}
