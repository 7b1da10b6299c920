// Moments.
ghost use Rattle.live_serving.specs.Ticks.{GoesOn};
ghost use Rattle.std.specs.Prelude.{◌≡◌, ℕ, Option};

use std::collections::VecDeque;
use std::marker::Model;

/// Where moments come from.
pub trait Ticks {
    /// What a call gave, and the ticks before and behind it.
    ghost Gave: { Self → Option ℕ → Self → Type 0 };

    /// The last moment that came; at first one that none is before.
    ghost last: { Self → ℕ };

    /// The next moment, in 100 ns, never before the last; it waits for it. `None` where none comes any more.
    fn next(&mut self) -> Option<u64>
        ensures gave { Gave self.old result self.new }
        ensures goes_on { GoesOn (last self.old) result (last self.new) };
}

/// Moments in memory, which come at once.
#[derive(Drop)]
pub struct MemTicks {
    coming: VecDeque<u64>,
    last: u64,
}

impl Model for MemTicks {
    ghost use Rattle.live_serving.specs.Ticks.{Coming};

    ghost Value = { Coming };

    ghost view = { λ s. record { coming = s.coming.items; last = s.last } };
}

impl MemTicks {
    /// Those moments will come, in this order. One that is before an earlier one comes as that one again.
    pub fn new(coming: VecDeque<u64>) -> MemTicks
        ensures { result ≡ record { coming = coming.items; last = 0 } }
    {
        MemTicks { coming, last: 0 }
    }
}

impl Ticks for MemTicks {
    ghost use Rattle.live_serving.specs.Ticks.{GivesFirst};

    ghost Gave = { GivesFirst };

    ghost last = { λ s. s.last };

    fn next(&mut self) -> Option<u64> {
        let moment = self.coming.pop_front()?;
        self.last = moment.max(self.last);
        Some(self.last)
    }
}
