// How often an end looks before it sleeps.

// How often in a short wait. The processor pauses at each look, so that such looks take some 5 microseconds.
const SHORT: u32 = 100;

// How often in a long one: some 150 microseconds, several times what it takes to wake a thread.
const LONG: u32 = 3_000;

// How many waits are short after a long one in vain, at first and at most.
const BACKOFF: u32 = 1;

const BACKOFF_MOST: u32 = 64;

/// How an end waits. It looks long before it sleeps for as long as long looks find what it waits for. After some in vain it
/// looks long in fewer and fewer of its waits, so that a thread whose waits are long sleeps at once in most of them.
#[derive(Clone, Copy)]
pub(crate) struct Patience {
    // how many of the waits that come are short
    short: u32,
    // how many will be after the next long one in vain
    backoff: u32,
}

impl Patience {
    pub(crate) fn new() -> Patience {
        Patience {
            short: 0,
            backoff: BACKOFF,
        }
    }

    /// How often to look in the wait that comes.
    pub(crate) fn looks(&self) -> u32 {
        if self.short == 0 { LONG } else { SHORT }
    }

    /// The looks of this wait found what it waited for, or were in vain. After one in vain four times as many waits are
    /// short as after the one before, and after one that wasn't half as many would be.
    pub(crate) fn learn(&mut self, found: bool) {
        if self.short > 0 {
            self.short -= 1;
        } else if found {
            self.backoff = (self.backoff / 2).max(BACKOFF);
        } else {
            self.short = self.backoff;
            self.backoff = self.backoff.saturating_mul(4).min(BACKOFF_MOST);
        }
    }
}
