// Where threads sleep until their turn comes.
use std::array;
use std::sync::Wait;
use std::sync::atomic::AtomicU64;
use std::sync::atomic::Ordering::SeqCst;

// A power of two, so that a ticket keeps its bell where the tickets wrap.
const BELLS: usize = 64;

/// A bell for each ticket, shared by the tickets that are so many apart.
#[derive(Drop)]
pub(crate) struct Bells {
    bells: [AtomicU64; BELLS],
}

// The low 32 bits, by which a thread sleeps.
fn low(word: u64) -> u32 {
    (word & 0xffff_ffff) as u32
}

impl Bells {
    pub(crate) fn new() -> Bells {
        Bells {
            bells: array::from_fn(|_| AtomicU64::new(0)),
        }
    }

    fn bell(&self, ticket: u64) -> &AtomicU64 {
        &self.bells[ticket as usize % BELLS]
    }

    /// How often the bell of this ticket has rung.
    pub(crate) fn rung(&self, ticket: u64) -> u32 {
        low(self.bell(ticket).load(SeqCst))
    }

    /// Sleeps until the bell of this ticket has rung more often, or for no reason.
    pub(crate) fn sleep<R: Wait>(&self, rt: &R, ticket: u64, rung: u32) {
        self.bell(ticket).park(rt, rung);
    }

    /// Wakes the thread with this ticket, and those that share its bell.
    pub(crate) fn ring(&self, ticket: u64) {
        let bell = self.bell(ticket);
        bell.fetch_add(1, SeqCst);
        bell.wake_all();
    }
}
