// The output on a terminal that the line of progress is on too.
use std::cell::Cell;
use wol_disk::Failed;
use wol_io::Sink;

// As long as the line of progress can be, and where the next text begins then.
const OVER_LINE: &str = "\r                                                            \r";

/// A sink that takes the line of progress away, if one stands there, before it passes on what it is given.
#[derive(Drop)]
pub struct Output<'a, K, R> {
    inner: K,
    rt: R,
    is_told: Option<&'a Cell<bool>>,
}

impl<'a, K: Sink, R: Eprint> Output<'a, K, R> {
    /// The cell says whether a line of progress stands there; without one none can.
    pub fn new(inner: K, rt: R, is_told: Option<&'a Cell<bool>>) -> Output<'a, K, R> {
        Output { inner, rt, is_told }
    }
}

impl<'a, K: Sink, R: Eprint> Sink for Output<'a, K, R> {
    ghost taken = { λ s. K.taken s.inner };

    ghost faults = { λ s. K.faults s.inner };

    fn write(&mut self, piece: &[u8]) -> Result<(), Failed> {
        if let Some(is_told) = self.is_told {
            if is_told.get() {
                is_told.set(false);
                let _ = self.rt.eprint(OVER_LINE);
            }
        }
        self.inner.write(piece)
    }
}
