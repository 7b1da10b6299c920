// A source whose bytes somebody sees go by.
ghost use Rattle.std.specs.Prelude.{◌≡◌};

use crate::streams::Source;
use wol_disk::Failed;

/// Who sees the bytes of a source go by, as to tell how far it is.
pub trait Watch {
    /// These bytes were taken.
    fn see(&mut self, bytes: &[u8]);
}

/// A source that passes on what another gives, and shows it to a watch.
#[derive(Drop)]
pub struct WatchedSource<S, W> {
    inner: S,
    watch: W,
}

impl<S: Source, W: Watch> WatchedSource<S, W> {
    pub fn new(inner: S, watch: W) -> WatchedSource<S, W>
        ensures content { result.inner ≡ inner }
        ensures watch { result.watch ≡ watch }
    {
        WatchedSource { inner, watch }
    }

    pub fn watch(&self) -> &W
        ensures { result.now ≡ self.now.watch }
    {
        &self.watch
    }
}

impl<S: Source, W: Watch> Source for WatchedSource<S, W> {
    ghost left = { λ s. S.left s.inner };

    ghost faults = { λ s. S.faults s.inner };

    ghost borrow = { λ s. S.borrow s.inner };

    fn read(&mut self, out: &mut [u8]) -> Result<usize, Failed> {
        let count = self.inner.read(out)?;
        self.watch.see(&out[..count]);
        Ok(count)
    }
}
