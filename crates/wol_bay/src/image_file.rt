// The open file of an image, and what of it is synced.
use std::alloc::Global;
use std::fs::File;
use std::sync::atomic::{AtomicBool, AtomicU64, Ordering};
use std::thread::sleep;
use std::time::Duration;
use wol_disk::{Failed, NoMemory};

// How long a sync waits before it looks again for an opening that no other one uses: at first, and at most. It waits twice
// as long each time.
const LEAST_PAUSE_MICROS: u64 = 50;

const MOST_PAUSE_MICROS: u64 = 6400;

// The file once more, opened for syncs alone, of which it has one at a time.
#[derive(Drop)]
struct Syncer {
    file: File,
    is_busy: AtomicBool,
}

/// The open file of an image, which its parts share, and what is synced of it: how many writes there were, of which the
/// first is whatever was written before the file was opened, and how many of these a sync has covered.
///
/// The system tells that it lost written blocks once to each opening of their file, so of two syncs at once over one
/// opening it tells a single one. Each sync has an opening to itself, which the next one gets only once all know that it
/// failed. So `Ok` says that no sync of the file has failed so far.
#[derive(Drop)]
pub struct ImageFile {
    clock: HostRuntime,
    syncers: Vec<Syncer>,
    written: AtomicU64,
    synced: AtomicU64,
    has_failed: AtomicBool,
    // the last to go, since its lock ends with it
    pub file: File,
}

impl ImageFile {
    /// The file, with other openings of it for its syncs.
    pub fn new(
        clock: HostRuntime,
        alloc: Global,
        file: File,
        others: Vec<File>,
    ) -> Result<ImageFile, NoMemory> {
        let mut syncers = Vec::new(alloc);
        for file in others {
            syncers.push(Syncer {
                file,
                is_busy: AtomicBool::new(false),
            })?;
        }
        Ok(ImageFile {
            clock,
            syncers,
            written: AtomicU64::new(1),
            synced: AtomicU64::new(0),
            has_failed: AtomicBool::new(false),
            file,
        })
    }

    /// The number of a write that has just ended.
    pub fn number_of_write(&self) -> u64 {
        self.written.fetch_add(1, Ordering::SeqCst).wrapping_add(1)
    }

    /// Syncs the file, unless a sync that began behind this write has ended. Once a sync has failed all later ones fail.
    pub fn sync(&self, write: u64) -> Result<(), Failed> {
        let mut pause = LEAST_PAUSE_MICROS;
        for _ in 0..u64::MAX {
            if self.has_failed.load(Ordering::SeqCst) {
                return Err(Failed);
            }
            if write <= self.synced.load(Ordering::SeqCst) {
                return Ok(());
            }
            if let Some(syncer) = self.take_syncer() {
                return self.sync_by(syncer);
            }
            sleep(&self.clock, Duration::from_micros(pause));
            pause = pause.saturating_mul(2).min(MOST_PAUSE_MICROS);
        }
        Err(Failed)
    }

    // An opening that no other sync uses.
    fn take_syncer(&self) -> Option<&Syncer> {
        for syncer in &self.syncers {
            let taken = syncer
                .is_busy
                .compare_exchange(false, true, Ordering::SeqCst, Ordering::SeqCst);
            if taken.is_ok() {
                return Some(syncer);
            }
        }
        None
    }

    // Syncs the file over this opening, and gives it back.
    fn sync_by(&self, syncer: &Syncer) -> Result<(), Failed> {
        let written = self.written.load(Ordering::SeqCst);
        if syncer.file.sync_data().is_err() {
            self.has_failed.store(true, Ordering::SeqCst);
        }
        syncer.is_busy.store(false, Ordering::SeqCst);
        // An earlier sync over this opening may have been told what this one covers.
        if self.has_failed.load(Ordering::SeqCst) {
            return Err(Failed);
        }
        self.synced.fetch_max(written, Ordering::SeqCst);
        Ok(())
    }
}
