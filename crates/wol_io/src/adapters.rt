// Readers and writers of std as sources and sinks.
ghost use Rattle.std.specs.Prelude.{◌≡◌, ◌≤◌, ◌<◌, ◌+◌, length, IsErr, OnOk};
ghost use Rattle.wol_disk.specs.Disk.{Rose};
ghost use Rattle.wol_io.specs.Streams.{SinkTakes};

use crate::streams::{Sink, Source};
use std::io::{Read, Write};
use wol_disk::Failed;

/// A reader of std as a source. Each call that the reader refuses is a fault.
#[derive(Drop)]
pub struct StdSource<R> {
    inner: R,
    faults: u64,
}

impl<R: Read> StdSource<R> {
    pub fn new(inner: R) -> StdSource<R>
        ensures content { result.inner ≡ inner }
        ensures calm { result.faults ≡ 0 }
    {
        StdSource { inner, faults: 0 }
    }
}

impl<R: Read> Source for StdSource<R> {
    ghost left = { λ s. R.remaining s.inner };

    ghost faults = { λ s. s.faults };

    fn read(&mut self, out: &mut [u8]) -> Result<usize, Failed> {
        match self.inner.read(out) {
            Ok(count) => Ok(count),
            Err(_) => Err(fault(&mut self.faults)),
        }
    }
}

/// A writer of std as a sink. Each piece of which the writer refuses a part, or takes nothing, is a fault. It may have room
/// for so many bytes alone: then a piece that is longer than the room that is left is a fault, and the writer isn't asked.
#[derive(Drop)]
pub struct StdSink<W> {
    inner: W,
    room: u64,
    faults: u64,
}

impl<W: Write> StdSink<W> {
    pub fn new(inner: W) -> StdSink<W>
        ensures content { result.inner ≡ inner }
        ensures calm { result.faults ≡ 0 }
    {
        StdSink::with_room(inner, u64::MAX)
    }

    /// A sink with room for so many bytes.
    pub fn with_room(inner: W, room: u64) -> StdSink<W>
        ensures content { result.inner ≡ inner }
        ensures room { result.room ≡ room }
        ensures calm { result.faults ≡ 0 }
    {
        StdSink {
            inner,
            room,
            faults: 0,
        }
    }

    // Writes the whole piece, if there is room for it.
    fn write_within(&mut self, piece: &[u8]) -> Result<(), Failed>
        ensures content { SinkTakes (W.contents self.old.inner) (W.contents self.new.inner) result
            piece.now }
        ensures full { self.old.room < length piece.now → IsErr result × (self.new ≡ self.old) }
        ensures room { OnOk result (self.new.room + length piece.now ≡ self.old.room) }
        ensures same { self.new.faults ≡ self.old.faults }
    {
        let Some(room) = self.room.checked_sub(piece.len() as u64) else {
            return Err(Failed);
        };
        self.room = room;
        write_whole(&mut self.inner, piece)
    }
}

impl<W: Write> Sink for StdSink<W> {
    ghost taken = { λ s. W.contents s.inner };

    ghost faults = { λ s. s.faults };

    fn write(&mut self, piece: &[u8]) -> Result<(), Failed> {
        match self.write_within(piece) {
            Ok(()) => Ok(()),
            Err(Failed) => Err(fault(&mut self.faults)),
        }
    }
}

// Counts a fault.
pub fn fault(faults: &mut u64) -> Failed
    ensures later { faults.old ≤ faults.new }
    ensures cause { Rose faults.old faults.new }
{
    *faults = faults.saturating_add(1);
    Failed
}

// Writes the whole piece, unless the writer fails or takes nothing of what is left.
fn write_whole<W: Write>(inner: &mut W, piece: &[u8]) -> Result<(), Failed>
    ensures { SinkTakes (W.contents inner.old) (W.contents inner.new) result piece.now }
{
    let mut done = 0;
    for _ in 0..u64::MAX {
        if done == piece.len() {
            return Ok(());
        }
        match inner.write(&piece[done..]) {
            Ok(0) => return Err(Failed),
            Ok(count) => done += count,
            Err(_) => return Err(Failed),
        }
    }
    Err(Failed)
}
