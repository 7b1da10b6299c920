// The streams, each called once: the adapters' edges are only tested.
use fixtures::same;
use std::test::Fail;
use wol_disk::Failed;
use wol_io::{
    FileSource, Gate, MemSink, MemSource, NoGate, Sink, Source, StdSink, StdSource, Watch,
    WatchedSource,
};

#[test]
fn memory_streams_cut_and_fail_as_planned(rt: HostRuntime) -> Result<(), Fail> {
    let bytes = b"abcdefgh".to_vec(rt.alloc())?;
    let cuts = [2, 5, 0].to_vec(rt.alloc())?;
    let mut source = MemSource::new(bytes, cuts, Some(1));
    let mut out = [0u8; 4];
    for want in [Ok(2), Err(Failed), Ok(1), Ok(4), Ok(1), Ok(0)] {
        same(&source.read(&mut out), &want)?;
    }
    same(&out, b"hefg")?;

    let mut sink = MemSink::new(rt.alloc(), Some(1));
    for (piece, want) in [("ab", Ok(())), ("cd", Err(Failed)), ("ef", Ok(()))] {
        same(&sink.write(piece.as_bytes()), &want)?;
    }
    same(&sink.bytes(), &b"abef".as_slice())?;
    NoGate.pass(0);
    Ok(())
}

#[test]
fn adapters_pass_bytes_and_faults_on(rt: HostRuntime) -> Result<(), Fail> {
    let mut out = [1u8; 4];
    let mut source = StdSource::new(b"abc".as_slice());
    same(&source.read(&mut out), &Ok(3))?;
    same(&out, b"abc\x01")?;
    same(&source.read(&mut out), &Ok(0))?;

    let mut held = Vec::new(rt.alloc());
    let mut sink = StdSink::new(&mut held);
    same(&sink.write(b"xyz"), &Ok(()))?;
    same(&held.as_slice(), &b"xyz".as_slice())?;
    let mut narrow = StdSink::with_room(&mut held, 3);
    for (piece, want) in [("ab", Ok(())), ("cd", Err(Failed)), ("e", Ok(()))] {
        same(&narrow.write(piece.as_bytes()), &want)?;
    }
    same(&held.as_slice(), &b"xyzabe".as_slice())?;
    Ok(())
}

// Counts what it sees.
#[derive(Drop)]
struct Counter(usize);

impl Watch for Counter {
    fn see(&mut self, bytes: &[u8]) {
        self.0 = self.0.saturating_add(bytes.len());
    }
}

#[test]
fn a_watch_sees_what_is_taken(rt: HostRuntime) -> Result<(), Fail> {
    let mut out = [0u8; 2];
    let mut source = WatchedSource::new(StdSource::new(b"abc".as_slice()), Counter(0));
    for want in [Ok(2), Ok(1), Ok(0)] {
        same(&source.read(&mut out), &want)?;
    }
    same(&source.watch().0, &3)?;
    Ok(())
}

#[test]
fn regular_files_alone_are_sources(rt: HostRuntime) -> Result<(), Fail> {
    let mut out = [0u8; 4];
    let mut status = FileSource::new(&rt, "/proc/self/status");
    same(&status.read(&mut out), &Ok(4))?;
    same(&out, b"Name")?;
    for path in ["/dev/zero", "/", "/dev/null/missing"] {
        let mut other = FileSource::new(&rt, path);
        same(&other.read(&mut out), &Err(Failed))?;
    }
    Ok(())
}
