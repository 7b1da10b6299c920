// A file as a source: read in pieces to its end, and a read that fails.
use fixtures::{own_path, same};
use std::fs;
use std::process::id;
use std::rt::Files;
use std::test::Fail;
use wol_disk::Failed;
use wol_io::{FileSource, Source};

// This piece is to come next, and at the end nothing.
fn gives<R: Files>(source: &mut FileSource<'_, R>, piece: &[u8]) -> Result<(), Fail> {
    let mut out = [0xffu8; 4096];
    same(&source.read(&mut out), &Ok(piece.len()))?;
    same(&out.get(..piece.len()), &Some(piece))
}

#[test]
fn a_file_is_read_in_pieces_to_its_end(rt: HostRuntime) -> Result<(), Fail> {
    let alloc = rt.alloc();
    let path = own_path(&rt, "wol_source", id(rt.process()))?;
    let mut content = vec![in alloc; 0u8; 10_000]?;
    for (place, byte) in content.iter_mut().enumerate() {
        *byte = (place % 251) as u8;
    }
    fs::write(&rt, path.as_str(), content.as_slice())?;
    for _ in 0..2 {
        let mut source = FileSource::new(&rt, path.as_str());
        for piece in content.chunks(4096) {
            gives(&mut source, piece)?;
        }
        gives(&mut source, b"")?;
        gives(&mut source, b"")?;
    }
    fs::remove_file(&rt, path.as_str())?;
    Ok(())
}

// A regular file whose first page nobody can read.
#[test]
fn a_failed_read_is_no_end(rt: HostRuntime) -> Result<(), Fail> {
    let mut out = [0u8; 4];
    let mut memory = FileSource::new(&rt, "/proc/self/mem");
    for _ in 0..2 {
        same(&memory.read(&mut out), &Err(Failed))?;
    }
    Ok(())
}
