// A file as a source.
ghost use Rattle.std.specs.Prelude.{◌≡◌, None};

use crate::adapters::fault;
use crate::streams::Source;
use std::fs;
use std::io::{self, ErrorKind, Read};
use std::rt::Files;
use wol_disk::Failed;

/// A regular file as a source. It is opened at the first read, and each opening and each read that fails is a fault, as is
/// a path where something else stands: a pipe that nobody writes to would be waited for. It doesn't tell its bytes, since no
/// contract can say what a file has.
#[derive(Drop)]
pub struct FileSource<'a, R: Files> {
    rt: R,
    path: &'a str,
    file: Option<R::File>,
    faults: u64,
}

impl<'a, R: Files> FileSource<'a, R> {
    pub fn new(rt: R, path: &'a str) -> FileSource<'a, R>
        ensures { result.faults ≡ 0 }
    {
        FileSource {
            rt,
            path,
            file: None,
            faults: 0,
        }
    }

    // Opens the file. Its kind is looked at first, since opening a pipe waits for a writer.
    fn open(&self) -> io::Result<R::File> {
        if !fs::metadata(&self.rt, self.path)?.is_file() {
            return Err(io::Error::from(ErrorKind::InvalidInput));
        }
        fs::open(&self.rt, self.path)
    }
}

impl<'a, R: Files> Source for FileSource<'a, R> {
    ghost left = { λ _. None };

    ghost faults = { λ s. s.faults };

    fn read(&mut self, out: &mut [u8]) -> Result<usize, Failed> {
        if self.file.is_none() {
            match self.open() {
                Ok(file) => self.file = Some(file),
                Err(_) => return Err(fault(&mut self.faults)),
            }
        }
        let Some(file) = &mut self.file else {
            return Err(fault(&mut self.faults));
        };
        match file.read(out) {
            Ok(count) => Ok(count),
            Err(_) => Err(fault(&mut self.faults)),
        }
    }
}
