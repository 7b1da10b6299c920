// The standard streams: where one was closed, something else stands in its place before any file is opened.
use std::fs::{self, File};
use std::io::{self, Read};
use std::os::fd::{AsRawFd, RawFd};
use std::rt::Files;

/// A standard stream: its descriptor, the path of what is open there, and the path of the system's text on it.
#[derive(Clone, Copy)]
pub struct Stream {
    number: RawFd,
    pub file: &'static str,
    pub state: &'static str,
}

pub const INPUT: Stream = Stream {
    number: 0,
    file: "/proc/self/fd/0",
    state: "/proc/self/fdinfo/0",
};

pub const OUTPUT: Stream = Stream {
    number: 1,
    file: "/proc/self/fd/1",
    state: "/proc/self/fdinfo/1",
};

pub const ERRORS: Stream = Stream {
    number: 2,
    file: "/proc/self/fd/2",
    state: "/proc/self/fdinfo/2",
};

/// What stands at the descriptors of the standard streams that were closed.
#[derive(Drop)]
pub struct StandIns {
    _input: Option<File>,
    _output: Option<File>,
    _errors: Option<File>,
}

/// Takes the descriptors of closed standard streams. The system gives a file that is opened the lowest number that is free, so
/// else an image could be taken for the output, and the report be written over its label. It fails where a descriptor can be
/// neither taken nor seen to be open; then no other file may be opened.
pub fn take_closed<R: Files<File = File>>(rt: &R) -> io::Result<StandIns> {
    Ok(StandIns {
        _input: stand_in(rt, INPUT)?,
        _output: stand_in(rt, OUTPUT)?,
        _errors: stand_in(rt, ERRORS)?,
    })
}

// What stands in for the stream, once those of lower number are open: a folder, so that each read and each write fails.
fn stand_in<R: Files<File = File>>(rt: &R, stream: Stream) -> io::Result<Option<File>> {
    match fs::open(rt, "/") {
        Ok(folder) => Ok(Some(folder).filter(|it| it.as_raw_fd() == stream.number)),
        Err(_) if fs::metadata(rt, stream.file).is_ok() => Ok(None),
        Err(e) => Err(e),
    }
}

/// Whether the output can be written at all: it was neither closed nor opened for reading alone.
pub fn takes_output(rt: &impl Print) -> bool {
    rt.write_some(&[]).is_ok()
}

/// Whether the input can be read at all: it was neither closed nor opened for writing alone.
pub fn gives_input(rt: &impl Input) -> bool {
    rt.reader().read(&mut []).is_ok()
}
