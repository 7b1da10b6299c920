// What the system keeps of an image's file.
use sqlite_std_file::{OpenError, Unknown};
use std::fs;
use std::io::{self, ErrorKind};

/// Syncs the file at the end of the path, and has the system drop the copies that it keeps of its content, so that it is
/// read from its disk again. After a failed sync of an earlier run those copies may be other than the disk, and pass for
/// synced.
///
/// The kit's crate for databases is what makes that call of the system. It wants a file of one name, and makes a log
/// beside it, NAME-wal, which is removed again, unless one was there before.
pub fn drop_copies(rt: &HostRuntime, path: &str) -> io::Result<()> {
    let path = fs::canonicalize(rt, path)?;
    let log = format!(in rt.alloc(); "{}-wal", path.as_str())?;
    let is_new = match fs::symlink_metadata(rt, log.as_str()) {
        Ok(_) => false,
        Err(e) if e.kind() == ErrorKind::NotFound => true,
        Err(e) => return Err(e),
    };
    let dropped = match sqlite_std_file::open(rt, path.as_str(), Unknown) {
        Ok(_) => Ok(()),
        Err(OpenError::Io(e)) => Err(e),
        Err(OpenError::OutOfMemory) => Err(io::Error::from(ErrorKind::OutOfMemory)),
        Err(OpenError::Busy | OpenError::HotJournal) => {
            Err(io::Error::from(ErrorKind::Unsupported))
        }
    };
    if is_new {
        remove_empty(rt, log.as_str())?;
    }
    dropped
}

// Removes a file without content, if one is there.
fn remove_empty(rt: &HostRuntime, path: &str) -> io::Result<()> {
    match fs::symlink_metadata(rt, path) {
        Ok(found) if found.is_file() && found.len() == 0 => fs::remove_file(rt, path),
        _ => Ok(()),
    }
}
