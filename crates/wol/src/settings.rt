// The configuration, as far as what is said on standard error needs it.
use std::alloc::Global;
use std::fs;
use std::io::ErrorKind;
use std::rt::Files;
use wol_config::MOST_BYTES;

/// The file that has the configuration.
pub const PATH: &str = "wol.toml";

/// The bytes of the configuration's file, if it is one that can be read and isn't too long for a configuration.
pub fn bytes_of<R: Files + AllocGlobal>(rt: &R) -> Option<Vec<u8>> {
    let file = fs::metadata(rt, PATH).ok()?;
    if !file.is_file() || file.len() > MOST_BYTES as u64 {
        return None;
    }
    fs::read(rt, PATH).ok()
}

/// Whether the folder has no such file.
pub fn is_missing<R: Files + AllocGlobal>(rt: &R) -> bool {
    match fs::metadata(rt, PATH) {
        Ok(_) => false,
        Err(e) => e.kind() == ErrorKind::NotFound,
    }
}
