// The configuration, read from its source.
ghost use Rattle.std.specs.Prelude.{◌≡◌, ◌≤◌, ◌<◌, ℕ, length, IfOk, IfErr, OnOk};
ghost use Rattle.wol_config.specs.Configs.{IsValid};
ghost use Rattle.wol_run.specs.Settings.{HasConfig, IsTaken, IsUnread};

use report::Fault;
use std::alloc::Global;
use wol_config::{Config, ConfigFault, MOST_BYTES, read_config};
use wol_io::Source;

// The most bytes that are taken at once.
const PIECE_BYTES: usize = 8_192;

/// The configuration that a source has. At most 1,048,577 bytes of it are taken: one more than a configuration may have.
///
/// `Config`: its bytes are none, for the first fault that they have. `ConfigSource`: the source failed. `Memory`: there was
/// no memory.
pub fn config_of<C: Source>(alloc: Global, source: &mut C) -> Result<Config, Fault>
    ensures ok { IfOk result (HasConfig (C.left source.old)) }
    ensures valid { IfOk result IsValid }
    ensures err { IfErr result (λ e. IsUnread e (C.left source.old) (C.faults source.old)
        (C.faults source.new)) }
{
    let bytes = bytes_of(alloc, source)?;
    match read_config(alloc, &bytes) {
        Ok(config) => Ok(config),
        Err(ConfigFault::NoMemory) => Err(Fault::Memory),
        Err(why) => Err(Fault::Config(why)),
    }
}

// All bytes of a source, or its first ones where they are more than a configuration may have.
fn bytes_of<C: Source>(alloc: Global, source: &mut C) -> Result<Vec<u8>, Fault>
    ensures ok { IfOk result (λ bytes. IsTaken (C.left source.old) bytes.items) }
    ensures err { IfErr result (λ e. IsUnread e (C.left source.old) (C.faults source.old)
        (C.faults source.new)) }
{
    let mut bytes = Vec::new(alloc);
    let mut piece = [0; PIECE_BYTES];
    'taking: while bytes.len() <= MOST_BYTES {
        let room = (MOST_BYTES + 1 - bytes.len()).min(PIECE_BYTES);
        let Ok(count) = source.read(&mut piece[..room]) else {
            return Err(Fault::ConfigSource);
        };
        if count == 0 {
            return Ok(bytes);
        }
        if bytes.extend_from_slice(&piece[..count]).is_err() {
            return Err(Fault::Memory);
        }
    }
    Ok(bytes)
}
