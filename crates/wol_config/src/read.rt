// From bytes to a configuration.
ghost use Rattle.std.specs.Prelude.{◌≡◌, ◌*◌, ◌<◌, ◌≤◌, None, IfOk, IfErr, IsErrOf, length};
ghost use Rattle.toml.specs.Data.{Members};
ghost use Rattle.toml.specs.View.{table_view};
ghost use Rattle.wol_config.specs.Configs.{IsDocument, IsConfigOf, IsAnswer, IsRefusal, IsValid};
ghost use Rattle.wol_config.specs.Documents.{number_or, number_at, first_fault, power_keys, document_fault};
ghost use Rattle.wol_config.specs.Keys.{key_fault};

use crate::values::{number, number_or, tables};
use crate::volumes::volumes;
use crate::{Config, ConfigFault, Key};
use energy::Powers;
use std::alloc::Global;
use toml::Table;

/// The most bytes that a configuration may have.
pub const MOST_BYTES: usize = 1_048_576;

/// The configuration that the bytes of a file are.
///
/// Keys that aren't known are passed over. What is refused is named by the first fault: too many bytes,
/// then bytes that aren't TOML, then each key in the order of `Key`, those from the name on for each
/// volume in turn, then a volume that stands twice, and then a view.
pub fn read_config(alloc: Global, bytes: &[u8]) -> Result<Config, ConfigFault>
    ensures ok { IfOk result (λ config.
        (document : Members) × IsDocument bytes.now document × IsConfigOf document config) }
    ensures valid { IfOk result IsValid }
    ensures err { IfErr result (IsRefusal bytes.now) }
    ensures too_long { MOST_BYTES < length bytes.now → IsErrOf result ConfigFault.TooLong }
{
    if bytes.len() > MOST_BYTES {
        return Err(ConfigFault::TooLong);
    }
    match toml::table_from_slice(alloc, bytes) {
        Ok(document) => config_of(alloc, &document),
        Err(fault) if fault.is_memory() => Err(ConfigFault::NoMemory),
        Err(_) => Err(ConfigFault::NotToml),
    }
}

// The configuration that a document is.
fn config_of(alloc: Global, document: &Table) -> Result<Config, ConfigFault>
    ensures ok { IfOk result (IsConfigOf (table_view document.now)) }
    ensures err { IfErr result (IsAnswer (document_fault (table_view document.now))) }
{
    let segment_blocks = number(document, Key::SegmentBlocks, 4, 65_536)? as u32;
    let timeout = timeout(document)?;
    let powers = powers(document)?;
    let wake = wake(document)?;
    let volumes = volumes(alloc, tables(document)?)?;
    Ok(Config {
        segment_blocks,
        timeout,
        powers,
        wake,
        volumes,
    })
}

// The timeout in units of 100 ns: a minute where the key is missing.
fn timeout(document: &Table) -> Result<u64, ConfigFault>
    ensures ok { IfOk result
        (λ units. units ≡ number_or 60000 Key.TimeoutMs (table_view document.now) * 10000) }
    ensures faultless { IfOk result
        (λ units. key_fault Key.TimeoutMs (table_view document.now) ≡ None) }
    ensures err { IfErr result (λ e. key_fault Key.TimeoutMs (table_view document.now) ≡ Some e) }
{
    let key = Key::TimeoutMs;
    Ok(number_or(document, key, 1, 86_400_000, 60_000)? * 10_000)
}

// How long a disk takes to come up, in units of 100 ns: ten seconds where the key is missing.
fn wake(document: &Table) -> Result<u64, ConfigFault>
    ensures ok { IfOk result
        (λ units. units ≡ number_or 10000 Key.WakeMs (table_view document.now) * 10000) }
    ensures faultless { IfOk result
        (λ units. key_fault Key.WakeMs (table_view document.now) ≡ None) }
    ensures err { IfErr result (λ e. key_fault Key.WakeMs (table_view document.now) ≡ Some e) }
{
    Ok(number_or(document, Key::WakeMs, 0, 600_000, 10_000)? * 10_000)
}

fn powers(document: &Table) -> Result<Powers, ConfigFault>
    ensures awake_mw { IfOk result
        (λ p. p.awake_mw ≡ number_at Key.AwakeMw (table_view document.now)) }
    ensures standby_mw { IfOk result
        (λ p. p.standby_mw ≡ number_at Key.StandbyMw (table_view document.now)) }
    ensures wake_mj { IfOk result (λ p. p.wake_mj ≡ number_at Key.WakeMj (table_view document.now)) }
    ensures faultless { IfOk result (λ p. first_fault power_keys (table_view document.now) ≡ None) }
    ensures err { IfErr result (λ e. first_fault power_keys (table_view document.now) ≡ Some e) }
{
    Ok(Powers {
        awake_mw: number(document, Key::AwakeMw, 0, 1_000_000)?,
        standby_mw: number(document, Key::StandbyMw, 0, 1_000_000)?,
        wake_mj: number(document, Key::WakeMj, 0, 1_000_000_000)?,
    })
}
