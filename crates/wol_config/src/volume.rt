// One volume, but for its view.
ghost use Rattle.std.specs.List.{list_all};
ghost use Rattle.std.specs.Prelude.{◌≡◌, ◌&&◌, ◌||◌, ◌==◌, Bool, None, IfOk, IfErr, [], length};
ghost use Rattle.toml.specs.View.{table_view};
ghost use Rattle.wol_config.specs.Configs.{IsAnswer};
ghost use Rattle.wol_config.specs.Documents.{text_at, first_fault, volume_keys, volume_in};
ghost use Rattle.wol_config.specs.Keys.{key_fault, is_between, is_name_byte, is_host_byte};

use crate::values::{number, text, texts};
use crate::{ConfigFault, Key, Name, VolumeConf};
use log_layout::View;
use msr_trace::HostName;
use std::alloc::Global;
use toml::Table;

// The volume that a table is, without its view.
pub(crate) fn volume(alloc: Global, table: &Table) -> Result<VolumeConf, ConfigFault>
    ensures ok { IfOk result (λ v. v ≡ volume_in (table_view table.now)) }
    ensures faultless { IfOk result (λ v. first_fault volume_keys (table_view table.now) ≡ None) }
    ensures err { IfErr result (IsAnswer (first_fault volume_keys (table_view table.now))) }
{
    let name = name(alloc, table)?;
    let host = host(alloc, table)?;
    let disk = number(table, Key::Disk, 0, u32::MAX as u64)? as u32;
    let home = number(table, Key::HomeBlocks, 1, 1 << 32)?;
    let segments = number(table, Key::Segments, 0, 1_024)? as u32;
    texts(table)?;
    Ok(VolumeConf {
        name,
        host,
        disk,
        home,
        segments,
        view: no_loggers(),
    })
}

fn name(alloc: Global, table: &Table) -> Result<Name, ConfigFault>
    ensures ok { IfOk result (λ name. name ≡ text_at Key.Name (table_view table.now)) }
    ensures faultless { IfOk result (λ name. key_fault Key.Name (table_view table.now) ≡ None) }
    ensures err { IfErr result (IsAnswer (key_fault Key.Name (table_view table.now))) }
{
    let text = text(table, Key::Name)?;
    if !is_name(text.as_bytes()) {
        return Err(ConfigFault::OutOfRange { key: Key::Name });
    }
    Ok(Name::new(alloc, text)?)
}

fn host(alloc: Global, table: &Table) -> Result<HostName, ConfigFault>
    ensures ok { IfOk result (λ host. host ≡ text_at Key.Host (table_view table.now)) }
    ensures faultless { IfOk result (λ host. key_fault Key.Host (table_view table.now) ≡ None) }
    ensures err { IfErr result (IsAnswer (key_fault Key.Host (table_view table.now))) }
{
    let text = text(table, Key::Host)?.as_bytes();
    if !is_host(text) {
        return Err(ConfigFault::OutOfRange { key: Key::Host });
    }
    Ok(HostName::new(alloc, text)?)
}

fn is_name(text: &[u8]) -> bool
    ensures { result ≡ (is_between 1 32 (length text.now) && list_all is_name_byte text.now) }
{
    !text.is_empty() && text.len() <= 32 && has_name_bytes(text)
}

fn is_host(text: &[u8]) -> bool
    ensures { result ≡ (is_between 1 64 (length text.now) && list_all is_host_byte text.now) }
{
    !text.is_empty() && text.len() <= 64 && has_host_bytes(text)
}

fn has_name_bytes(text: &[u8]) -> bool
    ensures { result ≡ list_all is_name_byte text.now }
{
    text.iter().all(|byte| is_name_byte(*byte))
}

fn has_host_bytes(text: &[u8]) -> bool
    ensures { result ≡ list_all is_host_byte text.now }
{
    text.iter().all(|byte| is_host_byte(*byte))
}

fn is_name_byte(byte: u8) -> bool
    ensures { result ≡ is_name_byte byte }
{
    matches!(byte, b'a'..=b'z' | b'0'..=b'9' | b'_' | b'-')
}

fn is_host_byte(byte: u8) -> bool
    ensures { result ≡ is_host_byte byte }
{
    matches!(byte, 33..=126) && byte != b',' && byte != b'"'
}

fn no_loggers() -> View
    ensures { result ≡ [] }
{
    View::new(&[]).unwrap()
}
