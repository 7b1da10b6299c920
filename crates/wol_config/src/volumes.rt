// All volumes of a document.
ghost use Rattle.std.specs.List.{list_all, list_any};
ghost use Rattle.std.specs.Prelude.{◌≡◌, ◌≤◌, ◌<◌, Bool, true, None, IfOk, IfErr, OnOk, [], length, map};
ghost use Rattle.toml.specs.View.{view, table_view};
ghost use Rattle.wol_config.specs.Configs.{IsAnswer, volumes_of};
ghost use Rattle.wol_config.specs.Documents.{members_of, volume_in, volumes_fault, are_twins, twice_fault, tables_fault};
ghost use Rattle.wol_config.specs.Keys.{is_table};
ghost use Rattle.wol_config.specs.Tables.{members_in};

use crate::views::set_views;
use crate::volume::volume;
use crate::{ConfigFault, Name, VolumeConf};
use std::alloc::Global;
use toml::{Table, Value};

// The volumes that these tables are.
pub(crate) fn volumes(alloc: Global, tables: &[Value]) -> Result<Vec<VolumeConf>, ConfigFault>
    requires tables { list_all (λ v. is_table (view v)) tables.now ≡ true }
    requires few { length tables.now ≤ 64 }
    ensures ok { IfOk result (λ vs. vs.items ≡ volumes_of (members_in tables.now)) }
    ensures faultless { IfOk result (λ vs. tables_fault (members_in tables.now) ≡ None) }
    ensures err { IfErr result (IsAnswer (tables_fault (members_in tables.now))) }
{
    let mut volumes = bare_volumes(alloc, tables)?;
    refuse_twins(alloc, &volumes)?;
    set_views(alloc, tables, &mut volumes)?;
    Ok(volumes)
}

// The volumes, without their views.
fn bare_volumes(alloc: Global, tables: &[Value]) -> Result<Vec<VolumeConf>, ConfigFault>
    requires { list_all (λ v. is_table (view v)) tables.now ≡ true }
    ensures ok { IfOk result (λ vs. vs.items ≡ map volume_in (members_in tables.now)) }
    ensures faultless { IfOk result (λ vs. volumes_fault (members_in tables.now) ≡ None) }
    ensures err { IfErr result (IsAnswer (volumes_fault (members_in tables.now))) }
{
    let mut volumes = Vec::new(alloc);
    for table in tables {
        let volume = volume(alloc, as_members(table))?;
        volumes.push(volume)?;
    }
    Ok(volumes)
}

// A value that is a table.
pub(crate) fn as_members(value: &Value) -> &Table
    requires { is_table (view value.now) ≡ true }
    ensures { table_view result.now ≡ members_of (view value.now) }
{
    value.as_table().unwrap()
}

// Refuses the first volume that has the name of an earlier one, or its host and disk.
fn refuse_twins(alloc: Global, volumes: &[VolumeConf]) -> Result<(), ConfigFault>
    requires { length volumes.now ≤ 64 }
    ensures ok { OnOk result (twice_fault [] volumes.now ≡ None) }
    ensures err { IfErr result (IsAnswer (twice_fault [] volumes.now)) }
{
    for (i, volume) in volumes.iter().enumerate() {
        if has_twin(volume, &volumes[..i]) {
            let name = Name::new(alloc, volume.name.as_str())?;
            return Err(ConfigFault::Twice {
                volume: i as u32,
                name,
            });
        }
    }
    Ok(())
}

fn has_twin(volume: &VolumeConf, earlier: &[VolumeConf]) -> bool
    ensures { result ≡ list_any (are_twins volume.now) earlier.now }
{
    earlier.iter().any(|other| are_twins(volume, other))
}

fn are_twins(v: &VolumeConf, w: &VolumeConf) -> bool
    ensures { result ≡ are_twins v.now w.now }
{
    v.name.as_bytes() == w.name.as_bytes()
        || v.host.as_bytes() == w.host.as_bytes() && v.disk == w.disk
}
