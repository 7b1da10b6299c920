// The views of the volumes.
ghost use Rattle.std.specs.List.{list_all};
ghost use Rattle.std.specs.Prelude.{◌≡◌, ◌≤◌, Bool, true, None, ◌<◌, IfErr, IfSome, OnOk, SomeIff, length, map, position};
ghost use Rattle.std.specs.Str.{bytes_eq};
ghost use Rattle.toml.specs.View.{view};
ghost use Rattle.wol_config.specs.Configs.{IsAnswer, volumes_of};
ghost use Rattle.wol_config.specs.Documents.{text_of, volume_in, volumes_fault, names_of, number_named, numbers_named, is_good_view, view_fault};
ghost use Rattle.wol_config.specs.Keys.{is_table, is_text};
ghost use Rattle.wol_config.specs.Tables.{members_in, names_in, texts_in};

use crate::values::texts;
use crate::volumes::as_members;
use crate::{ConfigFault, Name, VolumeConf};
use log_layout::View;
use std::alloc::Global;
use toml::Value;

// Gives each volume the view of its table, or refuses the first view that isn't good.
pub(crate) fn set_views(
    alloc: Global,
    tables: &[Value],
    volumes: &mut [VolumeConf],
) -> Result<(), ConfigFault>
    requires tables { list_all (λ v. is_table (view v)) tables.now ≡ true }
    requires few { length tables.now ≤ 64 }
    requires faultless { volumes_fault (members_in tables.now) ≡ None }
    requires bare { volumes.old ≡ map volume_in (members_in tables.now) }
    ensures set { OnOk result (volumes.new ≡ volumes_of (members_in tables.now)) }
    ensures ok { OnOk result (view_fault (names_in tables.now) 0 (members_in tables.now) ≡ None) }
    ensures err { IfErr result
        (IsAnswer (view_fault (names_in tables.now) 0 (members_in tables.now))) }
{
    for (i, table) in tables.iter().enumerate() {
        let texts = texts(as_members(table))?;
        match view_of(texts, i, volumes) {
            Some(view) => volumes[i].view = view,
            None => {
                let name = Name::new(alloc, volumes[i].name.as_str())?;
                return Err(ConfigFault::BadView {
                    volume: i as u32,
                    name,
                });
            }
        }
    }
    Ok(())
}

// The numbers of the volumes that these texts name, for the volume of number `own`.
fn view_of(texts: &[Value], own: usize, volumes: &[VolumeConf]) -> Option<View>
    requires texts { list_all (λ v. is_text (view v)) texts.now ≡ true }
    requires few { length texts.now ≤ 16 }
    requires volumes { length volumes.now ≤ 64 }
    ensures { SomeIff result (is_good_view (names_of volumes.now) own (texts_in texts.now) ≡ true)
        (numbers_named (names_of volumes.now) (texts_in texts.now)) }
{
    let mut ids = [0; 16];
    for (i, text) in texts.iter().enumerate() {
        match number_named(volumes, as_text(text)) {
            Some(number) if number != own => ids[i] = number as u32,
            _ => return None,
        }
    }
    View::new(&ids[..texts.len()])
}

/// The number of the volume of this name, if one has it.
pub fn number_named(volumes: &[VolumeConf], name: &[u8]) -> Option<usize>
    ensures found { result ≡ number_named (names_of volumes.now) name.now }
    ensures within { IfSome result (λ n. n < length volumes.now) }
{
    place_of(volumes, name)
}

// The place of the volume of this name.
fn place_of(volumes: &[VolumeConf], name: &[u8]) -> Option<usize>
    ensures found { result ≡ position (λ v. bytes_eq v.name name.now) volumes.now }
    ensures within { IfSome result (λ n. n < length volumes.now) }
{
    volumes.iter().position(|volume| is_named(volume, name))
}

fn is_named(volume: &VolumeConf, name: &[u8]) -> bool
    ensures { result ≡ bytes_eq volume.now.name name.now }
{
    volume.name.as_bytes() == name
}

// The bytes of a value that is a text.
fn as_text(value: &Value) -> &[u8]
    requires { is_text (view value.now) ≡ true }
    ensures { result.now ≡ text_of (view value.now) }
{
    value.as_str().unwrap().as_bytes()
}
