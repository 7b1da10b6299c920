// The names that volumes are printed by.
ghost use Rattle.report.specs.Names.{name_at, printed_names};
ghost use Rattle.std.specs.Prelude.{◌≡◌};

use wol_config::VolumeConf;

// The name of the volume with this number; without volumes that of the one volume of `solo`, whose number is 0. A number that
// no volume has stands for an empty name.
pub(crate) fn name_at(volumes: &[VolumeConf], number: u32) -> &[u8]
    ensures { result.now ≡ name_at (printed_names volumes.now) number }
{
    match volumes.get(number as usize) {
        Some(volume) => volume.name.as_bytes(),
        None if volumes.is_empty() && number == 0 => b"solo",
        None => b"",
    }
}
