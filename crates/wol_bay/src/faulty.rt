// What a bay in memory notes of the parts that came back with a fault.
ghost use Rattle.std.specs.Prelude.{◌≡◌, ◌≢◌, ◌+◌, ◌≤◌, ◌<◌, ◌++◌, [], MatchBool, flat_map, length, vec_len, vec_capacity};
ghost use Rattle.wol_bay.specs.MemBay.{named_places};
ghost use Rattle.wol_bay.specs.Parts.{faulty_places};

use crate::held::Faulty;
use wol_disk::{Disk, MemDisk, StopDisk};

// Notes the places of the parts with a fault.
pub fn mark_faulty(places: &mut Vec<usize>, parts: &[StopDisk<MemDisk>])
    requires none { places.old.items ≡ [] }
    requires room { length parts.now ≤ vec_capacity places.old }
    ensures { places.new.items ≡ faulty_places ⟦<StopDisk<MemDisk> as Disk>⟧.state parts.now }
{
    for (place, part) in parts.iter().enumerate() {
        if part.faults() > 0 {
            places.push(place).unwrap();
        }
    }
}

// Keeps what there is to tell of faults, and answers whether there is any.
pub fn keep_faulty(list: &mut Vec<Faulty>, faulty: Faulty) -> bool
    requires { vec_len list.old < vec_capacity list.old }
    ensures list { flat_map named_places list.new.items
        ≡ flat_map named_places list.old.items ++ named_places faulty }
    ensures result { MatchBool result (faulty.places.items ≢ []) (faulty.places.items ≡ []) }
    ensures room { vec_len list.new ≤ vec_len list.old + 1 }
    ensures capacity { vec_capacity list.old ≤ vec_capacity list.new }
{
    if faulty.places.is_empty() {
        return false;
    }
    list.push(faulty).unwrap();
    true
}
