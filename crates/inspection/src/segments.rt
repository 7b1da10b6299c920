// How many segments the records of an index lie in.
ghost use Rattle.inspection.specs.Segments.{HasDifferent, is_same_place, noted, place_of};
ghost use Rattle.std.specs.List.{list_any};
ghost use Rattle.std.specs.Prelude.{◌≡◌, ◌≤◌, IfOk, IfErr, OnOk, map};

use crate::fault::DumpFault;
use redirect_map::Index;
use std::alloc::Global;

/// The number of segments in which an index has a record.
pub(crate) fn segments_in(alloc: Global, index: &Index) -> Result<u64, DumpFault>
    ensures value { IfOk result (HasDifferent (map place_of index.now.entries)) }
    ensures err { IfErr result (λ e. e ≡ DumpFault.NoMemory) }
{
    let mut places = Vec::new(alloc);
    for at in 0..index.len() {
        let record = index.at(at);
        note(&mut places, (record.lane, record.segment))?;
    }
    Ok(places.len() as u64)
}

// Adds a place, by its lane and its segment there, unless it is among these.
fn note(places: &mut Vec<(u32, u32)>, place: (u32, u32)) -> Result<(), DumpFault>
    ensures ok { OnOk result (places.new.items ≡ noted places.old.items place) }
    ensures err { IfErr result (λ e. e ≡ DumpFault.NoMemory) }
{
    if is_among(place, places) {
        return Ok(());
    }
    if places.push(place).is_err() {
        return Err(DumpFault::NoMemory);
    }
    Ok(())
}

fn is_among(place: (u32, u32), places: &[(u32, u32)]) -> bool
    ensures { result ≡ list_any (is_same_place place) places.now }
{
    places
        .iter()
        .any(|other| place.0 == other.0 && place.1 == other.1)
}
