// The lines of one volume.
ghost use Rattle.inspection.specs.Lines.{AppendsVolume, LooksAtVolume, trouble_line, trouble_told};
ghost use Rattle.inspection.specs.Looks.{IsConfiguredBase, LooksAt};
ghost use Rattle.inspection.specs.Racks.{numbers_of, CanLook, IsSameStation, IsSameRack, IsStationAt, LeavesOthers};
ghost use Rattle.manager.specs.declared.part.Part.{Part};
ghost use Rattle.manager.specs.declared.station.Station.{Station};
ghost use Rattle.rack.specs.Racks.{IsStation, AreUnused, base_of_station};
ghost use Rattle.report.specs.Names.{printed_names};
ghost use Rattle.report.specs.Troubles.{IsAmong};
ghost use Rattle.std.specs.Prelude.{◌≡◌, ◌⊎◌, ◌<◌, ◌++◌, ℕ, [], length, Some, Err, Ok, Contains, IfOk, OnOk, OnErr};
ghost use Rattle.rack.specs.Troubles.{trouble_of, trouble_of_part};
ghost use Rattle.wol_config.specs.Configs.{IsValid};

use crate::DumpFault;
use crate::asked::Asked;
use crate::turn::look;
use logger::Shared;
use manager::Station;
use rack::{Rack, VolumeFault, trouble_of, trouble_of_part};
use report::Word::Text;
use report::{Trouble, append_line, trouble_text};
use std::alloc::Global;
use std::sync::Wait;
use wol_config::Config;
use wol_disk::{Disk, NoMemory};

/// The place of the station of this volume.
pub fn place_of<D: Disk>(stations: &[Station<D>], volume: u32) -> usize
    requires { Contains (numbers_of stations.now) volume }
    ensures { (s : Station _) × IsStationAt stations.now volume result s }
{
    for place in 0..stations.len() {
        if stations[place].id == volume {
            return place;
        }
    }
    unreachable!()
}

/// Looks at the volume of a station.
pub(crate) fn look_station<D: Disk, R: Wait>(
    rt: &R,
    alloc: Global,
    asked: Asked,
    station: &mut Station<D>,
    shared: &Shared<D>,
    config: &Config,
    out: &mut Vec<u8>,
) -> Result<(), DumpFault>
    requires valid { IsValid config.now }
    requires station { IsStation station.old }
    requires base { IsConfiguredBase config.now shared.now (base_of_station station.old) }
    ensures same { IsSameStation station.old station.new }
    ensures looks { LooksAt D.tells D.state config.now asked station.old.id station.old.worker
        station.new.worker result out.old.items out.new.items }
    ensures err { OnErr result (out.new.items ≡ out.old.items) }
    ensures known { (p : Part) → (result ≡ Err (DumpFault.DiskFault p))
        ⊎ (result ≡ Err (DumpFault.Down p))
        → IsAmong (length (printed_names config.now.volumes.items)) (trouble_of_part p) }
{
    let volume = station.id;
    look(
        rt,
        alloc,
        asked,
        &station.lock,
        &mut station.worker,
        shared,
        config,
        volume,
        out,
    )
}

/// What is wrong with a volume that was looked at with this answer.
pub(crate) fn trouble_told(answer: Result<(), DumpFault>) -> Result<Option<Trouble>, NoMemory>
    ensures ok { IfOk result
        (λ t. (t ≡ trouble_told answer) × (answer ≡ Err DumpFault.NoMemory → ⊥)) }
    ensures err { OnErr result (answer ≡ Err DumpFault.NoMemory) }
{
    match answer {
        Ok(()) => Ok(None),
        Err(DumpFault::DiskFault(part)) => Ok(Some(trouble_of_part(part))),
        Err(DumpFault::Down(part)) => Ok(Some(trouble_of_part(part))),
        Err(DumpFault::NoMemory) => Err(NoMemory),
    }
}

// Looks at a volume that has a station.
fn look_at<D: Disk, R: Wait>(
    rt: &R,
    alloc: Global,
    asked: Asked,
    rack: &mut Rack<D>,
    config: &Config,
    volume: u32,
    out: &mut Vec<u8>,
) -> Result<(), DumpFault>
    requires valid { IsValid config.now }
    requires rack { CanLook config.now rack.old }
    requires there { Contains (numbers_of rack.old.stations.items) volume }
    requires empty { out.old.items ≡ [] }
    ensures same { IsSameRack rack.old rack.new }
    ensures others { LeavesOthers rack.old rack.new volume }
    ensures looks { LooksAtVolume D.tells D.state config.now asked rack.old rack.new volume result
        out.new.items }
    ensures err { OnErr result (out.new.items ≡ []) }
    ensures known { (p : Part) → (result ≡ Err (DumpFault.DiskFault p))
        ⊎ (result ≡ Err (DumpFault.Down p))
        → IsAmong (length (printed_names config.now.volumes.items)) (trouble_of_part p) }
{
    let place = place_of(&rack.stations, volume);
    look_station(
        rt,
        alloc,
        asked,
        &mut rack.stations[place],
        &rack.shared,
        config,
        out,
    )
}

/// Appends the line of a volume that isn't in order.
pub(crate) fn append_trouble(
    alloc: Global,
    config: &Config,
    volume: u32,
    trouble: &Trouble,
    out: &mut Vec<u8>,
) -> Result<(), NoMemory>
    requires valid { IsValid config.now }
    requires volume { volume < length config.now.volumes.items }
    requires names { IsAmong (length (printed_names config.now.volumes.items)) trouble.now }
    ensures ok { OnOk result
        (out.new.items ≡ out.old.items ++ trouble_line config.now volume trouble.now) }
    ensures err { OnErr result (out.new.items ≡ out.old.items) }
{
    let mut text = Vec::new(alloc);
    trouble_text(&config.volumes, trouble, &mut text)?;
    let name = config.volumes[volume as usize].name.as_bytes();
    append_line(&[Text(name), Text(&text)], out)
}

/// Appends the line of a volume that has no station, and answers its trouble.
pub(crate) fn append_fault(
    alloc: Global,
    config: &Config,
    volume: u32,
    fault: VolumeFault,
    out: &mut Vec<u8>,
) -> Result<Option<Trouble>, NoMemory>
    requires valid { IsValid config.now }
    requires volume { volume < length config.now.volumes.items }
    requires names { IsAmong (length (printed_names config.now.volumes.items)) (trouble_of fault) }
    ensures trouble { IfOk result (λ t. t ≡ Some (trouble_of fault)) }
    ensures text { OnOk result
        (out.new.items ≡ out.old.items ++ trouble_line config.now volume (trouble_of fault)) }
    ensures err { OnErr result (out.new.items ≡ out.old.items) }
{
    let trouble = trouble_of(fault);
    append_trouble(alloc, config, volume, &trouble, out)?;
    Ok(Some(trouble))
}

// Appends the lines of a volume that has a station, and answers what is wrong with it.
fn append_open<D: Disk, R: Wait>(
    rt: &R,
    alloc: Global,
    asked: Asked,
    rack: &mut Rack<D>,
    config: &Config,
    volume: u32,
    out: &mut Vec<u8>,
) -> Result<Option<Trouble>, NoMemory>
    requires valid { IsValid config.now }
    requires rack { CanLook config.now rack.old }
    requires there { Contains (numbers_of rack.old.stations.items) volume }
    requires volume { volume < length config.now.volumes.items }
    requires empty { out.old.items ≡ [] }
    ensures { AppendsVolume D.tells D.state config.now asked rack.old rack.new volume result
        out.new.items }
{
    let trouble = trouble_told(look_at(rt, alloc, asked, rack, config, volume, out))?;
    if let Some(trouble) = &trouble {
        append_trouble(alloc, config, volume, trouble, out)?;
    }
    Ok(trouble)
}

/// Appends the lines of a volume, and answers what is wrong with it. `NoMemory` appends nothing.
pub(crate) fn append_volume<D: Disk, R: Wait>(
    rt: &R,
    alloc: Global,
    asked: Asked,
    rack: &mut Rack<D>,
    config: &Config,
    volume: u32,
    out: &mut Vec<u8>,
) -> Result<Option<Trouble>, NoMemory>
    requires valid { IsValid config.now }
    requires rack { CanLook config.now rack.old }
    requires volume { volume < length config.now.volumes.items }
    requires empty { out.old.items ≡ [] }
    ensures { AppendsVolume D.tells D.state config.now asked rack.old rack.new volume result
        out.new.items }
{
    let Some(fault) = rack.faults[volume as usize] else {
        return append_open(rt, alloc, asked, rack, config, volume, out);
    };
    append_fault(alloc, config, volume, fault, out)
}
