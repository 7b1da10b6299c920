// The lines of volumes that were looked at side by side.
ghost use Rattle.inspection.specs.Findings.{AppendsFound, AppendsNext, AreAhead, AreFoundTo, HasRoom, IsKnown, lines_of};
ghost use Rattle.inspection.specs.Lines.{trouble_told};
ghost use Rattle.inspection.specs.Racks.{CanLook};
ghost use Rattle.inspection.specs.declared.fault.DumpFault.TheVariants.{NoMemory as no_memory};
ghost use Rattle.manager.specs.declared.station.Station.{Station};
ghost use Rattle.rack_parts.specs.declared.rack.Rack.{Rack};
ghost use Rattle.std.specs.Prelude.{◌≡◌, ◌++◌, ◌<◌, List, [], length, Err, IfOk};
ghost use Rattle.wol_config.specs.Configs.{IsValid};

use crate::asked::Asked;
use crate::beside::{Finding, find_through, no_findings};
use crate::lines::{append_fault, append_trouble, append_volume, place_of, trouble_told};
use rack::Rack;
use report::Trouble;
use std::alloc::Global;
use std::sync::Wait;
use std::thread::Threads;
use wol_config::Config;
use wol_disk::{Disk, NoMemory};

// Appends what a look found, and answers what is wrong with the volume.
fn append_finding(
    alloc: Global,
    config: &Config,
    volume: u32,
    finding: &Finding,
    out: &mut Vec<u8>,
) -> Result<Option<Trouble>, NoMemory>
    requires valid { IsValid config.now }
    requires volume { volume < length config.now.volumes.items }
    requires known { IsKnown config.now finding.now }
    ensures told { IfOk result
        (λ t. (t ≡ trouble_told finding.now.answer) × (finding.now.answer ≡ Err no_memory → ⊥)) }
    ensures text { IfOk result (λ t.
        out.new.items
        ≡ (out.old.items ++ finding.now.text.items) ++ lines_of config.now volume t) }
{
    let trouble = trouble_told(finding.answer)?;
    out.extend_from_slice(&finding.text)?;
    if let Some(trouble) = &trouble {
        append_trouble(alloc, config, volume, trouble, out)?;
    }
    Ok(trouble)
}

// Appends the lines of a volume, and answers what is wrong with it. Where the volume of its station wasn't looked at, those
// of the next run are first.
fn append_found<D: Disk + Send, R: Threads + Wait + Sync>(
    rt: &R,
    alloc: Global,
    rack: &mut Rack<D>,
    findings: &mut [Finding],
    found: &mut usize,
    config: &Config,
    volume: u32,
    out: &mut Vec<u8>,
) -> Result<Option<Trouble>, NoMemory>
    requires valid { IsValid config.now }
    requires rack { CanLook config.now rack.old }
    requires going { (before : List (Station _))
        × AreFoundTo D.tells D.state config.now before rack.old.stations.items findings.old
        found.old }
    requires volume { volume < length config.now.volumes.items }
    requires empty { out.old.items ≡ [] }
    ensures { AppendsFound D.tells D.state config.now rack.old rack.new findings.old findings.new
        found.old found.new volume result out.new.items }
{
    let Some(fault) = rack.faults[volume as usize] else {
        let place = place_of(&rack.stations, volume);
        let stations = rack.stations.as_mut_slice();
        *found = find_through(
            rt,
            alloc,
            &rack.shared,
            config,
            stations,
            findings,
            *found,
            place,
        );
        return append_finding(alloc, config, volume, &findings[place], out);
    };
    append_fault(alloc, config, volume, fault, out)
}

/// Room for what is found of the volumes of so many stations.
pub(crate) fn findings_for(
    alloc: Global,
    asked: Asked,
    stations: usize,
) -> Result<Vec<Finding>, NoMemory>
    ensures { IfOk result (λ fs. HasRoom asked stations fs.items) }
{
    match asked {
        Asked::Check => no_findings(alloc, stations),
        Asked::Dump => Ok(Vec::new(alloc)),
    }
}

/// Appends the lines of a volume, and answers what is wrong with it. For `Check` the volumes of a run of stations are looked at
/// side by side, the first time that the lines of one of them are asked for.
pub(crate) fn append_next<D: Disk + Send, R: Threads + Wait + Sync>(
    rt: &R,
    alloc: Global,
    asked: Asked,
    rack: &mut Rack<D>,
    findings: &mut [Finding],
    found: &mut usize,
    config: &Config,
    volume: u32,
    out: &mut Vec<u8>,
) -> Result<Option<Trouble>, NoMemory>
    requires valid { IsValid config.now }
    requires rack { CanLook config.now rack.old }
    requires ahead { AreAhead D.tells D.state config.now asked rack.old.stations.items findings.old
        found.old }
    requires volume { volume < length config.now.volumes.items }
    requires empty { out.old.items ≡ [] }
    ensures { AppendsNext D.tells D.state config.now asked rack.old rack.new findings.old
        findings.new found.old found.new volume result out.new.items }
{
    match asked {
        Asked::Check => append_found(rt, alloc, rack, findings, found, config, volume, out),
        Asked::Dump => append_volume(rt, alloc, Asked::Dump, rack, config, volume, out),
    }
}
