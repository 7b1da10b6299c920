// The volumes of a run of stations are looked at for `check`, in four threads where so many can be had.
ghost use Rattle.inspection.specs.Findings.{CanFindMore, HasFoundMore, CanAllBeLookedAt, AreEmpty, HaveFound, HasFound, CanBeLookedAt};
ghost use Rattle.std.specs.Prelude.{◌≡◌, ◌<◌, ◌≤◌, ◌+◌, length, IfOk};
ghost use Rattle.std.specs.Thread.{IsSend, IsSync};
ghost use Rattle.wol_config.specs.Configs.{IsValid};

use crate::DumpFault;
use crate::asked::Asked;
use crate::lines::look_station;
use logger::Shared;
use manager::Station;
use std::alloc::Global;
use std::sync::Wait;
use std::thread::{Threads, join_mut};
use wol_config::Config;
use wol_disk::{Disk, NoMemory};

// So many volumes are looked at before the lines of the first of them are printed.
const RUN: usize = 8;

// A run is halved so many times, so that four threads look at two volumes each.
const HALVINGS: u32 = 2;

/// What a look at a volume found: how it ended, and the lines of a volume in order.
#[derive(Drop)]
pub(crate) struct Finding {
    pub answer: Result<(), DumpFault>,
    pub text: Vec<u8>,
}

/// So many findings, each of nothing yet.
pub(crate) fn no_findings(alloc: Global, count: usize) -> Result<Vec<Finding>, NoMemory>
    ensures { IfOk result (λ fs. (length fs.items ≡ count) × AreEmpty fs.items) }
{
    let mut findings = Vec::new(alloc);
    for made in 0..count {
        let _ = made;
        findings.push(Finding {
            answer: Ok(()),
            text: Vec::new(alloc),
        })?;
    }
    Ok(findings)
}

// Looks at the volume of a station.
fn find_one<D: Disk, R: Wait>(
    rt: &R,
    alloc: Global,
    shared: &Shared<D>,
    config: &Config,
    station: &mut Station<D>,
    finding: &mut Finding,
)
    requires valid { IsValid config.now }
    requires ahead { CanBeLookedAt config.now shared.now station.old finding.old }
    ensures { HasFound D.tells D.state config.now station.old station.new finding.new }
{
    finding.answer = look_station(
        rt,
        alloc,
        Asked::Check,
        station,
        shared,
        config,
        &mut finding.text,
    );
}

// Looks at the volumes of these stations, one after another.
fn find_each<D: Disk, R: Wait>(
    rt: &R,
    alloc: Global,
    shared: &Shared<D>,
    config: &Config,
    stations: &mut [Station<D>],
    findings: &mut [Finding],
)
    requires valid { IsValid config.now }
    requires ahead { CanAllBeLookedAt config.now shared.now stations.old findings.old }
    ensures { HaveFound D.tells D.state config.now stations.old stations.new findings.new }
{
    for k in 0..stations.len() {
        find_one(
            rt,
            alloc,
            shared,
            config,
            &mut stations[k],
            &mut findings[k],
        );
    }
}

// Looks at the volumes of these stations. They are halved so many times, and each part is looked at in a thread where one
// can be had.
#[cycle(parts)]
fn find_parts<D: Disk + Send, R: Threads + Wait + Sync>(
    rt: &R,
    alloc: Global,
    shared: &Shared<D>,
    config: &Config,
    stations: &mut [Station<D>],
    findings: &mut [Finding],
    halvings: u32,
)
    requires valid { IsValid config.now }
    requires ahead { CanAllBeLookedAt config.now shared.now stations.old findings.old }
    ensures { HaveFound D.tells D.state config.now stations.old stations.new findings.new }
{
    if halvings == 0 || stations.len() < 2 {
        find_each(rt, alloc, shared, config, stations, findings);
        return;
    }
    let half = stations.len() / 2;
    let (front, back) = stations.split_at_mut(half);
    let (front_findings, back_findings) = findings.split_at_mut(half);
    find_both(
        rt,
        alloc,
        shared,
        config,
        front,
        front_findings,
        back,
        back_findings,
        halvings - 1,
    );
}

// Looks at the volumes of both lists of stations, in two threads, each of which may halve its list so many times.
#[cycle(parts)]
fn find_both<'a, D: Disk + Send, R: Threads + Wait + Sync>(
    rt: &'a R,
    alloc: Global,
    shared: &'a Shared<D>,
    config: &'a Config,
    front: &'a mut [Station<D>],
    front_findings: &'a mut [Finding],
    back: &'a mut [Station<D>],
    back_findings: &'a mut [Finding],
    halvings: u32,
)
    requires valid { IsValid config.now }
    requires front { CanAllBeLookedAt config.now shared.now front.old front_findings.old }
    requires back { CanAllBeLookedAt config.now shared.now back.old back_findings.old }
    ensures front { HaveFound D.tells D.state config.now front.old front.new front_findings.new }
    ensures back { HaveFound D.tells D.state config.now back.old back.new back_findings.new }
{
    let again = alloc;
    join_mut(
        rt,
        &mut ||
            requires { IsSync R.row × IsSend D.row × IsValid config.now
                × CanAllBeLookedAt config.now shared.now front.now front_findings.now }
            ensures { HaveFound D.tells D.state config.entry.now front.entry.now front.exit.now
                front_findings.exit.now }
        { find_parts(rt, alloc, shared, config, front, front_findings, halvings) },
        &mut ||
            requires { IsSync R.row × IsSend D.row × IsValid config.now
                × CanAllBeLookedAt config.now shared.now back.now back_findings.now }
            ensures { HaveFound D.tells D.state config.entry.now back.entry.now back.exit.now
                back_findings.exit.now }
        { find_parts(rt, again, shared, config, back, back_findings, halvings) },
    );
}

/// Looks at the volumes of the next run of stations, unless that of the station at this place was looked at, and answers
/// how many were.
pub(crate) fn find_through<D: Disk + Send, R: Threads + Wait + Sync>(
    rt: &R,
    alloc: Global,
    shared: &Shared<D>,
    config: &Config,
    stations: &mut [Station<D>],
    findings: &mut [Finding],
    found: usize,
    place: usize,
) -> usize
    requires valid { IsValid config.now }
    requires going { CanFindMore D.tells D.state config.now shared.now stations.old findings.old
        found }
    requires place { place < length stations.old }
    ensures place { place < result }
    ensures more { found ≤ result }
    ensures found { HasFoundMore D.tells D.state config.now stations.old stations.new findings.old
        findings.new found result }
{
    if place < found {
        return found;
    }
    let until = found.saturating_add(RUN).max(place + 1).min(stations.len());
    let (_, ahead) = stations.split_at_mut(found);
    let (run, _) = ahead.split_at_mut(until - found);
    let (_, ahead_findings) = findings.split_at_mut(found);
    let (run_findings, _) = ahead_findings.split_at_mut(until - found);
    find_parts(rt, alloc, shared, config, run, run_findings, HALVINGS);
    until
}
