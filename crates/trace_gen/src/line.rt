// A line from its words.
ghost use Rattle.msr_trace.specs.Lines.{trace_line};
ghost use Rattle.std.specs.Prelude.{◌≡◌, ◌+◌, ◌≤◌, ◌<◌, ◌^◌, IfOk};
ghost use Rattle.trace_gen.specs.Generated.{chosen, gap_of, kind_of, line_of, target_of, targets_of};
ghost use Rattle.wol_config.specs.Configs.{IsValid};

use crate::words::Words;
use msr_trace::{HostName, Kind, Line};
use std::alloc::Global;
use wol_config::{Config, VolumeConf};
use wol_disk::NoMemory;

/// The volume that a word chooses.
pub fn chosen(config: &Config, word: u64) -> &VolumeConf
    requires { IsValid config.now }
    ensures content { target_of result.now ≡ chosen (targets_of config.now) word }
    ensures home { (1 ≤ result.now.home) × (result.now.home ≤ 2 ^ 32) }
{
    let volumes = config.volumes.as_slice();
    &volumes[(word % volumes.len() as u64) as usize]
}

/// The time from the line before to this one, in units of 100 ns.
pub fn gap(word: u64) -> u64
    ensures content { result ≡ gap_of word }
    ensures bound { result ≤ 1200000000 }
{
    let rest = word / 16;
    if word % 16 == 0 {
        (1 + rest % 120) * 10_000_000
    } else {
        rest % 1_000_000
    }
}

fn kind(word: u64) -> Kind
    ensures { result ≡ kind_of word }
{
    if word % 3 == 0 {
        Kind::Read
    } else {
        Kind::Write
    }
}

/// The line on a volume at a time.
pub fn line_of(
    alloc: Global,
    volume: &VolumeConf,
    time: u64,
    words: Words,
) -> Result<Line, NoMemory>
    requires some { 1 ≤ volume.now.home }
    requires small { volume.now.home ≤ 2 ^ 32 }
    ensures { IfOk result (λ l. trace_line l ≡ line_of (target_of volume.now) time words) }
{
    let host = HostName::new(alloc, volume.host.as_bytes())?;
    Ok(Line {
        time,
        host,
        disk: volume.disk,
        kind: kind(words.kind),
        offset: words.offset % volume.home * 512,
        size: (1 + words.size % 16) * 512,
        response: 1_000,
    })
}
