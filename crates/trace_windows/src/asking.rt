// What a line asks for: the volume that it belongs to, and its requests.
ghost use Rattle.msr_trace.specs.Hosts.{mark_of};
ghost use Rattle.msr_trace.specs.Lines.{Fits, trace_line};
ghost use Rattle.std.specs.List.{list_any};
ghost use Rattle.std.specs.Prelude.{◌≡◌, false, ◌<◌, ◌≤◌, ◌^◌, ◌++◌, ◌&&◌, ◌==◌, ℕ, length, map, position, take, IfSome, OnOk, OnErr};
ghost use Rattle.std.specs.Str.{bytes_eq};
ghost use Rattle.trace_gen.specs.Generated.{target_of, targets_of};
ghost use Rattle.trace_windows.specs.Requests.{numbered};
ghost use Rattle.wol_config.specs.Configs.{IsValid, most_of};
ghost use Rattle.wol_model.specs.Trace.{home_of, pieces, requests_on, volume_of};

use crate::request::Request;
use msr_trace::{HostName, Line};
use wol_config::{Config, VolumeConf};
use wol_disk::NoMemory;

/// The volume that has the line's host and disk.
pub(crate) fn volume_of(volumes: &[VolumeConf], line: &Line) -> Option<usize>
    ensures value { result ≡ volume_of (map target_of volumes.now) (trace_line line.now) }
    ensures within { IfSome result (λ v. v < length volumes.now) }
{
    place_of(volumes, line)
}

// The place of the volume among the others. A line may be of none, so the marks of their hosts are looked at first.
fn place_of(volumes: &[VolumeConf], line: &Line) -> Option<usize>
    ensures value { result
        ≡ position (λ v. bytes_eq v.host line.now.host && v.disk == line.now.disk) volumes.now }
    ensures within { IfSome result (λ v. v < length volumes.now) }
{
    let start = before_mark(volumes, line.host.mark());
    let place = owner_among(&volumes[start..], line)?;
    Some(start + place)
}

// The place of the first volume that has the line's host and disk.
fn owner_among(volumes: &[VolumeConf], line: &Line) -> Option<usize>
    ensures value { result
        ≡ position (λ v. bytes_eq v.host line.now.host && v.disk == line.now.disk) volumes.now }
    ensures within { IfSome result (λ v. v < length volumes.now) }
{
    volumes.iter().position(|volume| owns(volume, line))
}

// How many volumes there are, in fours, before one whose host has this mark.
fn before_mark(volumes: &[VolumeConf], mark: u16) -> usize
    ensures within { result ≤ length volumes.now }
    ensures none { list_any (λ v. mark_of v.host == mark) (take result volumes.now) ≡ false }
{
    let mut start = 0;
    while volumes.len() - start >= 4 {
        if have_mark_among(&volumes[start..start + 4], mark) {
            return start;
        }
        start += 4;
    }
    start
}

// Whether the host of one of a few volumes has this mark. It has no call, so that a known number of them is no loop.
#[inline(always)]
fn have_mark_among(few: &[VolumeConf], mark: u16) -> bool
    ensures { result ≡ list_any (λ v. mark_of v.host == mark) few.now }
{
    few.iter().any(|volume| volume.host.mark() == mark)
}

// Whether the line is on the volume's disk.
fn owns(volume: &VolumeConf, line: &Line) -> bool
    ensures { result
        ≡ (bytes_eq volume.now.host line.now.host && volume.now.disk == line.now.disk) }
{
    is_same(&volume.host, &line.host) && volume.disk == line.disk
}

// Whether two names are the same.
fn is_same(own: &HostName, asked: &HostName) -> bool
    ensures { result ≡ bytes_eq own.now asked.now }
{
    own.mark() == asked.mark() && own.as_bytes() == asked.as_bytes()
}

// How many blocks the home of a volume has.
fn home_of(config: &Config, volume: usize) -> u64
    requires valid { IsValid config.now }
    requires within { volume < length config.now.volumes.items }
    ensures value { result ≡ home_of (targets_of config.now) volume }
    ensures some { 1 ≤ result }
{
    config.volumes[volume].home
}

/// How many requests a line of this volume has, if it has one: at most 131,073.
pub(crate) fn count_requests(config: &Config, line: &Line, volume: Option<usize>) -> u64
    requires valid { IsValid config.now }
    requires within { IfSome volume (λ v. v < length config.now.volumes.items) }
    requires fits { Fits (trace_line line.now) }
    ensures value { (number : ℕ) → length
        (requests_on (most_of config.now) (targets_of config.now) number (trace_line line.now)
        volume) ≡ result }
    ensures few { result ≤ 131073 }
{
    let Some(volume) = volume else {
        return 0;
    };
    count_pieces(line, home_of(config, volume), config.most())
}

fn count_pieces(line: &Line, home: u64, most: u32) -> u64
    requires home { 0 < home }
    requires most { 0 < most }
    requires fits { Fits (trace_line line.now) }
    ensures { result ≡ length (pieces home most (trace_line line.now)) }
{
    line.pieces(home, most).count() as u64
}

/// Appends the requests of the line with this number; the first of them is request `next` of the trace. `NoMemory` appends
/// nothing.
pub(crate) fn push_requests(
    config: &Config,
    line: &Line,
    number: u64,
    volume: Option<usize>,
    next: u64,
    out: &mut Vec<Request>,
) -> Result<(), NoMemory>
    requires valid { IsValid config.now }
    requires within { IfSome volume (λ v. v < length config.now.volumes.items) }
    requires fits { Fits (trace_line line.now) }
    requires next { next ≤ 2 ^ 62 }
    ensures ok { OnOk result (out.new.items
        ≡ out.old.items ++ numbered next
        (requests_on (most_of config.now) (targets_of config.now) number (trace_line line.now)
        volume)) }
    ensures err { OnErr result (out.new.items ≡ out.old.items) }
{
    let Some(volume) = volume else {
        return Ok(());
    };
    let start = out.len();
    match push_pieces(config, line, number, volume, next, out) {
        Ok(()) => Ok(()),
        Err(NoMemory) => {
            out.truncate(start);
            Err(NoMemory)
        }
    }
}

// The same of a line that belongs to a volume, but some first requests may be left behind.
fn push_pieces(
    config: &Config,
    line: &Line,
    number: u64,
    volume: usize,
    next: u64,
    out: &mut Vec<Request>,
) -> Result<(), NoMemory>
    requires valid { IsValid config.now }
    requires within { volume < length config.now.volumes.items }
    requires fits { Fits (trace_line line.now) }
    requires next { next ≤ 2 ^ 62 }
    ensures ok { OnOk result (out.new.items
        ≡ out.old.items ++ numbered next
        (requests_on (most_of config.now) (targets_of config.now) number (trace_line line.now)
        (Some volume))) }
    ensures starts { take (length out.old.items) out.new.items ≡ out.old.items }
{
    let home = home_of(config, volume);
    let mut place = next;
    for piece in line.pieces(home, config.most()) {
        out.push(Request {
            number: place,
            line: number,
            volume: volume as u32,
            kind: line.kind,
            lbn: piece.lbn,
            count: piece.count,
        })?;
        place += 1;
    }
    Ok(())
}
