// What is printed at the end of a run.
ghost use Rattle.energy.specs.Journal.{millijoules};
ghost use Rattle.report.specs.Names.{printed_names};
ghost use Rattle.report.specs.Summaries.{places_text, requests_text, sleeps_of, solo_text, summary_text, total_text, units_of, volume_text, volumes_text, wakes_of};
ghost use Rattle.std.specs.Io.{StartsWith};
ghost use Rattle.std.specs.Prelude.{◌≡◌, ◌++◌, ◌≤◌, ◌<◌, ◌^◌, length, OnOk, OnErr};

use crate::names::name_at;
use crate::words::Word::{Large, Number, Text};
use crate::words::{append_line, put_ended};
use energy::Amounts;
use wol_config::VolumeConf;
use wol_disk::NoMemory;

/// What a run counts.
#[derive(Clone, Copy, Debug, PartialEq, Eq)]
pub struct Totals {
    /// All lines.
    pub lines: u64,
    pub blank: u64,
    /// Lines that belong to no volume.
    pub skipped: u64,
    /// Read requests that were answered.
    pub reads: u64,
    /// Write requests that were answered.
    pub writes: u64,
    /// Answered writes that went home.
    pub home: u64,
    /// Answered writes that went to a log.
    pub log: u64,
    /// Answered writes that went home after a drain.
    pub drains: u64,
    /// Blocks that were put home.
    pub blocks: u64,
    /// Records that were dropped.
    pub records: u64,
    /// The time from the first line to the last, in units of 100 ns.
    pub span: u64,
}

/// Appends the last line of `solo`: its lines and requests. `NoMemory` appends nothing.
#[tactic(auto, unfolding(crate::specs::Summaries::solo_text))]
pub fn solo_line(totals: &Totals, out: &mut Vec<u8>) -> Result<(), NoMemory>
    ensures ok { OnOk result (out.new.items ≡ out.old.items ++ solo_text totals.now) }
    ensures err { OnErr result (out.new.items ≡ out.old.items) }
{
    append_line(
        &[
            Text(b"solo lines"),
            Number(totals.lines),
            Text(b"blank"),
            Number(totals.blank),
            Text(b"skipped"),
            Number(totals.skipped),
            Text(b"reads"),
            Number(totals.reads),
            Text(b"writes"),
            Number(totals.writes),
        ],
        out,
    )
}

/// Appends the summary of a run: what it counted, what the disk of each volume used, and what all disks used. The energy
/// is in mJ, each rounded down once. `NoMemory` appends nothing.
///
/// No volumes stand for `solo`, which has one volume of this name, and one entry in `amounts`.
#[tactic(auto, unfolding(crate::specs::Summaries::summary_text))]
pub fn summary(
    totals: &Totals,
    volumes: &[VolumeConf],
    amounts: &[Amounts],
    out: &mut Vec<u8>,
) -> Result<(), NoMemory>
    requires each { length amounts.now ≡ length (printed_names volumes.now) }
    requires few { length volumes.now ≤ 64 }
    requires units { units_of amounts.now < 2 ^ 128 }
    ensures ok { OnOk result (out.new.items
        ≡ out.old.items ++ summary_text totals.now (printed_names volumes.now) amounts.now) }
    ensures err { OnErr result (out.new.items ≡ out.old.items) }
{
    let start = out.len();
    if put_counts(totals, out).is_ok() && put_disks(volumes, amounts, out).is_ok() {
        return Ok(());
    }
    out.truncate(start);
    Err(NoMemory)
}

// What a run counted. A front of that may be left behind.
fn put_counts(totals: &Totals, out: &mut Vec<u8>) -> Result<(), NoMemory>
    ensures ok { OnOk result
        (out.new.items ≡ out.old.items ++ requests_text totals.now ++ places_text totals.now) }
    ensures starts { StartsWith out.new.items out.old.items }
{
    put_requests(totals, out)?;
    put_places(totals, out)
}

// What the disk of each volume used, and what all disks used. A front of that may be left behind.
fn put_disks(volumes: &[VolumeConf], amounts: &[Amounts], out: &mut Vec<u8>) -> Result<(), NoMemory>
    requires each { length amounts.now ≡ length (printed_names volumes.now) }
    requires few { length amounts.now ≤ 64 }
    requires units { units_of amounts.now < 2 ^ 128 }
    ensures ok { OnOk result (out.new.items ≡ out.old.items
        ++ volumes_text (printed_names volumes.now) amounts.now ++ total_text amounts.now) }
    ensures starts { StartsWith out.new.items out.old.items }
{
    for (number, used) in amounts.iter().enumerate() {
        append_volume(name_at(volumes, number as u32), used, out)?;
    }
    append_total(amounts, out)
}

// What was read and answered.
#[tactic(auto, unfolding(crate::specs::Summaries::requests_text))]
fn put_requests(totals: &Totals, out: &mut Vec<u8>) -> Result<(), NoMemory>
    ensures ok { OnOk result (out.new.items ≡ out.old.items ++ requests_text totals.now) }
    ensures starts { StartsWith out.new.items out.old.items }
{
    append_line(
        &[
            Text(b"lines"),
            Number(totals.lines),
            Text(b"blank"),
            Number(totals.blank),
            Text(b"skipped"),
            Number(totals.skipped),
        ],
        out,
    )?;
    append_line(
        &[
            Text(b"reads"),
            Number(totals.reads),
            Text(b"writes"),
            Number(totals.writes),
        ],
        out,
    )
}

// Where writes went, what was reclaimed, and how long it took.
#[tactic(auto, unfolding(crate::specs::Summaries::places_text))]
fn put_places(totals: &Totals, out: &mut Vec<u8>) -> Result<(), NoMemory>
    ensures ok { OnOk result (out.new.items ≡ out.old.items ++ places_text totals.now) }
    ensures starts { StartsWith out.new.items out.old.items }
{
    append_line(
        &[
            Text(b"placed home"),
            Number(totals.home),
            Text(b"log"),
            Number(totals.log),
            Text(b"drains"),
            Number(totals.drains),
        ],
        out,
    )?;
    append_line(
        &[
            Text(b"reclaimed blocks"),
            Number(totals.blocks),
            Text(b"records"),
            Number(totals.records),
        ],
        out,
    )?;
    append_line(&[Text(b"span"), Number(totals.span)], out)
}

// What the disk of one volume used.
#[tactic(auto, unfolding(crate::specs::Summaries::volume_text))]
fn append_volume(name: &[u8], used: &Amounts, out: &mut Vec<u8>) -> Result<(), NoMemory>
    ensures ok { OnOk result (out.new.items ≡ out.old.items ++ volume_text name.now used.now) }
    ensures err { OnErr result (out.new.items ≡ out.old.items) }
{
    append_line(
        &[
            Text(b"volume"),
            Text(name),
            Text(b"wakes"),
            Number(used.wakes),
            Text(b"sleeps"),
            Number(used.sleeps),
            Text(b"awake"),
            Number(used.awake),
            Text(b"standby"),
            Number(used.standby),
            Text(b"energy"),
            Large(millijoules(used.units)),
        ],
        out,
    )
}

// What all disks used.
#[tactic(auto, unfolding(crate::specs::Summaries::total_text))]
fn append_total(amounts: &[Amounts], out: &mut Vec<u8>) -> Result<(), NoMemory>
    requires few { length amounts.now ≤ 64 }
    requires units { units_of amounts.now < 2 ^ 128 }
    ensures ok { OnOk result (out.new.items ≡ out.old.items ++ total_text amounts.now) }
    ensures err { OnErr result (out.new.items ≡ out.old.items) }
{
    let sums = sum_up(amounts);
    append_line(
        &[
            Text(b"total wakes"),
            Large(sums.wakes),
            Text(b"sleeps"),
            Large(sums.sleeps),
            Text(b"energy"),
            Large(millijoules(sums.units)),
        ],
        out,
    )
}

// Sums over all disks.
#[derive(Clone, Copy)]
struct Sums {
    wakes: u128,
    sleeps: u128,
    units: u128,
}

fn sum_up(amounts: &[Amounts]) -> Sums
    requires few { length amounts.now ≤ 64 }
    requires units { units_of amounts.now < 2 ^ 128 }
    ensures wakes { result.wakes ≡ wakes_of amounts.now }
    ensures sleeps { result.sleeps ≡ sleeps_of amounts.now }
    ensures units { result.units ≡ units_of amounts.now }
{
    let mut wakes = 0;
    let mut sleeps = 0;
    let mut units = 0;
    for used in amounts {
        let (up, down) = (used.wakes, used.sleeps);
        wakes += u128::from(up);
        sleeps += u128::from(down);
        units += used.units;
    }
    Sums {
        wakes,
        sleeps,
        units,
    }
}

// Energy in mJ, rounded down.
fn millijoules(units: u128) -> u128
    ensures { result ≡ millijoules units }
{
    units / 10_000_000
}
