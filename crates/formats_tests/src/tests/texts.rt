// Texts that were worked out by hand from the formats.
ghost use Rattle.std.specs.Prelude.{◌≡◌, length, IfOk};

use energy::Amounts;
use fixtures::{NOTHING_REPLAYED, OFFLOADS_RECLAIMED, THREE, same_text};
use msr_trace::BadLine;
use report::{
    Fault, Totals, Trouble, fault_text, format_line, read_line_text, solo_line, summary,
    trouble_text,
};
use std::alloc::Global;
use std::process::Abort;
use std::test::Fail;
use wol_config::{Config, ConfigFault, Key, read_config};

const NOTHING: Totals = Totals {
    lines: 0,
    blank: 0,
    skipped: 0,
    reads: 0,
    writes: 0,
    home: 0,
    log: 0,
    drains: 0,
    blocks: 0,
    records: 0,
    span: 0,
};

const UNUSED: Amounts = Amounts {
    wakes: 0,
    sleeps: 0,
    awake: 0,
    standby: 0,
    units: 0,
};

// Those of `OFFLOADS`, and what each volume's disk did then.
const RECLAIMED: Totals = Totals {
    lines: 12,
    blank: 0,
    skipped: 0,
    reads: 6,
    writes: 6,
    home: 4,
    log: 2,
    drains: 0,
    blocks: 3,
    records: 2,
    span: 4_000_000_000,
};

const TURNED: [Amounts; 3] = [
    Amounts {
        wakes: 1,
        sleeps: 2,
        awake: 1_500_000_000,
        standby: 2_500_000_000,
        units: 15_000_000_000_000,
    },
    Amounts {
        wakes: 2,
        sleeps: 2,
        awake: 3_400_000_000,
        standby: 600_000_000,
        units: 28_800_000_000_000,
    },
    Amounts {
        wakes: 1,
        sleeps: 1,
        awake: 600_000_000,
        standby: 3_400_000_000,
        units: 8_700_000_000_000,
    },
];

// The configuration of `THREE`.
fn three_volumes(rt: &impl Abort, alloc: Global) -> Result<Config, Fail>
    ensures { IfOk result (λ config. length config.volumes.items ≡ 3) }
{
    let config = read_config(alloc, THREE.as_bytes())?;
    assert!(rt; config.volumes.len() == 3);
    Ok(config)
}

#[test]
fn sums_up_runs(rt: HostRuntime) -> Result<(), Fail> {
    let config = three_volumes(&rt, rt.alloc())?;
    let mut out = Vec::new(rt.alloc());
    summary(&NOTHING, &config.volumes, &[UNUSED; 3], &mut out)?;
    same_text(&out, NOTHING_REPLAYED)?;
    let mut out = Vec::new(rt.alloc());
    summary(&RECLAIMED, &config.volumes, &TURNED, &mut out)?;
    same_text(&out, OFFLOADS_RECLAIMED)
}

#[test]
fn tells_reads_and_requests(rt: HostRuntime) -> Result<(), Fail> {
    let config = three_volumes(&rt, rt.alloc())?;
    let totals = Totals {
        lines: 2,
        reads: 1,
        writes: 1,
        ..NOTHING
    };
    let mut out = Vec::new(rt.alloc());
    read_line_text(None, 2, 0, 1, 1, &mut out)?;
    read_line_text(Some(&config.volumes[1].name), 3, 16, 2, 4, &mut out)?;
    format_line(&config.volumes[0].name, 1066, &mut out)?;
    solo_line(&totals, &mut out)?;
    same_text(
        &out,
        b"read 2 0 1 1
read 3 web0 16 2 4
format usr0 blocks 1066
solo lines 2 blank 0 skipped 0 reads 1 writes 1
",
    )
}

#[test]
fn tells_what_is_wrong_with_volumes(rt: HostRuntime) -> Result<(), Fail> {
    let config = three_volumes(&rt, rt.alloc())?;
    let volumes = config.volumes.as_slice();
    let mut out = Vec::new(rt.alloc());
    let twins = Trouble::Twins {
        first_volume: 1,
        first: 1003,
        second_volume: 1,
        second: 1005,
    };
    trouble_text(volumes, &twins, &mut out)?;
    trouble_text(volumes, &Trouble::LoggerMissing { id: 1 }, &mut out)?;
    trouble_text(volumes, &Trouble::Absent, &mut out)?;
    same_text(
        &out,
        b"twins 1003 of web0 and 1005 of web0logger 1 missingabsent",
    )
}

#[test]
fn tells_faults(rt: HostRuntime) -> Result<(), Fail> {
    let config = three_volumes(&rt, rt.alloc())?;
    let volumes = config.volumes.as_slice();
    let mut out = Vec::new(rt.alloc());
    fault_text(
        volumes,
        &Fault::Volume {
            volume: 1,
            trouble: Trouble::Damaged {
                volume: 1,
                block: 0,
            },
        },
        &mut out,
    )?;
    fault_text(
        volumes,
        &Fault::Line {
            line: 1,
            why: BadLine::Kind,
        },
        &mut out,
    )?;
    fault_text(
        volumes,
        &Fault::Volume {
            volume: 0,
            trouble: Trouble::Length { bytes: 1000 },
        },
        &mut out,
    )?;
    fault_text(
        volumes,
        &Fault::Config(ConfigFault::OutOfRange {
            key: Key::HomeBlocks,
        }),
        &mut out,
    )?;
    fault_text(
        volumes,
        &Fault::Config(ConfigFault::Missing {
            key: Key::SegmentBlocks,
        }),
        &mut out,
    )?;
    fault_text(&[], &Fault::TraceSource, &mut out)?;
    fault_text(
        &[],
        &Fault::Volume {
            volume: 0,
            trouble: Trouble::Home,
        },
        &mut out,
    )?;
    fault_text(volumes, &Fault::Versions { volume: 0 }, &mut out)?;
    same_text(
        &out,
        b"fault 5 web0 damaged 0 of web0
fault 3 line 1 kind
fault 5 usr0 length 1000
fault 2 config out of range home_blocks
fault 2 config missing segment_blocks
fault 8 trace
fault 4 solo disk home
fault 11 versions usr0
",
    )
}
