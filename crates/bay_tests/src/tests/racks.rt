// Small bays in memory, with ample memory.
ghost use Rattle.std.specs.Prelude.{◌≡◌};
ghost use Rattle.volume_images.specs.Volumes.{NoneOut};
ghost use Rattle.wol_bay.specs.Bay.{outs};
ghost use Rattle.wol_config.specs.Configs.{IsValid};

use fixtures::{TWO, config_text};
use manager_recovery::OpenRefusal;
use rack::{VolumeFault, close_all, format, open_all};
use std::alloc::Global;
use std::sync::Wait;
use std::test::Fail;
use wol_bay::{Bay, MemBay};
use wol_config::{Config, read_config};
use wol_disk::NoMemory;

// The volume c is new, so there is no image of it, and b has another home.
const OTHER: &str = config_text!(4:
    "a" of "a" 1 2 "\"b\"",
    "b" of "b" 2 3 "",
    "c" of "c" 1 0 ""
);

// Opens all volumes and closes them: whether they have these faults, and how many stations and spindles there are. None stands for
// want of memory.
fn open_and_close<R: Wait, B: Bay>(
    rt: &R,
    alloc: Global,
    bay: &mut B,
    config: &Config,
    faults: &[Option<VolumeFault>],
) -> Option<(bool, usize, usize)>
    requires config { IsValid config.now }
    requires home { NoneOut config.now (B.state bay.old) }
    ensures { outs (B.state bay.new) ≡ outs (B.state bay.old) }
{
    let rack = match open_all(alloc, rt, bay, config) {
        Ok(rack) => rack,
        Err(NoMemory) => return None,
    };
    let expected = rack.faults.as_slice() == faults;
    let stations = rack.stations.len();
    let spindles = close_all(rack, bay, config);
    Some((expected, stations, spindles.len()))
}

#[test]
fn a_rack_is_opened_again(rt: HostRuntime) -> Result<(), Fail> {
    let config = read_config(rt.alloc(), TWO.as_bytes())?;
    let mut bay = MemBay::new(rt.alloc());
    assert_eq!(rt; format(rt.alloc(), &mut bay, &config), Ok(()));
    let first = open_and_close(&rt, rt.alloc(), &mut bay, &config, &[None, None]);
    assert_eq!(rt; first, Some((true, 2, 2)));
    let second = open_and_close(&rt, rt.alloc(), &mut bay, &config, &[None, None]);
    assert_eq!(rt; second, Some((true, 2, 2)));
    Ok(())
}

#[test]
fn each_refused_volume_has_its_fault(rt: HostRuntime) -> Result<(), Fail> {
    let config = read_config(rt.alloc(), TWO.as_bytes())?;
    let other = read_config(rt.alloc(), OTHER.as_bytes())?;
    let mut bay = MemBay::new(rt.alloc());
    assert_eq!(rt; format(rt.alloc(), &mut bay, &config), Ok(()));
    let missing = VolumeFault::Refused(OpenRefusal::LoggerMissing { id: 1 });
    let longer = VolumeFault::WrongLength { bytes: 7680 };
    let faults = [Some(missing), Some(longer), Some(VolumeFault::Absent)];
    let opened = open_and_close(&rt, rt.alloc(), &mut bay, &other, &faults);
    assert_eq!(rt; opened, Some((true, 0, 3)));
    bay.plan("a", 0, 0)?;
    let opened = open_and_close(
        &rt,
        rt.alloc(),
        &mut bay,
        &config,
        &[Some(VolumeFault::LabelFault), None],
    );
    assert_eq!(rt; opened, Some((true, 1, 2)));
    Ok(())
}
