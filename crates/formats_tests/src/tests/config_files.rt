// Files that are configurations.
use fixtures::{ONE_BLOCK_EACH, THREE, same, same_at};
use std::test::Fail;
use wol_config::read_config;

const A_LOG_OF_ONE_SEGMENT: &str = r#"segment_blocks = 4
awake_mw = 8000
standby_mw = 1000
wake_mj = 50000
unknown = { key = [1, 2] }
[[volume]]
name = "a"
host = "a"
disk = 0
home_blocks = 100
segments = 0
view = ["b"]
[[volume]]
name = "b"
host = "b"
disk = 0
home_blocks = 100
segments = 1
view = []
"#;

#[test]
fn three_volumes_that_off_load(rt: HostRuntime) -> Result<(), Fail> {
    let config = read_config(rt.alloc(), THREE.as_bytes())?;
    same(&config.segment_blocks, &16)?;
    same(&config.timeout, &600_000_000)?;
    same(&config.powers.awake_mw, &8_000)?;
    same(&config.powers.standby_mw, &1_000)?;
    same(&config.powers.wake_mj, &50_000)?;
    same(&config.most(), &14)?;
    assert!(rt; config.volumes.len() == 3);
    let last = &config.volumes[2];
    same(&last.name.as_str(), &"src0")?;
    same(&last.host.as_bytes(), &b"src".as_slice())?;
    same(&last.disk, &0)?;
    same(&last.home, &1_000)?;
    same(&last.segments, &4)?;
    same(&last.view.ids(), &[1, 0].as_slice())?;
    Ok(())
}

#[test]
fn a_log_of_one_segment(rt: HostRuntime) -> Result<(), Fail> {
    let config = read_config(rt.alloc(), A_LOG_OF_ONE_SEGMENT.as_bytes())?;
    same_at(
        &config.timeout,
        &600_000_000,
        &"the timeout where the key is missing",
    )?;
    same_at(
        &config.wake,
        &100_000_000,
        &"the time of a spin-up where the key is missing",
    )?;
    same(&config.most(), &2)?;
    assert!(rt; config.volumes.len() == 2);
    same(&config.volumes[0].view.ids(), &[1].as_slice())?;
    same(&config.volumes[1].name.as_bytes(), &b"b".as_slice())?;
    same(&config.volumes[1].segments, &1)?;
    Ok(())
}

#[test]
fn a_disk_that_comes_up_in_two_and_a_half_seconds(rt: HostRuntime) -> Result<(), Fail> {
    let mut text = String::from_str(rt.alloc(), "wake_ms = 2500\n")?;
    text.push_str(A_LOG_OF_ONE_SEGMENT)?;
    let config = read_config(rt.alloc(), text.as_bytes())?;
    same(&config.wake, &25_000_000)?;
    Ok(())
}

#[test]
fn three_volumes_of_one_block(rt: HostRuntime) -> Result<(), Fail> {
    let config = read_config(rt.alloc(), ONE_BLOCK_EACH.as_bytes())?;
    assert!(rt; config.volumes.len() == 3);
    for volume in &config.volumes {
        same(&volume.home, &1)?;
        same(&volume.segments, &1)?;
    }
    same(&config.volumes[0].view.ids(), &[1].as_slice())?;
    assert!(rt; config.volumes[2].view.is_empty());
    Ok(())
}
