// Disks in memory and disks that stop, with ample memory.
ghost use Rattle.std.specs.Prelude.{◌≡◌, ◌≤◌};

use fixtures::same;
use std::alloc::Global;
use std::sync::Arc;
use std::test::Fail;
use wol_disk::{Block, Disk, Failed, Fuse, MemDisk, StopDisk};

// Writes bytes to the first block.
fn write_one<D: Disk>(disk: &mut D, byte: u8) -> Result<(), Failed>
    requires { 1 ≤ (D.state disk.old).size }
    ensures { (D.state disk.new).size ≡ (D.state disk.old).size }
{
    disk.write(0, &[[byte; 512]])
}

// Writes bytes to the first three blocks.
fn write_three<D: Disk>(disk: &mut D, first: u8, second: u8, third: u8) -> Result<(), Failed>
    requires { 3 ≤ (D.state disk.old).size }
    ensures { (D.state disk.new).size ≡ (D.state disk.old).size }
{
    disk.write(0, &[[first; 512], [second; 512], [third; 512]])
}

// The first bytes of the first three blocks, as the disk reads.
fn first_bytes<D: Disk>(disk: &mut D) -> Result<(u8, u8, u8), Failed>
    requires { 3 ≤ (D.state disk.old).size }
    ensures { (D.state disk.new).size ≡ (D.state disk.old).size }
{
    let mut out: [Block; 3] = [[9; 512]; 3];
    disk.read(0, &mut out)?;
    Ok((out[0][0], out[1][0], out[2][0]))
}

// What a restart with this choice leaves of a disk whose first blocks were written, and synced or not.
fn left(alloc: Global, choice: &[u32], synced: bool) -> Result<(u8, u8, u8), Failed> {
    let Ok(mut disk) = MemDisk::new(alloc, 4) else {
        return Err(Failed);
    };
    write_three(&mut disk, 1, 2, 3)?;
    if synced {
        disk.sync()?;
    }
    disk.restart(choice);
    first_bytes(&mut disk)
}

#[test]
fn a_write_that_was_not_synced_leaves_eight_images(rt: HostRuntime) -> Result<(), Fail> {
    for (choice, want) in [
        ([0, 0, 0], (0, 0, 0)),
        ([1, 0, 0], (1, 0, 0)),
        ([0, 1, 0], (0, 2, 0)),
        ([1, 1, 0], (1, 2, 0)),
        ([0, 0, 1], (0, 0, 3)),
        ([1, 0, 1], (1, 0, 3)),
        ([0, 1, 1], (0, 2, 3)),
        ([3, 1, 5], (1, 2, 3)),
    ] {
        same(&left(rt.alloc(), &choice, false), &Ok(want))?;
    }
    same(&left(rt.alloc(), &[], false), &Ok((1, 2, 3)))?;
    same(&left(rt.alloc(), &[0, 0, 0], true), &Ok((1, 2, 3)))?;
    Ok(())
}

#[test]
fn the_planned_calls_fail_and_no_other(rt: HostRuntime) -> Result<(), Fail> {
    let mut disk = MemDisk::new(rt.alloc(), 4)?;
    disk.fail(1)?;
    disk.fail(3)?;
    same(&disk.blocks(), &4)?;
    write_one(&mut disk, 1)?;
    assert!(rt; write_one(&mut disk, 2).is_err());
    same(&first_bytes(&mut disk)?, &(1, 0, 0))?;
    assert!(rt; disk.sync().is_err());
    disk.sync()?;
    Ok(())
}

#[test]
fn a_fuse_stops_its_disks_in_the_middle_of_a_write(rt: HostRuntime) -> Result<(), Fail> {
    let alloc = rt.alloc();
    let fuse = Arc::new(alloc, Fuse::new(2))?;
    let mut one = StopDisk::new(MemDisk::new(alloc, 4)?, Some(Arc::try_clone(&fuse)?));
    let mut two = StopDisk::new(MemDisk::new(alloc, 4)?, Some(Arc::try_clone(&fuse)?));
    write_one(&mut one, 1)?;
    two.sync()?;
    assert!(rt; write_three(&mut one, 2, 3, 4).is_err());
    assert!(rt; one.sync().is_err());
    assert!(rt; write_three(&mut two, 5, 6, 7).is_err());
    same(&one.faults(), &2)?;
    same(&two.faults(), &1)?;
    same(&fuse.passed(), &2)?;
    same(&first_bytes(&mut one.into_inner())?, &(2, 0, 0))?;
    same(&first_bytes(&mut two.into_inner())?, &(0, 0, 0))?;
    Ok(())
}

#[test]
fn without_a_fuse_a_disk_fails_as_its_inner_disk_does(rt: HostRuntime) -> Result<(), Fail> {
    let mut inner = MemDisk::new(rt.alloc(), 4)?;
    inner.fail(1)?;
    let mut disk = StopDisk::new(inner, None);
    write_one(&mut disk, 1)?;
    assert!(rt; disk.sync().is_err());
    same(&disk.faults(), &1)?;
    same(&first_bytes(&mut disk)?, &(1, 0, 0))?;
    same(&disk.faults(), &1)?;
    Ok(())
}
