// Bays in memory, with ample memory.
ghost use Rattle.bay_tests.specs.Home.{AreAllHome};
ghost use Rattle.std.specs.Prelude.{◌≡◌, OnOk};
ghost use Rattle.wol_bay.specs.Bay.{Holds};
ghost use Rattle.wol_bay.specs.MemBay.{mem_bay_state};

use super::bay_calls::{read_image, reads, write_image, writes};
use fixtures::same;
use std::alloc::Global;
use std::sync::Arc;
use std::test::Fail;
use wol_bay::{BayFault, MemBay};
use wol_disk::{Block, Failed, Fuse, NoMemory};

// Makes a call of the first part of an image fail.
fn plan_call(bay: &mut MemBay, name: &str, call: u64) -> Result<(), NoMemory>
    requires { AreAllHome (mem_bay_state bay.old) }
    ensures { AreAllHome (mem_bay_state bay.new) }
{
    bay.plan(name, 0, call)
}

// Gives this fuse to what goes out, or none.
fn give_fuse(bay: &mut MemBay, fuse: Option<Arc<Fuse, Global>>)
    requires { AreAllHome (mem_bay_state bay.old) }
    ensures { AreAllHome (mem_bay_state bay.new) }
{
    bay.set_fuse(fuse);
}

// Makes an image of these bytes.
fn put_image(bay: &mut MemBay, name: &str, bytes: &[u8]) -> Result<(), NoMemory>
    requires { AreAllHome (mem_bay_state bay.old) }
    ensures { AreAllHome (mem_bay_state bay.new) }
{
    bay.put(name, bytes)
}

// Takes an image away.
fn remove_image(bay: &mut MemBay, name: &str)
    requires home { AreAllHome (mem_bay_state bay.old) }
    requires there { Holds name.now (mem_bay_state bay.old) }
    ensures { AreAllHome (mem_bay_state bay.new) }
{
    bay.remove(name);
}

// Leaves one of the images that a crash may leave.
fn restart_image(bay: &mut MemBay, name: &str, choice: &[u32])
    requires home { AreAllHome (mem_bay_state bay.old) }
    requires there { Holds name.now (mem_bay_state bay.old) }
    ensures { AreAllHome (mem_bay_state bay.new) }
{
    bay.restart(name, choice);
}

#[test]
fn an_image_goes_out_in_parts(rt: HostRuntime) -> Result<(), Fail> {
    let mut bay = MemBay::new(rt.alloc());
    writes(&mut bay, "usr0", 1, Ok(Ok(())))?;
    writes(&mut bay, "usr0", 2, Ok(Ok(())))?;
    reads(&mut bay, "usr0", &[1, 3], Ok(Ok((2, 2, 0))))?;
    reads(&mut bay, "web0", &[4], Err(BayFault::Absent))?;
    let wrong = BayFault::WrongLength { bytes: 2048 };
    reads(&mut bay, "usr0", &[4, 1], Err(wrong))
}

#[test]
fn planned_calls_of_parts_fail_once(rt: HostRuntime) -> Result<(), Fail> {
    let mut bay = MemBay::new(rt.alloc());
    plan_call(&mut bay, "usr0", 1)?;
    plan_call(&mut bay, "web0", 0)?;
    writes(&mut bay, "usr0", 1, Ok(Err(Failed)))?;
    writes(&mut bay, "usr0", 2, Ok(Ok(())))
}

#[test]
fn a_fuse_stops_what_goes_out(rt: HostRuntime) -> Result<(), Fail> {
    let alloc = rt.alloc();
    let fuse = Arc::new(alloc, Fuse::new(3))?;
    let mut bay = MemBay::new(alloc);
    give_fuse(&mut bay, Some(Arc::try_clone(&fuse)?));
    writes(&mut bay, "usr0", 1, Ok(Ok(())))?;
    writes(&mut bay, "web0", 1, Ok(Err(Failed)))?;
    same(&fuse.passed(), &3)?;
    give_fuse(&mut bay, None);
    writes(&mut bay, "web0", 1, Ok(Ok(())))
}

// A write that stops before its sync and a restart are to leave these bytes.
fn stops(alloc: Global, choice: &[u32], want: (u8, u8, u8)) -> Result<(), Fail> {
    let mut bay = MemBay::new(alloc);
    give_fuse(&mut bay, Some(Arc::new(alloc, Fuse::new(1))?));
    let written = write_image(&mut bay, "usr0", 7)?;
    restart_image(&mut bay, "usr0", choice);
    give_fuse(&mut bay, None);
    reads(&mut bay, "usr0", &[4], Ok(Ok(want)))?;
    same(&written, &Err(Failed))
}

// What is left of a block of the write: its byte where this choice takes it.
fn left_of(choice: u32) -> u8 {
    if choice == 0 { 0 } else { 7 }
}

#[test]
fn a_write_stopped_before_its_sync_leaves_eight_images(rt: HostRuntime) -> Result<(), Fail> {
    for bits in 0..8 {
        let [first, second, third] = [bits & 1, bits >> 1 & 1, bits >> 2 & 1];
        let want = (left_of(first), left_of(second), left_of(third));
        stops(rt.alloc(), &[first, second, third], want)?;
    }
    Ok(())
}

#[test]
fn bytes_are_put_as_an_image_and_taken_away(rt: HostRuntime) -> Result<(), Fail> {
    let mut bay = MemBay::new(rt.alloc());
    let blocks: [Block; 4] = [[1; 512], [2; 512], [3; 512], [4; 512]];
    put_image(&mut bay, "usr0", blocks.as_flattened())?;
    let read = read_image(&mut bay, "usr0", &[4])?;
    remove_image(&mut bay, "usr0");
    same(&read, &Ok((1, 2, 3)))?;
    reads(&mut bay, "usr0", &[4], Err(BayFault::Absent))?;
    put_image(&mut bay, "usr0", &[0; 700])?;
    let wrong = BayFault::WrongLength { bytes: 700 };
    reads(&mut bay, "usr0", &[1], Err(wrong))
}
