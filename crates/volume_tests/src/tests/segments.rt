// Segments that are stopped, and read back after a restart.
ghost use Rattle.log_segment.specs.Segment.{IsFree, free_volume};
ghost use Rattle.spin_model.specs.Spun.{token_volume, volume_of};
ghost use Rattle.std.specs.Prelude.{◌≡◌, ◌≤◌, IfOk};
ghost use Rattle.wol_disk.specs.Memory.{mem_state};

use super::opening::open_segment;
use log_layout::{RecHead, SegHead, write_rec, write_seg};
use log_scan::Adopted;
use log_scan::calls::scan;
use log_segment::{FreeSegment, Item};
use spin_model::{Awake, Spindle, Spun};
use std::alloc::Global;
use std::sync::Arc;
use std::test::Fail;
use wol_disk::{Block, Disk, Fuse, MemDisk, StopDisk};

// A disk of 16 blocks that is a free segment.
fn free_disk(alloc: Global) -> Result<MemDisk, Fail>
    ensures { IfOk result (λ d. (mem_state d).size ≡ 16) }
{
    let mut disk = MemDisk::new(alloc, 16)?;
    let mut head = [0; 512];
    write_seg(&SegHead::Free, &mut head);
    disk.write(0, &[head])?;
    disk.sync()?;
    Ok(disk)
}

// The number of records and the end, as a scan of the disk tells them.
fn scanned(alloc: Global, token: &Awake, disk: MemDisk) -> Result<(usize, u32), Fail>
    requires { token_volume token.now ≡ 3 }
{
    if disk.blocks() < 4 || disk.blocks() > 65536 {
        return Err(Fail::from("no segment"));
    }
    let mut part = Spun::new(3, disk);
    match scan(alloc, token, &mut part) {
        Ok(found) => Ok((found.records.len(), found.end)),
        Err(_) => Err(Fail::from("no scan")),
    }
}

// Claims the segment, and adds as many records of one block, alone or as a group.
fn written<D: Disk>(free: FreeSegment<D>, token: &Awake, records: usize) -> Spun<D>
    requires shape { IsFree D.state free }
    requires volume { token_volume token.now ≡ free_volume free }
    ensures { volume_of result ≡ free_volume free }
{
    match free.claim(token, 7) {
        Ok(mut segment) => {
            if records == 1 {
                let _ = segment.append(token, 1, 5, &[[9; 512]]);
            } else if segment.room() >= 7 {
                let items = [
                    Item { lbn: 1, count: 1 },
                    Item { lbn: 2, count: 1 },
                    Item { lbn: 3, count: 1 },
                    Item { lbn: 4, count: 1 },
                ];
                let _ = segment.append_group(
                    token,
                    1,
                    &items,
                    &[[1; 512], [2; 512], [3; 512], [4; 512]],
                );
            }
            segment.into_part()
        }
        Err((_, segment)) => segment.into_part(),
    }
}

// How many records are found where the disk stops after so many calls and is restarted with these choices. Two calls
// are those of the scan, four those of the claim, and the others those of the records.
fn left_after(
    alloc: Global,
    token: &Awake,
    calls: u64,
    records: usize,
    choice: &[u32],
) -> Result<usize, Fail>
    requires { token_volume token.now ≡ 3 }
{
    let fuse = Arc::new(alloc, Fuse::new(calls))?;
    let part = Spun::new(3, StopDisk::new(free_disk(alloc)?, Some(fuse)));
    let left = match open_segment(alloc, token, part) {
        Ok(Adopted::Free(free)) => written(free, token, records),
        _ => return Err(Fail::from("not free")),
    };
    let mut disk = left.into_inner().into_inner();
    disk.restart(choice);
    Ok(scanned(alloc, token, disk)?.0)
}

fn records_left(alloc: Global, calls: u64, records: usize, choice: &[u32]) -> Result<usize, Fail> {
    let mut spindle = Spindle::new(3, 100);
    let token = spindle.need();
    let left = left_after(alloc, &token, calls, records, choice);
    spindle.done(token);
    left
}

#[test]
fn a_record_is_there_once_its_head_is(rt: HostRuntime) -> Result<(), Fail> {
    let alloc = rt.alloc();
    let rows: [(u64, &[u32], usize); 6] = [
        (8, &[], 0),
        (8, &[1, 1, 1, 1], 0),
        (9, &[], 1),
        (9, &[0, 1], 1),
        (9, &[0, 0], 0),
        (10, &[0, 0], 1),
    ];
    for (calls, choice, want) in rows {
        let left = records_left(alloc, calls, 1, choice)?;
        assert!(rt; left == want, "{calls} {choice:?}: {left}");
    }
    Ok(())
}

#[test]
fn a_stop_leaves_the_first_ones_of_a_group(rt: HostRuntime) -> Result<(), Fail> {
    let alloc = rt.alloc();
    for (choice, want) in [
        ([0, 0, 0, 0, 0, 0, 0, 0], 0),
        ([0, 1, 0, 0, 0, 0, 0, 0], 1),
        ([0, 1, 0, 1, 0, 0, 0, 0], 2),
        ([0, 0, 0, 1, 0, 0, 0, 0], 0),
        ([0, 1, 0, 1, 0, 1, 0, 0], 3),
        ([0, 1, 0, 0, 0, 1, 0, 1], 1),
        ([0, 1, 0, 1, 0, 1, 0, 1], 4),
    ] {
        let left = records_left(alloc, 15, 4, &choice)?;
        assert!(rt; left == want, "{choice:?}: {left}");
    }
    assert!(rt; records_left(alloc, 16, 4, &[0, 0])? == 4);
    Ok(())
}

// A segment whose first record has a block that spells a head is given up, and gets a shorter record.
fn used_again(alloc: Global, token: &Awake) -> Result<(usize, u32), Fail>
    requires { token_volume token.now ≡ 3 }
{
    let Ok(Adopted::Free(free)) = open_segment(alloc, token, Spun::new(3, free_disk(alloc)?)) else {
        return Err(Fail::from("not free"));
    };
    let Ok(mut segment) = free.claim(token, 7) else {
        return Err(Fail::from("no claim"));
    };
    let head = RecHead {
        form: 2,
        keep: 3,
        owner: 7,
        version: 1,
        lbn: 5,
        count: 2,
    };
    let stale = RecHead {
        keep: 1,
        version: 9,
        count: 1,
        ..head
    };
    let mut block = [0; 512];
    write_rec(&stale, &mut block);
    let position = segment.append(token, 1, 5, &[[1; 512], block])?;
    segment.trim(token, position, &head, 0)?;
    let Ok(free) = segment.retire(token) else {
        return Err(Fail::from("not retired"));
    };
    let Ok(mut segment) = free.claim(token, 7) else {
        return Err(Fail::from("no claim"));
    };
    segment.append(token, 2, 5, &[[2; 512]])?;
    let mut part = segment.into_part();
    match scan(alloc, token, &mut part) {
        Ok(found) => Ok((found.records.len(), found.end)),
        Err(_) => Err(Fail::from("no scan")),
    }
}

#[test]
fn a_stale_head_behind_the_gate_is_no_record(rt: HostRuntime) -> Result<(), Fail> {
    let mut spindle = Spindle::new(3, 100);
    let token = spindle.need();
    let found = used_again(rt.alloc(), &token);
    spindle.done(token);
    assert!(rt; found? == (1, 3));
    Ok(())
}
