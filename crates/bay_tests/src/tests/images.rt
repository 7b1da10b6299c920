// Two small volumes that are formatted in a bay in memory, with ample memory.
ghost use Rattle.log_layout.specs.Values.{shape_of};
ghost use Rattle.std.specs.Prelude.{◌≡◌, ◌≤◌, length, MatchOption, OnErr};
ghost use Rattle.wol_bay.specs.Bay.{IsHome, outs};
ghost use Rattle.wol_model.specs.Heads.{IsShape};

use fixtures::{TWO, read_image};
use log_layout::{Label, SegHead};
use spin_model::Spindle;
use std::alloc::Global;
use std::sync::Wait;
use std::test::Fail;
use turn_lock::TurnLock;
use volume_images::{ImageRefusal, OutImage, PartName, RackFault, format, open_image};
use wol_bay::{Bay, MemBay};
use wol_config::read_config;
use wol_disk::Block;

const LABEL: Label = Label {
    id: 0,
    home: 1,
    segments: 2,
    segment_blocks: 4,
};

// These bytes, and zeros behind them.
fn block(front: &[u8]) -> Block
    requires { length front.now ≤ 512 }
{
    let mut b = [0; 512];
    b[..front.len()].copy_from_slice(front);
    b
}

#[test]
fn each_image_is_whole(rt: HostRuntime) -> Result<(), Fail> {
    let config = read_config(rt.alloc(), TWO.as_bytes())?;
    let mut bay = MemBay::new(rt.alloc());
    assert_eq!(rt; format(rt.alloc(), &mut bay, &config), Ok(()));
    let mut blocks = [[9; 512]; 8];
    read_image(&mut bay, "a", 11, &mut blocks)?;
    assert!(rt; blocks[0] == block(b"WOLVOL01\0\0\0\0\x01\0\0\0\0\0\0\0\x02\0\0\0\x04\0\0\0"));
    assert!(rt; blocks[1] == block(b"WOLVIEW1\x01\0\0\0\x01\0\0\0"));
    assert!(rt; blocks[2] == [0; 512]);
    assert!(rt; blocks[3] == block(b"WOLSEGF1"));
    assert!(rt; blocks[4] == [0; 512]);
    assert!(rt; blocks[7] == block(b"WOLSEGF1"));
    Ok(())
}

#[test]
fn a_failed_part_is_named(rt: HostRuntime) -> Result<(), Fail> {
    let config = read_config(rt.alloc(), TWO.as_bytes())?;
    let mut bay = MemBay::new(rt.alloc());
    bay.plan("a", 3, 0)?;
    let failed = RackFault::Failed {
        volume: 0,
        part: PartName::Segment(1),
    };
    assert_eq!(rt; format(rt.alloc(), &mut bay, &config), Err(failed));
    let mut blocks = [[9; 512]; 2];
    read_image(&mut bay, "a", 11, &mut blocks)?;
    assert!(rt; blocks[0] == [0; 512]);
    assert!(rt; blocks[1] == block(b"WOLVIEW1\x01\0\0\0\x01\0\0\0"));
    bay.plan("b", 0, 2)?;
    let unlabelled = RackFault::Failed {
        volume: 1,
        part: PartName::Label,
    };
    assert_eq!(rt; format(rt.alloc(), &mut bay, &config), Err(unlabelled));
    Ok(())
}

// Opens an image in turns of a lock of its own. It is None where there was no memory for the lock.
fn open_alone<R: Wait, B: Bay>(
    rt: &R,
    alloc: Global,
    bay: &mut B,
    name: &str,
    want: &Label,
) -> Option<Result<OutImage<B::Part>, ImageRefusal>>
    requires shape { IsShape (shape_of want.now) }
    requires home { IsHome name.now (B.state bay.old) }
    ensures { MatchOption result (outs (B.state bay.new) ≡ outs (B.state bay.old))
        (λ r. OnErr r (outs (B.state bay.new) ≡ outs (B.state bay.old))) }
{
    match TurnLock::new(alloc, Spindle::new(want.id, 600), 1, 0) {
        Ok((lock, mut passes)) => {
            let opened = open_image(alloc, rt, bay, name, want, 2, &lock, &mut passes[0]);
            let _spindle = lock.close(passes);
            Some(opened)
        }
        Err(_) => None,
    }
}

#[test]
fn an_absent_image_is_refused(rt: HostRuntime) -> Result<(), Fail> {
    let mut bay = MemBay::new(rt.alloc());
    let opened = open_alone(&rt, rt.alloc(), &mut bay, "a", &LABEL).ok_or("no memory")?;
    assert_eq!(rt; opened.err(), Some(ImageRefusal::Absent));
    Ok(())
}

#[test]
fn a_formatted_image_is_opened(rt: HostRuntime) -> Result<(), Fail> {
    let config = read_config(rt.alloc(), TWO.as_bytes())?;
    let mut bay = MemBay::new(rt.alloc());
    assert_eq!(rt; format(rt.alloc(), &mut bay, &config), Ok(()));
    let opened = open_alone(&rt, rt.alloc(), &mut bay, "a", &LABEL).ok_or("no memory")?;
    let Ok(image) = opened else {
        return Err(Fail::from("not opened"));
    };
    assert_eq!(rt; image.view.ids(), [1].as_slice());
    assert_eq!(rt;
        image.heads.as_slice(),
        [SegHead::Free, SegHead::Free].as_slice()
    );
    Ok(())
}
