// Labels and views that were written down by hand, stored in parts in memory and loaded.
ghost use Rattle.spin_model.specs.Spun.{volume_of, disk_of, token_volume};
ghost use Rattle.std.specs.Prelude.{◌≡◌, IfOk};
ghost use Rattle.wol_disk.specs.Memory.{mem_state};

use super::layout::{LABEL, block};
use log_layout::View;
use logger_view::{ViewFault, load, store_free, store_label, store_view};
use spin_model::{Awake, Spindle, Spun};
use std::alloc::Global;
use std::process::Abort;
use std::test::Fail;
use wol_disk::{Failed, MemDisk, NoMemory};

// A part of volume 3 with two blocks of zeros.
fn zeros(alloc: Global) -> Result<Spun<MemDisk>, NoMemory>
    ensures volume { IfOk result (λ p. volume_of p ≡ 3) }
    ensures size { IfOk result (λ p. (mem_state (disk_of p)).size ≡ 2) }
{
    Ok(Spun::new(3, MemDisk::new(alloc, 2)?))
}

// Stores label and view, and loads them for other volumes, one of which the view names.
fn store_and_load(rt: &impl Abort, alloc: Global, token: &Awake) -> Result<(), Fail>
    requires { token_volume token.now ≡ 3 }
{
    let mut part = zeros(alloc)?;
    let view = View::new(&[1, 0]).ok_or("two ids")?;
    let fresh = load(token, &mut part, 3);
    assert!(rt; matches!(&fresh, Err(ViewFault::Damaged { block: 0 })));
    store_view(token, &mut part, &view)?;
    store_label(token, &mut part, &LABEL)?;
    let mut blocks = [[9; 512]; 2];
    part.read(token, 0, &mut blocks)?;
    assert!(rt; blocks[0] == block(b"WOLVOL01\0\0\0\0\xe8\x03\0\0\0\0\0\0\x04\0\0\0\x10\0\0\0"));
    assert!(rt; blocks[1] == block(b"WOLVIEW1\x02\0\0\0\x01\0\0\0\0\0\0\0"));
    match load(token, &mut part, 3) {
        Ok((label, view)) => {
            assert!(rt; label == LABEL);
            assert!(rt; view.ids() == [1, 0].as_slice());
        }
        Err(_) => return Err(Fail::from("not loaded")),
    }
    let own = load(token, &mut part, 1);
    assert!(rt; matches!(&own, Err(ViewFault::Damaged { block: 1 })));
    Ok(())
}

// The first of two damaged blocks is told, and a failed call before any damage.
fn load_damaged(rt: &impl Abort, alloc: Global, token: &Awake) -> Result<(), Fail>
    requires { token_volume token.now ≡ 3 }
{
    let mut part = zeros(alloc)?;
    let segments_of_three = block(b"WOLVOL01\0\0\0\0\xe8\x03\0\0\0\0\0\0\x04\0\0\0\x03\0\0\0");
    let view = block(b"WOLVIEW1\x01\0\0\0\x03\0\0\0");
    part.write(token, 0, &[segments_of_three, view])?;
    let both = load(token, &mut part, 3);
    assert!(rt; matches!(&both, Err(ViewFault::Damaged { block: 0 })));
    for call in 0..2 {
        let mut disk = MemDisk::new(alloc, 2)?;
        disk.fail(call)?;
        let failed = load(token, &mut Spun::new(3, disk), 3);
        assert!(rt; matches!(&failed, Err(ViewFault::Failed)));
    }
    Ok(())
}

// A part of zeros becomes a free segment; a failed call is told.
fn free_segment(rt: &impl Abort, alloc: Global, token: &Awake) -> Result<(), Fail>
    requires { token_volume token.now ≡ 3 }
{
    let mut part = Spun::new(3, MemDisk::new(alloc, 4)?);
    store_free(token, &mut part)?;
    let mut blocks = [[9; 512]; 2];
    part.read(token, 0, &mut blocks)?;
    assert!(rt; blocks[0] == block(b"WOLSEGF1"));
    assert!(rt; blocks[1] == [0; 512]);
    for call in 0..2 {
        let mut disk = MemDisk::new(alloc, 4)?;
        disk.fail(call)?;
        assert!(rt; store_free(token, &mut Spun::new(3, disk)) == Err(Failed));
    }
    Ok(())
}

// All of them in one turn of the disk.
fn store_load_and_free(rt: &impl Abort, alloc: Global, token: &Awake) -> Result<(), Fail>
    requires { token_volume token.now ≡ 3 }
{
    store_and_load(rt, alloc, token)?;
    load_damaged(rt, alloc, token)?;
    free_segment(rt, alloc, token)
}

#[test]
fn views_and_free_segments_are_stored_and_loaded(rt: HostRuntime) -> Result<(), Fail> {
    let mut spindle = Spindle::new(3, 100);
    let token = spindle.need();
    let done = store_load_and_free(&rt, rt.alloc(), &token);
    spindle.done(token);
    done
}
