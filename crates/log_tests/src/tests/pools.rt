// A pool alone, and one under its lock.
ghost use Rattle.std.specs.Prelude.{◌≡◌};

use seg_pool::{Blank, Pool, give_item, take_item};
use std::alloc::Global;
use std::sync::Wait;
use std::test::Fail;
use turn_lock::TurnLock;

// A segment of the volume 7 with 8 blocks, by a letter.
#[derive(Clone, Copy, Debug, PartialEq, Eq)]
struct Sheet(char);

impl Blank for Sheet {
    ghost blank = { λ volume blocks s. (volume ≡ 7) × (blocks ≡ 8) };
}

#[test]
fn takes_the_least_free_index(rt: HostRuntime) -> Result<(), Fail> {
    let mut pool = Pool::new(rt.alloc(), 4, 7, 8)?;
    assert!(rt; pool.len() == 0);
    pool.give(2, Sheet('c'));
    pool.give(0, Sheet('a'));
    pool.hold(1, 0);
    assert!(rt; pool.len() == 2);
    assert!(rt; pool.take() == Some((0, Sheet('a'))));
    assert!(rt; pool.take() == Some((2, Sheet('c'))));
    assert!(rt; pool.take() == None);
    assert!(rt; pool.is_empty());
    Ok(())
}

// The turns of one pass over a pool of one item: it takes the item, finds no other, gives it back and takes it again.
fn turns_of_a_pass<R: Wait>(
    rt: &R,
    alloc: Global,
) -> Option<([Option<(u32, Sheet)>; 2], Pool<Sheet>)> {
    let mut pool = Pool::new(alloc, 2, 7, 8).ok()?;
    pool.give(1, Sheet('b'));
    match TurnLock::new(alloc, pool, 1, 0) {
        Ok((lock, mut passes)) => {
            if let Some((index, sheet)) = take_item(rt, &lock, &mut passes[0]) {
                give_item(rt, &lock, &mut passes[0], index, sheet);
            }
            let first = take_item(rt, &lock, &mut passes[0]);
            let second = take_item(rt, &lock, &mut passes[0]);
            Some(([first, second], lock.close(passes)))
        }
        Err((_pool, _refusal)) => None,
    }
}

#[test]
fn a_pass_takes_and_gives_in_turns(rt: HostRuntime) -> Result<(), Fail> {
    let (taken, pool) = turns_of_a_pass(&rt, rt.alloc()).ok_or("no memory")?;
    assert!(rt; taken == [Some((1, Sheet('b'))), None]);
    assert!(rt; pool.is_empty());
    Ok(())
}
