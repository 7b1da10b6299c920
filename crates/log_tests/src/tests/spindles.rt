// A spindle alone, and one under its lock with a part of its disk.
ghost use Rattle.spin_model.specs.Operations.{has_token};
ghost use Rattle.spin_model.specs.Spun.{volume_of, disk_of};
ghost use Rattle.std.specs.Prelude.{false, ◌≡◌, ◌≤◌, ℕ};
ghost use Rattle.turn_lock.specs.Passes.{pass_lock, pass_mine, IsPassOf, IsFree};
ghost use Rattle.wol_disk.specs.Memory.{mem_state};
ghost use Rattle.spin_model.specs.Spindles.{sums_until};

use energy::Sums;
use spin_model::{Spindle, Spun, begin_turn, give_token, start_turn, take_token};
use std::alloc::Global;
use std::sync::Wait;
use std::test::Fail;
use turn_lock::{Pass, TurnLock};
use wol_disk::MemDisk;

// A disk with a timeout of a minute, whose account starts at 0, and which is needed after a window at 100 seconds:
// whether it was awake in that window, and its spindle.
fn needed_after_a_nap() -> (bool, Spindle)
    ensures asleep { result.0 ≡ false }
    ensures sums { (to : ℕ) → sums_until result.1 to
        ≡ record { wakes = 1; sleeps = 1; standby = 400000000 } }
{
    let mut spindle = Spindle::new(3, 600_000_000);
    spindle.start(0);
    let awake = spindle.begin(1_000_000_000);
    let token = spindle.need();
    spindle.done(token);
    (awake, spindle)
}

#[test]
fn sleeps_after_its_timeout_and_wakes_when_needed(rt: HostRuntime) -> Result<(), Fail> {
    let (awake, spindle) = needed_after_a_nap();
    assert!(rt; !awake);
    assert!(rt; spindle.is_awake());
    let sums = Sums {
        wakes: 1,
        sleeps: 1,
        standby: 400_000_000,
    };
    assert!(rt; spindle.sums_until(spindle.moment()) == sums);
    Ok(())
}

// Block 1 of the part, written and read back under one token. It is None where a call failed.
fn written_and_read<R: Wait>(
    rt: &R,
    lock: &TurnLock<Spindle>,
    worker: &mut Pass<Spindle>,
    part: &mut Spun<MemDisk>,
) -> Option<u8>
    requires own { IsPassOf lock.now worker.old }
    requires free { IsFree worker.old }
    requires has_none { has_token (pass_mine worker.old) ≡ false }
    requires volume { (pass_lock worker.old).base.volume ≡ volume_of part.old }
    requires size { 2 ≤ (mem_state (disk_of part.old)).size }
    ensures own { IsPassOf lock.entry.now worker.new }
    ensures free { IsFree worker.new }
{
    let token = take_token(rt, lock, worker);
    let mut out = [[0u8; 512]];
    let wrote = part.write(&token, 1, &[[7u8; 512]]);
    let synced = part.sync(&token);
    let read = part.read(&token, 1, &mut out);
    give_token(rt, lock, worker, token);
    if wrote.is_ok() && synced.is_ok() && read.is_ok() {
        Some(out[0][511])
    } else {
        None
    }
}

// A keeper's and a worker's turns of one lock: what the keeper's begin answered, the byte that the worker read,
// and the spindle. It is None where there was no memory.
fn one_window<R: Wait>(
    rt: &R,
    alloc: Global,
    part: &mut Spun<MemDisk>,
) -> Option<(bool, Option<u8>, Spindle)>
    requires volume { volume_of part.old ≡ 5 }
    requires size { 2 ≤ (mem_state (disk_of part.old)).size }
{
    match TurnLock::new(alloc, Spindle::new(5, 100), 1, 1) {
        Ok((lock, mut passes)) => {
            start_turn(rt, &lock, &mut passes[1], 20);
            let awake = begin_turn(rt, &lock, &mut passes[1], 130);
            let byte = written_and_read(rt, &lock, &mut passes[0], part);
            Some((awake, byte, lock.close(passes)))
        }
        Err((_spindle, _refusal)) => None,
    }
}

#[test]
fn a_part_is_reached_in_turns_of_its_spindle(rt: HostRuntime) -> Result<(), Fail> {
    let mut part = Spun::new(5, MemDisk::new(rt.alloc(), 2)?);
    let (awake, byte, spindle) = one_window(&rt, rt.alloc(), &mut part).ok_or("no memory")?;
    assert!(rt; !awake);
    assert!(rt; byte == Some(7));
    let sums = Sums {
        wakes: 1,
        sleeps: 1,
        standby: 10,
    };
    assert!(rt; spindle.sums_until(spindle.moment()) == sums);
    Ok(())
}
