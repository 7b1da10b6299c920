// Blocks that are written to a part without a sync, and the sync of a part.
ghost use Rattle.volume_parts.specs.Changes.{put_block};
ghost use Rattle.spin_model.specs.Operations.{has_token};
ghost use Rattle.spin_model.specs.Spun.{state_of, volume_of, token_volume};
ghost use Rattle.std.specs.Prelude.{◌≡◌, ◌+◌, ◌≤◌, ◌<◌, ℕ, false, length, take, drop, OnOk, IfSome, IsErr};
ghost use Rattle.turn_lock.specs.Passes.{pass_lock, pass_mine, IsPassOf, IsFree, IsSamePass};
ghost use Rattle.volume_parts.specs.Accesses.{IsLaid, IsSynced, HasUsedOnce, Stored, IsPut};
ghost use Rattle.wol_disk.specs.Disk.{LeavesOnly, IsImageOf, Rose, reads};
ghost use Rattle.wol_model.specs.Log.{has_bit};

use crate::home::run_from;
use spin_model::{Awake, Spindle, Spun, give_token, take_token};
use std::sync::Wait;
use turn_lock::{Pass, TurnLock};
use wol_disk::{Block, Disk, Failed};

// Writes the blocks of the mask.
fn lay<D: Disk>(
    part: &mut Spun<D>,
    awake: &Awake,
    lbn: u64,
    mask: u128,
    from: &[Block],
) -> Result<(), Failed>
    requires volume { token_volume awake.now ≡ volume_of part.old }
    requires few { length from.now ≤ 128 }
    requires fits { lbn + length from.now ≤ (state_of D.state part.old).size }
    ensures { IsLaid D.state part.old part.new (put_block lbn mask from.now) result }
{
    let mut at = 0;
    while at < from.len() {
        let count = run_from(mask, at, from.len());
        if mask >> at & 1 == 1 {
            part.write(awake, lbn + at as u64, &from[at..at + count])?;
        }
        at += count;
    }
    Ok(())
}

// Syncs.
fn settle<D: Disk>(part: &mut Spun<D>, awake: &Awake) -> Result<(), Failed>
    requires volume { token_volume awake.now ≡ volume_of part.old }
    ensures { IsSynced D.state part.old part.new result }
{
    part.sync(awake)
}

/// Writes the blocks of the mask as `put_at` does, and leaves the sync to `sync_at`: until then a crash may leave any of them.
pub fn lay_at<R: Wait, D: Disk>(
    rt: &R,
    lock: &TurnLock<Spindle>,
    spindle: &mut Pass<Spindle>,
    part: &mut Spun<D>,
    lbn: u64,
    mask: u128,
    from: &[Block],
) -> Result<(), Failed>
    requires own { IsPassOf lock.now spindle.old }
    requires free { IsFree spindle.old }
    requires settled { has_token (pass_mine spindle.old) ≡ false }
    requires volume { (pass_lock spindle.old).base.volume ≡ volume_of part.old }
    requires few { length from.now ≤ 128 }
    requires fits { lbn + length from.now ≤ (state_of D.state part.old).size }
    ensures same { IsSamePass spindle.old spindle.new }
    ensures free { IsFree spindle.new }
    ensures settled { has_token (pass_mine spindle.new) ≡ false }
    ensures used { HasUsedOnce spindle.old spindle.new }
    ensures laid { IsLaid D.state part.old part.new (put_block lbn mask from.now) result }
{
    let token = take_token(rt, lock, spindle);
    let laid = lay(part, &token, lbn, mask, from);
    give_token(rt, lock, spindle, token);
    laid
}

/// Syncs the part, between a turn in which its spindle is needed and one in which it is done. `Failed` comes only where the
/// part's count of faults rose in this call.
pub fn sync_at<R: Wait, D: Disk>(
    rt: &R,
    lock: &TurnLock<Spindle>,
    spindle: &mut Pass<Spindle>,
    part: &mut Spun<D>,
) -> Result<(), Failed>
    requires own { IsPassOf lock.now spindle.old }
    requires free { IsFree spindle.old }
    requires settled { has_token (pass_mine spindle.old) ≡ false }
    requires volume { (pass_lock spindle.old).base.volume ≡ volume_of part.old }
    ensures same { IsSamePass spindle.old spindle.new }
    ensures free { IsFree spindle.new }
    ensures settled { has_token (pass_mine spindle.new) ≡ false }
    ensures used { HasUsedOnce spindle.old spindle.new }
    ensures synced { IsSynced D.state part.old part.new result }
{
    let token = take_token(rt, lock, spindle);
    let done = settle(part, &token);
    give_token(rt, lock, spindle, token);
    done
}
