// Home under the lock of its spindle: it is read and written between a turn in which its spindle is needed and one in which it is done.
ghost use Rattle.volume_parts.specs.Changes.{put_block};
ghost use Rattle.spin_model.specs.Operations.{has_token};
ghost use Rattle.spin_model.specs.Spun.{state_of, volume_of, token_volume};
ghost use Rattle.std.specs.Prelude.{◌≡◌, ◌+◌, ◌≤◌, ◌<◌, ℕ, false, length, take, drop, OnOk, IfSome, IsErr};
ghost use Rattle.turn_lock.specs.Passes.{pass_lock, pass_mine, IsPassOf, IsFree, IsSamePass};
ghost use Rattle.volume_parts.specs.Accesses.{HasUsedOnce, Stored, IsPut};
ghost use Rattle.wol_disk.specs.Disk.{LeavesOnly, IsImageOf, Rose, reads};
ghost use Rattle.wol_model.specs.Log.{has_bit};

use spin_model::{Awake, Spindle, Spun, give_token, take_token};
use std::sync::Wait;
use turn_lock::{Pass, TurnLock};
use wol_disk::{Block, Disk, Failed};

/// Reads blocks of the part from block `at` on, between a turn in which its spindle is needed, so that a disk in standby
/// spins up, and one in which it is done. `Failed` comes only where the part's count of faults rose in this call.
pub fn fetch_at<R: Wait, D: Disk>(
    rt: &R,
    lock: &TurnLock<Spindle>,
    spindle: &mut Pass<Spindle>,
    part: &mut Spun<D>,
    at: u64,
    out: &mut [Block],
) -> Result<(), Failed>
    requires own { IsPassOf lock.now spindle.old }
    requires free { IsFree spindle.old }
    requires settled { has_token (pass_mine spindle.old) ≡ false }
    requires volume { (pass_lock spindle.old).base.volume ≡ volume_of part.old }
    requires fits { at + length out.old ≤ (state_of D.state part.old).size }
    ensures same { IsSamePass spindle.old spindle.new }
    ensures free { IsFree spindle.new }
    ensures settled { has_token (pass_mine spindle.new) ≡ false }
    ensures used { HasUsedOnce spindle.old spindle.new }
    ensures volume { volume_of part.new ≡ volume_of part.old }
    ensures size { (state_of D.state part.new).size ≡ (state_of D.state part.old).size }
    ensures values { (state_of D.state part.new).values ≡ (state_of D.state part.old).values }
    ensures content { OnOk result (IfSome (state_of D.state part.old).values
        (λ vs. out.new ≡ take (length out.old) (drop at (reads vs)))) }
    ensures any_moment { LeavesOnly (state_of D.state part.old) (state_of D.state part.new)
        (IsImageOf (state_of D.state part.old).values) }
    ensures cause { IsErr result
        → Rose (state_of D.state part.old).faults (state_of D.state part.new).faults }
    ensures calm { OnOk result
        ((state_of D.state part.new).faults ≡ (state_of D.state part.old).faults) }
{
    let token = take_token(rt, lock, spindle);
    let fetched = part.read(&token, at, out);
    give_token(rt, lock, spindle, token);
    fetched
}

// Writes and syncs.
fn store<D: Disk>(part: &mut Spun<D>, token: &Awake, at: u64, from: &[Block]) -> Result<(), Failed>
    requires volume { token_volume token.now ≡ volume_of part.old }
    requires fits { at + length from.now ≤ (state_of D.state part.old).size }
    ensures { Stored D.state part.old part.new at from.now result }
{
    part.write(token, at, from)?;
    part.sync(token)
}

/// Writes blocks to the part from block `at` on and syncs, between a turn in which its spindle is needed and one in which
/// it is done. `Failed` comes only where the part's count of faults rose in this call; what was written then may be
/// there in part.
pub fn store_at<R: Wait, D: Disk>(
    rt: &R,
    lock: &TurnLock<Spindle>,
    spindle: &mut Pass<Spindle>,
    part: &mut Spun<D>,
    at: u64,
    from: &[Block],
) -> Result<(), Failed>
    requires own { IsPassOf lock.now spindle.old }
    requires free { IsFree spindle.old }
    requires settled { has_token (pass_mine spindle.old) ≡ false }
    requires volume { (pass_lock spindle.old).base.volume ≡ volume_of part.old }
    requires fits { at + length from.now ≤ (state_of D.state part.old).size }
    ensures same { IsSamePass spindle.old spindle.new }
    ensures free { IsFree spindle.new }
    ensures settled { has_token (pass_mine spindle.new) ≡ false }
    ensures used { HasUsedOnce spindle.old spindle.new }
    ensures stored { Stored D.state part.old part.new at from.now result }
{
    let token = take_token(rt, lock, spindle);
    let stored = store(part, &token, at, from);
    give_token(rt, lock, spindle, token);
    stored
}

// How many blocks from this one on, in front of block `end`, are all in the mask or all outside it.
pub(crate) fn run_from(mask: u128, at: usize, end: usize) -> usize
    requires there { at < end }
    requires few { end ≤ 128 }
    ensures some { 1 ≤ result }
    ensures within { at + result ≤ end }
    ensures same { (i : ℕ) → at ≤ i → i < at + result → has_bit mask i ≡ has_bit mask at }
{
    let first = mask >> at & 1;
    for i in at + 1..end {
        if mask >> i & 1 != first {
            return i - at;
        }
    }
    end - at
}

// Writes the blocks of the mask, and syncs.
fn put<D: Disk>(
    part: &mut Spun<D>,
    awake: &Awake,
    lbn: u64,
    mask: u128,
    from: &[Block],
) -> Result<(), Failed>
    requires volume { token_volume awake.now ≡ volume_of part.old }
    requires few { length from.now ≤ 128 }
    requires fits { lbn + length from.now ≤ (state_of D.state part.old).size }
    ensures { IsPut D.state part.old part.new (put_block lbn mask from.now) result }
{
    let mut at = 0;
    while at < from.len() {
        let count = run_from(mask, at, from.len());
        if mask >> at & 1 == 1 {
            part.write(awake, lbn + at as u64, &from[at..at + count])?;
        }
        at += count;
    }
    part.sync(awake)
}

/// Writes the blocks of the mask and syncs, as `store_at` does. Bit i of the mask is block i of the slice, which begins at
/// block `lbn`; runs of them are written by one call each.
pub fn put_at<R: Wait, D: Disk>(
    rt: &R,
    lock: &TurnLock<Spindle>,
    spindle: &mut Pass<Spindle>,
    part: &mut Spun<D>,
    lbn: u64,
    mask: u128,
    from: &[Block],
) -> Result<(), Failed>
    requires own { IsPassOf lock.now spindle.old }
    requires free { IsFree spindle.old }
    requires settled { has_token (pass_mine spindle.old) ≡ false }
    requires volume { (pass_lock spindle.old).base.volume ≡ volume_of part.old }
    requires few { length from.now ≤ 128 }
    requires fits { lbn + length from.now ≤ (state_of D.state part.old).size }
    ensures same { IsSamePass spindle.old spindle.new }
    ensures free { IsFree spindle.new }
    ensures settled { has_token (pass_mine spindle.new) ≡ false }
    ensures used { HasUsedOnce spindle.old spindle.new }
    ensures put { IsPut D.state part.old part.new (put_block lbn mask from.now) result }
{
    let token = take_token(rt, lock, spindle);
    let put = put(part, &token, lbn, mask, from);
    give_token(rt, lock, spindle, token);
    put
}
