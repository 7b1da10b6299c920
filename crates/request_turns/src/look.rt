// A look in one turn.
ghost use Rattle.request_turns.specs.Blocks.{HasLooked};
ghost use Rattle.request_turns.specs.Counts.{ReclaimsNothing};
ghost use Rattle.std.specs.Prelude.{◌≡◌};
ghost use Rattle.turn_lock.specs.Passes.{IsPassOf, IsFree};

use crate::noted::leave_step;
use manager::{Manager, Part};
use std::sync::Wait;
use turn_lock::{Pass, TurnLock};
use wol_disk::Disk;

/// Looks in one turn whether a disk call of the volume has failed, and at which part.
pub fn look_turn<D: Disk, R: Wait>(
    rt: &R,
    lock: &TurnLock<Manager<D>>,
    pass: &mut Pass<Manager<D>>,
) -> Option<Part>
    requires own { IsPassOf lock.now pass.old }
    requires free { IsFree pass.old }
    ensures looked { HasLooked D.tells result pass.old pass.new }
    ensures counted { ReclaimsNothing D.tells pass.old pass.new }
{
    let turn = lock.enter(rt, pass);
    let down = turn.value.down();
    leave_step(lock, turn, pass, false);
    down
}
