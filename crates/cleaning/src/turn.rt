// A volume is cleaned in one turn.
ghost use Rattle.cleaning.specs.Turns.{CleansIn, DoesClean, operation_of};
ghost use Rattle.inspection.specs.Looks.{note_told};
ghost use Rattle.manager.specs.Seen.{look_of_manager};
ghost use Rattle.manager.specs.Stands.{IsReady, IsHome, IsShared, Stands};
ghost use Rattle.request_turns.specs.Turns.{notes_seen, HasLeft};
ghost use Rattle.std.specs.Prelude.{◌≡◌, ◌++◌, ◌∷◌, []};
ghost use Rattle.turn_lock.specs.Passes.{pass_lock, pass_number, IsPassOf, IsFree, IsInTurn};
ghost use Rattle.wol_model.specs.History.{worker};

use crate::test::can_clean;
use log_cleaner::{CleanFault, Cleaned, Copies, clean, no_copies};
use logger::Shared;
use manager::Manager;
use request_turns::{Memo, leave_noted};
use std::alloc::Global;
use std::marker::Brand;
use std::sync::Wait;
use turn_lock::{Pass, Turn, TurnLock};
use wol_disk::Disk;

// Cleans a volume, and leaves one as it is that can't be cleaned. Answers the copies too.
fn clean_within<D: Disk, R: Wait>(
    rt: &R,
    alloc: Global,
    m: &mut Manager<D>,
    shared: &Shared<D>,
    most: u32,
) -> (Copies, Result<Cleaned, CleanFault>)
    requires ready { IsReady D.state m.old }
    requires at { IsHome shared.now m.old }
    requires most { most ≡ m.old.most }
    ensures did { DoesClean D.tells D.state most m.old m.new result.0.value.items result.1 }
{
    let mut done = no_copies();
    if can_clean(m) {
        let answer = clean(rt, alloc, m, shared, most, &mut done);
        return (done, answer);
    }
    let records = m.index().len();
    let left = Cleaned {
        before: records,
        after: records,
        copied: 0,
        full: false,
    };
    (done, Ok(left))
}

// Ends a turn in which a volume was cleaned, with these copies and this answer.
fn leave_cleaned<D: Disk, N: Memo>(
    lock: &TurnLock<Manager<D>>,
    turn: Turn<Manager<D>>,
    pass: &mut Pass<Manager<D>>,
    done: &Copies,
    answer: &Result<Cleaned, CleanFault>,
)
    requires own { IsPassOf lock.now pass.old }
    requires turn { IsInTurn pass.old }
    requires note { N.note ≡ note_told (pass_number pass.old)
        (operation_of done.now.value.items answer.now) (look_of_manager turn.value) }
    requires value { Stands D.tells D.state turn.value (pass_lock pass.old).base
        (notes_seen pass.old ++ N.note ∷ []) }
    ensures left { HasLeft D.tells (note_told (pass_number pass.old)
        (operation_of done.now.value.items answer.now)
        (look_of_manager turn.value)) pass.old pass.new }
{
    let _ = done;
    let _ = answer;
    leave_noted::<D, N>(lock, turn, pass);
}

/// Cleans a volume, in one turn of this pass of its worker.
pub(crate) fn clean_turn<D: Disk, R: Wait>(
    rt: &R,
    alloc: Global,
    lock: &TurnLock<Manager<D>>,
    pass: &mut Pass<Manager<D>>,
    shared: &Shared<D>,
    most: u32,
) -> Result<Cleaned, CleanFault>
    requires own { IsPassOf lock.now pass.old }
    requires free { IsFree pass.old }
    requires client { pass_number pass.old ≡ worker }
    requires at { IsShared shared.now (pass_lock pass.old).base }
    requires most { (pass_lock pass.old).base.volume.began.most ≡ most }
    ensures cleans { CleansIn D.tells D.state most pass.old pass.new result }
{
    let mut turn = lock.enter(rt, pass);
    let (done, answer) = clean_within(rt, alloc, &mut turn.value, shared, most);
    leave_cleaned::<D, Brand>(lock, turn, pass, &done, &answer);
    answer
}
