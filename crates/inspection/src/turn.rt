// A volume is looked at in one turn.
ghost use Rattle.inspection.specs.Looks.{AppendsAsked, IsConfiguredBase, LooksAt, note_told};
ghost use Rattle.inspection.specs.Faults.{was_told};
ghost use Rattle.inspection.specs.Volumes.{IsVolumeOf};
ghost use Rattle.manager.specs.Seen.{look_of_manager};
ghost use Rattle.manager.specs.Stands.{Keeps, Stands, IsReady, IsHome, Leaves};
ghost use Rattle.manager.specs.declared.base.ManagerBase.{ManagerBase};
ghost use Rattle.manager.specs.declared.part.Part.{Part};
ghost use Rattle.report.specs.Names.{printed_names};
ghost use Rattle.report.specs.Troubles.{IsAmong};
ghost use Rattle.request_turns.specs.Turns.{notes_seen, HasLeft, WasDown};
ghost use Rattle.std.specs.Prelude.{◌≡◌, ◌⊎◌, ◌++◌, ◌∷◌, ℕ, List, [], length, Some, Err, IsTrue, OnOk, OnErr};
ghost use Rattle.rack.specs.Troubles.{trouble_of_part};
ghost use Rattle.turn_lock.specs.Passes.{pass_lock, pass_number, IsPassOf, IsFree, IsInTurn};
ghost use Rattle.wol_config.specs.Configs.{IsValid};
ghost use Rattle.wol_model.specs.History.{worker};
ghost use Rattle.wol_promise.specs.Ruled.{Noted};

use crate::asked::Asked;
use crate::{DumpFault, check_line, dump_lines};
use logger::Shared;
use manager::Manager;
use request_turns::{Memo, leave_noted};
use std::alloc::Global;
use std::marker::Brand;
use std::sync::Wait;
use turn_lock::{Pass, Turn, TurnLock};
use wol_config::Config;
use wol_disk::Disk;

// Appends what is asked of a volume in order.
fn append_asked<D: Disk, R: Wait>(
    rt: &R,
    alloc: Global,
    asked: Asked,
    manager: &mut Manager<D>,
    shared: &Shared<D>,
    config: &Config,
    volume: u32,
    out: &mut Vec<u8>,
) -> Result<(), DumpFault>
    requires ready { IsReady D.state manager.old }
    requires at { IsHome shared.now manager.old }
    requires valid { IsValid config.now }
    requires serves { IsVolumeOf D.state config.now volume manager.old }
    ensures stands { Leaves D.tells D.state manager.old manager.new (was_told result) [] worker }
    ensures content { IsTrue D.tells → (b : ManagerBase) (notes : List Noted)
        → Keeps D.tells D.state manager.old b notes
        → OnOk result
        (AppendsAsked config.now asked volume manager.old b notes out.old.items out.new.items) }
    ensures index { manager.new.index ≡ manager.old.index }
    ensures err { OnErr result (out.new.items ≡ out.old.items) }
    ensures down { (p : Part) → result ≡ Err (DumpFault.Down p) → manager.new.down ≡ Some p }
    ensures failed { (p : Part) → result ≡ Err (DumpFault.DiskFault p) → manager.new.down ≡ Some p }
{
    match asked {
        Asked::Check => check_line(rt, alloc, manager, shared, config, volume, out),
        Asked::Dump => dump_lines(manager, config, volume, out),
    }
}

// Ends a turn in which a volume was looked at with this answer.
fn leave_told<D: Disk, N: Memo>(
    lock: &TurnLock<Manager<D>>,
    turn: Turn<Manager<D>>,
    pass: &mut Pass<Manager<D>>,
    answer: &Result<(), DumpFault>,
)
    requires own { IsPassOf lock.now pass.old }
    requires turn { IsInTurn pass.old }
    requires note { N.note
        ≡ note_told (pass_number pass.old) (was_told answer.now) (look_of_manager turn.value) }
    requires value { Stands D.tells D.state turn.value (pass_lock pass.old).base
        (notes_seen pass.old ++ N.note ∷ []) }
    ensures left { HasLeft D.tells (note_told (pass_number pass.old) (was_told answer.now)
        (look_of_manager turn.value)) pass.old pass.new }
    ensures broken { (p : Part) → turn.value.down ≡ Some p → WasDown p (notes_seen pass.new) }
{
    let _ = answer;
    leave_noted::<D, N>(lock, turn, pass);
}

/// Appends what is asked of a volume, in one turn of this pass of its worker. After a refusal nothing is appended.
pub(crate) fn look<D: Disk, R: Wait>(
    rt: &R,
    alloc: Global,
    asked: Asked,
    lock: &TurnLock<Manager<D>>,
    pass: &mut Pass<Manager<D>>,
    shared: &Shared<D>,
    config: &Config,
    volume: u32,
    out: &mut Vec<u8>,
) -> Result<(), DumpFault>
    requires valid { IsValid config.now }
    requires own { IsPassOf lock.now pass.old }
    requires free { IsFree pass.old }
    requires client { pass_number pass.old ≡ worker }
    requires base { IsConfiguredBase config.now shared.now (pass_lock pass.old).base }
    requires volume { (pass_lock pass.old).base.volume.began.owner ≡ volume }
    ensures looks { LooksAt D.tells D.state config.now asked volume pass.old pass.new result
        out.old.items out.new.items }
    ensures err { OnErr result (out.new.items ≡ out.old.items) }
    ensures known { (p : Part) → (result ≡ Err (DumpFault.DiskFault p))
        ⊎ (result ≡ Err (DumpFault.Down p))
        → IsAmong (length (printed_names config.now.volumes.items)) (trouble_of_part p) }
{
    let mut turn = lock.enter(rt, pass);
    let answer = append_asked(
        rt,
        alloc,
        asked,
        &mut turn.value,
        shared,
        config,
        volume,
        out,
    );
    leave_told::<D, Brand>(lock, turn, pass, &answer);
    answer
}
