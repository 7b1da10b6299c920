// Due blocks of several records go home with one sync.
ghost use Rattle.garbage_list.specs.Least.{can_go_home, from_on};
ghost use Rattle.manager.specs.Causes.{NoneRose};
ghost use Rattle.manager.specs.Reclaim.{OnTried, OnKept, OnFailed, TellsStep, KeepsOn, BreaksOff, StopsSince, Always, AreDue, AreLaid};
ghost use Rattle.manager.specs.Seen.{look_of_manager};
ghost use Rattle.manager.specs.Stands.{Keeps, IsReady, IsHome, nones_at};
ghost use Rattle.manager.specs.Stops.{HoldsOn};
ghost use Rattle.manager.specs.declared.base.LaneBase.{LaneBase};
ghost use Rattle.manager.specs.declared.base.ManagerBase.{ManagerBase};
ghost use Rattle.reclaimer.specs.Counts.{CountsPut, TakesOff};
ghost use Rattle.reclaimer.specs.Fetches.{due_entry};
ghost use Rattle.reclaimer.specs.Groups.{lanes_of, group_of, LaysRecord, LaysEach, marked, HasPutGroup, ReadsLanes, IsToMark, AllLaid, AllHome};
ghost use Rattle.reclaimer.specs.Steps.{StopsWithin};
ghost use Rattle.redirect_map.specs.Index.{entry_at, IsAnswer, IsIndex};
ghost use Rattle.std.specs.List.{AllByRecursion};
ghost use Rattle.std.specs.Prelude.{◌≡◌, ◌↔◌, ◌<◌, ◌≤◌, ◌+◌, ◌^◌, [], ℕ, List, true, false, find, length, map, None, Ok, IfOk, IfSome, IsSomeAnd, IsTrue, OnErr, OnOk};
ghost use Rattle.wol_model.specs.Index.{listed_in, has_due, left, AreRising};
ghost use Rattle.wol_promise.specs.Policy.{AreReclaims, drained};
ghost use Rattle.wol_promise.specs.Ruled.{Noted};

use crate::Fetch;
use crate::next::due_from;
use crate::room::read_record;
use arrayvec::ArrayVec;
use logger::Shared;
use manager::{Manager, StepFault};
use redirect_map::Rec;
use std::sync::Wait;
use wol_disk::{Block, Disk};

/// The most records of a group.
const MOST_RECORDS: usize = 128;

/// A view has at most so many loggers, all of which a drain counts as awake.
const ALL: [bool; 16] = [true; 16];

/// Blocks of a record that were written home, as the contract of `put_group` names them: bit i of the mask is block i of the
/// record of this version.
#[derive(Clone, Copy, Default)]
pub struct Laid {
    pub version: u64,
    pub mask: u128,
}

// The record of least version from `from` on that has a due block, on an awake logger or on any.
fn next_due_record<D: Disk>(m: &Manager<D>, any: bool, from: u64) -> Option<Rec>
    requires ready { IsReady D.state m.now }
    requires up { m.now.down ≡ None }
    ensures answer { IsAnswer (find (from_on from
        (can_go_home (lanes_of any m.now) m.now.index.entries)) m.now.index.entries) result }
    ensures index { IfSome result (λ r. IsIndex m.now.index.entries) }
{
    if any {
        due_from(m.index(), &ALL, from)
    } else {
        due_from(m.index(), m.ups(), from)
    }
}

// Reads the record of this version, and writes its due blocks home.
fn lay_record<R: Wait, D: Disk>(
    rt: &R,
    m: &mut Manager<D>,
    shared: &Shared<D>,
    version: u64,
    room: &mut [Block],
) -> Result<u128, StepFault>
    requires ready { IsReady D.state m.old }
    requires at { IsHome shared.now m.old }
    requires room { length room.old ≡ 128 }
    requires due { IsSomeAnd (entry_at m.old.index.entries version)
        (λ e. has_due (listed_in m.old.index.entries) e.listed ≡ true) }
    ensures ready { IsReady D.state m.new }
    ensures at { IsHome shared.now m.new }
    ensures fault { TellsStep D.state result m.old m.new }
    ensures calm { OnOk result (NoneRose D.state m.old m.new) }
    ensures same { m.new.index ≡ m.old.index }
    ensures lays { IfOk result (λ mask. (0 < mask) × (mask < 2 ^ 128) × IsSomeAnd
        (entry_at m.old.index.entries version) (λ e. LaysRecord D.state e mask m.old m.new)) }
    ensures reads { OnOk result (ReadsLanes D.state m.old m.new) }
    ensures awake { m.old.home_up ≡ true → m.new.home_up ≡ true }
    ensures drains { OnOk result
        (drained (look_of_manager m.new) ≡ drained (look_of_manager m.old)) }
    ensures passed { (lanes : List LaneBase) (k : ℕ)
        → nones_at m.old.lanes.items lanes k ≤ nones_at m.new.lanes.items lanes k }
    ensures due { IfOk result (λ mask. AreDue m.old.index.entries version mask) }
    ensures there { IfOk result (λ mask. (b : ManagerBase) (notes : List Noted)
        → Keeps D.tells D.state m.old b notes
        → AreLaid D.tells D.state m.new version mask b notes) }
    ensures others { OnOk result ((v w : ℕ) (b : ManagerBase) (notes : List Noted)
        → AreDue m.old.index.entries v w → Keeps D.tells D.state m.old b notes
        → AreLaid D.tells D.state m.old v w b notes
        → AreLaid D.tells D.state m.new v w b notes) }
    ensures keeps { OnKept result (KeepsOn D.tells D.state m.old m.new Always) }
    ensures broke { OnFailed result (BreaksOff D.tells D.state m.old m.new Always) }
    ensures since { OnTried result
        (HoldsOn D.tells D.state m.old m.new (Keeps D.tells D.state m.old)) }
{
    let filled = read_record(rt, m, shared, version, room)?;
    let blocks = &room[..filled.count as usize];
    match m.lay_home(rt, shared, version, filled.due, blocks) {
        Ok(()) => Ok(filled.due),
        Err(fault) => Err(fault),
    }
}

// Writes the due blocks of the first records home, one record after the other.
fn lay_group<R: Wait, D: Disk>(
    rt: &R,
    m: &mut Manager<D>,
    shared: &Shared<D>,
    any: bool,
    room: &mut [Block],
    group: &mut ArrayVec<Laid, 128>,
) -> Result<(), StepFault>
    requires ready { IsReady D.state m.old }
    requires at { IsHome shared.now m.old }
    requires up { m.old.down ≡ None }
    requires awake { m.old.home_up ≡ true }
    requires room { length room.old ≡ 128 }
    requires empty { group.old.items ≡ [] }
    ensures ready { IsReady D.state m.new }
    ensures at { IsHome shared.now m.new }
    ensures fault { TellsStep D.state result m.old m.new }
    ensures calm { OnOk result (NoneRose D.state m.old m.new) }
    ensures same { m.new.index ≡ m.old.index }
    ensures lays { OnOk result (LaysEach D.state m.old
        (group_of (lanes_of any m.old) m.old.index.entries) group.new.items m.new) }
    ensures look { OnOk result (any ≡ false → look_of_manager m.new ≡ look_of_manager m.old) }
    ensures due { OnErr result (find
        (can_go_home (lanes_of any m.old) m.old.index.entries) m.old.index.entries ≡ None → ⊥) }
    ensures awake { m.new.home_up ≡ true }
    ensures drains { OnOk result
        (drained (look_of_manager m.new) ≡ drained (look_of_manager m.old)) }
    ensures passed { (lanes : List LaneBase) (k : ℕ)
        → nones_at m.old.lanes.items lanes k ≤ nones_at m.new.lanes.items lanes k }
    ensures reads { OnOk result (ReadsLanes D.state m.old m.new) }
    ensures rising { AreRising (map (λ p. p.version) group.new.items) }
    ensures marks { AllByRecursion (IsToMark m.old.index.entries) group.new.items }
    ensures few { length group.new.items ≤ 128 }
    ensures index { 0 < length group.new.items → IsIndex m.old.index.entries }
    ensures there { OnOk result ((b : ManagerBase) (notes : List Noted)
        → Keeps D.tells D.state m.old b notes
        → AllLaid D.tells D.state m.new group.new.items b notes) }
    ensures keeps { OnKept result (KeepsOn D.tells D.state m.old m.new Always) }
    ensures broke { OnFailed result (BreaksOff D.tells D.state m.old m.new Always) }
    ensures since { OnTried result
        (HoldsOn D.tells D.state m.old m.new (Keeps D.tells D.state m.old)) }
{
    let mut from = 0;
    'records: while group.len() < MOST_RECORDS {
        let Some(record) = next_due_record(m, any, from) else {
            return Ok(());
        };
        let mask = lay_record(rt, m, shared, record.version, room)?;
        group.push(Laid {
            version: record.version,
            mask,
        });
        from = record.version + 1;
    }
    Ok(())
}

// Counts the blocks as home, and answers how many they are.
fn mark_group<D: Disk>(m: &mut Manager<D>, group: &[Laid]) -> u32
    requires ready { IsReady D.state m.old }
    requires up { m.old.down ≡ None }
    requires awake { m.old.home_up ≡ true }
    requires rising { AreRising (map (λ p. p.version) group.now) }
    requires marks { AllByRecursion (IsToMark m.old.index.entries) group.now }
    requires few { length group.now ≤ 128 }
    ensures ready { IsReady D.state m.new }
    ensures rest { m.new ≡ record m.old { index = m.new.index } }
    ensures marked { m.new.index.entries ≡ marked group.now m.old.index.entries }
    ensures count { length group.now ≤ result }
    ensures taken { TakesOff result 0 (look_of_manager m.old) (look_of_manager m.new) }
    ensures look { AreReclaims (look_of_manager m.old) (look_of_manager m.new) }
    ensures drains { drained (look_of_manager m.new) ≡ drained (look_of_manager m.old) }
    ensures fewer { left (listed_in m.new.index.entries) + length group.now
        ≤ left (listed_in m.old.index.entries) }
    ensures keeps { KeepsOn D.tells D.state m.old m.new
        (AllHome D.tells D.state m.old group.now) }
{
    let mut blocks = 0;
    for laid in group {
        m.mark_home(laid.version, laid.mask);
        blocks += laid.mask.count_ones();
    }
    blocks
}

// The group, with home awake.
pub(crate) fn put_first<R: Wait, D: Disk>(
    rt: &R,
    m: &mut Manager<D>,
    shared: &Shared<D>,
    any: bool,
    room: &mut [Block],
) -> Result<u32, StepFault>
    requires ready { IsReady D.state m.old }
    requires at { IsHome shared.now m.old }
    requires up { m.old.down ≡ None }
    requires awake { m.old.home_up ≡ true }
    requires room { length room.old ≡ 128 }
    ensures ready { IsReady D.state m.new }
    ensures at { IsHome shared.now m.new }
    ensures fault { TellsStep D.state result m.old m.new }
    ensures calm { OnOk result (NoneRose D.state m.old m.new) }
    ensures nothing { IfOk result (λ count. (count ≡ 0) ↔ (find
        (can_go_home (lanes_of any m.old) m.old.index.entries) m.old.index.entries ≡ None)) }
    ensures due { OnErr result (find
        (can_go_home (lanes_of any m.old) m.old.index.entries) m.old.index.entries ≡ None → ⊥) }
    ensures put { HasPutGroup D.state any result m.old m.new }
    ensures look { any ≡ false
        → OnOk result (AreReclaims (look_of_manager m.old) (look_of_manager m.new)) }
    ensures awake { m.new.home_up ≡ true }
    ensures drains { OnOk result
        (drained (look_of_manager m.new) ≡ drained (look_of_manager m.old)) }
    ensures passed { (lanes : List LaneBase) (k : ℕ)
        → nones_at m.old.lanes.items lanes k ≤ nones_at m.new.lanes.items lanes k }
    ensures counted { CountsPut result (look_of_manager m.old) (look_of_manager m.new) }
    ensures lowers { IfOk result (λ count. 0 < count
        → left (listed_in m.new.index.entries) < left (listed_in m.old.index.entries)) }
    ensures keeps { OnKept result (KeepsOn D.tells D.state m.old m.new Always) }
    ensures broke { OnFailed result (BreaksOff D.tells D.state m.old m.new Always) }
    ensures any_moment { OnTried result
        (IsTrue D.tells → StopsSince D.tells D.state m.old m.new Always) }
{
    let mut group = ArrayVec::new();
    lay_group(rt, m, shared, any, room, &mut group)?;
    if group.is_empty() {
        return Ok(0);
    }
    m.sync_home(rt, shared)?;
    Ok(mark_group(m, group.as_slice()))
}

/// Reads the records of least version that have a due block and whose loggers are awake for the manager, at most 128 of them,
/// writes their due blocks home, syncs home once, and then counts them as home. Answers how many blocks: 0 exactly where there
/// is no such record, or home is asleep; then nothing is written or synced. `DiskFault` comes only where a part's count of
/// faults rose in this call, and brings the manager down; `Down` exactly where it is down, which is tried first. The fetch is
/// empty afterwards.
pub fn put_group<R: Wait, D: Disk>(
    rt: &R,
    m: &mut Manager<D>,
    shared: &Shared<D>,
    room: &mut Fetch,
) -> Result<u32, StepFault>
    requires ready { IsReady D.state m.old }
    requires at { IsHome shared.now m.old }
    ensures ready { IsReady D.state m.new }
    ensures at { IsHome shared.now m.new }
    ensures fault { TellsStep D.state result m.old m.new }
    ensures calm { OnOk result (NoneRose D.state m.old m.new) }
    ensures empty { room.new ≡ None }
    ensures nothing { (result ≡ Ok 0)
        ↔ ((m.old.down ≡ None) × (due_entry m.old ≡ None)) }
    ensures put { HasPutGroup D.state false result m.old m.new }
    ensures look { OnOk result (AreReclaims (look_of_manager m.old) (look_of_manager m.new)) }

    // The count is that of the due blocks that are due no longer.
    ensures counted { CountsPut result (look_of_manager m.old) (look_of_manager m.new) }
    ensures lowers { IfOk result (λ count. 0 < count
        → left (listed_in m.new.index.entries) < left (listed_in m.old.index.entries)) }
    ensures keeps { OnKept result (KeepsOn D.tells D.state m.old m.new Always) }
    ensures broke { OnFailed result (BreaksOff D.tells D.state m.old m.new Always) }
    ensures any_moment { IsTrue D.tells → StopsWithin D.tells D.state m.old m.new Always }
{
    room.clear();
    if let Some(part) = m.down() {
        return Err(StepFault::Down(part));
    }
    if !m.home_up() {
        return Ok(0);
    }
    put_first(rt, m, shared, false, &mut room.blocks)
}
