// Due blocks that were fetched go home.
ghost use Rattle.block_cells.specs.Masks.{IsMask};
ghost use Rattle.manager.specs.Causes.{NoneRose};
ghost use Rattle.manager.specs.Reclaim.{OnKept, OnFailed, TellsStep, KeepsOn, BreaksOff};
ghost use Rattle.manager.specs.Seen.{look_of_manager};
ghost use Rattle.manager.specs.Stands.{IsReady, IsHome};
ghost use Rattle.reclaimer.specs.Counts.{CountsPut};
ghost use Rattle.reclaimer.specs.Fetches.{HasData, is_still_due, goes_home, home_count};
ghost use Rattle.reclaimer.specs.Steps.{HasPutHome, LooksPut, StopsWithin};
ghost use Rattle.redirect_map.specs.Index.{entry_at, HasVersion, IsIndex};
ghost use Rattle.std.specs.List.{range_with_len};
ghost use Rattle.std.specs.Option.{ForSome};
ghost use Rattle.std.specs.Prelude.{◌≡◌, ◌↔◌, ◌<◌, ◌+◌, ℕ, false, None, Some, Ok, IfOk, IsTrue, length, count_by, OnOk};
ghost use Rattle.wol_model.specs.Index.{listed_in, is_due, left};
ghost use Rattle.wol_model.specs.Log.{has_bit};

use crate::Fetch;
use crate::room::Filled;
use garbage_list::due;
use logger::Shared;
use manager::{Manager, StepFault};
use redirect_map::Index;
use std::sync::Wait;
use wol_disk::Disk;

// The blocks that were fetched and are still due in the record of that version and range.
fn still_due(index: &Index, filled: &Filled) -> u128
    ensures due { IsMask filled.now.lbn
        (is_still_due index.now.entries filled.now.version filled.now.lbn filled.now.count
        filled.now.due) result }
    ensures there { 0 < result → HasVersion index.now.entries filled.now.version }
    ensures index { 0 < result → IsIndex index.now.entries }
    ensures range { 0 < result → ForSome (entry_at index.now.entries filled.now.version)
        (λ e. (filled.now.lbn ≡ e.listed.first) × (filled.now.count ≡ length e.listed.keep)) }
{
    match index.find(filled.version) {
        Some(record) if record.lbn == filled.lbn && record.count == filled.count => {
            filled.due & due(index, filled.version)
        }
        _ => 0,
    }
}

/// Writes home those fetched blocks that are still due in the record of that version, syncs, and marks them as home. Answers
/// how many: 0 exactly where there is none, home is asleep for the manager, or the fetch is empty; then nothing is written.
/// `DiskFault` comes only where home's count of faults rose in this call, and brings the manager down; `Down` exactly where it
/// is down, which is tried first.
pub fn put_home<R: Wait, D: Disk>(
    rt: &R,
    m: &mut Manager<D>,
    shared: &Shared<D>,
    from: &Fetch,
) -> Result<u32, StepFault>
    requires ready { IsReady D.state m.old }
    requires at { IsHome shared.now m.old }
    ensures ready { IsReady D.state m.new }
    ensures at { IsHome shared.now m.new }
    ensures fault { TellsStep D.state result m.old m.new }
    ensures calm { OnOk result (NoneRose D.state m.old m.new) }
    ensures count { IfOk result (λ count. count ≡ home_count m.old from.now) }
    ensures none { (result ≡ Ok 0)
        ↔ ((m.old.down ≡ None) × ((b : ℕ) → goes_home m.old from.now b ≡ false)) }
    ensures put { HasPutHome D.state result m.old m.new from.now }
    ensures look { LooksPut result m.old m.new }

    // The count is that of the due blocks that are due no longer.
    ensures counted { CountsPut result (look_of_manager m.old) (look_of_manager m.new) }
    ensures lowers { IfOk result (λ count. 0 < count
        → left (listed_in m.new.index.entries) < left (listed_in m.old.index.entries)) }

    // The premise is that the fetch has the data of its version: so it is where this volume's manager filled it.
    ensures keeps { OnKept result (KeepsOn D.tells D.state m.old m.new (HasData D.tells from.now)) }
    ensures broke { OnFailed result
        (BreaksOff D.tells D.state m.old m.new (HasData D.tells from.now)) }
    ensures any_moment { IsTrue D.tells
        → StopsWithin D.tells D.state m.old m.new (HasData D.tells from.now) }
{
    if let Some(part) = m.down() {
        return Err(StepFault::Down(part));
    }
    if !m.home_up() {
        return Ok(0);
    }
    let Some(filled) = from.filled else {
        return Ok(0);
    };
    let put = still_due(m.index(), &filled);
    if put == 0 {
        return Ok(0);
    }
    let blocks = &from.blocks[..filled.count as usize];
    match m.store_home(rt, shared, filled.version, put, blocks) {
        Ok(()) => Ok(put.count_ones()),
        Err(fault) => Err(fault),
    }
}
