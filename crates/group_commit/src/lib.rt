//! Consecutive writes of one volume, of which those that go to one log together share its two syncs, with the place of
//! each.
//!
//! `write_many` is `Manager::write_run` with a list of places. `specs/Commits` says what it leaves.
#![tactic(auto)]

ghost use Rattle.group_commit.specs.Commits.{HasNoRoom, HasCommitted};
ghost use Rattle.log_segment.specs.Records.{count_of};
ghost use Rattle.manager.specs.Groups.{AreItemsOf};
ghost use Rattle.manager.specs.Stands.{IsReady, IsHome, IsSameManager};
ghost use Rattle.spin_model.specs.Spun.{state_of};
ghost use Rattle.std.specs.Prelude.{◌≡◌, ◌⊎◌, ◌+◌, ◌≤◌, ◌++◌, length, replicate, vec_len, vec_capacity};

use log_segment::Item;
use logger::Shared;
use manager::{Manager, Place, WriteRefusal};
use std::sync::Wait;
use wol_disk::{Block, Disk};

// Adds a place so many times.
fn add(places: &mut Vec<Place>, place: Place, count: u32)
    requires room { vec_len places.old + count ≤ vec_capacity places.old }
    ensures { places.new.items ≡ places.old.items ++ replicate count place }
{
    'adding: for _item in 0..count {
        places.push_reserved(place);
    }
}

/// Writes some first ones of the items, at least one, as `Manager::write_run` does, and adds the place of each that was
/// written. Answers how many. `from` has the items' blocks in order.
///
/// Memory for the places is taken first: where there is none, `NoMemory` comes before anything else is looked at. Each
/// other refusal is `write_run`'s.
pub fn write_many<R: Wait, D: Disk>(
    rt: &R,
    m: &mut Manager<D>,
    shared: &Shared<D>,
    items: &[Item],
    from: &[Block],
    places: &mut Vec<Place>,
) -> Result<u32, WriteRefusal>
    requires ready { IsReady D.state m.old }
    requires at { IsHome shared.now m.old }
    requires some { 1 ≤ length items.now }
    requires items { AreItemsOf m.old.most (state_of D.state m.old.home).size items.now }
    requires blocks { count_of items.now ≤ length from.now }
    ensures ready { IsReady D.state m.new }
    ensures at { IsHome shared.now m.new }
    ensures same { IsSameManager m.old m.new }
    ensures committed { HasNoRoom items.now result places.old places.new m.old m.new
        ⊎ HasCommitted D.tells D.state items.now from.now result places.old places.new m.old m.new }
{
    if places.reserve(items.len()).is_err() {
        return Err(WriteRefusal::NoMemory);
    }
    let (count, place) = m.write_run(rt, shared, items, from)?;
    add(places, place, count);
    Ok(count)
}
