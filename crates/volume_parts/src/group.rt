// Groups: which items go to a log together, and how a lane takes them.
ghost use Rattle.log_segment.specs.Records.{group_of, count_of, AreItems};
ghost use Rattle.log_segment.specs.declared.item.Item.{Item};
ghost use Rattle.logger.specs.Lanes.{IsLane, HoldsAll, IsAt, AreWhole, first_count, lane_owner, held_in, taken_in, pool_blocks};
ghost use Rattle.offload_policy.specs.Placing.{may_hold};
ghost use Rattle.std.specs.List.{AllByRecursion, list_any};
ghost use Rattle.std.specs.Prelude.{◌≡◌, ◌+◌, ◌-◌, ◌≤◌, ◌<◌, ◌^◌, true, not, None, Some, IfSome, IsNone, MatchOption, length, take, slice_get};
ghost use Rattle.volume_parts.specs.Joining.{meets, is_covered_behind, GoTogether, room_for};
ghost use Rattle.volume_parts.specs.Listing.{recs_at, entered_all};
ghost use Rattle.volume_parts.specs.Offers.{IsTurnedAway, HasTakenWrite};
ghost use Rattle.volume_parts.specs.Offers.{passed_in};
ghost use Rattle.volume_parts.specs.Puts.{PutIn};
ghost use Rattle.wol_model.specs.Index.{listed_in};

use log_segment::Item;
use logger::{Lane, Shared, Spot};
use offload_policy::Room;
use redirect_map::{Index, Rec};
use std::sync::Wait;
use wol_disk::{Block, Disk, Failed};

// Whether two items have a block in common.
fn meets(one: &Item, other: &Item) -> bool
    ensures { result ≡ meets one.now other.now }
{
    if one.lbn <= other.lbn {
        other.lbn - one.lbn < one.count as u64
    } else {
        one.lbn - other.lbn < other.count as u64
    }
}

// Whether one of these items has a block in common with the other.
fn any_meets(items: &[Item], other: &Item) -> bool
    ensures { result ≡ list_any (λ i. meets i other.now) items.now }
{
    items.iter().any(|item| meets(item, other))
}

// Whether the item at this place has a block that a record or an item before it covers.
fn covered_behind(index: &Index, items: &[Item], place: usize) -> bool
    requires { place < length items.now }
    ensures { (i : Item) → slice_get items.now place ≡ Some i
        → result ≡ is_covered_behind (listed_in index.now.entries) (take place items.now) i }
{
    let item = items[place];
    index.covered(item.lbn, item.count) || any_meets(&items[..place], &item)
}

// Whether a logger was turned away.
fn any_passed(rooms: &[Room]) -> bool
    ensures { result ≡ list_any (λ r. not (may_hold r)) rooms.now }
{
    rooms.iter().any(|room| matches!(room, Room::No))
}

// Whether the item at this place goes to the log to which those before it go.
fn joins(index: &Index, home_up: bool, passed: bool, items: &[Item], place: usize) -> bool
    requires { place < length items.now }
    ensures away { result ≡ true → home_up ≡ true → (i : Item) → slice_get items.now place ≡ Some i
        → is_covered_behind (listed_in index.now.entries) (take place items.now) i ≡ true }
    ensures long { result ≡ true → passed ≡ true → (i : Item) → slice_get items.now place ≡ Some i
        → first_count items.now ≤ i.count }
{
    if passed && items[place].count < items[0].count {
        return false;
    }
    !home_up || covered_behind(index, items, place)
}

/// How many first ones of the items go to a log together, where the first of them goes to one.
pub fn together(index: &Index, home_up: bool, rooms: &[Room], items: &[Item]) -> usize
    requires some { 1 ≤ length items.now }
    ensures some { 1 ≤ result }
    ensures most { result ≤ length items.now }
    ensures joins { GoTogether home_up (listed_in index.now.entries) (passed_in rooms.now) items.now
        result }
{
    let passed = any_passed(rooms);
    for place in 1..items.len() {
        if !joins(index, home_up, passed, items, place) {
            return place;
        }
    }
    items.len()
}

/// How many first ones of a list of items fit a segment, and how many blocks these have.
#[derive(Clone, Copy)]
struct Fitting {
    items: usize,
    blocks: usize,
}

// How many of the items have room together with the heads of all but the first, which has.
fn first_fitting(room: u32, items: &[Item]) -> Fitting
    requires some { 1 ≤ length items.now }
    requires first { first_count items.now ≤ room }
    ensures some { 1 ≤ result.items }
    ensures most { result.items ≤ length items.now }
    ensures blocks { result.blocks ≡ count_of (take result.items items.now) }
    ensures fits { room_for (take result.items items.now) ≤ room }
{
    let mut blocks = items[0].count as usize;
    for place in 1..items.len() {
        let more = blocks + items[place].count as usize;
        if more + place > room as usize {
            return Fitting {
                items: place,
                blocks,
            };
        }
        blocks = more;
    }
    Fitting {
        items: items.len(),
        blocks,
    }
}

/// Writes records to this lane, as many of the items as the segment has room for that takes the first: the first held one with
/// room for that item, or, where none has it, one that its pool gives in this call.
pub fn put_group<R: Wait, D: Disk>(
    rt: &R,
    shared: &Shared<D>,
    lane: &mut Lane<D>,
    version: u64,
    items: &[Item],
    from: &[Block],
) -> Option<(usize, Result<Spot, (u32, Failed)>)>
    requires lane { IsLane D.state lane.old }
    requires at { IsAt shared.now lane.old }
    requires none { taken_in lane.old ≡ None }
    requires whole { AreWhole (held_in lane.old) }
    requires some { 1 ≤ length items.now }
    requires items { AreItems items.now }
    requires first { first_count items.now + 2 ≤ pool_blocks lane.old }
    requires blocks { count_of items.now ≤ length from.now }
    requires version { (1 ≤ version) × (version + length items.now ≤ 2 ^ 63) }
    ensures lane { IsLane D.state lane.new }
    ensures at { IsAt shared.now lane.new }
    ensures none { taken_in lane.new ≡ None }
    ensures all { HoldsAll lane.old → HoldsAll lane.new }
    ensures turn { MatchOption result (IsTurnedAway (first_count items.now) lane.old lane.new)
        (λ _. HasTakenWrite (first_count items.now) lane.old lane.new) }
    ensures count { IfSome result (λ r. (1 ≤ r.0) × (r.0 ≤ length items.now)) }
    ensures fits { IfSome result (λ r. room_for (take r.0 items.now) + 2 ≤ pool_blocks lane.old) }
    ensures put { IfSome result (λ r. PutIn D.state lane.old lane.new (first_count items.now)
        (room_for (take r.0 items.now))
        (group_of (lane_owner lane.old) version (take r.0 items.now) from.now) r.1) }
{
    let first = items[0].count;
    if !lane.secure(rt, shared, first) {
        return None;
    }
    let fitting = first_fitting(lane.fit(first), items);
    let group = &items[..fitting.items];
    let written = lane.write_group(rt, shared, version, group, &from[..fitting.blocks]);
    Some((fitting.items, written))
}

// The mask of a record that keeps all its blocks.
fn all_kept(count: u32) -> u128
    requires { (1 ≤ count) × (count ≤ 128) }
    ensures { result ≡ 2 ^ count - 1 }
{
    u128::MAX >> (128 - count)
}

/// Lists the records of a group that begins at this spot of a lane: one for each item, of consecutive versions, each with
/// its head in front of its blocks.
pub fn list_group(index: &mut Index, version: u64, lane: u32, spot: Spot, items: &[Item])
    requires below { AllByRecursion (λ e. e.listed.version < version) index.old.entries }
    requires items { AreItems items.now }
    requires version { version + length items.now ≤ 2 ^ 63 }
    requires position { spot.pos + length items.now + count_of items.now ≤ 65536 }
    requires reserved { length items.now ≤ index.old.reserved }
    ensures { index.new.entries
        ≡ entered_all index.old.entries (recs_at version items.now lane spot.segment spot.pos) }
{
    let mut next = version;
    let mut pos = spot.pos;
    for item in items {
        index.add(Rec {
            version: next,
            lbn: item.lbn,
            count: item.count,
            keep: all_kept(item.count),
            lane,
            segment: spot.segment,
            pos,
        });
        next += 1;
        pos = pos + 1 + item.count;
    }
}
