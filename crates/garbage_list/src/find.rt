// The least version of which something may go, or is due.
ghost use Rattle.garbage_list.specs.Least.{HasLane, can_go, can_go_home, has_awake, from_on, IsTold, IsNext};
ghost use Rattle.redirect_map.specs.Index.{IsIndex};
ghost use Rattle.std.specs.List.{AllByRecursion};
ghost use Rattle.std.specs.Prelude.{◌≤◌};

use redirect_map::{Index, Sought};

// This version, if its record has a block that is sought and its lane is true.
fn told(index: &Index, lanes: &[bool], version: u64, sought: Sought) -> Option<u64>
    requires { AllByRecursion (HasLane lanes.now) index.now.entries }
    ensures told { IsTold (has_awake sought lanes.now index.now.entries) index.now.entries version
        result }
    ensures index { IsIndex index.now.entries }
{
    let record = index.find(version)?;
    if !lanes[record.lane as usize] {
        return None;
    }
    if !index.has(version, sought) {
        return None;
    }
    Some(version)
}

// The greatest version, or 0 where there is no record.
fn last_version(index: &Index) -> u64
    ensures { AllByRecursion (λ e. e.listed.version ≤ result) index.now.entries }
{
    let count = index.len();
    if count == 0 {
        return 0;
    }
    index.at(count - 1).version
}

// The least version, from this one on, whose record has a block that is sought and whose lane is true.
fn next_from(index: &Index, lanes: &[bool], sought: Sought, start: u64) -> Option<u64>
    requires { AllByRecursion (HasLane lanes.now) index.now.entries }
    ensures { IsNext (from_on start (has_awake sought lanes.now index.now.entries))
        index.now.entries result }
{
    if index.is_empty() {
        return None;
    }
    let mut from = start;
    while let Some(version) = index.first(from, lanes, sought) {
        if let Some(found) = told(index, lanes, version, sought) {
            return Some(found);
        }
        let last = last_version(index);
        if version >= last {
            return None;
        }
        from = version + 1;
    }
    None
}

// The least version of all.
fn next(index: &Index, lanes: &[bool], sought: Sought) -> Option<u64>
    requires { AllByRecursion (HasLane lanes.now) index.now.entries }
    ensures { IsNext (has_awake sought lanes.now index.now.entries) index.now.entries result }
{
    next_from(index, lanes, sought, 0)
}

/// The least version of which a block may go and whose lane is true in the list, that is whose logger is
/// awake; and none exactly where there is no such record.
pub fn next_to_go(index: &Index, lanes: &[bool]) -> Option<u64>
    requires { AllByRecursion (HasLane lanes.now) index.now.entries }
    ensures { IsNext (can_go lanes.now index.now.entries) index.now.entries result }
{
    next(index, lanes, Sought::Going)
}

/// The least version with a due block and whose lane is true in the list, that is whose logger is awake; and
/// none exactly where there is no such record.
pub fn next_due(index: &Index, lanes: &[bool]) -> Option<u64>
    requires { AllByRecursion (HasLane lanes.now) index.now.entries }
    ensures { IsNext (can_go_home lanes.now index.now.entries) index.now.entries result }
{
    next(index, lanes, Sought::Due)
}

/// `next_due` among the versions from this one on.
pub fn next_due_from(index: &Index, lanes: &[bool], from: u64) -> Option<u64>
    requires { AllByRecursion (HasLane lanes.now) index.now.entries }
    ensures { IsNext (from_on from (can_go_home lanes.now index.now.entries)) index.now.entries
        result }
{
    next_from(index, lanes, Sought::Due, from)
}
