// Which record is next.
ghost use Rattle.garbage_list.specs.Least.{HasLane, can_go, can_go_home, from_on};
ghost use Rattle.redirect_map.specs.Index.{IsAnswer, IsIndex};
ghost use Rattle.std.specs.List.{AllByRecursion};
ghost use Rattle.std.specs.Prelude.{find, IfSome};

use garbage_list::{next_due, next_due_from, next_to_go};
use redirect_map::{Index, Rec};

/// The record of least version with a block that may go and whose lane is true in the list.
pub(crate) fn going(index: &Index, lanes: &[bool]) -> Option<Rec>
    requires { AllByRecursion (HasLane lanes.now) index.now.entries }
    ensures answer { IsAnswer (find (can_go lanes.now index.now.entries) index.now.entries) result }
    ensures index { IfSome result (λ r. IsIndex index.now.entries) }
{
    if index.is_empty() {
        return None;
    }
    let version = next_to_go(index, lanes)?;
    index.find(version)
}

/// The record of least version with a due block and whose lane is true in the list.
pub(crate) fn due_next(index: &Index, lanes: &[bool]) -> Option<Rec>
    requires { AllByRecursion (HasLane lanes.now) index.now.entries }
    ensures answer { IsAnswer (find (can_go_home lanes.now index.now.entries) index.now.entries)
        result }
    ensures index { IfSome result (λ r. IsIndex index.now.entries) }
{
    if index.is_empty() {
        return None;
    }
    let version = next_due(index, lanes)?;
    index.find(version)
}

/// The same among the versions from this one on.
pub(crate) fn due_from(index: &Index, lanes: &[bool], from: u64) -> Option<Rec>
    requires { AllByRecursion (HasLane lanes.now) index.now.entries }
    ensures answer { IsAnswer (find (from_on from (can_go_home lanes.now index.now.entries))
        index.now.entries) result }
    ensures index { IfSome result (λ r. IsIndex index.now.entries) }
{
    if index.is_empty() {
        return None;
    }
    let version = next_due_from(index, lanes, from)?;
    index.find(version)
}
