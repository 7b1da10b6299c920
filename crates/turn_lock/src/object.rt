// What lies under a lock, and how a caller names an operation.
ghost use Rattle.std.specs.Prelude.{ℕ, List, []};

use std::collections::LinkedList;
use std::marker::Brand;

/// Entries in order, each the number of a pass and an operation, for the bases of objects.
/// No value of it is made, so its numbers have no upper bound.
pub type History = LinkedList<(u64, LinkedList<u64>)>;

/// What may lie under a lock: a value that stands for a base, what it began with, and for the entries of the turns
/// since then. An entry is the number of a pass and an operation. No value of the base is ever made.
/// Each object writes its operations as lists of numbers by a rule of its own, no two operations by one list.
pub trait Object {
    type Base;

    ghost stands: { Self → Self.Base → List (ℕ × List ℕ) → Type 0 };
}

/// Names the operation of a turn. A caller gives `Brand`, and its proof says which operation that is.
pub trait Named {
    ghost operation: { List ℕ };
}

impl Named for Brand {
    ghost operation = { [] };
}
