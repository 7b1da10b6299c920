// What the seats of a lock's table know, and the rule of the table. No value of these types but the key is made,
// so their numbers have no upper bound.
use crate::chosen::Chosen;
use crate::object::{History, Object};
use atomic_table::TableRule;
use std::collections::LinkedList;
use std::marker::PhantomData;

/// What a seat does.
pub enum Stage {
    /// It was joined to another.
    Spent,
    /// It issues passes, and this number next.
    Issuer(u64),
    /// It is a pass in no turn.
    Idle,
    /// It waits with this ticket.
    Waiting(u64),
    /// It has the turn with this ticket.
    Holding(u64),
}

/// What a pass claims of the history: its number, the entries that it has seen, and its own.
pub struct Claim {
    pub number: u64,
    pub seen: History,
    pub mine: History,
}

/// What a seat knows.
pub struct View<B> {
    pub base: Option<B>,
    /// How many of the lock's passes it stands for.
    pub parts: u64,
    pub stage: Stage,
    pub number: u64,
    pub seen: History,
    pub mine: History,
    /// What those that it took in claim.
    pub took: LinkedList<Claim>,
}

/// What the table is told once, when it is made.
#[derive(Drop)]
pub struct LockKey<B> {
    pub passes: u64,
    pub base: Chosen<B>,
}

/// The rule of a lock's table.
pub struct Turns<T> {
    object: PhantomData<T>,
}

impl<T: Object> TableRule<Option<T>, View<T::Base>, LockKey<T::Base>> for Turns<T> {
    ghost use Rattle.turn_lock.specs.Rule.{Kept};
    ghost use Rattle.turn_lock.specs.Views.{issuer};

    ghost holds = { λ key. Kept T.stands key.base.value key.passes };

    ghost first = { λ key. issuer key.base.value key.passes 0 };
}
