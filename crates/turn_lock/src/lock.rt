// The lock: two words, which count the tickets drawn and the turns made, and a slot with the value.
ghost use Rattle.std.specs.Prelude.{◌≡◌, ◌<◌};

use crate::bells::Bells;
use crate::chosen::Chosen;
use crate::object::Object;
use crate::view::{LockKey, Turns, View};
use atomic_table::{Seat, Table};
use std::alloc::Global;

/// The word that counts the tickets drawn.
pub(crate) const TICKET: usize = 0;

/// The word that counts the turns made, and so is the ticket that is served.
pub(crate) const SERVING: usize = 1;

/// The slot with the value.
pub(crate) const VALUE: usize = 0;

pub(crate) type LockSeat<T> = Seat<Option<T>, View<<T as Object>::Base>>;

pub(crate) type LockTable<T> = Table<
    Option<T>,
    View<<T as Object>::Base>,
    LockKey<<T as Object>::Base>,
    Turns<T>,
    Global,
>;

/// The value of a lock, for one turn. It can't be dropped: only `leave` and `leave_as` take it back.
pub struct Turn<T> {
    pub value: T,
    pub(crate) seal: (),
}

/// There was no memory.
#[derive(Debug, Drop)]
pub struct NoMemory;

/// A lock whose turns have one history. Threads share it by reference, each with a pass of its own,
/// and get their turns in the order in which they came. It can't be dropped: `close` ends it.
pub struct TurnLock<T: Object> {
    pub(crate) table: LockTable<T>,
    pub(crate) bells: Bells,
    pub(crate) base: Chosen<T::Base>,
    pub(crate) ghost sized: { (table.shared.table_id.words ≡ 2) × (table.shared.table_id.slots ≡ 1) },
    pub(crate) ghost based: { base.value ≡ table.shared.key.base.value },
    pub(crate) ghost passed: { 0 < table.shared.key.passes },
}
