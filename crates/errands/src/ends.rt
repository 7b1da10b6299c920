// The place where things are handed over, and its two ends.
ghost use Rattle.std.specs.Prelude.{◌≡◌};

use crate::errand::Errand;
use crate::patience::Patience;
use crate::rule::{Handing, View};
use atomic_table::{Seat, Table};
use std::alloc::Global;
use std::sync::atomic::AtomicBool;

pub(crate) type ErrandSeat<T> = Seat<Option<T>, View<T>>;

pub(crate) type ErrandTable<T> = Table<Option<T>, View<T>, (), Handing<T>, Global>;

/// There was no memory.
#[derive(Debug, Drop)]
pub struct NoMemory;

/// Where things are handed over: one at a time, and each comes back before the next.
#[derive(Drop)]
pub struct Errands<T: Errand> {
    pub(crate) table: ErrandTable<T>,
    // whether the worker has come
    pub(crate) came: AtomicBool,
    pub(crate) ghost sized: { (table.shared.table_id.words ≡ 1) × (table.shared.table_id.slots ≡ 1) },
}

/// The end that hands over and takes back.
#[derive(Drop)]
pub struct Sender<T> {
    // how it waits for what was handed over
    pub(crate) patience: Patience,
    pub(crate) seat: ErrandSeat<T>,
}

/// The end that serves.
#[derive(Drop)]
pub struct Worker<T> {
    // how it waits for what is handed over. The seat has no bytes, and what has none gets no proof in a slice
    pub(crate) patience: Patience,
    pub(crate) seat: ErrandSeat<T>,
}
