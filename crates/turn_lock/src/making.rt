// A lock is made with all of its passes.
ghost use Rattle.std.specs.Prelude.{◌≡◌, ◌≤◌, ◌+◌, ◌∷◌, [], Some, IfOk, IfErr, vec_len, vec_capacity};
ghost use Rattle.turn_lock.specs.Passes.{lock_id, lock_passes, AreNewPasses};
ghost use Rattle.turn_lock.specs.Views.{issuer};

use crate::bells::Bells;
use crate::chosen::Chosen;
use crate::lock::{LockSeat, LockTable, NoMemory, TurnLock};
use crate::object::Object;
use crate::pass::{Pass, PassOf};
use crate::steps::Issue;
use crate::view::LockKey;
use atomic_table::{Refused, Table};
use std::alloc::{AllocFailed, Global};

impl<T: Object> TurnLock<T> {
    /// A lock over the value, which stands for the base with no entries, and its passes, numbered from 0.
    /// Those below `clients` are for clients, and the others for helpers. The caller's proof picks the base.
    /// The value comes back where there is no memory.
    pub fn new(
        alloc: Global,
        value: T,
        clients: u32,
        helpers: u32,
    ) -> Result<(TurnLock<T>, Vec<Pass<T>>), (T, NoMemory)>
        ghost base: { T.Base }
        requires count { (1 ≤ clients + helpers) × (clients + helpers ≤ 1024) }
        requires value { T.stands value base [] }
        ensures lock { IfOk result
            (λ r. ((lock_id r.0).base ≡ base) × (lock_passes r.0 ≡ clients + helpers)) }
        ensures count { IfOk result (λ r. vec_len r.1 ≡ clients + helpers) }
        ensures passes { IfOk result (λ r. AreNewPasses r.0 r.1.items) }
        ensures unchanged { IfErr result (λ r. r.0 ≡ value) }
    {
        let count = clients + helpers;
        let Ok(passes) = Vec::with_capacity(alloc, count as usize) else {
            return Err((value, NoMemory));
        };
        match lock_over(alloc, value, count) {
            Ok((lock, root)) => {
                let passes = lock.issue(root, passes, count);
                Ok((lock, passes))
            }
            Err(refused) => {
                passes.destroy_empty();
                Err(refused)
            }
        }
    }

    // Issues all passes into the room that was made for them.
    fn issue(&self, mut root: LockSeat<T>, mut passes: Vec<Pass<T>>, count: u32) -> Vec<Pass<T>>
        ghost base: { T.Base }
        requires base { self.now.base.value ≡ base }
        requires own { root.table_id ≡ self.now.table.shared.table_id }
        requires root { root.me ≡ (issuer base count 0, []) }
        requires room { (vec_len passes ≡ 0) × (passes.items ≡ []) × (vec_capacity passes ≡ count) }
        ensures count { vec_len result ≡ count }
        ensures passes { AreNewPasses self.now result.items }
    {
        for number in 0..count {
            let seat = self.table.shared.split_seat::<Issue>(&mut root);
            let pass = PassOf {
                number,
                seat,
                base: Chosen::pick(),
            };
            passes.push_reserved(pass);
        }
        passes
    }
}

// The lock, and the seat that issues its passes.
fn lock_over<T: Object>(
    alloc: Global,
    value: T,
    count: u32,
) -> Result<(TurnLock<T>, LockSeat<T>), (T, NoMemory)>
    ghost base: { T.Base }
    requires count { (1 ≤ count) × (count ≤ 1024) }
    requires value { T.stands value base [] }
    ensures lock { IfOk result (λ r. ((lock_id r.0).base ≡ base) × (lock_passes r.0 ≡ count)) }
    ensures issuer { IfOk result
        (λ r. (r.1.table_id ≡ r.0.table.shared.table_id) × (r.1.me ≡ (issuer base count 0, []))) }
    ensures unchanged { IfErr result (λ r. r.0 ≡ value) }
{
    let key = LockKey {
        passes: u64::from(count),
        base: Chosen::pick(),
    };
    let mut slots = Vec::new(alloc);
    if let Err(AllocFailed { value }) = slots.push(Some(value)) {
        slots.destroy_empty();
        let Some(value) = value else { unreachable!() };
        return Err((value, NoMemory));
    }
    let made: Result<(LockTable<T>, LockSeat<T>), Refused<Option<T>, Global>> = Table::new(
        alloc,
        &[0, 0],
        slots,
        &key,
    );
    match made {
        Ok((table, seat)) => {
            let lock = TurnLock {
                table,
                bells: Bells::new(),
                base: Chosen::pick(),
            };
            Ok((lock, seat))
        }
        Err(Refused { slots }) => Err((sole_value(slots), NoMemory)),
    }
}

// The value of the one slot.
fn sole_value<T>(mut slots: Vec<Option<T>>) -> T
    requires { (value : T) × (slots.items ≡ Some value ∷ []) }
    ensures { slots.items ≡ Some result ∷ [] }
{
    let Some(Some(value)) = slots.pop() else {
        unreachable!()
    };
    slots.destroy_empty();
    value
}
