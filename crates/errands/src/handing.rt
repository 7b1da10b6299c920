// Handing over and coming back.
ghost use Rattle.errands.specs.Ends.{IsIdle, IsAway, IsOver, IsWaiting, IsBusy, IsTold};
ghost use Rattle.errands.specs.Rule.{idle, away, waits, busy, told, CameBack, Came, opened, fresh};
ghost use Rattle.std.specs.Prelude.{◌≡◌, true, false, [], ◌∷◌, None, Some, IfOk, IfSome, IfNone};

use crate::ends::{ErrandSeat, ErrandTable, Errands, NoMemory, Sender, Worker};
use crate::errand::Errand;
use crate::patience::Patience;
use crate::rule::{Asks, Ends, Gives, Hires, Leaves, Looks, Opens};
use atomic_table::{Refused, Table};
use std::alloc::Global;
use std::hint;
use std::sync::Wait;
use std::sync::atomic::AtomicBool;
use std::sync::atomic::Ordering::SeqCst;

// The one word says how far the one thing in the one slot is. It is 0 before the first.
const PHASE: usize = 0;

const SLOT: usize = 0;

// Something was handed over.
const GIVEN: u64 = 1;

// It is served.
const DONE: u64 = 2;

// Nothing more comes.
const OVER: u64 = 3;

// The seat takes the empty slot, and makes the worker.
fn open<T: Errand>(
    table: ErrandTable<T>,
    mut seat: ErrandSeat<T>,
) -> (Errands<T>, Sender<T>, Worker<T>)
    requires sized { (table.shared.table_id.words ≡ 1) × (table.shared.table_id.slots ≡ 1) }
    requires own { seat.table_id ≡ table.shared.table_id }
    requires fresh { seat.me ≡ (fresh, []) }
    ensures sender { IsIdle result.0 result.1 }
    ensures worker { IsWaiting result.0 result.2 }
{
    table.shared.load::<Opens>(&mut seat, PHASE);
    let worker = table.shared.split_seat::<Hires>(&mut seat);
    (
        Errands {
            table,
            came: AtomicBool::new(false),
        },
        Sender {
            patience: Patience::new(),
            seat,
        },
        Worker {
            patience: Patience::new(),
            seat: worker,
        },
    )
}

impl<T: Errand> Errands<T> {
    /// A place with its two ends, where nothing is handed over yet.
    pub fn new(alloc: Global) -> Result<(Errands<T>, Sender<T>, Worker<T>), NoMemory>
        ensures sender { IfOk result (λ r. IsIdle r.0 r.1) }
        ensures worker { IfOk result (λ r. IsWaiting r.0 r.2) }
    {
        let mut slots = Vec::new(alloc);
        if slots.push(None).is_err() {
            slots.destroy_empty();
            return Err(NoMemory);
        }
        let made: Result<(ErrandTable<T>, ErrandSeat<T>), Refused<Option<T>, Global>> = Table::new(
            alloc,
            &[0],
            slots,
            &(),
        );
        match made {
            Ok((table, seat)) => Ok(open(table, seat)),
            Err(Refused { slots: _ }) => Err(NoMemory),
        }
    }

    /// Whether the worker has come: it asked for something at least once, so a thread is there for it.
    pub fn has_worker(&self) -> bool {
        self.came.load(SeqCst)
    }

    // Whether one of so many looks sees another phase than this one.
    fn sees_change(&self, seen: u32, looks: u32) -> bool {
        for _ in 0..looks {
            if self.table.shared.peek(PHASE) != u64::from(seen) {
                return true;
            }
            hint::spin_loop();
        }
        false
    }

    // Waits until the phase is no longer the one that was seen, or for no reason.
    fn rest<R: Wait>(&self, rt: &R, patience: &mut Patience, seen: u32) {
        let found = self.sees_change(seen, patience.looks());
        patience.learn(found);
        if !found {
            self.table.shared.park(rt, PHASE, seen);
        }
    }

    /// Hands something over, and wakes the worker.
    pub fn give(&self, sender: &mut Sender<T>, item: T)
        requires idle { IsIdle self.now sender.old }
        requires ready { T.ready item }
        ensures { IsAway self.now sender.new item }
    {
        let table = &self.table.shared;
        let found = table.exchange(&mut sender.seat, SLOT, Some(item));
        let None = found else { unreachable!() };
        table.store::<Gives>(&mut sender.seat, PHASE, GIVEN);
        table.wake_all(PHASE);
    }

    // Waits until what was handed over is served.
    fn ask<R: Wait>(&self, rt: &R, patience: &mut Patience, seat: &mut ErrandSeat<T>)
        requires own { seat.old.table_id ≡ self.now.table.shared.table_id }
        requires away { (x : T) × (seat.old.me ≡ (away x, [])) }
        ensures own { seat.new.table_id ≡ seat.old.table_id }
        ensures back { (x : T) → seat.old.me ≡ (away x, []) → CameBack T.served x seat.new.me }
    {
        for _ in rt.forever() {
            if self.table.shared.load::<Asks<T>>(seat, PHASE) == DONE {
                return;
            }
            self.rest(rt, patience, GIVEN as u32);
        }
        unreachable!()
    }

    /// Waits until what was handed over is served, and takes it back.
    pub fn get_back<R: Wait>(&self, rt: &R, sender: &mut Sender<T>) -> T
        requires away { (x : T) × IsAway self.now sender.old x }
        ensures idle { IsIdle self.now sender.new }
        ensures served { (x : T) → IsAway self.now sender.old x → T.served x result }
    {
        self.ask(rt, &mut sender.patience, &mut sender.seat);
        match self.table.shared.exchange(&mut sender.seat, SLOT, None) {
            Some(item) => item,
            None => unreachable!(),
        }
    }

    /// Tells the worker that nothing more comes, and wakes it. Nothing can be handed over after that.
    pub fn end(&self, sender: &mut Sender<T>)
        requires { IsIdle self.now sender.old }
        ensures { IsOver self.now sender.new }
    {
        self.table
            .shared
            .store::<Ends>(&mut sender.seat, PHASE, OVER);
        self.table.shared.wake_all(PHASE);
    }

    // Waits until something is handed over. False where nothing more comes.
    fn look<R: Wait>(&self, rt: &R, patience: &mut Patience, seat: &mut ErrandSeat<T>) -> bool
        requires own { seat.old.table_id ≡ self.now.table.shared.table_id }
        requires waits { seat.old.me ≡ (waits, []) }
        ensures own { seat.new.table_id ≡ seat.old.table_id }
        ensures came { result ≡ true → Came T.ready seat.new.me }
        ensures told { result ≡ false → seat.new.me ≡ (told, []) }
    {
        for _ in rt.forever() {
            let found = self.table.shared.load::<Looks<T>>(seat, PHASE);
            if found == GIVEN {
                return true;
            }
            if found == OVER {
                return false;
            }
            let seen = if found == DONE { DONE as u32 } else { 0 };
            self.rest(rt, patience, seen);
        }
        unreachable!()
    }

    /// Waits for what is handed over, and takes it. `None` where the other end said that nothing more comes.
    pub fn take<R: Wait>(&self, rt: &R, worker: &mut Worker<T>) -> Option<T>
        requires { IsWaiting self.now worker.old }
        ensures some { IfSome result (λ x. T.ready x × IsBusy self.now worker.new x) }
        ensures none { IfNone result (IsTold self.now worker.new) }
    {
        self.came.store(true, SeqCst);
        if !self.look(rt, &mut worker.patience, &mut worker.seat) {
            return None;
        }
        match self.table.shared.exchange(&mut worker.seat, SLOT, None) {
            Some(item) => Some(item),
            None => unreachable!(),
        }
    }

    /// Leaves what was taken, served, and wakes the one that waits for it.
    pub fn leave(&self, worker: &mut Worker<T>, item: T)
        requires { (x : T) × IsBusy self.now worker.old x × T.served x item }
        ensures { IsWaiting self.now worker.new }
    {
        let table = &self.table.shared;
        let found = table.exchange(&mut worker.seat, SLOT, Some(item));
        let None = found else { unreachable!() };
        table.store::<Leaves>(&mut worker.seat, PHASE, DONE);
        table.wake_all(PHASE);
    }
}
