// A turn: draw a ticket, wait until it is served, take the value out, put it back, and let the next one come.
ghost use denote.Ref.{MutBor};
ghost use Rattle.std.specs.Fn.{FnOnceReturnsAtMut};
ghost use Rattle.std.specs.Prelude.{◌≡◌, true, false, ◌<◌, ◌%◌, ◌^◌, ◌++◌, ◌∷◌, [], ℕ, Some, None};
ghost use Rattle.turn_lock.specs.Histories.{own, Begins, AreNumberedBelow};
ghost use Rattle.turn_lock.specs.Passes.{pass_lock, pass_number, pass_seen, pass_mine, IsPassOf, IsFree, IsInTurn, IsInTurnWith, IsSamePass};
ghost use Rattle.turn_lock.specs.Steps.{HasDrawn, TurnCame};
ghost use Rattle.turn_lock.specs.Views.{turned};
ghost use Rattle.turn_lock.specs.declared.view.Stage.TheVariants.{Idle, Waiting, Holding};

use crate::lock::{LockSeat, SERVING, TICKET, Turn, TurnLock, VALUE};
use crate::object::{Named, Object};
use crate::pass::Pass;
use crate::steps::{Draw, Look, Raise};
use std::hint;
use std::marker::Brand;
use std::sync::Wait;

// How often a thread looks again before it sleeps. A short turn is over by then.
const LOOKS: u32 = 100;

impl<T: Object> TurnLock<T> {
    /// Waits for the turn of this pass. The value stands for all entries so far, which begin with those that the pass
    /// had seen, and among which those with its number are its own. No number is above 1,023. Where the lock is free
    /// this costs one atomic addition and one load. It may wait for ever, as where a turn is never left.
    pub fn enter<R: Wait>(&self, rt: &R, pass: &mut Pass<T>) -> Turn<T>
        requires own { IsPassOf self.now pass.old }
        requires free { IsFree pass.old }
        ensures same { IsSamePass pass.old pass.new }
        ensures turn { IsInTurn pass.new }
        ensures seen { Begins (pass_seen pass.old) (pass_seen pass.new) }
        ensures mine { pass_mine pass.new ≡ pass_mine pass.old }
        ensures own { own (pass_number pass.new) (pass_seen pass.new) ≡ pass_mine pass.new }
        ensures number { pass_number pass.new < 1024 }
        ensures numbers { AreNumberedBelow 1024 (pass_seen pass.new) }
        ensures value { T.stands result.value (pass_lock pass.new).base (pass_seen pass.new) }
    {
        self.await_turn(rt, &mut pass.seat);
        let value = self.take_value(&mut pass.seat);
        Turn { value, seal: () }
    }

    /// Ends the turn with one entry: the number of the pass, and the operation that `N` names.
    /// Where nobody waits this costs one atomic addition and one load.
    pub fn leave<N: Named>(&self, turn: Turn<T>, pass: &mut Pass<T>)
        requires own { IsPassOf self.now pass.old }
        requires turn { IsInTurn pass.old }
        requires value { T.stands turn.value (pass_lock pass.old).base
            (pass_seen pass.old ++ (pass_number pass.old, N.operation) ∷ []) }
        ensures same { IsSamePass pass.old pass.new }
        ensures free { IsFree pass.new }
        ensures seen { pass_seen pass.new
            ≡ pass_seen pass.old ++ (pass_number pass.old, N.operation) ∷ [] }
        ensures mine { pass_mine pass.new
            ≡ pass_mine pass.old ++ (pass_number pass.old, N.operation) ∷ [] }
    {
        let Turn { value, seal: _ } = turn;
        self.put_value(&mut pass.seat, value);
        self.leave_in_place::<N>(pass);
    }

    /// The same with the operation given as numbers, so that no caller picks a name.
    pub fn leave_as(&self, turn: Turn<T>, pass: &mut Pass<T>, operation: &[u64])
        requires own { IsPassOf self.now pass.old }
        requires turn { IsInTurn pass.old }
        requires value { T.stands turn.value (pass_lock pass.old).base
            (pass_seen pass.old ++ (pass_number pass.old, operation.now) ∷ []) }
        ensures same { IsSamePass pass.old pass.new }
        ensures free { IsFree pass.new }
        ensures seen { pass_seen pass.new
            ≡ pass_seen pass.old ++ (pass_number pass.old, operation.entry.now) ∷ [] }
        ensures mine { pass_mine pass.new
            ≡ pass_mine pass.old ++ (pass_number pass.old, operation.entry.now) ∷ [] }
    {
        self.leave_named::<Brand>(turn, pass, operation);
    }

    // The operation goes through this call, so that the caller's proof can name it.
    fn leave_named<N: Named>(&self, turn: Turn<T>, pass: &mut Pass<T>, operation: &[u64])
        requires name { N.operation ≡ operation.now }
        requires own { IsPassOf self.now pass.old }
        requires turn { IsInTurn pass.old }
        requires value { T.stands turn.value (pass_lock pass.old).base
            (pass_seen pass.old ++ (pass_number pass.old, operation.now) ∷ []) }
        ensures same { IsSamePass pass.old pass.new }
        ensures free { IsFree pass.new }
        ensures seen { pass_seen pass.new
            ≡ pass_seen pass.old ++ (pass_number pass.old, operation.entry.now) ∷ [] }
        ensures mine { pass_mine pass.new
            ≡ pass_mine pass.old ++ (pass_number pass.old, operation.entry.now) ∷ [] }
    {
        let _ = operation;
        self.leave::<N>(turn, pass);
    }

    /// As `enter`, but the value stays in its place, where `change` reads and writes it. It costs no move.
    pub fn enter_in_place<R: Wait>(&self, rt: &R, pass: &mut Pass<T>)
        requires own { IsPassOf self.now pass.old }
        requires free { IsFree pass.old }
        ensures same { IsSamePass pass.old pass.new }
        ensures seen { Begins (pass_seen pass.old) (pass_seen pass.new) }
        ensures mine { pass_mine pass.new ≡ pass_mine pass.old }
        ensures own { own (pass_number pass.new) (pass_seen pass.new) ≡ pass_mine pass.new }
        ensures number { pass_number pass.new < 1024 }
        ensures numbers { AreNumberedBelow 1024 (pass_seen pass.new) }
        ensures value { (y : T) × IsInTurnWith y pass.new
            × T.stands y (pass_lock pass.new).base (pass_seen pass.new) }
    {
        self.await_turn(rt, &mut pass.seat);
    }

    /// Lets `work` read and write the value in its place, in a turn that `enter_in_place` began.
    pub fn change<A, F: FnOnce(&mut T) -> A>(&self, pass: &mut Pass<T>, work: F) -> A
        requires own { IsPassOf self.now pass.old }
        requires turn { (y : T) × IsInTurnWith y pass.old }
        requires work { (p : MutBor T) → IsInTurnWith p.now pass.old → F.pre work p }
        ensures same { IsSamePass pass.old pass.new }
        ensures seen { pass_seen pass.new ≡ pass_seen pass.old }
        ensures mine { pass_mine pass.new ≡ pass_mine pass.old }
        ensures worked { (y : T) → IsInTurnWith y pass.old
            → (z : T) × FnOnceReturnsAtMut F.FnOnce work y result z × IsInTurnWith z pass.new }
    {
        match pass.seat.slot_mut(&self.table.shared, VALUE) {
            Some(value) => work(value),
            None => unreachable!(),
        }
    }

    /// Ends a turn that `enter_in_place` began with one entry, as `leave` does.
    pub fn leave_in_place<N: Named>(&self, pass: &mut Pass<T>)
        requires own { IsPassOf self.now pass.old }
        requires value { (y : T) × IsInTurnWith y pass.old
            × T.stands y (pass_lock pass.old).base
            (pass_seen pass.old ++ (pass_number pass.old, N.operation) ∷ []) }
        ensures same { IsSamePass pass.old pass.new }
        ensures free { IsFree pass.new }
        ensures seen { pass_seen pass.new
            ≡ pass_seen pass.old ++ (pass_number pass.old, N.operation) ∷ [] }
        ensures mine { pass_mine pass.new
            ≡ pass_mine pass.old ++ (pass_number pass.old, N.operation) ∷ [] }
    {
        let ticket = self.raise::<N>(&mut pass.seat);
        self.wake(ticket.wrapping_add(1));
    }

    // Draws a ticket and waits until it is served. It stands apart so that no room for a value is made ready before the wait:
    // a value is then moved once where it is taken out.
    #[inline(never)]
    fn await_turn<R: Wait>(&self, rt: &R, seat: &mut LockSeat<T>)
        requires own { seat.old.table_id ≡ self.now.table.shared.table_id }
        requires idle { (seat.old.me.0.stage ≡ Idle) × (seat.old.me.1 ≡ []) }
        ensures { TurnCame T.stands seat.old seat.new }
    {
        let ticket = self.draw(seat);
        if !self.has_come(seat, ticket) {
            self.wait_for(rt, seat, ticket);
        }
    }

    // Draws a ticket.
    fn draw(&self, seat: &mut LockSeat<T>) -> u64
        requires own { seat.old.table_id ≡ self.now.table.shared.table_id }
        requires idle { (seat.old.me.0.stage ≡ Idle) × (seat.old.me.1 ≡ []) }
        ensures { HasDrawn seat.old seat.new result }
    {
        self.table.shared.fetch_add::<Draw>(seat, TICKET, 1)
    }

    // Whether the ticket is served: then the turn has come.
    fn has_come(&self, seat: &mut LockSeat<T>, ticket: u64) -> bool
        requires own { seat.old.table_id ≡ self.now.table.shared.table_id }
        requires waits { (t : ℕ) × (t % 2 ^ 64 ≡ ticket) × (seat.old.me.0.stage ≡ Waiting t)
            × (seat.old.me.1 ≡ []) }
        ensures came { result ≡ true → TurnCame T.stands seat.old seat.new }
        ensures still { result ≡ false → (seat.new.table_id ≡ seat.old.table_id)
            × (seat.new.id ≡ seat.old.id) × (seat.new.me ≡ seat.old.me) }
    {
        self.table.shared.load::<Look<T>>(seat, SERVING) == ticket
    }

    // Waits until the ticket is served. It stands apart so that a turn that has come at once pays for no wait.
    #[cold]
    #[inline(never)]
    fn wait_for<R: Wait>(&self, rt: &R, seat: &mut LockSeat<T>, ticket: u64)
        requires own { seat.old.table_id ≡ self.now.table.shared.table_id }
        requires waits { (t : ℕ) × (t % 2 ^ 64 ≡ ticket) × (seat.old.me.0.stage ≡ Waiting t)
            × (seat.old.me.1 ≡ []) }
        ensures { TurnCame T.stands seat.old seat.new }
    {
        for _ in rt.forever() {
            if self.has_come(seat, ticket) {
                return;
            }
            self.rest(rt, ticket);
        }
        unreachable!()
    }

    // Returns when the ticket is served, or for no reason.
    fn rest<R: Wait>(&self, rt: &R, ticket: u64) {
        for _ in 0..LOOKS {
            if self.table.shared.peek(SERVING) == ticket {
                return;
            }
            hint::spin_loop();
        }
        let rung = self.bells.rung(ticket);
        if self.table.shared.peek(SERVING) != ticket {
            self.bells.sleep(rt, ticket, rung);
        }
    }

    // Takes the value out of the slot.
    fn take_value(&self, seat: &mut LockSeat<T>) -> T
        requires own { seat.old.table_id ≡ self.now.table.shared.table_id }
        requires slot { (y : T) × (seat.old.me.1 ≡ (0, Some y) ∷ []) }
        ensures seat { (seat.new.table_id ≡ seat.old.table_id) × (seat.new.id ≡ seat.old.id) }
        ensures value { seat.old.me.1 ≡ (0, Some result) ∷ [] }
        ensures view { seat.new.me.0 ≡ seat.old.me.0 }
        ensures slot { seat.new.me.1 ≡ (0, None) ∷ [] }
    {
        match self.table.shared.exchange(seat, VALUE, None) {
            Some(value) => value,
            None => unreachable!(),
        }
    }

    // Puts the value into the slot.
    fn put_value(&self, seat: &mut LockSeat<T>, value: T)
        requires own { seat.old.table_id ≡ self.now.table.shared.table_id }
        requires slot { seat.old.me.1 ≡ (0, None) ∷ [] }
        ensures seat { (seat.new.table_id ≡ seat.old.table_id) × (seat.new.id ≡ seat.old.id) }
        ensures view { seat.new.me.0 ≡ seat.old.me.0 }
        ensures slot { seat.new.me.1 ≡ (0, Some value) ∷ [] }
    {
        let found = self.table.shared.exchange(seat, VALUE, Some(value));
        let None = found else { unreachable!() };
    }

    // Ends the turn with its entry, and returns its ticket.
    fn raise<N: Named>(&self, seat: &mut LockSeat<T>) -> u64
        requires own { seat.old.table_id ≡ self.now.table.shared.table_id }
        requires turn { (t : ℕ) × (seat.old.me.0.stage ≡ Holding t) }
        requires based { seat.old.me.0.base ≡ Some self.now.base.value }
        requires slot { (y : T) × (seat.old.me.1 ≡ (0, Some y) ∷ []) }
        requires value { (y : T) → seat.old.me.1 ≡ (0, Some y) ∷ []
            → T.stands y self.now.base.value
            (seat.old.me.0.seen ++ (seat.old.me.0.number, N.operation) ∷ []) }
        ensures seat { (seat.new.table_id ≡ seat.old.table_id) × (seat.new.id ≡ seat.old.id) }
        ensures entry { seat.new.me ≡ (turned seat.old.me.0 N.operation, []) }
    {
        self.table.shared.fetch_add::<Raise<N>>(seat, SERVING, 1)
    }

    // Wakes the thread with this ticket, if it was drawn.
    fn wake(&self, ticket: u64) {
        if self.table.shared.peek(TICKET) != ticket {
            self.bells.ring(ticket);
        }
    }
}
