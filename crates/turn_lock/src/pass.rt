// A pass of a lock.
ghost use Rattle.std.specs.Prelude.{◌≡◌, Some, []};

use crate::chosen::Chosen;
use crate::object::Object;
use crate::view::View;
use atomic_table::Seat;

/// The right to turns of one lock, for one thread at a time.
/// A contract sees its lock, its number, the entries that it has seen and its own, and whether it is in a turn.
pub type Pass<T> = PassOf<T, <T as Object>::Base>;

/// A pass of a lock over a `T` with bases in `B`. It has no bound, so that a generic type may own one and repeat none.
/// It may be let go, but its lock can then never be closed.
pub struct PassOf<T, B> {
    pub(crate) number: u32,
    pub(crate) seat: Seat<Option<T>, View<B>>,
    pub(crate) base: Chosen<B>,
    pub(crate) ghost numbered: { seat.me.0.number ≡ number },
    pub(crate) ghost based: { seat.me.0.base ≡ Some base.value },
    pub(crate) ghost alone: { (seat.me.0.parts ≡ 1) × (seat.me.0.took ≡ []) },
}

impl<T, B> PassOf<T, B> {
    ghost use Rattle.turn_lock.specs.Passes.{pass_number};

    /// The number of the pass: its place among those that `new` gave.
    pub fn number(&self) -> u32
        ensures { result ≡ pass_number self.now }
    {
        self.number
    }

    // What the table knows it by.
    pub(crate) fn into_seat(self) -> Seat<Option<T>, View<B>>
        ensures { result ≡ self.seat }
    {
        let Self {
            number: _,
            seat,
            base: _,
        } = self;
        seat
    }
}

impl<T, B> Drop for PassOf<T, B> {
    fn drop(self) {
        let Self {
            number: _,
            seat: _,
            base: _,
        } = self;
    }
}
