// A lock ends when all of its passes come back.
ghost use Rattle.std.specs.Prelude.{◌≡◌, suc, ◌++◌, [], List, All, vec_len};
ghost use Rattle.turn_lock.specs.Histories.{Entry};
ghost use Rattle.turn_lock.specs.Passes.{lock_id, lock_passes, IsPassOf, IsFree, AreWhole, claims_back};
ghost use Rattle.turn_lock.specs.Views.{IsAlone, claims_of};
ghost use Rattle.turn_lock.specs.declared.view.Stage.TheVariants.{Idle};

use crate::lock::{LockSeat, TurnLock};
use crate::object::Object;
use crate::pass::Pass;
use crate::steps::TakeIn;

impl<T: Object> TurnLock<T> {
    /// Takes all passes back, each in no turn. The value stands for all entries, of which each pass knows its own.
    /// A pass can't be copied, so as many passes of this lock as it has are all of them.
    pub fn close(self, mut passes: Vec<Pass<T>>) -> T
        requires count { vec_len passes ≡ lock_passes self }
        requires passes { All (λ p. IsPassOf self p × IsFree p) passes.items }
        ensures { (entries : List Entry) × T.stands result (lock_id self).base entries
            × AreWhole entries passes.items }
    {
        let Some(first) = passes.pop() else {
            unreachable!()
        };
        let mut seat = first.into_seat();
        self.join_all(&mut seat, passes);
        let TurnLock {
            table,
            bells: _,
            base: _,
        } = self;
        let mut closed = table.close_with(seat);
        let Some(value) = closed.take(0) else {
            unreachable!()
        };
        closed.free();
        value
    }

    // Joins all of them to one seat, the last first.
    fn join_all(&self, seat: &mut LockSeat<T>, mut passes: Vec<Pass<T>>)
        requires own { seat.old.table_id ≡ self.now.table.shared.table_id }
        requires seat { IsAlone seat.old.me.0 × (seat.old.me.1 ≡ []) }
        requires passes { All (λ p. IsPassOf self.now p × IsFree p) passes.items }
        ensures own { seat.new.table_id ≡ seat.old.table_id }
        ensures free { (seat.new.me.0.stage ≡ Idle) × (seat.new.me.0.parts ≡ suc (vec_len passes)) }
        ensures claims { claims_of seat.new.me.0
            ≡ claims_of seat.old.me.0 ++ claims_back passes.items }
    {
        while let Some(pass) = passes.pop() {
            self.table
                .shared
                .join_seat::<TakeIn>(seat, pass.into_seat());
        }
        passes.destroy_empty();
    }
}
