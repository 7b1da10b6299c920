//! A lock whose turns have one history. Each turn is one entry, the number of the pass that made it and an operation,
//! and the value under the lock stands for all entries so far. Whoever has a turn knows the whole history at that point,
//! and the passes that come back at the end know all of it.
//!
//! `object.rt` says what lies under a lock (`Object`) and how an operation is named (`Named`); `lock.rt` has the
//! lock and the turn, `pass.rt` the pass, `turns.rt` enter and leave, `bells.rt` where threads sleep, `making.rt`
//! `new`, `closing.rt` `close`, `view.rt` what each seat of the table knows, `steps.rt` what each atomic step
//! tells, `chosen.rt` and `lock_name.rt` values that only clauses read. Of `specs/`, callers need `Passes.antt`,
//! `Histories.antt` and `LockIds.antt`; `Rule.antt`, `Views.antt` and `Steps.antt` are the inside. To change what
//! passes are told at `enter`, add to `Kept` (the rule), `Comes` and `TurnCame`; to change how threads wait, only
//! `bells.rt` and `rest` in `turns.rt`, on which no proof rests. An object's method has a clause for all bases,
//! entries and numbers, `Stands old .. → Stands new (.. ++ (number, operation) ∷ [])`; a turn is `enter`, that
//! method, `leave_as` with the operation as numbers; or `enter_in_place`, `change` with that method, and
//! `leave_in_place`, where the value is not moved. `turn_lock_tests` has a counter and a desk that owns a pass of
//! a gauge's lock, which is the pattern for all nesting.
#![tactic(auto, unfolding(crate::specs::Passes::pass_lock, crate::specs::Passes::pass_number, crate::specs::Passes::pass_seen, crate::specs::Passes::pass_mine, crate::specs::Passes::lock_id, crate::specs::Passes::lock_passes))]

mod bells;
mod chosen;
mod closing;
mod lock;
mod lock_name;
mod making;
mod object;
mod pass;
mod steps;
mod turns;
mod view;

pub use chosen::Chosen;
pub use lock::{NoMemory, Turn, TurnLock};
pub use lock_name::LockName;
pub use object::{History, Named, Object};
pub use pass::{Pass, PassOf};
