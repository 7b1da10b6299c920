//! The view of a volume is changed: which volumes log for it.
//!
//! A logger may only leave a view once nothing of the volume lies on it. `drain_all` (`draining.rt`) puts home all that
//! lies on the loggers of a volume, in one turn; `change` (`changing.rt`) stores a view with a logger more or less in the
//! part of label and view. `answers.rt` has what is asked and why it is refused. Of `specs/`: `Changes` says what becomes of
//! a view, when a change is refused, and what the part shows at each moment; `Drained` what a turn of a drain adds to its
//! history, and what its steps do one after another. In `proofs/`: `Ids` for the ids of the new view, `LabelPart` for the
//! part, `Steps` for the steps of a drain, `Turns` for its turn.
#![tactic(auto)]

mod answers;
mod changing;
mod draining;

pub use answers::{Change, ChangeRefusal};
pub use changing::change;
pub use draining::drain_all;
