//! Things are handed to a worker that lives as long as the run, and come back served: what comes back is what was
//! handed over, though no thread is joined in between.
//!
//! There is a place (`Errands`) with two ends. The one (`Sender`) hands something over and later takes it back, the
//! other (`Worker`) waits for it, serves it and leaves it there. `errand.rt` says what may be handed over, `ends.rt`
//! has the place and its ends, `handing.rt` each way, `patience.rt` how often an end looks before it sleeps, on which no
//! proof rests; `rule.rt` is what the two ends know of one another, and what each atomic step tells. Of `specs/`, callers
//! need `Ends`; `Rule` is the inside.
//!
//! Nothing says that the other end comes, or how long it takes: where no thread could be had for a worker, what is
//! handed over stays where it is. `has_worker` tells whether one is there. After `end` nothing is handed over any more, and
//! a worker that `take` gave nothing knows that the other end said so (`IsTold`).
#![tactic(auto)]

mod ends;
mod errand;
mod handing;
mod patience;
mod rule;

pub use ends::{Errands, NoMemory, Sender, Worker};
pub use errand::Errand;
