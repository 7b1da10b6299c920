//! What a run over a trace comes to, where each volume answered the first of its requests from one legal history: the laws of the
//! definitions of a run, as the clauses of a function with an empty body.
//!
//! `specs/Headline` is the promise of a run, over the definitions alone, with the law that joins two runs. Laws of runs:
//! `Answers` and `Laws` for answers and cuts, `Journals` for the time of a spindle's journal.
#![tactic(auto)]

mod laws;

pub use laws::{account_laws, reopening_laws, run_laws};
