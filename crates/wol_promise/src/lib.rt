//! What a manager of a volume promises: where it places writes, what its history may be, and what its disks stand for.
//! Its laws are the clauses of functions with empty bodies.
#![tactic(auto)]

mod laws;

pub use laws::{answer_laws, code_laws, data_laws};
