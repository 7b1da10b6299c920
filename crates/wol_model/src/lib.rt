//! The definitions that every layer of the off-loading store cites: blocks, histories, heads, logs, traces and journals.
//! Their laws are the clauses of functions with empty bodies.
//!
//! Words for a record: a `Record` is what stands in a segment (head and blocks), an `Extent` what it stands for (the blocks
//! that it covers under its version), a `Listed` what an index has of it (kept and homed blocks, lane), an `Indexed` a
//! `Listed` with its place.
#![tactic(auto)]

mod journal;
mod laws;
mod trace;

pub use journal::{Powers, Turned};
pub use laws::{
    array_laws, drain_laws, extent_laws, history_laws, image_laws, index_laws, log_laws, mask_laws,
    spelling_laws, step_laws, trace_laws,
};
pub use trace::{Kind, Piece};
