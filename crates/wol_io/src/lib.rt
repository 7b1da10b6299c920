//! Streams of bytes and the gate of requests: where a run's input comes from, where its output goes to, and what it
//! passes before each request. Sources and sinks in memory, over std's readers and writers, and over a file.
//!
//! Where a run's input comes from and its output goes to. `streams.rt` has the traits `Source` and `Sink` and their
//! borrowed forms; `gate.rt` the gate that is passed before each request, and the program's, which holds nobody
//! back; `memory.rt` and `plan.rt` streams in memory that cut and fail as planned; `adapters.rt` std's readers and
//! writers; `files.rt` a file that is opened at its first read; `watched.rt` a source that somebody sees go by.
//! What a call does to a sink's bytes is said in `specs/Streams.antt`; the lemmas for callers (pieces, fronts of pieces and reads, one after another) stand in
//! `proofs/Appending` and `proofs/Consuming`. A new kind of stream is a new file with an `impl` of the trait.
#![tactic(auto)]

mod adapters;
mod files;
mod gate;
mod memory;
mod plan;
mod streams;
mod watched;

pub use adapters::{StdSink, StdSource};
pub use files::FileSource;
pub use gate::{Gate, NoGate};
pub use memory::{MemSink, MemSource};
pub use streams::{Sink, Source};
pub use watched::{Watch, WatchedSource};
