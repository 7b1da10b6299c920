//! Traces that are generated: any number of lines for the volumes of a configuration, the same for the same seed.
//!
//! `generator.rt` gives the lines, `words.rt` draws the random numbers of a line, `line.rt` makes its fields;
//! `specs/Generated` is the format, and `laws.rt` says what holds of every generated line.
#![tactic(auto)]

mod generator;
mod laws;
mod line;
mod words;

pub use generator::Gen;
pub use laws::generated_laws;
