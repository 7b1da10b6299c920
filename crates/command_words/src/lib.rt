//! The command that the words of a command line ask for. `clap` reads the words; whether the values are a host, numbers and a mode is tested here.
//!
//! `command_words` reads the words: `application.rt` is the command that `clap` is told of (`specs/Application`),
//! `values.rt` what its values say, `command.rt` the command; `specs/Table` has the documented spellings, and
//! `laws.rt` says that each of them asks for its command.
#![tactic(auto)]

mod application;
mod command;
mod laws;
mod values;

pub use command::{
    Command, Generated, MissingName, Mode, Options, Patience, ServedName, ViewNames, WhatIfOptions,
    WordsFault, command_of,
};
pub use laws::words_laws;
