//! The texts of the program: the lines of reads and of formatted volumes, what is counted of a run and what its disks
//! used, what is wrong with a volume, and the lines of faults.
#![tactic(auto)]

mod fault;
mod formatted;
mod names;
mod reads;
mod totals;
mod trouble;
mod words;

pub use fault::{Fault, fault_text};
pub use formatted::format_line;
pub use reads::read_line_text;
pub use totals::{Totals, solo_line, summary};
pub use trouble::{Trouble, trouble_text};
pub use words::{Word, append_line, append_words};
