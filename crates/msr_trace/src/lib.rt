//! Block traces in the format of MSR Cambridge: lines read from a stream and written, the pieces of a request, and what a
//! replayed write stores.
//!
//! `format.rt` has what a line is and why bytes are none; `parse.rt` reads one line, with the order of refusals;
//! `decimal.rt` numbers; `fields.rt` splits by `csv`; `placed.rt` reads a line where it stands; `intake.rt`
//! takes bytes from a source and finds the end of a line; `reading.rt` gives the lines of a source; `cutting.rt` the
//! pieces (`calls::pieces`); `payload.rt` payloads and marks; `write.rt` a line as text; `laws.rt` the laws of spellings.
//! `specs/Lines.antt` is the format: where lines end, what a line has, which refusal comes first; `specs/Spelling.antt`
//! says the same by what is written, and the laws tie the two; `specs/Reading.antt` says what `Lines` does. A line that is
//! plainly one, as nearly all are, is read where it stands, by its commas; what isn't is split by `csv`, of which a refusal
//! speaks, and read or refused by its fields.
#![tactic(auto)]

pub mod calls;
mod cutting;
mod decimal;
mod fields;
mod format;
mod host;
mod intake;
mod laws;
mod parse;
mod payload;
mod placed;
mod reading;
mod write;

pub use cutting::Pieces;
pub use decimal::number;
pub use format::{BadLine, Line, LineFault, TraceFault};
pub use host::HostName;
pub use laws::spelling_laws;
pub use parse::read_line;
pub use payload::{fill, mark};
pub use reading::Lines;
pub use wol_model::{Kind, Piece};
pub use write::write_line;
