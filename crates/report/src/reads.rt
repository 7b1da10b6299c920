// The line of a read.
ghost use Rattle.report.specs.Summaries.{read_text};
ghost use Rattle.std.specs.Prelude.{◌≡◌, ◌++◌, OnOk, OnErr, option_copied};

use crate::words::Word::{Number, Text};
use crate::words::append_line;
use wol_config::Name;
use wol_disk::NoMemory;

/// Appends the line of an answered read: its line in the trace, its volume where that is named, its first block, the number
/// of its blocks, and the mark of what it read. `NoMemory` appends nothing.
#[tactic(auto, unfolding(crate::specs::Summaries::read_text))]
pub fn read_line_text(
    name: Option<&Name>,
    line: u64,
    lbn: u64,
    count: u32,
    mark: u64,
    out: &mut Vec<u8>,
) -> Result<(), NoMemory>
    ensures ok { OnOk result (out.new.items
        ≡ out.old.items ++ read_text (option_copied name.entry) line lbn count mark) }
    ensures err { OnErr result (out.new.items ≡ out.old.items) }
{
    let read = Text(b"read");
    let line = Number(line);
    let first = Number(lbn);
    let count = Number(u64::from(count));
    let mark = Number(mark);
    match name {
        None => append_line(&[read, line, first, count, mark], out),
        Some(name) => {
            let name = Text(name.as_bytes());
            append_line(&[read, line, name, first, count, mark], out)
        }
    }
}
