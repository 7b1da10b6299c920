// The line of a formatted volume.
ghost use Rattle.report.specs.Summaries.{format_text};
ghost use Rattle.std.specs.Prelude.{◌≡◌, ◌++◌, OnOk, OnErr};

use crate::words::Word::{Number, Text};
use crate::words::append_line;
use wol_config::Name;
use wol_disk::NoMemory;

/// Appends the line of a formatted volume: its name, and the number of blocks of its image. `NoMemory` appends nothing.
#[tactic(auto, unfolding(crate::specs::Summaries::format_text))]
pub fn format_line(name: &Name, blocks: u64, out: &mut Vec<u8>) -> Result<(), NoMemory>
    ensures ok { OnOk result (out.new.items ≡ out.old.items ++ format_text name.now blocks) }
    ensures err { OnErr result (out.new.items ≡ out.old.items) }
{
    let name = Text(name.as_bytes());
    append_line(
        &[Text(b"format"), name, Text(b"blocks"), Number(blocks)],
        out,
    )
}
