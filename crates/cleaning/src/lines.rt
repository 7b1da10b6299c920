// The line of a volume that was cleaned.
ghost use Rattle.cleaning.specs.Lines.{clean_line};
ghost use Rattle.std.specs.Prelude.{◌≡◌, ◌++◌, OnOk, OnErr};

use log_cleaner::Cleaned;
use report::Word::{Number, Text};
use report::append_line;
use wol_disk::NoMemory;

/// Appends the line of a volume: how many records it had and has, how many blocks were copied, and whether room was
/// missing. `NoMemory` appends nothing.
pub(crate) fn append_cleaned<'a>(
    name: &'a [u8],
    cleaned: &Cleaned,
    out: &mut Vec<u8>,
) -> Result<(), NoMemory>
    ensures ok { OnOk result (out.new.items ≡ out.old.items ++ clean_line name.now cleaned.now) }
    ensures err { OnErr result (out.new.items ≡ out.old.items) }
{
    let words = [
        Text(b"clean"),
        Text(name),
        Text(b"records"),
        Number(cleaned.before),
        Text(b"to"),
        Number(cleaned.after),
        Text(b"copied"),
        Number(cleaned.copied),
        Text(b"full"),
    ];
    if cleaned.full {
        append_line(&words, out)
    } else {
        append_line(&words[..8], out)
    }
}
