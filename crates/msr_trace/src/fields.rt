// The fields of a line, by `csv`.
ghost use Rattle.csv.specs.Machine.{next_record};
ghost use Rattle.csv.specs.Reading.{default_config, strip_bom};
ghost use Rattle.csv.specs.Records as records;
ghost use Rattle.csv.specs.declared.parser.State.TheVariants as st;
ghost use Rattle.msr_trace.specs.Lines.{fields_of, is_feed, is_mark};
ghost use Rattle.std.specs.List.{list_any};
ghost use Rattle.std.specs.Prelude.{◌≡◌, ◌≢◌, ◌<◌, [], false, length, slice_index, IfOk, option_map};

use csv::{ByteRecord, ReaderBuilder};
use std::alloc::Global;
use wol_disk::NoMemory;

// The first record of a text that has no header row, if it has one.
fn first_record(alloc: Global, text: &[u8]) -> Result<Option<ByteRecord>, NoMemory>
    ensures { IfOk result (λ o. option_map records.fields_of o
        ≡ option_map (λ p. p.0)
        (next_record default_config st.StartRecord [] [] (strip_bom text.now))) }
{
    let mut reader = ReaderBuilder::new()
        .has_headers(false)
        .from_reader(alloc, text);
    let mut row = ByteRecord::new(alloc);
    match reader.read_byte_record(&mut row) {
        Ok(true) => Ok(Some(row)),
        Ok(false) => Ok(None),
        // A slice gives no error of its own, so memory is what was wanting.
        Err(_) => Err(NoMemory),
    }
}

/// Splits a line into its fields. `csv` takes a byte order mark off the front of a text, so a line that may begin with one
/// isn't split here. It stands apart so that no line that is read without it pays for the room of a reader.
#[cold]
#[inline(never)]
pub fn split(alloc: Global, line: &[u8]) -> Result<ByteRecord, NoMemory>
    requires some { 0 < length line.now }
    requires marks { list_any is_mark line.now ≡ false }
    requires feeds { list_any is_feed line.now ≡ false }
    requires start { slice_index line.now 0 ≢ 239 }
    ensures { IfOk result (λ row. records.fields_of row ≡ fields_of line.now) }
{
    match first_record(alloc, line) {
        Ok(Some(row)) => Ok(row),
        Ok(None) => unreachable!(),
        Err(NoMemory) => Err(NoMemory),
    }
}
