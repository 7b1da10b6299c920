// A line of a trace as text.
ghost use Rattle.msr_trace.specs.Lines.{trace_line};
ghost use Rattle.msr_trace.specs.Spelling.{kind_text, line_text};
ghost use Rattle.std.specs.Io.{StartsWith};
ghost use Rattle.std.specs.Prelude.{◌≡◌, ◌++◌, ◌∷◌, [], decimal, OnOk, OnErr};

use crate::format::Line;
use itoa::Buffer;
use wol_disk::NoMemory;
use wol_model::Kind;

/// Appends the line's text and a line feed: the fields with commas between them, the numbers without leading zeros. It is
/// read as the line again where the host has no comma, quotation mark, carriage return or line feed, size and offset are
/// within a line's bounds, and the text has at most 4,096 bytes. `NoMemory` appends nothing.
pub fn write_line(line: &Line, out: &mut Vec<u8>) -> Result<(), NoMemory>
    ensures ok { OnOk result
        (out.new.items ≡ out.old.items ++ (line_text (trace_line line.now) ++ 10 ∷ [])) }
    ensures err { OnErr result (out.new.items ≡ out.old.items) }
{
    let start = out.len();
    match append_line(line, out) {
        Ok(()) => Ok(()),
        Err(NoMemory) => {
            out.truncate(start);
            Err(NoMemory)
        }
    }
}

// The same, but a front of the text may be left behind.
fn append_line(line: &Line, out: &mut Vec<u8>) -> Result<(), NoMemory>
    ensures ok { OnOk result
        (out.new.items ≡ out.old.items ++ (line_text (trace_line line.now) ++ 10 ∷ [])) }
    ensures starts { StartsWith out.new.items out.old.items }
{
    append_number(line.time, b',', out)?;
    append(line.host.as_bytes(), b',', out)?;
    append_number(u64::from(line.disk), b',', out)?;
    append(kind_name(line.kind), b',', out)?;
    append_number(line.offset, b',', out)?;
    append_number(line.size, b',', out)?;
    append_number(line.response, b'\n', out)?;
    Ok(())
}

fn kind_name(kind: Kind) -> &'static [u8]
    ensures { result.now ≡ kind_text kind }
{
    match kind {
        Kind::Read => b"Read",
        Kind::Write => b"Write",
    }
}

// Appends a number and the byte behind it.
fn append_number(number: u64, end: u8, out: &mut Vec<u8>) -> Result<(), NoMemory>
    ensures ok { OnOk result (out.new.items ≡ out.old.items ++ (decimal number ++ end ∷ [])) }
    ensures starts { StartsWith out.new.items out.old.items }
{
    append(Buffer::new().format(number).as_bytes(), end, out)
}

// Appends a field and the byte behind it.
fn append(field: &[u8], end: u8, out: &mut Vec<u8>) -> Result<(), NoMemory>
    ensures ok { OnOk result (out.new.items ≡ out.old.items ++ (field.now ++ end ∷ [])) }
    ensures starts { StartsWith out.new.items out.old.items }
{
    out.extend_from_slice(field)?;
    out.push(end)?;
    Ok(())
}
