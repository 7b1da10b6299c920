// A line of a trace from its bytes.
ghost use Rattle.csv.specs.Records as records;
ghost use Rattle.msr_trace.specs.Lines.{Fits, Gives, body_of, disk_in, field_at, fields_of, is_feed, is_mark, kind_in, line_in, number_in, read_of, trace_line, without_return};
ghost use Rattle.std.specs.List.{list_any};
ghost use Rattle.std.specs.Prelude.{◌≡◌, ◌<◌, ◌==◌, false, length, slice_index, IfOk, IfSome, option_map, count_by, Err};

use crate::decimal::number;
use crate::fields::split;
use crate::format::{BadLine, Line, LineFault};
use crate::host::HostName;
use crate::placed::read_placed;
use csv::ByteRecord;
use std::alloc::Global;
use wol_disk::NoMemory;
use wol_model::Kind;

/// The most bytes of a line, its line feed not counted and its carriage return counted.
pub const LINE_MAX: usize = 4096;

/// The most bytes of a request.
pub const SIZE_MAX: u64 = 67_108_864;

/// Reads a line, given without its line feed; a blank line is None. The first refusal that applies is answered, in this
/// order: `LineTooLong`, `Quote`, `FieldCount`, the first wrong field of 1, 3, 4, 5, 6 and 7, `TooLarge`, `PastEnd`.
#[tactic(auto, unfolding(crate::specs::Lines::read_of))]
pub fn read_line(alloc: Global, line: &[u8]) -> Result<Option<Line>, LineFault>
    requires { list_any is_feed line.now ≡ false }
    ensures content { Gives (option_map trace_line) result (read_of line.now) }
    ensures fits { IfOk result (λ o. IfSome o (λ l. Fits (trace_line l))) }
{
    if line.len() > LINE_MAX {
        return Err(LineFault::Bad(BadLine::LineTooLong));
    }
    parse_text(alloc, without_return(line))
}

// Reads a line without the carriage return at its end: where it stands if it is plainly a line, else by `csv`.
fn parse_text(alloc: Global, body: &[u8]) -> Result<Option<Line>, LineFault>
    requires { list_any is_feed body.now ≡ false }
    ensures content { Gives (option_map trace_line) result (body_of body.now) }
    ensures fits { IfOk result (λ o. IfSome o (λ l. Fits (trace_line l))) }
{
    if let Some(found) = read_placed(body) {
        let Ok(host) = HostName::new(alloc, found.host) else {
            return Err(LineFault::NoMemory);
        };
        return Ok(Some(Line {
            time: found.time,
            host,
            disk: found.disk,
            kind: found.kind,
            offset: found.offset,
            size: found.size,
            response: found.response,
        }));
    }
    parse_body(alloc, body)
}

// Reads a line without the carriage return at its end, or tells its first refusal. `csv` passes blank lines over, so they
// are seen here first.
#[tactic(auto, unfolding(crate::specs::Lines::body_of))]
fn parse_body(alloc: Global, body: &[u8]) -> Result<Option<Line>, LineFault>
    requires { list_any is_feed body.now ≡ false }
    ensures content { Gives (option_map trace_line) result (body_of body.now) }
    ensures fits { IfOk result (λ o. IfSome o (λ l. Fits (trace_line l))) }
{
    if body.is_empty() {
        return Ok(None);
    }
    if has_mark(body) {
        return Err(LineFault::Bad(BadLine::Quote));
    }
    // What begins a byte order mark is no digit.
    if body[0] == 0xEF {
        return Err(LineFault::Bad(no_first_number(body)));
    }
    let Ok(row) = split(alloc, body) else {
        return Err(LineFault::NoMemory);
    };
    let line = line_in(alloc, &row)?;
    Ok(Some(line))
}

// Whether a quotation mark or a carriage return is there. `contains` looks at 32 bytes at once.
fn has_mark(body: &[u8]) -> bool
    ensures { result ≡ list_any is_mark body.now }
{
    body.contains(&b'"') || body.contains(&b'\r')
}

// Why a line is refused that has no mark and begins as a byte order mark does.
fn no_first_number(body: &[u8]) -> BadLine
    requires some { 0 < length body.now }
    requires start { slice_index body.now 0 ≡ 239 }
    ensures { line_in (fields_of body.now) ≡ Err result }
{
    if count_commas(body) == 6 {
        BadLine::Number(1)
    } else {
        BadLine::FieldCount
    }
}

fn count_commas(body: &[u8]) -> usize
    ensures { result ≡ count_by (λ b. b == 44) body.now }
{
    body.iter().filter(|byte| **byte == b',').count()
}

// The line without one carriage return at its end.
fn without_return(line: &[u8]) -> &[u8]
    ensures { result.now ≡ without_return line.now }
{
    match line.strip_suffix(b"\r") {
        Some(body) => body,
        None => line,
    }
}

fn field_at(row: &ByteRecord, at: usize) -> Result<&[u8], LineFault>
    ensures { Gives (λ f. f.now) result (field_at (records.fields_of row.now) at) }
{
    match row.get(at) {
        Some(field) => Ok(field),
        None => Err(LineFault::Bad(BadLine::FieldCount)),
    }
}

#[tactic(auto, unfolding(crate::specs::Lines::number_in))]
fn number_in(row: &ByteRecord, at: usize, name: u8) -> Result<u64, LineFault>
    ensures { Gives (λ n. n) result (number_in (records.fields_of row.now) at name) }
{
    match number(field_at(row, at)?) {
        Some(value) => Ok(value),
        None => Err(LineFault::Bad(BadLine::Number(name))),
    }
}

#[tactic(auto, unfolding(crate::specs::Lines::disk_in))]
fn disk_in(row: &ByteRecord) -> Result<u32, LineFault>
    ensures { Gives (λ n. n) result (disk_in (records.fields_of row.now)) }
{
    match u32::try_from(number_in(row, 2, 3)?) {
        Ok(disk) => Ok(disk),
        Err(_) => Err(LineFault::Bad(BadLine::Number(3))),
    }
}

#[tactic(auto, unfolding(crate::specs::Lines::kind_in))]
fn kind_in(row: &ByteRecord) -> Result<Kind, LineFault>
    ensures { Gives (λ k. k) result (kind_in (records.fields_of row.now)) }
{
    let text = field_at(row, 3)?;
    if text == b"Read".as_slice() {
        return Ok(Kind::Read);
    }
    if text == b"Write".as_slice() {
        return Ok(Kind::Write);
    }
    Err(LineFault::Bad(BadLine::Kind))
}

fn host_in(alloc: Global, row: &ByteRecord) -> Result<HostName, LineFault>
    ensures { Gives (λ h. h) result (field_at (records.fields_of row.now) 1) }
{
    match HostName::new(alloc, field_at(row, 1)?) {
        Ok(host) => Ok(host),
        Err(NoMemory) => Err(LineFault::NoMemory),
    }
}

#[tactic(auto, unfolding(crate::specs::Lines::line_in))]
fn line_in(alloc: Global, row: &ByteRecord) -> Result<Line, LineFault>
    ensures content { Gives trace_line result (line_in (records.fields_of row.now)) }
    ensures fits { IfOk result (λ l. Fits (trace_line l)) }
{
    if row.len() != 7 {
        return Err(LineFault::Bad(BadLine::FieldCount));
    }
    let time = number_in(row, 0, 1)?;
    let disk = disk_in(row)?;
    let kind = kind_in(row)?;
    let offset = number_in(row, 4, 5)?;
    let size = number_in(row, 5, 6)?;
    let response = number_in(row, 6, 7)?;
    if size > SIZE_MAX {
        return Err(LineFault::Bad(BadLine::TooLarge));
    }
    if offset.checked_add(size).is_none() {
        return Err(LineFault::Bad(BadLine::PastEnd));
    }
    let host = host_in(alloc, row)?;
    Ok(Line {
        time,
        host,
        disk,
        kind,
        offset,
        size,
        response,
    })
}
