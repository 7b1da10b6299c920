// A line that is plainly one, read where it stands.
ghost use Rattle.msr_trace.specs.Lines.{Fits, body_of};
ghost use Rattle.msr_trace.specs.Spelling.{is_reserved, kind_text};
ghost use Rattle.std.specs.List.{list_any};
ghost use Rattle.std.specs.Prelude.{◌≡◌, ◌∷◌, ◌++◌, Ok, Some, IfSome};
ghost use Rattle.wol_model.specs.Trace.{TraceLine};

use crate::decimal::number;
use crate::parse::SIZE_MAX;
use wol_model::Kind;

/// What a line has, with the bytes of its host.
#[derive(Clone, Copy)]
pub struct Placed<'a> {
    pub time: u64,
    pub host: &'a [u8],
    pub disk: u32,
    pub kind: Kind,
    pub offset: u64,
    pub size: u64,
    pub response: u64,
}

/// What a line has, without its carriage return, where commas part it into seven fields, each of which is what it should be.
/// `None` says nothing of the line.
pub fn read_placed<'a>(body: &'a [u8]) -> Option<Placed<'a>>
    ensures { IfSome result (λ s. (l : TraceLine) → l ≡ record {
      time = s.time;
      host = s.host.now;
      disk = s.disk;
      kind = s.kind;
      offset = s.offset;
      size = s.size;
      response = s.response;
    } → (body_of body.now ≡ Ok (Some l)) × Fits l) }
{
    let (time, rest) = field_at_front(body)?;
    let (host, rest) = field_at_front(rest)?;
    let (disk, rest) = field_at_front(rest)?;
    let (kind, rest) = field_at_front(rest)?;
    let (offset, rest) = field_at_front(rest)?;
    let (size, response) = field_at_front(rest)?;
    if has_reserved(host) {
        return None;
    }
    let kind = kind_of(kind)?;
    let time = number(time)?;
    let disk = number(disk)?;
    let offset = number(offset)?;
    let size = number(size)?;
    let response = number(response)?;
    if disk > u64::from(u32::MAX) || size > SIZE_MAX || offset > u64::MAX - size {
        return None;
    }
    Some(Placed {
        time,
        host,
        disk: disk as u32,
        kind,
        offset,
        size,
        response,
    })
}

// The front of a text up to its first comma, and what stands behind that.
#[inline(always)]
fn field_at_front<'a>(text: &'a [u8]) -> Option<(&'a [u8], &'a [u8])>
    ensures { IfSome result (λ p. text.now ≡ p.0.now ++ 44 ∷ p.1.now) }
{
    let end = text.iter().position(|byte| *byte == b',')?;
    Some((&text[..end], &text[end + 1..]))
}

fn has_reserved(host: &[u8]) -> bool
    ensures { result ≡ list_any is_reserved host.now }
{
    host.iter()
        .any(|byte| *byte == b',' || (*byte == b'"' || *byte == b'\r'))
}

fn kind_of(field: &[u8]) -> Option<Kind>
    ensures { IfSome result (λ kind. field.now ≡ kind_text kind) }
{
    match field {
        b"Read" => Some(Kind::Read),
        b"Write" => Some(Kind::Write),
        _ => None,
    }
}
