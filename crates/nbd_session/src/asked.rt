// What an option asks for.
ghost use Rattle.nbd_session.specs.Options.{asks_for_export, is_asking, is_offered, kind_of, name_in};
ghost use Rattle.std.specs.Prelude.{◌≡◌, ◌≤◌, true, length};

use crate::export::Export;
use byteorder::{BigEndian, ByteOrder};

/// What a client asks for by an option.
#[derive(Clone, Copy, Debug, PartialEq, Eq)]
pub enum Kind {
    /// The export of a name, whose session begins at once.
    ExportName,
    /// To go away.
    Abort,
    /// The names of all exports.
    List,
    /// What there is to know of the export of a name.
    Info,
    /// The same, and then its session.
    Go,
    /// What isn't served.
    Other,
}

/// What the option of this number asks for.
pub(crate) fn kind_of(number: u32) -> Kind
    ensures { result ≡ kind_of number }
{
    match number {
        1 => Kind::ExportName,
        2 => Kind::Abort,
        3 => Kind::List,
        6 => Kind::Info,
        7 => Kind::Go,
        _ => Kind::Other,
    }
}

/// Whether a name is the export's, or none, which stands for it.
pub(crate) fn is_offered(export: &Export<'_>, name: &[u8]) -> bool
    ensures { result ≡ is_offered export.now.name.now name.now }
{
    name.is_empty() || export.name == name
}

/// Whether the data of INFO and GO are a name and a list of facts, and no more.
pub(crate) fn is_asking(given: &[u8]) -> bool
    ensures { result ≡ is_asking given.now }
{
    if given.len() < 6 {
        return false;
    }
    let name = BigEndian::read_u32(given) as usize;
    if given.len() - 6 < name {
        return false;
    }
    let facts = usize::from(BigEndian::read_u16(&given[4 + name..]));
    given.len() - 6 - name == 2 * facts
}

// The name in these data.
fn name_in(given: &[u8]) -> &[u8]
    requires { is_asking given.now ≡ true }
    ensures { result.now ≡ name_in given.now }
{
    let name = BigEndian::read_u32(given) as usize;
    &given[4..4 + name]
}

/// Whether the data of INFO and GO ask for the export.
pub(crate) fn asks_for_export(export: &Export<'_>, given: &[u8]) -> bool
    ensures { result ≡ asks_for_export export.now.name.now given.now }
{
    is_asking(given) && is_offered(export, name_in(given))
}
