// What an option makes of a handshake.
ghost use Rattle.nbd_session.specs.Options.{end_of};
ghost use Rattle.std.specs.Prelude.{◌≡◌};

use crate::asked::{Kind, asks_for_export, is_offered};
use crate::export::Export;

/// Why no session begins behind a handshake.
#[derive(Clone, Copy, Debug, PartialEq, Eq)]
pub enum Unagreed {
    /// The client asked to go away.
    Aborted,
    /// The source ended before the client's flags, or between two options.
    End,
    /// The source ended within them.
    Cut,
    /// The client's flags have one that isn't known.
    BadFlags,
    /// An option begins with other bytes than each does.
    BadMagic,
    /// An option has more than 4,096 bytes of data.
    TooLong,
    /// Behind 64 options nothing was agreed on.
    TooMany,
    /// An export of another name was asked for in the way that has no reply for that.
    Unoffered,
}

/// How a handshake ended.
#[derive(Clone, Copy, Debug, PartialEq, Eq)]
pub enum Shaken {
    /// Client and server agreed on the export: a session begins.
    Agreed,
    Unagreed(Unagreed),
}

/// How a handshake ends at this option, if it does.
pub(crate) fn end_of(export: &Export<'_>, kind: Kind, given: &[u8]) -> Option<Shaken>
    ensures { result ≡ end_of kind export.now.name.now given.now }
{
    match kind {
        Kind::ExportName if is_offered(export, given) => Some(Shaken::Agreed),
        Kind::ExportName => Some(Shaken::Unagreed(Unagreed::Unoffered)),
        Kind::Abort => Some(Shaken::Unagreed(Unagreed::Aborted)),
        Kind::Go if asks_for_export(export, given) => Some(Shaken::Agreed),
        Kind::Go | Kind::Info | Kind::List | Kind::Other => None,
    }
}
