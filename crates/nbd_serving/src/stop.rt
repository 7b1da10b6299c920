// Why a command ended without the end of a session, and its status.
ghost use Rattle.nbd_serving.specs.Wires.{answer_of, status_of, unagreed_status};
ghost use Rattle.nbd_serving.specs.declared.stop.Stop.TheVariants as stop;
ghost use Rattle.report.specs.declared.fault.Fault.TheVariants.{Memory as no_memory};
ghost use Rattle.std.specs.Prelude.{◌≡◌};

use nbd_session::{Ended, NbdFault, Unagreed};
use report::Fault;
use wol_disk::NoMemory;

/// Why a command ended without the end of a session.
#[derive(Debug, Drop)]
pub enum Stop {
    /// No volume has this name.
    Unknown,
    /// A volume isn't open, or there was no memory.
    Fault(Fault),
    /// A handshake ended so, and no session began.
    Unagreed(Unagreed),
    /// A call of the source failed.
    Source,
    /// A call of the sink failed.
    Sink,
}

impl From<NoMemory> for Stop {
    ghost from_gives = { λ _ e. e ≡ stop.Fault no_memory };

    fn from(_e: NoMemory) -> Stop {
        Stop::Fault(Fault::Memory)
    }
}

// The answer of a command whose session came to this.
pub(crate) fn answer_of(session: Result<Ended, NbdFault>) -> Result<Ended, Stop>
    ensures { result ≡ answer_of session }
{
    match session {
        Ok(ended) => Ok(ended),
        Err(NbdFault::Source) => Err(Stop::Source),
        Err(NbdFault::Sink) => Err(Stop::Sink),
        Err(NbdFault::NoMemory) => Err(Stop::Fault(Fault::Memory)),
    }
}

// The status behind a handshake that ended so: 0 where the client went away between two options.
fn unagreed_status(why: Unagreed) -> u8
    ensures { result ≡ unagreed_status why }
{
    match why {
        Unagreed::Aborted | Unagreed::End => 0,
        Unagreed::Cut
        | Unagreed::BadFlags
        | Unagreed::BadMagic
        | Unagreed::TooLong
        | Unagreed::TooMany
        | Unagreed::Unoffered => 14,
    }
}

/// The exit status of a command that answered this: 0 where the client went away, or the source ended between two requests or
/// options; 14 where it ended within one, or the client's bytes are no requests or no handshake that can be agreed on; 15 where
/// no volume has the name.
pub fn status_of(answer: &Result<Ended, Stop>) -> u8
    ensures { result ≡ status_of answer.now }
{
    match answer {
        Ok(Ended::Disc | Ended::End) => 0,
        Ok(Ended::BadMagic { .. } | Ended::Cut { .. }) => 14,
        Err(Stop::Unknown) => 15,
        Err(Stop::Fault(fault)) => fault.status(),
        Err(Stop::Unagreed(why)) => unagreed_status(*why),
        Err(Stop::Source) => 8,
        Err(Stop::Sink) => 7,
    }
}
