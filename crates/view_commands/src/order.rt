// What is asked of a view, why it isn't done, and the line that says so.
ghost use Rattle.report.specs.declared.fault.Fault.TheVariants.{Memory as no_memory};
ghost use Rattle.std.specs.Prelude.{◌≡◌, ◌++◌, OnOk, OnErr};
ghost use Rattle.view_commands.specs.Orders.{change_of, refusal_text};
ghost use Rattle.view_commands.specs.declared.order.Stop.TheVariants as stop;

use report::Word::{Number, Text};
use report::{Fault, append_line};
use view_change::Change;
use wol_disk::{Failed, NoMemory};

/// What becomes of the logger.
#[derive(Clone, Copy, Debug, PartialEq, Eq)]
pub enum Verb {
    /// It is asked last from now on.
    Add,
    /// It is asked no more.
    Remove,
}

/// A change of a view, by the names of the volume and of the logger.
#[derive(Clone, Copy, Debug)]
pub struct Order<'a> {
    pub verb: Verb,
    pub volume: &'a str,
    pub logger: &'a str,
}

impl Order<'_> {
    /// The change, where the logger has this number.
    pub(crate) fn change(&self, logger: u32) -> Change
        ensures { result ≡ change_of self.now.verb logger }
    {
        match self.verb {
            Verb::Add => Change::Add(logger),
            Verb::Remove => Change::Remove(logger),
        }
    }
}

/// Why a view can't be changed so. Nothing was written to it.
#[derive(Clone, Copy, Debug, PartialEq, Eq)]
pub enum ViewRefusal {
    /// No volume has the volume's name.
    UnknownVolume,
    /// No volume has the logger's name.
    UnknownLogger,
    /// The logger is the volume itself.
    Itself,
    /// The logger is in the view.
    Already,
    /// The logger isn't in the view.
    NotThere,
    /// The view has sixteen loggers.
    ViewFull,
}

/// The exit status of each refusal of a view.
const REFUSED: u8 = 15;

impl ViewRefusal {
    /// The exit status of a command that ended with it.
    pub fn status(self) -> u8
        ensures { result ≡ 15 }
    {
        REFUSED
    }
}

/// Why a command ended without its line.
#[derive(Debug, Drop)]
pub enum Stop {
    /// A volume isn't in order, or there was no memory.
    Fault(Fault),
    /// The view can't be changed so.
    Refused(ViewRefusal),
    /// The sink failed.
    Sink,
}

impl From<Failed> for Stop {
    ghost from_gives = { λ _ e. e ≡ stop.Sink };

    fn from(_e: Failed) -> Stop {
        Stop::Sink
    }
}

impl From<NoMemory> for Stop {
    ghost from_gives = { λ _ e. e ≡ stop.Fault no_memory };

    fn from(_e: NoMemory) -> Stop {
        Stop::Fault(Fault::Memory)
    }
}

/// Appends the line of a refusal of this order. `NoMemory` appends nothing.
pub fn refusal_line(
    order: &Order<'_>,
    refusal: ViewRefusal,
    out: &mut Vec<u8>,
) -> Result<(), NoMemory>
    ensures ok { OnOk result (out.new.items ≡ out.old.items ++ refusal_text order.now refusal) }
    ensures err { OnErr result (out.new.items ≡ out.old.items) }
{
    let fault = Text(b"fault");
    let status = Number(u64::from(REFUSED));
    let logger = Text(order.logger.as_bytes());
    match refusal {
        ViewRefusal::UnknownVolume => {
            let name = Text(order.volume.as_bytes());
            append_line(&[fault, status, Text(b"unknown"), name], out)
        }
        ViewRefusal::UnknownLogger => append_line(&[fault, status, Text(b"unknown"), logger], out),
        ViewRefusal::Itself => append_line(&[fault, status, Text(b"itself")], out),
        ViewRefusal::Already => append_line(&[fault, status, Text(b"already"), logger], out),
        ViewRefusal::NotThere => append_line(&[fault, status, Text(b"not there"), logger], out),
        ViewRefusal::ViewFull => append_line(&[fault, status, Text(b"view full")], out),
    }
}
