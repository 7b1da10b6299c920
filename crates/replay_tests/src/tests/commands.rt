// A cleaning and a change of a view: the status of each, and what is printed for it.
ghost use Rattle.std.specs.Prelude.{◌≡◌, [], Some};
ghost use Rattle.wol_bay.specs.Bay.{outs};
ghost use Rattle.wol_bay.specs.MemBay.{mem_bay_state};
ghost use Rattle.wol_config.specs.Configs.{IsValid};

use super::volumes::status_of;
use cleaning::clean_volumes;
use std::alloc::Global;
use std::sync::Wait;
use std::test::Fail;
use view_commands::{Order, Stop, Verb, change_view, refusal_line};
use wol_bay::MemBay;
use wol_config::Config;
use wol_io::MemSink;

/// A cleaning, or a change of a view.
#[derive(Clone, Copy)]
pub(crate) enum Command<'a> {
    Clean,
    Change(Order<'a>),
}

pub(crate) fn add<'a>(volume: &'a str, logger: &'a str) -> Order<'a> {
    Order {
        verb: Verb::Add,
        volume,
        logger,
    }
}

pub(crate) fn remove<'a>(volume: &'a str, logger: &'a str) -> Order<'a> {
    Order {
        verb: Verb::Remove,
        volume,
        logger,
    }
}

/// The status of a command, and what is printed for it.
pub(crate) fn ended<R: Wait>(
    rt: &R,
    alloc: Global,
    config: &Config,
    bay: &mut MemBay,
    command: &Command<'_>,
) -> Result<(u8, Vec<u8>), Fail>
    requires valid { IsValid config.now }
    requires none { outs (mem_bay_state bay.old) ≡ Some [] }
    ensures none { outs (mem_bay_state bay.new) ≡ Some [] }
{
    let mut out = MemSink::new(alloc, None);
    match command {
        Command::Clean => {
            let status = status_of(clean_volumes(rt, alloc, config, bay, &mut out));
            Ok((status, Vec::from_slice(alloc, out.bytes())?))
        }
        Command::Change(order) => {
            let answer = change_view(rt, alloc, order, config, bay, &mut out);
            let mut text = Vec::from_slice(alloc, out.bytes())?;
            let status = match answer {
                Ok(()) => 0,
                Err(Stop::Fault(fault)) => fault.status(),
                Err(Stop::Refused(refusal)) => {
                    refusal_line(order, refusal, &mut text)?;
                    refusal.status()
                }
                Err(Stop::Sink) => 7,
            };
            Ok((status, text))
        }
    }
}
