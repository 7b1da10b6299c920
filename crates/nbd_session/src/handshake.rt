// A handshake: the greeting, the client's flags, and its options.
ghost use Rattle.nbd_session.specs.Shakes.{AnswersSo, AsksAlong, GoesOn, IsShake, greeting};
ghost use Rattle.nbd_session.specs.Sessions.{CountsFaults};
ghost use Rattle.std.specs.Prelude.{◌≡◌, ◌≤◌, ℕ, length, OnErr, OnOk};
ghost use Rattle.wol_disk.specs.Disk.{Rose};
ghost use Rattle.wol_io.specs.Streams.{SinkTakes};

use crate::NbdFault;
use crate::asked::kind_of;
use crate::ending::{Shaken, Unagreed, end_of};
use crate::export::Export;
use crate::option_intake::{MOST_BYTES, Next, next_option, take_flags};
use crate::replies::replies_of;
use std::alloc::Global;
use wol_disk::Failed;
use wol_io::{Sink, Source};

/// The most options of one handshake.
const MOST_OPTIONS: u32 = 64;

/// What the server begins with: that it speaks fixed newstyle, and needs to send no zeroes.
const GREETING: [u8; 18] = *b"NBDMAGICIHAVEOPT\x00\x03";

// Sends the greeting.
fn greet<K: Sink>(out: &mut K) -> Result<(), Failed>
    ensures content { SinkTakes (K.taken out.old) (K.taken out.new) result greeting }
    ensures later { K.faults out.old ≤ K.faults out.new }
    ensures cause { OnErr result (Rose (K.faults out.old) (K.faults out.new)) }
    ensures calm { OnOk result (K.faults out.new ≡ K.faults out.old) }
{
    out.write(&GREETING)
}

// Sends the replies to an option, and answers how the handshake ends at it, if it does.
fn answer<K: Sink>(
    alloc: Global,
    export: &Export<'_>,
    zeroes: bool,
    number: u32,
    given: &[u8],
    out: &mut K,
) -> Result<Option<Shaken>, NbdFault>
    ensures content { AnswersSo export.now.name.now export.now.blocks zeroes
        (record { number = number; given = given.now })
        (K.taken out.old) (K.taken out.new) result }
    ensures faults { (n : ℕ) → CountsFaults n n (K.faults out.old) (K.faults out.new) result }
{
    let kind = kind_of(number);
    let Ok(replies) = replies_of(alloc, kind, export, zeroes, number, given) else {
        return Err(NbdFault::NoMemory);
    };
    match out.write(&replies) {
        Ok(()) => Ok(end_of(export, kind, given)),
        Err(Failed) => Err(NbdFault::Sink),
    }
}

// Takes the next option and answers it.
fn answer_next<S: Source, K: Sink>(
    alloc: Global,
    export: &Export<'_>,
    zeroes: bool,
    input: &mut S,
    out: &mut K,
    room: &mut [u8],
) -> Result<Option<Shaken>, NbdFault>
    requires { length room.old ≡ 4096 }
    ensures content { GoesOn export.now.name.now export.now.blocks zeroes (S.left input.old)
        (S.left input.new)
        (K.taken out.old) (K.taken out.new) result }
    ensures faults { CountsFaults (S.faults input.old) (S.faults input.new) (K.faults out.old)
        (K.faults out.new) result }
{
    match next_option(input, room) {
        Ok(Next::Asked { number, length }) => {
            answer(alloc, export, zeroes, number, &room[..length], out)
        }
        Ok(Next::Ended(why)) => Ok(Some(Shaken::Unagreed(why))),
        Err(Failed) => Err(NbdFault::Source),
    }
}

// Takes options and answers each, until one ends the handshake.
fn answer_all<S: Source, K: Sink>(
    alloc: Global,
    export: &Export<'_>,
    zeroes: bool,
    input: &mut S,
    out: &mut K,
) -> Result<Shaken, NbdFault>
    ensures content { AsksAlong export.now.name.now export.now.blocks zeroes (S.left input.old)
        (S.left input.new)
        (K.taken out.old) (K.taken out.new) result }
    ensures faults { CountsFaults (S.faults input.old) (S.faults input.new) (K.faults out.old)
        (K.faults out.new) result }
{
    let mut room = [0; MOST_BYTES];
    'options: for _answered in 0..MOST_OPTIONS {
        match answer_next(alloc, export, zeroes, input, out, &mut room)? {
            Some(end) => return Ok(end),
            None => {}
        }
    }
    Ok(Shaken::Unagreed(Unagreed::TooMany))
}

/// Agrees with a client on an export: sends the greeting, takes the client's flags, and answers its options, one after another
/// and each before the next is looked at, until one asks for the export or to go away.
///
/// EXPORT_NAME, ABORT, LIST, INFO and GO are served; each other option is answered as unsupported, and data that aren't as
/// they should be as invalid. A name that is empty stands for the export. Requests of a session that is agreed on are multiples
/// of 512 bytes, best of 4,096, and at most 32 MiB; FLUSH is served, and writes may be asked to be durable.
///
/// It takes at most 64 options, each of at most 4,096 bytes of data. `Source` and `Sink` come only where a call of it failed;
/// at `Sink` it took a front of the replies to the last option. `NoMemory` comes in place of the replies to an option.
pub fn shake<S: Source, K: Sink>(
    alloc: Global,
    export: &Export<'_>,
    input: &mut S,
    out: &mut K,
) -> Result<Shaken, NbdFault>
    ensures shake { IsShake export.now.name.now export.now.blocks (S.left input.old)
        (S.left input.new)
        (K.taken out.old) (K.taken out.new) result }
    ensures faults { CountsFaults (S.faults input.old) (S.faults input.new) (K.faults out.old)
        (K.faults out.new) result }
{
    if let Err(Failed) = greet(out) {
        return Err(NbdFault::Sink);
    }
    match take_flags(input) {
        Ok(Ok(zeroes)) => answer_all(alloc, export, zeroes, input, out),
        Ok(Err(why)) => Ok(Shaken::Unagreed(why)),
        Err(Failed) => Err(NbdFault::Source),
    }
}
