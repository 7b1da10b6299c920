// A session: requests one after another.
ghost use Rattle.nbd_session.specs.Intake.{IsComing, TakesHeader};
ghost use Rattle.nbd_session.specs.Sessions.{CountsFaults, GoesOn, IsSession, RepliesSo};
ghost use Rattle.nbd_session.specs.Turns.{StaysReady};
ghost use Rattle.std.specs.Prelude.{◌≡◌, ◌≢◌, ◌≤◌, ℕ, List, Option, length, IfOk, IfSome};

use crate::answer::{Desk, take_and_ask};
use crate::error::NbdError;
use crate::header::{Command, Header};
use crate::intake::{Next, next_header};
use crate::reply::send;
use crate::volume::Volume;
use std::alloc::Global;
use std::sync::Wait;
use wol_disk::{Failed, NoMemory};
use wol_io::{Sink, Source};

/// How a session ended. Requests are counted from 1, and the count stands still at its type's end.
#[derive(Clone, Copy, Debug, PartialEq, Eq)]
pub enum Ended {
    /// The client asked to go away.
    Disc,
    /// The source ended between two requests.
    End,
    /// A request begins with other bytes than each does.
    BadMagic { request: u64 },
    /// The source ended within a request.
    Cut { request: u64 },
}

/// Why a session stopped.
#[derive(Clone, Copy, Debug, PartialEq, Eq)]
pub enum NbdFault {
    /// A call of the source failed.
    Source,
    /// A call of the sink failed.
    Sink,
    /// There was no memory. Nothing was read then.
    NoMemory,
}

// Replies to a request that was answered so, or ends the session where the source ended within its data.
fn reply_or_end<K: Sink>(
    out: &mut K,
    header: &Header,
    answered: Option<Result<usize, NbdError>>,
    bytes: &[u8],
    request: u64,
) -> Result<Option<Ended>, NbdFault>
    requires data { IfSome answered (λ answer. IfOk answer (λ n. n ≤ length bytes.now)) }
    ensures content { RepliesSo header.now answered bytes.now request (K.taken out.old)
        (K.taken out.new) result }
    ensures faults { (n : ℕ) → CountsFaults n n (K.faults out.old) (K.faults out.new) result }
{
    let Some(answer) = answered else {
        return Ok(Some(Ended::Cut { request }));
    };
    match send(out, header.cookie, answer, bytes) {
        Ok(()) => Ok(None),
        Err(Failed) => Err(NbdFault::Sink),
    }
}

// Takes the data of a request, asks the volume, and replies.
fn serve_request<V: Volume, S: Source, K: Sink>(
    volume: &mut V,
    input: &mut S,
    out: &mut K,
    desk: &mut Desk,
    header: &Header,
    request: u64,
) -> Result<Option<Ended>, NbdFault>
    requires ready { V.Ready volume.old }
    requires stays { header.now.command ≢ Command.Disc }
    ensures stays { StaysReady V.Ready V.home V.most volume.old volume.new }
    ensures content { (before : Option (List ℕ))
        → TakesHeader before (S.left input.old) (Next.Request header.now)
        → GoesOn V.Turned (V.home volume.old) (V.most volume.old) request volume.old volume.new
        before (S.left input.new) (K.taken out.old) (K.taken out.new) result }
    ensures faults { CountsFaults (S.faults input.old) (S.faults input.new) (K.faults out.old)
        (K.faults out.new) result }
{
    match take_and_ask(volume, header, input, desk) {
        Ok(answered) => reply_or_end(out, header, answered, &desk.bytes, request),
        Err(Failed) => Err(NbdFault::Source),
    }
}

// Goes on with what came next.
fn serve_this<V: Volume, S: Source, K: Sink>(
    volume: &mut V,
    input: &mut S,
    out: &mut K,
    desk: &mut Desk,
    next: Next,
    request: u64,
) -> Result<Option<Ended>, NbdFault>
    requires ready { V.Ready volume.old }
    requires next { IsComing next }
    ensures stays { StaysReady V.Ready V.home V.most volume.old volume.new }
    ensures content { (before : Option (List ℕ)) → TakesHeader before (S.left input.old) next
        → GoesOn V.Turned (V.home volume.old) (V.most volume.old) request volume.old volume.new
        before (S.left input.new) (K.taken out.old) (K.taken out.new) result }
    ensures faults { CountsFaults (S.faults input.old) (S.faults input.new) (K.faults out.old)
        (K.faults out.new) result }
{
    match next {
        Next::Request(header) => serve_request(volume, input, out, desk, &header, request),
        Next::Disc => Ok(Some(Ended::Disc)),
        Next::End => Ok(Some(Ended::End)),
        Next::BadMagic => Ok(Some(Ended::BadMagic { request })),
        Next::Cut => Ok(Some(Ended::Cut { request })),
    }
}

// Takes the next request and replies to it, unless it ends the session.
fn serve_next<V: Volume, S: Source, K: Sink>(
    volume: &mut V,
    input: &mut S,
    out: &mut K,
    desk: &mut Desk,
    request: u64,
) -> Result<Option<Ended>, NbdFault>
    requires ready { V.Ready volume.old }
    ensures stays { StaysReady V.Ready V.home V.most volume.old volume.new }
    ensures content { GoesOn V.Turned (V.home volume.old) (V.most volume.old) request volume.old
        volume.new (S.left input.old) (S.left input.new) (K.taken out.old) (K.taken out.new) result }
    ensures faults { CountsFaults (S.faults input.old) (S.faults input.new) (K.faults out.old)
        (K.faults out.new) result }
{
    match next_header(input) {
        Ok(next) => serve_this(volume, input, out, desk, next, request),
        Err(Failed) => Err(NbdFault::Source),
    }
}

/// Serves a volume to a client, whose requests the source gives: each gets its reply, in order, before the next is looked
/// at. It ends at a request to go away, where the source ends, and at what is no request.
///
/// A write's data are taken whole before its first piece is written, and a read's are read whole before its reply begins. A
/// range is cut into pieces, one turn each; after an error in the middle of a write its earlier pieces stand. The errors of a
/// reply are tried in this order: `Invalid` and `NoSpace` for what the request asks, whatever the volume holds, and then what
/// the first piece that is refused answers. The data of a refused write are taken and dropped.
///
/// `Source` and `Sink` come only where a call of it failed; at `Sink` it took a front of the replies. `NoMemory` comes before
/// the first request is looked at.
pub fn serve<R: Wait, V: Volume, S: Source, K: Sink>(
    rt: &R,
    alloc: Global,
    volume: &mut V,
    input: &mut S,
    out: &mut K,
) -> Result<Ended, NbdFault>
    requires ready { V.Ready volume.old }
    ensures ready { V.Ready volume.new }
    ensures same_home { V.home volume.new ≡ V.home volume.old }
    ensures same_most { V.most volume.new ≡ V.most volume.old }
    ensures session { IsSession V.Turned (V.home volume.old) (V.most volume.old) volume.old
        volume.new (S.left input.old) (S.left input.new) (K.taken out.old) (K.taken out.new) result }
    ensures faults { CountsFaults (S.faults input.old) (S.faults input.new) (K.faults out.old)
        (K.faults out.new) result }
{
    let mut desk = match Desk::new(alloc) {
        Ok(desk) => desk,
        Err(NoMemory) => return Err(NbdFault::NoMemory),
    };
    let mut request: u64 = 0;
    'requests: for _ in rt.forever() {
        request = request.saturating_add(1);
        match serve_next(volume, input, out, &mut desk, request)? {
            Some(ended) => return Ok(ended),
            None => {}
        }
    }
    unreachable!()
}
