// A read in one turn.
ghost use Rattle.manager.specs.Answers.{was_read};
ghost use Rattle.manager.specs.Seen.{look_of_manager};
ghost use Rattle.manager.specs.Stands.{Stands, IsShared};
ghost use Rattle.manager.specs.declared.manager.Manager.{Manager};
ghost use Rattle.request_turns.specs.Answered.{HasAnswered};
ghost use Rattle.request_turns.specs.Blocks.{HasReadBlocks};
ghost use Rattle.request_turns.specs.Counts.{ReclaimsNothing};
ghost use Rattle.request_turns.specs.Entries.{note_of, read_outcome};
ghost use Rattle.request_turns.specs.Full.{FitsVolume};
ghost use Rattle.request_turns.specs.Requests.{IsWithin};
ghost use Rattle.request_turns.specs.Tried.{CanBeAsked, HasReplied};
ghost use Rattle.request_turns.specs.Turns.{look_in_place, notes_seen, IsInTurnAt, HasLeftWith, HasLeftInPlace, StandsInPlace};
ghost use Rattle.request_turns.specs.Written.{HasRead};
ghost use Rattle.std.specs.Prelude.{◌≡◌, ◌++◌, ◌∷◌, [], false, length};
ghost use Rattle.turn_lock.specs.Passes.{pass_lock, pass_number, IsPassOf, IsPassAt};
ghost use Rattle.wol_model.specs.History.{worker};

use crate::noted::{Memo, leave_noted, leave_noted_in_place};
use crate::outcome::Outcome;
use crate::payload::Payload;
use crate::reply::{Reply, reply_of};
use logger::Shared;
use manager::{Manager, ReadRefusal, Sources};
use msr_trace::mark;
use std::marker::Brand;
use std::sync::Wait;
use trace_windows::Request;
use turn_lock::{Pass, Turn, TurnLock};
use wol_disk::{Block, Disk};
use wol_model::Kind;

// The outcome of a read that gave these blocks.
fn outcome_of(answer: Result<Sources, ReadRefusal>, out: &[Block]) -> Outcome
    ensures { result ≡ read_outcome out.now answer }
{
    match answer {
        Ok(sources) => Outcome::Read {
            mark: mark(out),
            sources,
        },
        Err(refusal) => Outcome::NoRead(refusal),
    }
}

// Ends a turn in which blocks were read with this answer.
fn leave_read<D: Disk, N: Memo>(
    lock: &TurnLock<Manager<D>>,
    turn: Turn<Manager<D>>,
    pass: &mut Pass<Manager<D>>,
    lbn: u64,
    out: &[Block],
    answer: &Result<Sources, ReadRefusal>,
)
    requires turn { IsInTurnAt lock.now pass.old }
    requires note { N.note ≡ note_of (pass_number pass.old) (was_read lbn out.now answer.now)
        (look_of_manager turn.value) [] false }
    requires value { Stands D.tells D.state turn.value (pass_lock pass.old).base
        (notes_seen pass.old ++ N.note ∷ []) }
    ensures { HasLeftWith D.tells N.note turn.value pass.old pass.new }
{
    let _ = out;
    leave_noted::<D, N>(lock, turn, pass);
}

// Reads within a turn, and ends it.
fn read_within<D: Disk, R: Wait>(
    rt: &R,
    lock: &TurnLock<Manager<D>>,
    mut turn: Turn<Manager<D>>,
    pass: &mut Pass<Manager<D>>,
    shared: &Shared<D>,
    lbn: u64,
    out: &mut [Block],
) -> Result<Sources, ReadRefusal>
    requires turn { IsInTurnAt lock.now pass.old }
    requires client { pass_number pass.old ≡ worker }
    requires blocks { FitsVolume shared.now lbn (length out.old) (pass_lock pass.old).base }
    requires value { Stands D.tells D.state turn.value (pass_lock pass.old).base
        (notes_seen pass.old) }
    ensures { HasRead D.tells lbn out.new result pass.old pass.new }
{
    let answer = turn.value.read(rt, shared, lbn, out);
    leave_read::<D, Brand>(lock, turn, pass, lbn, out, &answer);
    answer
}

/// Reads blocks from block `lbn` of the volume on, in one turn. After a refusal what stands in `out` is open. `Down` comes
/// exactly where a disk call had failed before.
pub fn read_blocks<D: Disk, R: Wait>(
    rt: &R,
    lock: &TurnLock<Manager<D>>,
    pass: &mut Pass<Manager<D>>,
    shared: &Shared<D>,
    lbn: u64,
    out: &mut [Block],
) -> Result<Sources, ReadRefusal>
    requires pass { IsPassAt lock.now worker pass.old }
    requires blocks { FitsVolume shared.now lbn (length out.old) (pass_lock pass.old).base }
    ensures read { HasReadBlocks D.tells lbn out.new result pass.old pass.new }
    ensures counted { ReclaimsNothing D.tells pass.old pass.new }
{
    let turn = lock.enter(rt, pass);
    read_within(rt, lock, turn, pass, shared, lbn, out)
}

// Reads the blocks of a request. Gives the answer, the outcome and what was read.
fn read_request<D: Disk, R: Wait>(
    rt: &R,
    m: &mut Manager<D>,
    shared: &Shared<D>,
    request: &Request,
    payload: &mut Payload,
) -> (Result<Sources, ReadRefusal>, Outcome, Reply)
    requires { CanBeAsked D.state shared.now request.now.lbn request.now.count m.old }
    ensures { HasReplied D.tells D.state request.now.lbn request.now.count result.0 result.1
        result.2.value.items m.old m.new }
{
    let out = &mut payload.blocks[..request.count as usize];
    let answer = m.read(rt, shared, request.lbn, out);
    (answer, outcome_of(answer, out), reply_of(out))
}

// Ends a turn in which these blocks were read with this answer, and the manager stayed in its place.
fn leave_reply<D: Disk, N: Memo>(
    lock: &TurnLock<Manager<D>>,
    pass: &mut Pass<Manager<D>>,
    lbn: u64,
    answer: &Result<Sources, ReadRefusal>,
    reply: &Reply,
)
    requires own { IsPassOf lock.now pass.old }
    requires note { N.note
        ≡ note_of (pass_number pass.old) (was_read lbn reply.now.value.items answer.now)
        (look_in_place pass.old) [] false }
    requires value { StandsInPlace D.tells D.state N.note pass.old }
    ensures { HasLeftInPlace D.tells N.note pass.old pass.new }
{
    let _ = reply;
    leave_noted_in_place::<D, N>(lock, pass);
}

/// Reads the blocks of a request in one turn.
pub fn read_turn<D: Disk, R: Wait>(
    rt: &R,
    lock: &TurnLock<Manager<D>>,
    pass: &mut Pass<Manager<D>>,
    shared: &Shared<D>,
    request: &Request,
    payload: &mut Payload,
) -> Outcome
    requires pass { IsPassAt lock.now worker pass.old }
    requires shared { IsShared shared.now (pass_lock pass.old).base }
    requires within { IsWithin (pass_lock pass.old).base request.now }
    requires kind { request.now.kind ≡ Kind.Read }
    ensures answered { HasAnswered D.tells request.now result pass.old pass.new }
    ensures counted { ReclaimsNothing D.tells pass.old pass.new }
{
    lock.enter_in_place(rt, pass);
    let (answer, outcome, reply) = lock.change(
        pass,
        |m: &mut Manager<D>|
            requires { CanBeAsked D.state shared.now request.now.lbn request.now.count m.now }
            ensures { HasReplied D.tells D.state request.entry.now.lbn request.entry.now.count
                result.0 result.1 result.2.value.items m.old m.new }
        { read_request(rt, m, shared, request, payload) },
    );
    leave_reply::<D, Brand>(lock, pass, request.lbn, &answer, &reply);
    outcome
}
