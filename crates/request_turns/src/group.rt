// Several writes of one volume in one turn: those that go to one log together leave one entry.
ghost use Rattle.log_segment.specs.Records.{count_of};
ghost use Rattle.manager.specs.Groups.{AreItemsOf, run_writes, run_written};
ghost use Rattle.manager.specs.Stands.{Stands, IsShared};
ghost use Rattle.manager.specs.declared.manager.Manager.{Manager};
ghost use Rattle.request_turns.specs.Answered.{HasAnsweredMany};
ghost use Rattle.request_turns.specs.Counts.{HasCounted};
ghost use Rattle.request_turns.specs.Entries.{note_of};
ghost use Rattle.request_turns.specs.Groups.{HasWrittenMany, item_of, blocks_of, answered_of};
ghost use Rattle.request_turns.specs.Requests.{IsWithin};
ghost use Rattle.request_turns.specs.Tried.{CanWriteSome, HasTriedSome};
ghost use Rattle.request_turns.specs.Turns.{look_in_place, next_in_place, passed_in_place, notes_seen, HasLeftInPlace, StandsInPlace};
ghost use Rattle.std.specs.List.{AllByRecursion, flat_map};
ghost use Rattle.std.specs.Prelude.{◌≡◌, ◌≤◌, ◌+◌, ◌^◌, false, length, map, take, sum_by, vec_capacity};
ghost use Rattle.turn_lock.specs.Passes.{pass_lock, pass_number, IsPassOf, IsInTurnWith, IsPassAt};
ghost use Rattle.wol_model.specs.History.{worker};

use crate::drain::drain_and_write;
use crate::noted::{Memo, leave_noted_in_place};
use crate::outcome::Outcome;
use crate::payload::Payload;
use crate::tally::Tally;
use crate::write::{is_full, outcome_of};
use log_segment::Item;
use logger::Shared;
use manager::{Manager, Ran};
use msr_trace::fill;
use reclaimer::Fetch;
use std::marker::Brand;
use std::sync::Wait;
use trace_windows::Request;
use turn_lock::{Pass, TurnLock};
use wol_disk::{Block, Disk};
use wol_model::Kind;

// The items of requests.
fn list_items(requests: &[Request], items: &mut Vec<Item>)
    requires { length requests.now ≤ vec_capacity items.old }
    ensures listed { items.new.items ≡ map item_of requests.now }
    ensures room { vec_capacity items.new ≡ vec_capacity items.old }
{
    items.clear();
    for request in requests {
        items.push_reserved(Item {
            lbn: request.lbn,
            count: request.count,
        });
    }
}

// Fills blocks with the payloads of requests, one behind the other.
fn fill_all(requests: &[Request], out: &mut [Block])
    requires room { sum_by (λ r. r.count) requests.now ≤ length out.old }
    requires within { AllByRecursion (λ r. r.lbn + r.count ≤ 2 ^ 64) requests.now }
    ensures same { length out.new ≡ length out.old }
    ensures filled { take (sum_by (λ r. r.count) requests.now) out.new
        ≡ flat_map blocks_of requests.now }
{
    let mut at = 0;
    for request in requests {
        let end = at + request.count as usize;
        fill(request.line, request.lbn, &mut out[at..end]);
        at = end;
    }
}

// Tries to write some first ones of the items.
fn try_some<D: Disk, R: Wait>(
    rt: &R,
    m: &mut Manager<D>,
    shared: &Shared<D>,
    items: &[Item],
    from: &[Block],
) -> Ran
    requires { CanWriteSome D.state shared.now items.now from.now m.old }
    ensures { HasTriedSome D.tells D.state items.now from.now result m.old m.new }
{
    m.write_some(rt, shared, items, from)
}

// Ends a turn in which some first ones of these items were tried with this answer, where `B` has the next version that
// stood before.
fn leave_run<D: Disk, B: Memo, N: Memo>(
    lock: &TurnLock<Manager<D>>,
    pass: &mut Pass<Manager<D>>,
    items: &[Item],
    from: &[Block],
    ran: &Ran,
)
    requires own { IsPassOf lock.now pass.old }
    requires note { N.note ≡ note_of (pass_number pass.old)
        (run_written (run_writes B.next (take ran.now.items items.now) from.now ran.now.answer)
        ran.now.answer)
        (look_in_place pass.old) (passed_in_place pass.old) false }
    requires value { StandsInPlace D.tells D.state N.note pass.old }
    ensures { HasLeftInPlace D.tells N.note pass.old pass.new }
{
    let _ = items;
    let _ = from;
    let _ = ran;
    leave_noted_in_place::<D, N>(lock, pass);
}

// How many of the items have this answer: those that were written, and else the first.
fn answered(ran: &Ran) -> usize
    ensures { result ≡ answered_of ran.now.items ran.now.answer }
{
    if ran.answer.is_ok() { ran.items } else { 1 }
}

// Writes some first ones of the items within a turn, and ends it. `B` has the next version at its beginning.
fn write_run_within<D: Disk, R: Wait, B: Memo>(
    rt: &R,
    lock: &TurnLock<Manager<D>>,
    pass: &mut Pass<Manager<D>>,
    shared: &Shared<D>,
    items: &[Item],
    from: &[Block],
    fetch: &mut Fetch,
    tally: &mut Tally,
) -> (usize, Outcome)
    requires own { IsPassOf lock.now pass.old }
    requires client { pass_number pass.old ≡ worker }
    requires next { B.next ≡ next_in_place pass.old }
    requires shared { IsShared shared.now (pass_lock pass.old).base }
    requires some { 1 ≤ length items.now }
    requires items { AreItemsOf (pass_lock pass.old).base.volume.began.most
        (pass_lock pass.old).base.volume.began.home_blocks items.now }
    requires blocks { count_of items.now ≤ length from.now }
    requires value { (m : Manager _) × IsInTurnWith m pass.old
        × Stands D.tells D.state m (pass_lock pass.old).base (notes_seen pass.old) }
    ensures { HasWrittenMany D.tells items.now from.now result.0 result.1 tally.old tally.new
        pass.old pass.new }
{
    let ran = lock.change(
        pass,
        |m: &mut Manager<D>|
            requires { CanWriteSome D.state shared.now items.now from.now m.now }
            ensures { HasTriedSome D.tells D.state items.entry.now from.entry.now result m.old
                m.new }
        { try_some(rt, m, shared, items, from) },
    );
    if is_full(&ran.answer) {
        let first = items[0];
        let from = &from[..first.count as usize];
        let outcome = drain_and_write::<D, R, Brand>(
            rt, lock, pass, shared, first.lbn, from, fetch, tally,
        );
        return (1, outcome);
    }
    leave_run::<D, B, Brand>(lock, pass, items, from, &ran);
    (answered(&ran), outcome_of(ran.answer, false))
}

/// Writes the payloads of some first ones of these requests in one turn. Answers how many, and their outcome: all those
/// that went to one log together, or the first alone; a refusal is the first's, whichever of them were to go with it. Where
/// no log has room, all records are drained and the first is written alone. `payload` has room for all their blocks.
///
/// The first is refused for the causes of `write_blocks`, in their order.
pub fn write_many_turn<D: Disk, R: Wait>(
    rt: &R,
    lock: &TurnLock<Manager<D>>,
    pass: &mut Pass<Manager<D>>,
    shared: &Shared<D>,
    requests: &[Request],
    payload: &mut Payload,
    fetch: &mut Fetch,
    tally: &mut Tally,
) -> (usize, Outcome)
    requires pass { IsPassAt lock.now worker pass.old }
    requires shared { IsShared shared.now (pass_lock pass.old).base }
    requires some { 1 ≤ length requests.now }
    requires within { AllByRecursion (IsWithin (pass_lock pass.old).base) requests.now }
    requires kinds { AllByRecursion (λ r. r.kind ≡ Kind.Write) requests.now }
    requires blocks { 2 ≤ length requests.now → sum_by (λ r. r.count) requests.now ≤ 128 }
    ensures answered { HasAnsweredMany D.tells requests.now result.0 result.1 pass.old pass.new }
    ensures counted { HasCounted D.tells tally.old tally.new pass.old pass.new }
{
    lock.enter_in_place(rt, pass);
    list_items(requests, &mut payload.items);
    fill_all(requests, &mut payload.blocks);
    write_run_within::<D, R, Brand>(
        rt,
        lock,
        pass,
        shared,
        payload.items.as_slice(),
        &payload.blocks,
        fetch,
        tally,
    )
}
