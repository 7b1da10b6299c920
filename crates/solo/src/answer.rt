// One request: blocks of the disk are read and printed, or written and synced.
ghost use Rattle.solo.specs.Requests.{request_of};
ghost use Rattle.solo.specs.Served.{Counts, IsOnlyDisk, IsSettled, LeavesCutOf, Serves, content_of, content_after};
ghost use Rattle.solo.specs.Texts.{read_text};
ghost use Rattle.std.specs.Prelude.{◌≡◌, ◌+◌, ◌≤◌, ◌^◌, [], ◌∷◌, length, option_map, string_bytes, IfOk, OnOk, IsErrOf};

use crate::fault::Fault;
use crate::request::Request;
use msr_trace::{Kind, fill, mark};
use std::alloc::{AllocError, Global};
use wol_disk::{Block, Disk};
use wol_io::Sink;

// The line that is printed for a read.
#[tactic(auto, unfolding(crate::specs::Texts::read_text))]
fn text_of(alloc: Global, request: &Request, mark: u64) -> Result<String, AllocError>
    ensures { IfOk result (λ text. string_bytes text ≡ read_text (request_of request.now) mark) }
{
    let line = request.line;
    let first = request.first;
    let count = request.count;
    format!(in alloc; "read {line} {first} {count} {mark}\n")
}

// Writes the line's payload to blocks, and syncs them.
fn write_blocks<D: Disk>(part: &mut D, blocks: &mut [Block], request: &Request) -> Result<(), Fault>
    requires within { request.now.first + length blocks.old ≤ (D.state part.old).size }
    requires size { (D.state part.old).size ≤ 2 ^ 32 }
    requires count { length blocks.old ≡ request.now.count }
    requires kind { request.now.kind ≡ Kind.Write }
    requires settled { IsSettled (D.state part.old).values }
    ensures size { (D.state part.new).size ≡ (D.state part.old).size }
    ensures settled { OnOk result (IsSettled (D.state part.new).values) }
    ensures values { OnOk result (content_of (D.state part.new).values
        ≡ content_after (request_of request.now ∷ []) (content_of (D.state part.old).values)) }
    ensures disk { Counts (IsErrOf result Fault.Disk) (D.state part.old).faults
        (D.state part.new).faults }
    ensures images { LeavesCutOf (content_of (D.state part.old).values) []
        (request_of request.now ∷ []) (D.state part.new).values }
    ensures only { IsOnlyDisk result }
{
    fill(request.line, request.first, blocks);
    if part.write(request.first, blocks).is_err() {
        return Err(Fault::Disk);
    }
    if part.sync().is_err() {
        return Err(Fault::Disk);
    }
    Ok(())
}

/// Answers a request on a part. A read prints its line; a write is synced before the next request.
pub fn serve<D: Disk, K: Sink>(
    alloc: Global,
    part: &mut D,
    out: &mut K,
    blocks: &mut [Block],
    request: &Request,
) -> Result<(), Fault>
    requires within { request.now.first + length blocks.old ≤ (D.state part.old).size }
    requires size { (D.state part.old).size ≤ 2 ^ 32 }
    requires count { length blocks.old ≡ request.now.count }
    requires settled { IsSettled (D.state part.old).values }
    ensures size { (D.state part.new).size ≡ (D.state part.old).size }
    ensures settled { OnOk result (IsSettled (D.state part.new).values) }
    ensures values { OnOk result (content_of (D.state part.new).values
        ≡ content_after (request_of request.now ∷ []) (content_of (D.state part.old).values)) }
    ensures content { Serves (content_of (D.state part.old).values) (request_of request.now ∷ [])
        result (K.taken out.old) (K.taken out.new) (D.state part.new).values }
    ensures disk { Counts (IsErrOf result Fault.Disk) (D.state part.old).faults
        (D.state part.new).faults }
    ensures sink { Counts (IsErrOf result Fault.Sink) (K.faults out.old) (K.faults out.new) }
{
    match request.kind {
        Kind::Read => {
            if part.read(request.first, blocks).is_err() {
                return Err(Fault::Disk);
            }
            let Ok(text) = text_of(alloc, request, mark(blocks)) else {
                return Err(Fault::NoMemory);
            };
            if out.write(text.as_bytes()).is_err() {
                return Err(Fault::Sink);
            }
            Ok(())
        }
        Kind::Write => write_blocks(part, blocks, request),
    }
}
