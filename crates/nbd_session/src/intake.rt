// What is taken from a source: the header of a request, and its data.
ghost use Rattle.nbd_session.specs.Intake.{FillsRoom, IsComing, IsNext, Skips, TakesData, TakesNext};
ghost use Rattle.std.specs.Io.KnownBytes.{Consumes, ConsumesCount, IsAtEnd, Keeps};
ghost use Rattle.std.specs.Prelude.{◌≡◌, ◌≤◌, ◌<◌, ◌+◌, length, take, drop, IfOk, OnErr, OnOk};
ghost use Rattle.wol_disk.specs.Disk.{Rose};

use crate::header::{Command, HEADER_BYTES, Header, MAGIC_BYTES, has_magic, header_of};
use wol_disk::Failed;
use wol_io::Source;

// Reads what comes next behind the bytes that a room has in front.
fn read_behind<S: Source>(input: &mut S, room: &mut [u8], held: usize) -> Result<usize, Failed>
    requires { held < length room.old }
    ensures size { IfOk result (λ count. held + count ≤ length room.new) }
    ensures held { take held room.new ≡ take held room.old }
    ensures content { IfOk result (λ count.
        Consumes (S.left input.old) (S.left input.new) (take count (drop held room.new))) }
    ensures end { IfOk result (λ count. count ≡ 0 → IsAtEnd (S.left input.new)) }
    ensures kept { OnErr result (Keeps (S.left input.old) (S.left input.new)) }
    ensures later { S.faults input.old ≤ S.faults input.new }
    ensures cause { OnErr result (Rose (S.faults input.old) (S.faults input.new)) }
    ensures calm { OnOk result (S.faults input.new ≡ S.faults input.old) }
{
    input.read(&mut room[held..])
}

/// Fills a room with the next bytes of a source as far as it has any, and answers how many they are.
pub fn fill_room<S: Source>(input: &mut S, room: &mut [u8]) -> Result<usize, Failed>
    ensures content { FillsRoom (S.left input.old) (S.left input.new) result room.new }
    ensures later { S.faults input.old ≤ S.faults input.new }
    ensures cause { OnErr result (Rose (S.faults input.old) (S.faults input.new)) }
    ensures calm { OnOk result (S.faults input.new ≡ S.faults input.old) }
{
    let mut count = 0;
    while count < room.len() {
        let more = read_behind(input, room, count)?;
        if more == 0 {
            return Ok(count);
        }
        count += more;
    }
    Ok(count)
}

// Takes some of so many bytes from a source, none only at its end, and drops them. Answers how many.
fn drop_some<S: Source>(input: &mut S, room: &mut [u8], most: usize) -> Result<usize, Failed>
    requires room { 1 ≤ length room.old }
    requires most { 1 ≤ most }
    ensures size { IfOk result (λ count. count ≤ most) }
    ensures content { ConsumesCount (S.left input.old) (S.left input.new) result }
    ensures end { IfOk result (λ count. count ≡ 0 → IsAtEnd (S.left input.new)) }
    ensures later { S.faults input.old ≤ S.faults input.new }
    ensures cause { OnErr result (Rose (S.faults input.old) (S.faults input.new)) }
    ensures calm { OnOk result (S.faults input.new ≡ S.faults input.old) }
{
    let part = most.min(room.len());
    input.read(&mut room[..part])
}

/// Takes so many bytes from a source and drops them. Answers whether it had them all.
pub(crate) fn skip<S: Source>(input: &mut S, room: &mut [u8], count: usize) -> Result<bool, Failed>
    requires { 1 ≤ length room.old }
    ensures content { Skips (S.left input.old) (S.left input.new) result count }
    ensures later { S.faults input.old ≤ S.faults input.new }
    ensures cause { OnErr result (Rose (S.faults input.old) (S.faults input.new)) }
    ensures calm { OnOk result (S.faults input.new ≡ S.faults input.old) }
{
    let mut left = count;
    while left > 0 {
        let more = drop_some(input, room, left)?;
        if more == 0 {
            return Ok(false);
        }
        left -= more;
    }
    Ok(true)
}

/// Takes so many bytes from a source into the front of a room. Answers whether it had them all.
pub fn take_data<S: Source>(input: &mut S, room: &mut [u8], count: usize) -> Result<bool, Failed>
    requires { count ≤ length room.old }
    ensures content { TakesData (S.left input.old) (S.left input.new) result count room.new }
    ensures later { S.faults input.old ≤ S.faults input.new }
    ensures cause { OnErr result (Rose (S.faults input.old) (S.faults input.new)) }
    ensures calm { OnOk result (S.faults input.new ≡ S.faults input.old) }
{
    let held = fill_room(input, &mut room[..count])?;
    Ok(held == count)
}

/// What comes next of a source.
pub(crate) enum Next {
    /// A request.
    Request(Header),
    /// The client went away.
    Disc,
    /// Nothing.
    End,
    /// What isn't a request.
    BadMagic,
    /// A part of a header.
    Cut,
}

// What a header is of which these bytes are there.
fn next_of(bytes: &[u8]) -> Next
    requires { length bytes.now ≤ 28 }
    ensures is { IsNext bytes.now result }
    ensures coming { IsComing result }
{
    if bytes.is_empty() {
        return Next::End;
    }
    if bytes.len() < MAGIC_BYTES {
        return Next::Cut;
    }
    if !has_magic(bytes) {
        return Next::BadMagic;
    }
    if bytes.len() < HEADER_BYTES {
        return Next::Cut;
    }
    let header = header_of(bytes);
    if header.command == Command::Disc {
        return Next::Disc;
    }
    Next::Request(header)
}

/// Takes the next header from a source.
pub(crate) fn next_header<S: Source>(input: &mut S) -> Result<Next, Failed>
    ensures content { TakesNext (S.left input.old) (S.left input.new) result }
    ensures coming { IfOk result IsComing }
    ensures later { S.faults input.old ≤ S.faults input.new }
    ensures cause { OnErr result (Rose (S.faults input.old) (S.faults input.new)) }
    ensures calm { OnOk result (S.faults input.new ≡ S.faults input.old) }
{
    let mut bytes = [0; HEADER_BYTES];
    let count = fill_room(input, &mut bytes)?;
    Ok(next_of(&bytes[..count]))
}
