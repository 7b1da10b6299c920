// What becomes of one request.
ghost use Rattle.nbd_session.specs.Answers.{IsInside, LooksSo, ReadsSo, Serves, WritesSo, answer_in};
ghost use Rattle.nbd_session.specs.Errors.{known_error};
ghost use Rattle.nbd_session.specs.Headers.{payload_of};
ghost use Rattle.nbd_session.specs.Taking.{AnswersTaken, RefusesSo};
ghost use Rattle.nbd_session.specs.Turns.{StaysReady};
ghost use Rattle.std.specs.Prelude.{◌≡◌, ◌≢◌, ◌≤◌, None, length, take, vec_capacity, IfOk, OnErr, OnOk};
ghost use Rattle.wol_disk.specs.Disk.{Rose};

use crate::error::{MOST_BYTES, NbdError, error_of, known_error};
use crate::header::{Command, Header};
use crate::intake::{skip, take_data};
use crate::ranges::{BLOCK_BYTES, read_range, write_range};
use crate::volume::Volume;
use std::alloc::Global;
use wol_disk::{Block, Failed, NoMemory};
use wol_io::Source;

/// The most blocks of one turn.
const MOST_BLOCKS: usize = 128;

// The bytes that are filled from the beginning: the data of a refused request pass through them.
const LEAST_BYTES: usize = 65_536;

/// Room for the bytes of one range, and for the blocks of one piece. All of the room for bytes is had from the beginning, and no
/// more of it is filled than the longest request so far needs, so that the system gives a session only the memory that it uses.
#[derive(Drop)]
pub(crate) struct Desk {
    pub(crate) bytes: Vec<u8>,
    room: Vec<Block>,
    ghost bytes_capacity: { 33554432 ≤ vec_capacity bytes },
    ghost bytes_size: { 1 ≤ length bytes.items },
    ghost room_size: { length room.items ≡ 128 },
}

impl Desk {
    pub(crate) fn new(alloc: Global) -> Result<Desk, NoMemory> {
        let mut bytes = Vec::with_capacity(alloc, MOST_BYTES)?;
        bytes.resize(LEAST_BYTES, 0)?;
        Ok(Desk {
            bytes,
            room: vec![in alloc; [0; BLOCK_BYTES]; MOST_BLOCKS]?,
        })
    }

    // Fills so many bytes, if a request may have so many.
    fn fill(&mut self, count: usize)
        ensures { count ≤ 33554432 → count ≤ length self.new.bytes.items }
    {
        let count = count.min(MOST_BYTES);
        if self.bytes.len() < count {
            match self.bytes.resize(count, 0) {
                Ok(()) => {}
                Err(_) => unreachable!(),
            }
        }
    }
}

// Looks whether a volume is up, and answers with no data.
fn look<V: Volume>(volume: &mut V) -> Result<usize, NbdError>
    requires ready { V.Ready volume.old }
    ensures stays { StaysReady V.Ready V.home V.most volume.old volume.new }
    ensures looked { LooksSo V.Turned volume.old volume.new result }
{
    volume.look().map_err(error_of)?;
    Ok(0)
}

// Reads the range of a request into the bytes in front, by way of a room.
fn read<V: Volume>(
    volume: &mut V,
    header: &Header,
    bytes: &mut [u8],
    room: &mut [Block],
) -> Result<usize, NbdError>
    requires ready { V.Ready volume.old }
    requires bytes { header.now.length ≤ length bytes.old }
    requires room { length room.old ≡ 128 }
    requires inside { IsInside (V.home volume.old) header.now }
    ensures stays { StaysReady V.Ready V.home V.most volume.old volume.new }
    ensures read { ReadsSo V.Turned (V.most volume.old) header.now bytes.new volume.old volume.new
        result }
    ensures fits { IfOk result (λ n. n ≤ length bytes.new) }
{
    let length = header.length as usize;
    let count = length / BLOCK_BYTES;
    let bytes = &mut bytes[..length];
    read_range(volume, header.offset / 512, count, bytes, room).map_err(error_of)?;
    Ok(length)
}

// Writes the bytes in front to the range of a request.
fn write<V: Volume>(volume: &mut V, header: &Header, bytes: &[u8]) -> Result<usize, NbdError>
    requires ready { V.Ready volume.old }
    requires bytes { header.now.length ≤ length bytes.now }
    requires inside { IsInside (V.home volume.old) header.now }
    ensures stays { StaysReady V.Ready V.home V.most volume.old volume.new }
    ensures written { WritesSo V.Turned (V.most volume.old) header.now
        (take header.now.length bytes.now) volume.old volume.new result }
{
    let length = header.length as usize;
    let count = length / BLOCK_BYTES;
    write_range(volume, header.offset / 512, count, &bytes[..length]).map_err(error_of)?;
    Ok(0)
}

// Asks a volume what a request asks for that has no error so far. A write's data stand in front in the bytes, and a read's
// will. Answers how many bytes of the reply's data stand there.
fn ask<V: Volume>(
    volume: &mut V,
    header: &Header,
    bytes: &mut [u8],
    room: &mut [Block],
) -> Result<usize, NbdError>
    requires ready { V.Ready volume.old }
    requires bytes { header.now.length ≤ 33554432 → header.now.length ≤ length bytes.old }
    requires room { length room.old ≡ 128 }
    requires known { known_error (V.home volume.old) header.now ≡ None }
    requires stays { header.now.command ≢ Command.Disc }
    ensures stays { StaysReady V.Ready V.home V.most volume.old volume.new }
    ensures serves { Serves V.Turned (V.home volume.old) (V.most volume.old) header.now
        (take (payload_of header.now.command header.now.length) bytes.old) volume.old
        (answer_in bytes.new result) volume.new }
    ensures fits { IfOk result (λ n. n ≤ length bytes.new) }
{
    if header.length == 0 {
        return look(volume);
    }
    match header.command {
        Command::Read => read(volume, header, bytes, room),
        Command::Write => write(volume, header, bytes),
        Command::Flush => look(volume),
        Command::Disc | Command::Unknown => unreachable!(),
    }
}

// Takes and drops the data of a request that has this error. `None` where the source ends within them.
fn refuse<S: Source>(
    input: &mut S,
    bytes: &mut [u8],
    header: &Header,
    error: NbdError,
) -> Result<Option<Result<usize, NbdError>>, Failed>
    requires { 1 ≤ length bytes.old }
    ensures content { RefusesSo (S.left input.old) (S.left input.new) header.now error result }
    ensures later { S.faults input.old ≤ S.faults input.new }
    ensures cause { OnErr result (Rose (S.faults input.old) (S.faults input.new)) }
    ensures calm { OnOk result (S.faults input.new ≡ S.faults input.old) }
{
    if skip(input, bytes, header.payload())? {
        Ok(Some(Err(error)))
    } else {
        Ok(None)
    }
}

// Takes the data of a request that has no error so far, and asks the volume. `None` where the source ends within them.
fn admit<V: Volume, S: Source>(
    volume: &mut V,
    header: &Header,
    input: &mut S,
    bytes: &mut [u8],
    room: &mut [Block],
) -> Result<Option<Result<usize, NbdError>>, Failed>
    requires ready { V.Ready volume.old }
    requires bytes { header.now.length ≤ 33554432 → header.now.length ≤ length bytes.old }
    requires room { length room.old ≡ 128 }
    requires known { known_error (V.home volume.old) header.now ≡ None }
    requires stays { header.now.command ≢ Command.Disc }
    ensures stays { StaysReady V.Ready V.home V.most volume.old volume.new }
    ensures content { AnswersTaken V.Turned (V.home volume.old) (V.most volume.old) header.now
        volume.old volume.new (S.left input.old) (S.left input.new) bytes.new result }
    ensures later { S.faults input.old ≤ S.faults input.new }
    ensures cause { OnErr result (Rose (S.faults input.old) (S.faults input.new)) }
    ensures calm { OnOk result (S.faults input.new ≡ S.faults input.old) }
{
    if take_data(input, bytes, header.payload())? {
        Ok(Some(ask(volume, header, bytes, room)))
    } else {
        Ok(None)
    }
}

/// Takes the data of a request, asks the volume, and answers how many bytes of the reply's data stand in front on the desk,
/// or the reply's error. `None` where the source ends within the data; nothing was asked then.
pub(crate) fn take_and_ask<V: Volume, S: Source>(
    volume: &mut V,
    header: &Header,
    input: &mut S,
    desk: &mut Desk,
) -> Result<Option<Result<usize, NbdError>>, Failed>
    requires ready { V.Ready volume.old }
    requires stays { header.now.command ≢ Command.Disc }
    ensures stays { StaysReady V.Ready V.home V.most volume.old volume.new }
    ensures content { AnswersTaken V.Turned (V.home volume.old) (V.most volume.old) header.now
        volume.old volume.new (S.left input.old) (S.left input.new) desk.new.bytes.items result }
    ensures later { S.faults input.old ≤ S.faults input.new }
    ensures cause { OnErr result (Rose (S.faults input.old) (S.faults input.new)) }
    ensures calm { OnOk result (S.faults input.new ≡ S.faults input.old) }
{
    match known_error(volume.home(), header) {
        Some(error) => refuse(input, &mut desk.bytes, header, error),
        None => {
            desk.fill(header.length as usize);
            admit(volume, header, input, &mut desk.bytes, &mut desk.room)
        }
    }
}
