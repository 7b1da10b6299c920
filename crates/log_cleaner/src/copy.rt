// One chunk is written again.
ghost use Rattle.log_cleaner.specs.Cleans.{CanClean};
ghost use Rattle.log_cleaner.specs.Steps.{AreCoveredIn, ReadsAll, RewritesBehind, fault_of, told_of};
ghost use Rattle.log_segment.specs.Records.{count_of};
ghost use Rattle.manager.specs.Groups.{AreItemsOf};
ghost use Rattle.manager.specs.Stands.{IsReady, IsHome};
ghost use Rattle.spin_model.specs.Spun.{state_of};
ghost use Rattle.std.specs.Prelude.{◌≡◌, ◌≤◌, length};

use crate::CleanFault;
use crate::copies::{Copies, next_copies, noted};
use log_segment::Item;
use logger::Shared;
use manager::{Manager, Ran, ReadRefusal, WriteRefusal};
use std::sync::Wait;
use wol_disk::{Block, Disk};

// The fault of a read that was refused.
fn read_fault(refusal: ReadRefusal) -> CleanFault
    ensures { result ≡ fault_of refusal }
{
    match refusal {
        ReadRefusal::DiskFault(part) => CleanFault::DiskFault(part),
        ReadRefusal::Down(part) => CleanFault::DiskFault(part),
    }
}

// How many chunks were written to a log, by what became of the run.
fn told(ran: Ran) -> Result<usize, CleanFault>
    ensures { result ≡ told_of ran.items ran.answer }
{
    match ran.answer {
        Ok(_) => Ok(ran.items),
        Err(WriteRefusal::Full) => Ok(0),
        Err(WriteRefusal::DiskFault(part)) => Err(CleanFault::DiskFault(part)),
        Err(WriteRefusal::Down(part)) => Err(CleanFault::DiskFault(part)),
        Err(WriteRefusal::VersionsSpent) => Err(CleanFault::VersionsSpent),
        Err(WriteRefusal::NoMemory) => Err(CleanFault::NoMemory),
    }
}

// Reads the blocks of these chunks one behind the other. Answers how many these are.
fn read_all<R: Wait, D: Disk>(
    rt: &R,
    m: &mut Manager<D>,
    shared: &Shared<D>,
    chunks: &[Item],
    room: &mut [Block],
) -> Result<usize, CleanFault>
    requires ready { IsReady D.state m.old }
    requires at { IsHome shared.now m.old }
    requires can { CanClean m.old }
    requires chunks { AreItemsOf m.old.most (state_of D.state m.old.home).size chunks.now }
    requires covered { AreCoveredIn m.old chunks.now }
    requires room { count_of chunks.now ≤ length room.old }
    ensures ready { IsReady D.state m.new }
    ensures at { IsHome shared.now m.new }
    ensures read { ReadsAll D.tells D.state chunks.now m.old m.new room.new result }
{
    let mut blocks = 0;
    for chunk in chunks {
        let end = blocks + chunk.count as usize;
        match m.read(rt, shared, chunk.lbn, &mut room[blocks..end]) {
            Ok(_) => {}
            Err(refusal) => return Err(read_fault(refusal)),
        }
        blocks = end;
    }
    Ok(blocks)
}

/// Reads the blocks of these chunks and writes them again to a log, as many of the first ones as go there together. Each is a
/// copy more. Answers how many: none where no log had room for the first.
pub(crate) fn rewrite<R: Wait, D: Disk>(
    rt: &R,
    m: &mut Manager<D>,
    shared: &Shared<D>,
    chunks: &[Item],
    room: &mut [Block],
    done: &mut Copies,
) -> Result<usize, CleanFault>
    requires ready { IsReady D.state m.old }
    requires at { IsHome shared.now m.old }
    requires can { CanClean m.old }
    requires some { 1 ≤ length chunks.now }
    requires few { length chunks.now ≤ 8 }
    requires chunks { AreItemsOf m.old.most (state_of D.state m.old.home).size chunks.now }
    requires covered { AreCoveredIn m.old chunks.now }
    requires room { count_of chunks.now ≤ length room.old }
    ensures ready { IsReady D.state m.new }
    ensures at { IsHome shared.now m.new }
    ensures rewritten { RewritesBehind D.tells D.state chunks.now m.old m.new
        done.old.value.items done.new.value.items result }
{
    let blocks = read_all(rt, m, shared, chunks, room)?;
    let from = &room[..blocks];
    let more = next_copies(m, chunks, from);
    let ran = m.write_some(rt, shared, chunks, from);
    noted(done, &more, ran);
    told(ran)
}
