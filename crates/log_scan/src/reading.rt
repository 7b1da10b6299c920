// The blocks of a segment, read from its head on.
ghost use Rattle.log_layout.specs.Values.{record_head};
ghost use Rattle.log_scan.specs.Reading.{AreAhead, StandsAt, IsGateAt, IsHeadAt, IsReading};
ghost use Rattle.log_scan.specs.Scan.{AreFound, IsInside, IsFaultAt, ReadsOnly};
ghost use Rattle.log_scan.specs.declared.Found.{Found as FoundAt};
ghost use Rattle.log_scan.specs.declared.ScanFault.TheVariants as fault;
ghost use Rattle.spin_model.specs.Spun.{volume_of, state_of, token_volume};
ghost use Rattle.std.specs.List.{AllByRecursion};
ghost use Rattle.std.specs.Prelude.{⊤, ◌≡◌, ◌+◌, ◌<◌, ◌≤◌, ◌^◌, ℕ, List, [], length, Some, MatchOption, IfOk, IsErr, IsErrOf};
ghost use Rattle.wol_disk.specs.Disk.{Block, only, Passes};
ghost use Rattle.wol_model.specs.Heads.{IsRecordHead};
ghost use Rattle.wol_model.specs.Log.{Record, IsLog, end_of};

use crate::ahead::{Ahead, MOST, block_at};
use crate::{Found, ScanFault};
use log_layout::{RecHead, is_gate, read_rec};
use spin_model::{Awake, Spun};
use std::alloc::Global;
use wol_disk::{Block, Disk, Failed};

/// Reads one block.
pub fn read_block<D: Disk>(part: &mut Spun<D>, token: &Awake, at: u32) -> Result<Block, Failed>
    requires volume { token_volume token.now ≡ volume_of part.old }
    requires inside { at < (state_of D.state part.old).size }
    ensures block { (bs : List Block) → (state_of D.state part.old).values ≡ Some (only bs)
        → IfOk result (StandsAt bs at) }
    ensures values { (state_of D.state part.new).values ≡ (state_of D.state part.old).values }
    ensures passes { Passes (state_of D.state part.old) (state_of D.state part.new) (IsErr result) }
    ensures volume { volume_of part.new ≡ volume_of part.old }
{
    let mut out = [[0; 512]];
    part.read(token, at as u64, &mut out)?;
    Ok(out[0])
}

// What stands at a place: a gate (`None`), a head of this owner, or a fault.
fn next_head<D: Disk>(
    part: &mut Spun<D>,
    token: &Awake,
    blocks: u32,
    owner: u32,
    at: u32,
    ahead: &mut Ahead,
    room: &mut [Block],
) -> Result<Option<RecHead>, ScanFault>
    requires volume { token_volume token.now ≡ volume_of part.old }
    requires size { (state_of D.state part.old).size ≡ blocks }
    requires small { blocks ≤ 65536 }
    requires inside { at < blocks }
    requires few { ahead.old.count ≤ 32 }
    requires room { length room.old ≡ 32 }
    requires ahead { AreAhead (state_of D.state part.old).values ahead.old.from ahead.old.count
        room.old }
    ensures few { ahead.new.count ≤ 32 }
    ensures room { length room.new ≡ 32 }
    ensures ahead { AreAhead (state_of D.state part.old).values ahead.new.from ahead.new.count
        room.new }
    ensures found { (bs : List Block) → (state_of D.state part.old).values ≡ Some (only bs)
        → IfOk result
        (λ o. MatchOption o (IsGateAt bs at) (λ h. IsHeadAt bs owner at (record_head h))) }
    ensures shape { IfOk result (λ o. MatchOption o (⊤)
        (λ h. IsRecordHead (record_head h) × (h.owner ≡ owner) × (at + 1 + h.count ≤ blocks))) }
    ensures damaged { (bs : List Block) (block : ℕ)
        → (state_of D.state part.old).values ≡ Some (only bs)
        → IsErrOf result (fault.Damaged block) → (block ≡ at) × IsFaultAt bs owner at }
    ensures kept { ReadsOnly D.state part.old part.new result }
{
    let block = match block_at(part, token, blocks, at, ahead, room) {
        Ok(block) => block,
        Err(_) => return Err(ScanFault::Failed),
    };
    if is_gate(&block) {
        return Ok(None);
    }
    match read_rec(&block) {
        Some(head) => {
            if head.owner == owner && head.count <= blocks - at - 1 {
                Ok(Some(head))
            } else {
                Err(ScanFault::Damaged { block: at })
            }
        }
        None => Err(ScanFault::Damaged { block: at }),
    }
}

/// The heads of the records behind an owned head, and the position behind the last record.
pub fn read_records<D: Disk>(
    alloc: Global,
    part: &mut Spun<D>,
    token: &Awake,
    blocks: u32,
    owner: u32,
) -> Result<(Vec<Found>, u32), ScanFault>
    requires volume { token_volume token.now ≡ volume_of part.old }
    requires size { (state_of D.state part.old).size ≡ blocks }
    requires small { (1 ≤ blocks) × (blocks ≤ 65536) }
    ensures found { (bs : List Block) → (state_of D.state part.old).values ≡ Some (only bs)
        → IsReading bs owner 1 []
        → IfOk result
        (λ r. (rs : List Record) × IsLog bs owner rs × AreFound rs r.0.items
        × (r.1 ≡ end_of rs)) }
    ensures place { IfOk result (λ r. (1 ≤ r.1) × (r.1 ≤ blocks) × (length r.0.items < r.1)) }
    ensures heads { IfOk result (λ r. AllByRecursion (IsInside blocks owner) r.0.items) }
    ensures damaged { (bs : List Block) (block : ℕ)
        → (state_of D.state part.old).values ≡ Some (only bs) → IsReading bs owner 1 []
        → IsErrOf result (fault.Damaged block)
        → IsFaultAt bs owner block × ((found : List FoundAt) × IsReading bs owner block found) }
    ensures kept { ReadsOnly D.state part.old part.new result }
{
    let mut records = Vec::new(alloc);
    let mut room = [[0; 512]; MOST];
    let mut ahead = Ahead {
        from: 0,
        count: 0,
        far: false,
    };
    let mut at = 1;
    while at < blocks {
        let next = match next_head(part, token, blocks, owner, at, &mut ahead, &mut room) {
            Ok(next) => next,
            Err(fault) => return Err(fault),
        };
        match next {
            None => return Ok((records, at)),
            Some(head) => {
                ahead.far = head.count >= MOST as u32;
                match records.push(Found { pos: at, head }) {
                    Ok(()) => at = at + 1 + head.count,
                    Err(_) => return Err(ScanFault::NoMemory),
                }
            }
        }
    }
    Ok((records, at))
}
