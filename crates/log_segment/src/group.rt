// Records behind those that are there.
ghost use Rattle.log_layout.specs.Values.{record_head};
ghost use Rattle.log_segment.specs.Group.{reads_as, without_heads};
ghost use Rattle.log_segment.specs.Kept.{Keeps, KeepsPart};
ghost use Rattle.log_segment.specs.Records as head;
ghost use Rattle.log_segment.specs.Records.{group_of, count_of, AreItems};
ghost use Rattle.spin_model.specs.Spun.{volume_of, state_of, token_volume};
ghost use Rattle.std.specs.List.{flat_map};
ghost use Rattle.std.specs.Prelude.{◌≡◌, ◌⊎◌, ◌+◌, ◌<◌, ◌≤◌, ◌^◌, ◌-◌, ℕ, [], ◌∷◌, ◌++◌, length, take, List, Some, option_map, OnOk};
ghost use Rattle.wol_disk.specs.Disk.{Block, only, put, reads, LeavesOnly, IsImageOf, IsBlend};
ghost use Rattle.wol_model.specs.Heads.{IsRecordHead, head_block, gate_block};
ghost use Rattle.wol_model.specs.Log.{Record, EndsLog, HasFirstOf, written, end_of};

use crate::Item;
use log_layout::{RecHead, write_gate, write_rec};
use spin_model::{Awake, Spun};
use wol_disk::{Block, Disk, Failed};

// Of how many blocks a copy is made, so that one write has them and the gate behind them.
const COPIED: usize = 16;

// Copies the blocks into the array, with a gate behind them.
fn copy_with_gate(from: &[Block], both: &mut [Block; COPIED + 1])
    requires { length from.now ≤ 16 }
    ensures { (rest : List Block) × (both.new ≡ from.now ++ (gate_block ∷ rest)) }
{
    write_gate(&mut both[from.len()]);
    both[..from.len()].copy_from_slice(from);
}

// Writes blocks behind the place of their head, and a gate behind them unless the segment ends there: few blocks and
// the gate by one write.
fn lay_blocks<D: Disk>(
    part: &mut Spun<D>,
    token: &Awake,
    at: u32,
    from: &[Block],
) -> Result<(), Failed>
    requires volume { token_volume token.now ≡ volume_of part.old }
    requires small { (state_of D.state part.old).size ≤ 65536 }
    requires fits { at + 1 + length from.now ≤ (state_of D.state part.old).size }
    ensures ok { (front tail : List Block) → length front ≡ at
        → reads_as (state_of D.state part.old) ≡ Some (front ++ tail) → EndsLog tail
        → OnOk result ((rest : List Block) × EndsLog rest
        × (reads_as (state_of D.state part.new)
        ≡ Some (front ++ (gate_block ∷ (from.now ++ rest))))) }
    ensures any_moment { LeavesOnly (state_of D.state part.old) (state_of D.state part.new)
        (λ c. (d : List Block) × IsImageOf (state_of D.state part.old).values d
        × (take (at + 1) c ≡ take (at + 1) d)) }
    ensures leaves { KeepsPart D.state part.old part.new result }
{
    let next = at as u64 + 1 + from.len() as u64;
    let gates = if next < part.blocks() { 1 } else { 0 };
    if from.len() <= COPIED {
        let mut both = [[0; 512]; COPIED + 1];
        copy_with_gate(from, &mut both);
        return part.write(token, at as u64 + 1, &both[..from.len() + gates]);
    }
    let mut behind = [[0; 512]];
    write_gate(&mut behind[0]);
    part.write(token, at as u64 + 1, from)?;
    part.write(token, next, &behind[..gates])
}

/// Writes the blocks of all items, each item's behind a gate in the place of its head, and syncs.
fn lay_group<D: Disk>(
    part: &mut Spun<D>,
    token: &Awake,
    at: u32,
    items: &[Item],
    from: &[Block],
) -> Result<(), Failed>
    requires volume { token_volume token.now ≡ volume_of part.old }
    requires small { (state_of D.state part.old).size ≤ 65536 }
    requires fits { at + length items.now + length from.now ≤ (state_of D.state part.old).size }
    requires all { count_of items.now ≡ length from.now }
    ensures ok { (front tail : List Block) → length front ≡ at
        → (state_of D.state part.old).values ≡ Some (only (front ++ tail)) → EndsLog tail
        → OnOk result ((rest : List Block) × EndsLog rest
        × ((state_of D.state part.new).values
        ≡ Some (only (front ++ (without_heads items.now from.now ++ rest))))) }
    ensures any_moment { (bs : List Block) → (state_of D.state part.old).values ≡ Some (only bs)
        → LeavesOnly (state_of D.state part.old) (state_of D.state part.new)
        (λ c. take (at + 1) c ≡ take (at + 1) bs) }
    ensures leaves { KeepsPart D.state part.old part.new result }
{
    let mut place = at;
    let mut laid = 0;
    for item in items {
        let next = laid + item.count as usize;
        lay_blocks(part, token, place, &from[laid..next])?;
        place = place + 1 + item.count;
        laid = next;
    }
    part.sync(token)
}

// The head of a new record, which keeps all its blocks.
fn new_head(owner: u32, version: u64, item: &Item) -> RecHead
    requires { (1 ≤ item.now.count) × (item.now.count ≤ 128) }
    ensures { record_head result ≡ head.new_head owner version item.now.lbn item.now.count }
{
    RecHead {
        form: 2,
        keep: u128::MAX >> (128 - item.count),
        owner,
        version,
        lbn: item.lbn,
        count: item.count,
    }
}

// Writes the head of a record.
fn put_head<D: Disk>(
    part: &mut Spun<D>,
    token: &Awake,
    at: u32,
    head: &RecHead,
) -> Result<(), Failed>
    requires volume { token_volume token.now ≡ volume_of part.old }
    requires fits { at + 1 ≤ (state_of D.state part.old).size }
    requires head { IsRecordHead (record_head head.now) }
    ensures ok { (bs : List Block) → reads_as (state_of D.state part.old) ≡ Some bs
        → OnOk result (reads_as (state_of D.state part.new)
        ≡ Some (put at (head_block (record_head head.now) ∷ []) bs)) }
    ensures any_moment { LeavesOnly (state_of D.state part.old) (state_of D.state part.new)
        (λ c. (d : List Block) × IsImageOf (state_of D.state part.old).values d
        × ((c ≡ d) ⊎ (c ≡ put at (head_block (record_head head.now) ∷ []) d))) }
    ensures leaves { KeepsPart D.state part.old part.new result }
{
    let mut block = [0; 512];
    write_rec(head, &mut block);
    part.write(token, at as u64, &[block])
}

/// Writes the heads of a group whose blocks are there, in order, and syncs.
fn lay_heads<D: Disk>(
    part: &mut Spun<D>,
    token: &Awake,
    at: u32,
    owner: u32,
    version: u64,
    items: &[Item],
) -> Result<(), Failed>
    requires volume { token_volume token.now ≡ volume_of part.old }
    requires small { (state_of D.state part.old).size ≤ 65536 }
    requires fits { at + length items.now + count_of items.now ≤ (state_of D.state part.old).size }
    requires items { AreItems items.now }
    requires version { (1 ≤ version) × (version + length items.now ≤ 2 ^ 63) }
    ensures ok { (front rest from : List Block) → length front ≡ at
        → count_of items.now ≡ length from
        → (state_of D.state part.old).values
        ≡ Some (only (front ++ (without_heads items.now from ++ rest)))
        → OnOk result ((state_of D.state part.new).values
        ≡ Some (only
        (front ++ (flat_map written (group_of owner version items.now from) ++ rest)))) }
    ensures any_moment { (front rest from : List Block) → length front ≡ at
        → count_of items.now ≡ length from
        → (state_of D.state part.old).values
        ≡ Some (only (front ++ (without_heads items.now from ++ rest)))
        → LeavesOnly (state_of D.state part.old) (state_of D.state part.new)
        (IsBlend (front ++ (without_heads items.now from ++ rest))
        (front ++ (flat_map written (group_of owner version items.now from) ++ rest))) }
    ensures leaves { KeepsPart D.state part.old part.new result }
{
    let mut place = at;
    let mut next = version;
    for item in items {
        let head = new_head(owner, next, item);
        put_head(part, token, place, &head)?;
        place = place + 1 + item.count;
        next += 1;
    }
    part.sync(token)
}

/// Puts a record for each item behind those that are there: all blocks and gates, a sync, the heads, and a sync.
pub fn append_records<D: Disk>(
    part: &mut Spun<D>,
    token: &Awake,
    at: u32,
    owner: u32,
    version: u64,
    items: &[Item],
    from: &[Block],
) -> Result<(), Failed>
    requires volume { token_volume token.now ≡ volume_of part.old }
    requires small { (state_of D.state part.old).size ≤ 65536 }
    requires some { 1 ≤ length items.now }
    requires fits { at + length items.now + length from.now ≤ (state_of D.state part.old).size }
    requires all { count_of items.now ≡ length from.now }
    requires items { AreItems items.now }
    requires version { (1 ≤ version) × (version + length items.now ≤ 2 ^ 63) }
    ensures ok { (rs : List Record) → Keeps (state_of D.state part.old) owner rs → at ≡ end_of rs
        → OnOk result (Keeps (state_of D.state part.new) owner
        (rs ++ group_of owner version items.now from.now)) }
    ensures any_moment { (rs : List Record) → Keeps (state_of D.state part.old) owner rs
        → at ≡ end_of rs
        → LeavesOnly (state_of D.state part.old) (state_of D.state part.new)
        (λ c. HasFirstOf c owner rs (group_of owner version items.now from.now)) }
    ensures leaves { KeepsPart D.state part.old part.new result }
{
    lay_group(part, token, at, items, from)?;
    lay_heads(part, token, at, owner, version, items)
}
