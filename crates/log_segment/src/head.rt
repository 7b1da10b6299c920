// The heads of a segment and of its records, written anew.
ghost use Rattle.log_layout.specs.Values.{record_head};
ghost use Rattle.log_segment.specs.Kept.{Keeps, KeepsPart, IsFreeInAll, IsIdleOrClaimed, IsKeptOrTrimmed, IsKeptOrIdle};
ghost use Rattle.spin_model.specs.Spun.{volume_of, state_of, token_volume};
ghost use Rattle.std.specs.Prelude.{◌≡◌, ◌+◌, ◌<◌, ◌≤◌, ℕ, [], List, Some, slice_get, slice_set, OnOk};
ghost use Rattle.wol_disk.specs.Disk.{Block, Values, LeavesOnly};
ghost use Rattle.wol_model.specs.Heads.{IsRecordHead};
ghost use Rattle.wol_model.specs.Log.{Record, position_of};

use crate::store::store_block;
use log_layout::{RecHead, SegHead, write_gate, write_rec, write_seg};
use spin_model::{Awake, Spun};
use wol_disk::{Block, Disk, Failed};

/// Writes the first gate and syncs, then the head, and syncs.
pub fn claim_part<D: Disk>(part: &mut Spun<D>, token: &Awake, owner: u32) -> Result<(), Failed>
    requires volume { token_volume token.now ≡ volume_of part.old }
    requires size { 2 ≤ (state_of D.state part.old).size }
    ensures ok { (vs : List (Values Block)) → (state_of D.state part.old).values ≡ Some vs
        → OnOk result (Keeps (state_of D.state part.new) owner []) }
    ensures any_moment { IsFreeInAll (state_of D.state part.old)
        → LeavesOnly (state_of D.state part.old) (state_of D.state part.new) (IsIdleOrClaimed owner) }
    ensures leaves { KeepsPart D.state part.old part.new result }
{
    let mut block = [0; 512];
    write_gate(&mut block);
    store_block(part, token, 1, &block)?;
    write_seg(&SegHead::Owned(owner), &mut block);
    store_block(part, token, 0, &block)
}

/// Writes the head of a segment that nobody owns, and syncs.
pub fn retire_part<D: Disk>(part: &mut Spun<D>, token: &Awake) -> Result<(), Failed>
    requires volume { token_volume token.now ≡ volume_of part.old }
    requires size { 2 ≤ (state_of D.state part.old).size }
    ensures idle { OnOk result (IsFreeInAll (state_of D.state part.new)) }
    ensures told { (vs : List (Values Block)) → (state_of D.state part.old).values ≡ Some vs
        → OnOk result ((ws : List (Values Block)) × ((state_of D.state part.new).values ≡ Some ws)) }
    ensures any_moment { (owner : ℕ) (rs : List Record) → Keeps (state_of D.state part.old) owner rs
        → LeavesOnly (state_of D.state part.old) (state_of D.state part.new) (IsKeptOrIdle owner rs) }
    ensures leaves { KeepsPart D.state part.old part.new result }
{
    let mut block = [0; 512];
    write_seg(&SegHead::Free, &mut block);
    store_block(part, token, 0, &block)
}

/// Writes this head in the place of a record's, and syncs.
pub fn store_head<D: Disk>(
    part: &mut Spun<D>,
    token: &Awake,
    at: u32,
    head: &RecHead,
) -> Result<(), Failed>
    requires volume { token_volume token.now ≡ volume_of part.old }
    requires fits { at < (state_of D.state part.old).size }
    requires head { IsRecordHead (record_head head.now) }
    ensures ok { (rs : List Record) (k : ℕ) (r : Record)
        → Keeps (state_of D.state part.old) head.now.owner rs
        → slice_get rs k ≡ Some r → at ≡ position_of rs k → head.now.count ≡ r.head.count
        → OnOk result (Keeps (state_of D.state part.new) head.now.owner
        (slice_set rs k (record r { head = record_head head.now }))) }
    ensures any_moment { (rs : List Record) (k : ℕ) (r : Record)
        → Keeps (state_of D.state part.old) head.now.owner rs
        → slice_get rs k ≡ Some r → at ≡ position_of rs k → head.now.count ≡ r.head.count
        → LeavesOnly (state_of D.state part.old) (state_of D.state part.new)
        (IsKeptOrTrimmed head.now.owner rs k (record r { head = record_head head.now })) }
    ensures leaves { KeepsPart D.state part.old part.new result }
{
    let mut block = [0; 512];
    write_rec(head, &mut block);
    store_block(part, token, at as u64, &block)
}
