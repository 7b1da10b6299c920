// The heads of records, in two forms.
ghost use Rattle.byteorder.specs.Endian.{little_number};
ghost use Rattle.log_layout.specs.Fields.{record_at};
ghost use Rattle.log_layout.specs.Values.{record_head};
ghost use Rattle.std.specs.Prelude.{◌≡◌, ◌≤◌, ◌<◌, ◌-◌, ◌^◌, ◌↔◌, IsTrue, IfSome, IfNone, ℕ, ◌+◌, ◌≢◌, drop};
ghost use Rattle.wol_model.specs.Heads.{RecordHead, IsRecordHead, IsMaskOfForm, SpellsRecord, head_block};

use crate::bytes::{put_bytes, put_u32, put_u64, put_u128, u32_at, u64_at, u128_at};
use wol_disk::Block;

/// The head of a record: of what its blocks are, and which of them are still kept.
#[derive(Clone, Copy, Debug, PartialEq, Eq)]
pub struct RecHead {
    /// How it is written. Form 1, which is older, keeps all blocks or none, and form 2 any.
    pub form: u8,
    /// Bit i is set where block i of the record is kept.
    pub keep: u128,
    /// The volume whose blocks these are.
    pub owner: u32,
    /// The version, 1 to 2^63 - 1: of two records of one block the later has the greater.
    pub version: u64,
    /// The volume's first block in the record.
    pub lbn: u64,
    /// How many blocks the record has: 1 to 128, the last of them below 2^32.
    pub count: u32,
}

/// The record head that the block spells, if there is one.
pub fn read_rec(b: &Block) -> Option<RecHead>
    ensures found { IfSome result (λ h. SpellsRecord b.now (record_head h)) }
    ensures none { IfNone result ((h : RecordHead) → ¬ SpellsRecord b.now h) }
{
    let count = u32_at(b, 32);
    if count == 0 || count > 128 {
        return None;
    }
    let head = fields(b);
    if !is_in_range(head) {
        return None;
    }
    let mut again = [0; 512];
    write_rec(&head, &mut again);
    if again == *b { Some(head) } else { None }
}

/// Makes the block the one that spells the head.
pub fn write_rec(v: &RecHead, b: &mut Block)
    requires { IsRecordHead (record_head v.now) }
    ensures { b.new ≡ head_block (record_head v.now) }
{
    if v.form == 1 {
        write_first_form(v, b);
    } else {
        write_second_form(v, b);
    }
}

// The form that keeps all blocks or none.
fn write_first_form(v: &RecHead, b: &mut Block)
    requires { v.now.form ≡ 1 }
    ensures { b.new ≡ head_block (record_head v.now) }
{
    *b = [0; 512];
    put_bytes(b, 0, b"WOLREC01");
    put_u32(b, 8, if v.keep == 0 { 2 } else { 1 });
    put_u32(b, 12, v.owner);
    put_u64(b, 16, v.version);
    put_u64(b, 24, v.lbn);
    put_u32(b, 32, v.count);
}

// The form that says for each block whether it is kept.
fn write_second_form(v: &RecHead, b: &mut Block)
    requires { v.now.form ≢ 1 }
    ensures { b.new ≡ head_block (record_head v.now) }
{
    *b = [0; 512];
    put_bytes(b, 0, b"WOLREC02");
    put_u32(b, 8, 0);
    put_u32(b, 12, v.owner);
    put_u64(b, 16, v.version);
    put_u64(b, 24, v.lbn);
    put_u32(b, 32, v.count);
    put_u128(b, 36, v.keep);
}

fn is_in_range(v: RecHead) -> bool
    ensures { IsTrue result ↔ IsRecordHead (record_head v) }
{
    has_span(&v) && is_kept(v.form, v.keep, v.count)
}

// Whether the fields that both forms have are in their ranges.
fn has_span(v: &RecHead) -> bool
    ensures { IsTrue result ↔ ((1 ≤ v.now.version) × (v.now.version < 2 ^ 63) × (1 ≤ v.now.count)
        × (v.now.count ≤ 128) × (v.now.lbn + v.now.count ≤ 2 ^ 32)) }
{
    v.version >= 1
        && v.version < 1 << 63
        && v.count >= 1
        && v.count <= 128
        && v.lbn <= 1 << 32
        && v.lbn + v.count as u64 <= 1 << 32
}

// Whether these blocks may be kept of so many, in this form.
fn is_kept(form: u8, keep: u128, count: u32) -> bool
    requires { (1 ≤ count) × (count ≤ 128) }
    ensures { IsTrue result ↔ ((keep < 2 ^ count) × IsMaskOfForm form count keep) }
{
    let all = all_blocks(count);
    keep <= all && (form == 2 || form == 1 && (keep == 0 || keep == all))
}

// All of so many blocks.
fn all_blocks(count: u32) -> u128
    requires { (1 ≤ count) × (count ≤ 128) }
    ensures { result ≡ 2 ^ count - 1 }
{
    u128::MAX >> (128 - count)
}

// What stands at the places of a record head's fields.
fn fields(b: &Block) -> RecHead
    requires { (1 ≤ little_number 4 (drop 32 b.now)) × (little_number 4 (drop 32 b.now) ≤ 128) }
    ensures { result ≡ record_at b.now }
{
    let count = u32_at(b, 32);
    let (form, keep) = if b[7] != b'1' {
        (2, u128_at(b, 36))
    } else if u32_at(b, 8) == 1 {
        (1, all_blocks(count))
    } else {
        (1, 0)
    };
    RecHead {
        form,
        keep,
        owner: u32_at(b, 12),
        version: u64_at(b, 16),
        lbn: u64_at(b, 24),
        count,
    }
}
