// The heads of segments, and gates.
ghost use Rattle.log_layout.specs.Values.{segment_head};
ghost use Rattle.std.specs.Prelude.{◌≡◌, ◌↔◌, IsTrue, IfSome, IfNone};
ghost use Rattle.wol_model.specs.Heads.{SegmentHead, SpellsSegment, segment_block, gate_block};

use crate::bytes::{put_bytes, put_u32, u32_at};
use wol_disk::Block;

/// The head of a segment: it is free, or a volume logs to it.
#[derive(Clone, Copy, Debug, PartialEq, Eq)]
pub enum SegHead {
    Free,
    /// The volume that owns the segment.
    Owned(u32),
}

/// The segment head that the block spells, if there is one.
pub fn read_seg(b: &Block) -> Option<SegHead>
    ensures found { IfSome result (λ h. SpellsSegment b.now (segment_head h)) }
    ensures none { IfNone result ((h : SegmentHead) → ¬ SpellsSegment b.now h) }
{
    let mut again = [0; 512];
    write_seg(&SegHead::Free, &mut again);
    if again == *b {
        return Some(SegHead::Free);
    }
    let owner = u32_at(b, 8);
    write_seg(&SegHead::Owned(owner), &mut again);
    if again == *b {
        return Some(SegHead::Owned(owner));
    }
    None
}

/// Makes the block the one that spells the head.
pub fn write_seg(v: &SegHead, b: &mut Block)
    ensures { b.new ≡ segment_block (segment_head v.now) }
{
    *b = [0; 512];
    match v {
        SegHead::Free => put_bytes(b, 0, b"WOLSEGF1"),
        SegHead::Owned(owner) => {
            put_bytes(b, 0, b"WOLSEGO1");
            put_u32(b, 8, *owner);
        }
    }
}

/// Whether the block is a gate, 512 zeros: behind it nothing counts.
pub fn is_gate(b: &Block) -> bool
    ensures { IsTrue result ↔ (b.now ≡ gate_block) }
{
    let mut gate = [0; 512];
    write_gate(&mut gate);
    *b == gate
}

/// Makes a gate of the block.
pub fn write_gate(b: &mut Block)
    ensures { b.new ≡ gate_block }
{
    *b = [0; 512];
}
