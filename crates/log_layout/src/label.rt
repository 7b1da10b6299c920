// The label of an image.
ghost use Rattle.log_layout.specs.Fields.{label_at};
ghost use Rattle.log_layout.specs.Values.{shape_of};
ghost use Rattle.std.specs.Prelude.{◌≡◌, ◌<◌, ◌^◌, ◌↔◌, IsTrue, IfSome, IfNone, ℕ};
ghost use Rattle.wol_model.specs.Heads.{Shape, IsShape, SpellsLabel, label_block};

use crate::bytes::{put_bytes, put_u32, put_u64, u32_at, u64_at};
use wol_disk::Block;

/// The label of an image: whose it is, and its sizes.
#[derive(Clone, Copy, Debug, PartialEq, Eq)]
pub struct Label {
    /// The volume's number.
    pub id: u32,
    /// The blocks of its home: 1 to 2^32.
    pub home: u64,
    /// Its segments: at most 1,024.
    pub segments: u32,
    /// The blocks of each segment: 4 to 65,536.
    pub segment_blocks: u32,
}

/// The label that the block spells, if there is one.
pub fn read_label(b: &Block) -> Option<Label>
    ensures found { IfSome result (λ v. SpellsLabel b.now v.id (shape_of v)) }
    ensures none { IfNone result ((id : ℕ) (shape : Shape) → ¬ SpellsLabel b.now id shape) }
{
    let label = fields(b);
    if !is_in_range(&label) {
        return None;
    }
    let mut again = [0; 512];
    write_label(&label, &mut again);
    if again == *b { Some(label) } else { None }
}

/// Makes the block the one that spells the label.
pub fn write_label(v: &Label, b: &mut Block)
    requires { IsShape (shape_of v.now) }
    ensures { b.new ≡ label_block v.now.id (shape_of v.now) }
{
    *b = [0; 512];
    put_bytes(b, 0, b"WOLVOL01");
    put_u32(b, 8, v.id);
    put_u64(b, 12, v.home);
    put_u32(b, 20, v.segments);
    put_u32(b, 24, v.segment_blocks);
}

fn is_in_range(v: &Label) -> bool
    ensures { IsTrue result ↔ IsShape (shape_of v.now) }
{
    (1..=1 << 32).contains(&v.home)
        && v.segments <= 1_024
        && (4..=65_536).contains(&v.segment_blocks)
}

// What stands at the places of a label's fields.
fn fields(b: &Block) -> Label
    ensures { result ≡ label_at b.now }
{
    Label {
        id: u32_at(b, 8),
        home: u64_at(b, 12),
        segments: u32_at(b, 20),
        segment_blocks: u32_at(b, 24),
    }
}
