// Label, view and the heads of free segments, written.
ghost use Rattle.log_layout.specs.Values.{shape_of};
ghost use Rattle.logger_view.specs.Stored.{HasLabel, HasView, IsWithOrWithout, with_label, with_view, with_free_head};
ghost use Rattle.spin_model.specs.Spun.{volume_of, state_of, token_volume};
ghost use Rattle.std.specs.Prelude.{◌≡◌, ◌<◌, ◌≤◌, [], ◌∷◌, List, option_map, OnOk, OnErr, IsErr};
ghost use Rattle.wol_disk.specs.Disk.{Block, only, put, reads, AddsSomeOf, LeavesOnly, Rose, IsImageOf};
ghost use Rattle.wol_model.specs.Heads.{IsShape, label_block, view_block, free_block};
ghost use Rattle.wol_model.specs.Log.{IsIdle};

use log_layout::{Label, SegHead, View, write_label, write_seg, write_view};
use spin_model::{Awake, Spun};
use wol_disk::{Block, Disk, Failed};

// Writes one block and syncs. At every moment the block is there or it isn't.
fn store_block<D: Disk>(
    token: &Awake,
    part: &mut Spun<D>,
    at: u64,
    block: &Block,
) -> Result<(), Failed>
    requires volume { token_volume token.now ≡ volume_of part.old }
    requires fits { at < (state_of D.state part.old).size }
    ensures settles { OnOk result ((state_of D.state part.new).values
        ≡ option_map (λ vs. only (put at (block.now ∷ []) (reads vs)))
        (state_of D.state part.old).values) }
    ensures err { OnErr result (AddsSomeOf at (block.now ∷ []) (state_of D.state part.old).values
        (state_of D.state part.new).values) }
    ensures any_moment { LeavesOnly (state_of D.state part.old) (state_of D.state part.new)
        (IsWithOrWithout (put at (block.now ∷ [])) (state_of D.state part.old)) }
    ensures size { (state_of D.state part.new).size ≡ (state_of D.state part.old).size }
    ensures volume { volume_of part.new ≡ volume_of part.old }
    ensures cause { IsErr result
        → Rose (state_of D.state part.old).faults (state_of D.state part.new).faults }
    ensures calm { OnOk result
        ((state_of D.state part.new).faults ≡ (state_of D.state part.old).faults) }
{
    part.write(token, at, &[*block])?;
    part.sync(token)
}

/// Writes the label to block 0 and syncs. At every moment the label is there or it isn't, and block 1 stays as it was.
///
/// `Failed` is the part's, and after it the label may be there or not.
pub fn store_label<D: Disk>(token: &Awake, part: &mut Spun<D>, label: &Label) -> Result<(), Failed>
    requires volume { token_volume token.now ≡ volume_of part.old }
    requires size { (state_of D.state part.old).size ≡ 2 }
    requires label { IsShape (shape_of label.now) }
    ensures ok { OnOk result ((c : List Block) → IsImageOf (state_of D.state part.new).values c
        → HasLabel c label.now.id (shape_of label.now)) }
    ensures settles { OnOk result ((state_of D.state part.new).values
        ≡ option_map (λ vs. only (with_label label.now.id (shape_of label.now) (reads vs)))
        (state_of D.state part.old).values) }
    ensures err { OnErr result (AddsSomeOf 0 (label_block label.now.id (shape_of label.now) ∷ [])
        (state_of D.state part.old).values (state_of D.state part.new).values) }
    ensures any_moment { LeavesOnly (state_of D.state part.old) (state_of D.state part.new)
        (IsWithOrWithout (with_label label.now.id (shape_of label.now)) (state_of D.state part.old)) }
    ensures size { (state_of D.state part.new).size ≡ (state_of D.state part.old).size }
    ensures volume { volume_of part.new ≡ volume_of part.old }
    ensures cause { IsErr result
        → Rose (state_of D.state part.old).faults (state_of D.state part.new).faults }
    ensures calm { OnOk result
        ((state_of D.state part.new).faults ≡ (state_of D.state part.old).faults) }
{
    // a number behind a reference is known to be in its range once it is read
    let _id = label.id;
    let mut block = [0; 512];
    write_label(label, &mut block);
    store_block(token, part, 0, &block)
}

/// Writes the view to block 1 and syncs. At every moment the view is there or it isn't, and block 0 stays as it was.
///
/// `Failed` is the part's, and after it the view may be there or not.
pub fn store_view<D: Disk>(token: &Awake, part: &mut Spun<D>, view: &View) -> Result<(), Failed>
    requires volume { token_volume token.now ≡ volume_of part.old }
    requires size { (state_of D.state part.old).size ≡ 2 }
    ensures ok { OnOk result
        ((c : List Block) → IsImageOf (state_of D.state part.new).values c → HasView c view.now) }
    ensures settles { OnOk result ((state_of D.state part.new).values
        ≡ option_map (λ vs. only (with_view view.now (reads vs)))
        (state_of D.state part.old).values) }
    ensures err { OnErr result (AddsSomeOf 1 (view_block view.now ∷ [])
        (state_of D.state part.old).values (state_of D.state part.new).values) }
    ensures any_moment { LeavesOnly (state_of D.state part.old) (state_of D.state part.new)
        (IsWithOrWithout (with_view view.now) (state_of D.state part.old)) }
    ensures size { (state_of D.state part.new).size ≡ (state_of D.state part.old).size }
    ensures volume { volume_of part.new ≡ volume_of part.old }
    ensures cause { IsErr result
        → Rose (state_of D.state part.old).faults (state_of D.state part.new).faults }
    ensures calm { OnOk result
        ((state_of D.state part.new).faults ≡ (state_of D.state part.old).faults) }
{
    // and ids to be those of a view once the view tells them
    let _ids = view.ids();
    let mut block = [0; 512];
    write_view(view, &mut block);
    store_block(token, part, 1, &block)
}

/// Makes a part the segment that nobody owns: writes the head of a free segment to block 0 and syncs. At every moment
/// the head is there or it isn't, and the other blocks stay as they were.
///
/// `Failed` is the part's, and after it the head may be there or not.
pub fn store_free<D: Disk>(token: &Awake, part: &mut Spun<D>) -> Result<(), Failed>
    requires volume { token_volume token.now ≡ volume_of part.old }
    requires size { 1 ≤ (state_of D.state part.old).size }
    ensures ok { OnOk result
        ((c : List Block) → IsImageOf (state_of D.state part.new).values c → IsIdle c) }
    ensures settles { OnOk result ((state_of D.state part.new).values
        ≡ option_map (λ vs. only (with_free_head (reads vs)))
        (state_of D.state part.old).values) }
    ensures err { OnErr result (AddsSomeOf 0 (free_block ∷ []) (state_of D.state part.old).values
        (state_of D.state part.new).values) }
    ensures any_moment { LeavesOnly (state_of D.state part.old) (state_of D.state part.new)
        (IsWithOrWithout with_free_head (state_of D.state part.old)) }
    ensures size { (state_of D.state part.new).size ≡ (state_of D.state part.old).size }
    ensures volume { volume_of part.new ≡ volume_of part.old }
    ensures cause { IsErr result
        → Rose (state_of D.state part.old).faults (state_of D.state part.new).faults }
    ensures calm { OnOk result
        ((state_of D.state part.new).faults ≡ (state_of D.state part.old).faults) }
{
    let mut block = [0; 512];
    write_seg(&SegHead::Free, &mut block);
    store_block(token, part, 0, &block)
}
