// Label and view, read back.
ghost use Rattle.log_layout.specs.Values.{shape_of};
ghost use Rattle.logger_view.specs.Stored.{HasLabel, HasView, IsFirstFault};
ghost use Rattle.logger_view.specs.declared.loading.ViewFault.TheVariants as fault;
ghost use Rattle.spin_model.specs.Spun.{volume_of, state_of, token_volume};
ghost use Rattle.std.specs.Prelude.{◌≡◌, ◌⊎◌, ◌<◌, ℕ, List, Some, option_map, Contains, OnOk, IfOk, IfErr, IsErr, IsErrOf};
ghost use Rattle.wol_disk.specs.Disk.{Block, Values, settled, reads, LeavesOnly, Rose, IsImageOf};
ghost use Rattle.wol_model.specs.Heads.{IsShape};

use log_layout::{Label, View, read_label, read_view};
use spin_model::{Awake, Spun};
use wol_disk::{Block, Disk, Failed};

/// Why label and view could not be loaded.
#[derive(Clone, Copy, Debug, PartialEq, Eq)]
pub enum ViewFault {
    /// A block is damaged, and no call of the part failed. `block` is 0 where block 0 is no label; else it is 1, and
    /// block 1 is no view or names the volume itself.
    Damaged { block: u32 },
    /// A call of the part failed.
    Failed,
}

impl From<Failed> for ViewFault {
    ghost from_gives = { λ _ e. e ≡ fault.Failed };

    fn from(_failed: Failed) -> ViewFault {
        ViewFault::Failed
    }
}

// Both blocks, after a sync.
fn read_blocks<D: Disk>(token: &Awake, part: &mut Spun<D>) -> Result<[Block; 2], Failed>
    requires volume { token_volume token.now ≡ volume_of part.old }
    requires size { (state_of D.state part.old).size ≡ 2 }
    ensures content { (vs : List (Values Block)) → (state_of D.state part.old).values ≡ Some vs
        → IfOk result (λ blocks. blocks ≡ reads vs) }
    ensures settled { OnOk result ((state_of D.state part.new).values
        ≡ option_map settled (state_of D.state part.old).values) }
    ensures values { ((state_of D.state part.new).values ≡ (state_of D.state part.old).values)
        ⊎ ((state_of D.state part.new).values
        ≡ option_map settled (state_of D.state part.old).values) }
    ensures size { (state_of D.state part.new).size ≡ (state_of D.state part.old).size }
    ensures volume { volume_of part.new ≡ volume_of part.old }
    ensures cause { IsErr result
        → Rose (state_of D.state part.old).faults (state_of D.state part.new).faults }
    ensures calm { OnOk result
        ((state_of D.state part.new).faults ≡ (state_of D.state part.old).faults) }
    ensures any_moment { LeavesOnly (state_of D.state part.old) (state_of D.state part.new)
        (IsImageOf (state_of D.state part.old).values) }
{
    part.sync(token)?;
    let mut blocks = [[0; 512]; 2];
    part.read(token, 0, &mut blocks)?;
    Ok(blocks)
}

// The label and the view that the blocks are, or the first block that is damaged.
fn label_and_view(blocks: &[Block; 2], own: u32) -> Result<(Label, View), u32>
    ensures label { IfOk result (λ r. HasLabel blocks.now r.0.id (shape_of r.0)) }
    ensures view { IfOk result (λ r. HasView blocks.now r.1) }
    ensures others { IfOk result (λ r. Contains r.1 own → ⊥) }
    ensures damaged { IfErr result (IsFirstFault own blocks.now) }
{
    let Some(label) = read_label(&blocks[0]) else {
        return Err(0);
    };
    match read_view(&blocks[1]) {
        Some(view) if !view.ids().contains(&own) => Ok((label, view)),
        _ => Err(1),
    }
}

/// Reads label and view of the volume `own`, after a sync. It changes no image.
///
/// `Damaged` comes exactly where block 0 is no label, or block 1 is no view or names `own`, and no call of the part
/// failed. `Failed` is the part's, and comes before `Damaged`.
pub fn load<D: Disk>(
    token: &Awake,
    part: &mut Spun<D>,
    own: u32,
) -> Result<(Label, View), ViewFault>
    requires volume { token_volume token.now ≡ volume_of part.old }
    requires size { (state_of D.state part.old).size ≡ 2 }
    ensures label { (vs : List (Values Block)) → (state_of D.state part.old).values ≡ Some vs
        → IfOk result (λ r. HasLabel (reads vs) r.0.id (shape_of r.0)) }
    ensures view { (vs : List (Values Block)) → (state_of D.state part.old).values ≡ Some vs
        → IfOk result (λ r. HasView (reads vs) r.1) }
    ensures damaged { (vs : List (Values Block)) (block : ℕ)
        → (state_of D.state part.old).values ≡ Some vs
        → IsErrOf result (fault.Damaged block) → IsFirstFault own (reads vs) block }
    // also where the part doesn't tell its content
    ensures shape { IfOk result (λ r. IsShape (shape_of r.0)) }
    ensures others { IfOk result (λ r. Contains r.1 own → ⊥) }
    ensures block { (block : ℕ) → IsErrOf result (fault.Damaged block) → block < 2 }
    // what the part holds stays
    ensures settled { OnOk result ((state_of D.state part.new).values
        ≡ option_map settled (state_of D.state part.old).values) }
    ensures settled_damaged { (block : ℕ) → IsErrOf result (fault.Damaged block)
        → (state_of D.state part.new).values
        ≡ option_map settled (state_of D.state part.old).values }
    ensures values { ((state_of D.state part.new).values ≡ (state_of D.state part.old).values)
        ⊎ ((state_of D.state part.new).values
        ≡ option_map settled (state_of D.state part.old).values) }
    ensures any_moment { LeavesOnly (state_of D.state part.old) (state_of D.state part.new)
        (IsImageOf (state_of D.state part.old).values) }
    ensures size { (state_of D.state part.new).size ≡ (state_of D.state part.old).size }
    ensures volume { volume_of part.new ≡ volume_of part.old }
    ensures cause { IsErrOf result fault.Failed
        → Rose (state_of D.state part.old).faults (state_of D.state part.new).faults }
    ensures calm { OnOk result
        ((state_of D.state part.new).faults ≡ (state_of D.state part.old).faults) }
    ensures quiet { (block : ℕ) → IsErrOf result (fault.Damaged block)
        → (state_of D.state part.new).faults ≡ (state_of D.state part.old).faults }
{
    let blocks = read_blocks(token, part)?;
    match label_and_view(&blocks, own) {
        Ok(found) => Ok(found),
        Err(block) => Err(ViewFault::Damaged { block }),
    }
}
