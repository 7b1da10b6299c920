// Writes of one block, and reads as a disk tells them.
ghost use Rattle.log_segment.specs.Kept.{KeepsPart};
ghost use Rattle.spin_model.specs.Spun.{volume_of, state_of, token_volume};
ghost use Rattle.std.specs.Prelude.{◌≡◌, ◌⊎◌, ◌+◌, ◌≤◌, [], ◌∷◌, List, Some, option_map, OnOk};
ghost use Rattle.wol_disk.specs.Disk.{Block, only, put, reads, LeavesOnly, IsImageOf};

use spin_model::{Awake, Spun};
use wol_disk::{Block, Disk, Failed};

/// Writes one block and syncs. At every moment the block is there or it isn't.
pub fn store_block<D: Disk>(
    part: &mut Spun<D>,
    token: &Awake,
    at: u64,
    block: &Block,
) -> Result<(), Failed>
    requires volume { token_volume token.now ≡ volume_of part.old }
    requires fits { at + 1 ≤ (state_of D.state part.old).size }
    ensures ok { (bs : List Block) → (state_of D.state part.old).values ≡ Some (only bs)
        → OnOk result
        ((state_of D.state part.new).values ≡ Some (only (put at (block.now ∷ []) bs))) }
    ensures any_moment { (bs : List Block) → (state_of D.state part.old).values ≡ Some (only bs)
        → LeavesOnly (state_of D.state part.old) (state_of D.state part.new)
        (λ c. (c ≡ bs) ⊎ (c ≡ put at (block.now ∷ []) bs)) }
    // the same whatever the disk's images are: each comes of one at the call's start
    ensures settles { OnOk result ((state_of D.state part.new).values
        ≡ option_map (λ vs. only (put at (block.now ∷ []) (reads vs)))
        (state_of D.state part.old).values) }
    ensures from_images { LeavesOnly (state_of D.state part.old) (state_of D.state part.new)
        (λ c. (d : List Block) × IsImageOf (state_of D.state part.old).values d
        × ((c ≡ d) ⊎ (c ≡ put at (block.now ∷ []) d))) }
    ensures leaves { KeepsPart D.state part.old part.new result }
{
    part.write(token, at, &[*block])?;
    part.sync(token)
}
