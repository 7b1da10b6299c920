// What a restart leaves of an image in memory.
ghost use Rattle.std.specs.Prelude.{◌≡◌, drop};
ghost use Rattle.wol_bay.specs.Stored.{stored_blocks};
ghost use Rattle.wol_disk.specs.Disk.{only};
ghost use Rattle.wol_disk.specs.Record.{chosen};

use wol_disk::{Disk, MemDisk, StopDisk};

// What is chosen for the blocks behind the first so many.
fn behind(choice: &[u32], blocks: usize) -> &[u32]
    ensures { result.now ≡ drop blocks choice.now }
{
    &choice[blocks.min(choice.len())..]
}

// Leaves one image of all parts together.
pub fn restart_parts(parts: &mut [StopDisk<MemDisk>], choice: &[u32])
    ensures { stored_blocks parts.new ≡ only (chosen choice.now (stored_blocks parts.old)) }
{
    let mut rest = choice;
    for part in parts.iter_mut() {
        part.restart(rest);
        rest = behind(rest, part.blocks() as usize);
    }
}
