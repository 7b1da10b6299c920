// The digest of a volume's array, which is read piece by piece.
ghost use Rattle.inspection.specs.Faults.{was_told};
ghost use Rattle.wol_disk.specs.Disk.{bytes_of};
ghost use Rattle.inspection.specs.Volumes.{array_of};
ghost use Rattle.manager.specs.Causes.{NoneRose, PartRose};
ghost use Rattle.manager.specs.Reading.{HasOnlyRead};
ghost use Rattle.manager.specs.Stands.{Keeps, IsReady, IsHome, Leaves};
ghost use Rattle.manager.specs.declared.base.ManagerBase.{ManagerBase};
ghost use Rattle.manager.specs.declared.part.Part.{Part};
ghost use Rattle.sha2.specs.Hashers.{Holds256};
ghost use Rattle.sha2.specs.Sha256.{sha256};
ghost use Rattle.spin_model.specs.Spun.{state_of};
ghost use Rattle.std.specs.Prelude.{◌≡◌, ◌++◌, ◌≤◌, ℕ, List, [], length, IfOk, OnOk, OnErr, IfErr, IsTrue, None, Some};
ghost use Rattle.wol_model.specs.History.{worker};
ghost use Rattle.wol_promise.specs.Ruled.{Noted};

use crate::fault::DumpFault;
use logger::Shared;
use manager::Manager;
use sha2::{Digest, Sha256};
use std::alloc::Global;
use std::sync::Wait;
use wol_disk::{Block, Disk};

/// The SHA-256 of a volume's array, of so many blocks. At most `most` of them are held at a time.
pub(crate) fn digest_of<D: Disk, R: Wait>(
    rt: &R,
    alloc: Global,
    manager: &mut Manager<D>,
    shared: &Shared<D>,
    blocks: u64,
    most: u32,
) -> Result<[u8; 32], DumpFault>
    requires ready { IsReady D.state manager.old }
    requires at { IsHome shared.now manager.old }
    requires up { manager.old.down ≡ None }
    requires blocks { blocks ≡ (state_of D.state manager.old.home).size }
    requires most { most ≡ manager.old.most }
    ensures ready { IsReady D.state manager.new }
    ensures at { IsHome shared.now manager.new }
    ensures read { HasOnlyRead D.state manager.old manager.new }
    ensures stands { Leaves D.tells D.state manager.old manager.new (was_told result) [] worker }
    ensures up { OnOk result (manager.new.down ≡ None) }
    ensures size { IfOk result (λ digest. length digest ≡ 32) }
    ensures calm { OnOk result (NoneRose D.state manager.old manager.new) }
    ensures content { IsTrue D.tells → (b : ManagerBase) (notes : List Noted)
        → Keeps D.tells D.state manager.old b notes
        → IfOk result (λ digest. digest ≡ sha256 (bytes_of (array_of b notes))) }
    ensures cause { (p : Part) → result ≡ Err (DumpFault.DiskFault p)
        → (manager.new.down ≡ Some p) × PartRose D.state manager.old manager.new p }
    ensures up_still { (p : Part) → ¬ (result ≡ Err (DumpFault.Down p)) }
{
    let mut piece = room_for(alloc, most)?;
    let mut hasher = Sha256::new();
    let mut at = 0;
    'reading: while at < blocks {
        let count = (blocks - at).min(u64::from(most)) as usize;
        let part = &mut piece[..count];
        manager.read(rt, shared, at, part)?;
        feed(&mut hasher, part);
        at += count as u64;
    }
    Ok(hasher.finalize())
}

// Room for so many blocks.
fn room_for(alloc: Global, blocks: u32) -> Result<Vec<Block>, DumpFault>
    ensures size { IfOk result (λ piece. length piece.items ≡ blocks) }
    ensures err { IfErr result (λ e. e ≡ DumpFault.NoMemory) }
{
    let Ok(piece) = vec![in alloc; [0u8; 512]; blocks as usize] else {
        return Err(DumpFault::NoMemory);
    };
    Ok(piece)
}

// Adds the bytes of blocks to what a hasher has.
fn feed(hasher: &mut Sha256, blocks: &[Block])
    ensures { (message : List ℕ) → Holds256 hasher.old message
        → Holds256 hasher.new (message ++ bytes_of blocks.now) }
{
    for block in blocks {
        hasher.update(block.as_slice());
    }
}
