// The line of `check`.
ghost use Rattle.hex.specs.Hex.{encode_lower};
ghost use Rattle.inspection.specs.Faults.{was_told};
ghost use Rattle.inspection.specs.Segments.{HasDifferent, place_of};
ghost use Rattle.inspection.specs.Texts.{check_line, check_text};
ghost use Rattle.inspection.specs.Volumes.{IsVolumeOf, array_of, held_segments};
ghost use Rattle.manager.specs.Causes.{NoneRose, PartRose};
ghost use Rattle.manager.specs.Reading.{HasOnlyRead};
ghost use Rattle.manager.specs.Stands.{Keeps, IsReady, IsHome, IsSameManager, Leaves};
ghost use Rattle.manager.specs.declared.base.ManagerBase.{ManagerBase};
ghost use Rattle.manager.specs.declared.part.Part.{Part};
ghost use Rattle.report.specs.Names.{name_at};
ghost use Rattle.std.specs.Prelude.{◌≡◌, ◌↔◌, ◌++◌, ◌<◌, ℕ, List, [], length, map, IfOk, OnOk, OnErr, IsTrue, IsSome, None, Some};
ghost use Rattle.wol_config.specs.Configs.{IsValid};
ghost use Rattle.wol_config.specs.Documents.{names_of};
ghost use Rattle.wol_model.specs.History.{worker};
ghost use Rattle.wol_promise.specs.Ruled.{Noted};

use crate::digest::digest_of;
use crate::fault::DumpFault;
use crate::segments::segments_in;
use logger::Shared;
use manager::Manager;
use report::Word::{Number, Text};
use report::append_line;
use std::alloc::Global;
use std::sync::Wait;
use wol_config::Config;
use wol_disk::{Disk, NoMemory};

/// Appends the line of a volume in order: its name, the SHA-256 of its whole array in block order, how many valid records it
/// has, and how many segments are held for it. The array is read by the manager, at most so many blocks at a time as a
/// record may have. After a refusal nothing is appended. Readers see no change, except that after `DiskFault` the manager is
/// down.
pub fn check_line<D: Disk, R: Wait>(
    rt: &R,
    alloc: Global,
    manager: &mut Manager<D>,
    shared: &Shared<D>,
    config: &Config,
    volume: u32,
    out: &mut Vec<u8>,
) -> Result<(), DumpFault>
    requires ready { IsReady D.state manager.old }
    requires at { IsHome shared.now manager.old }
    requires valid { IsValid config.now }
    requires serves { IsVolumeOf D.state config.now volume manager.old }
    ensures ready { IsReady D.state manager.new }
    ensures at { IsHome shared.now manager.new }
    ensures same { IsSameManager manager.old manager.new }
    ensures stands { Leaves D.tells D.state manager.old manager.new (was_told result) [] worker }
    // A line of this volume, of a digest, of all records and of the segments in which they lie, whether or not disks tell anything.
    ensures line { OnOk result ((digest : List ℕ) × (segments : ℕ) × (length digest ≡ 32)
        × HasDifferent (map place_of manager.old.index.entries) segments
        × (out.new.items ≡ out.old.items
        ++ check_line (name_at (names_of config.now.volumes.items) volume) (encode_lower digest)
        (length manager.old.index.entries) segments)) }
    // Where the disks tell their content the array is the one that the manager stands for.
    ensures content { IsTrue D.tells → (b : ManagerBase) (notes : List Noted)
        → Keeps D.tells D.state manager.old b notes
        → OnOk result (out.new.items ≡ out.old.items
        ++ check_text (name_at (names_of config.now.volumes.items) volume) (array_of b notes)
        (length manager.old.index.entries) (held_segments manager.old)) }
    ensures err { OnErr result (out.new.items ≡ out.old.items) }
    ensures down { (p : Part) → (result ≡ Err (DumpFault.Down p)) ↔ (manager.old.down ≡ Some p) }
    ensures unchanged { IsSome manager.old.down → manager.new ≡ manager.old }
    ensures cause { (p : Part) → result ≡ Err (DumpFault.DiskFault p)
        → (manager.new.down ≡ Some p) × PartRose D.state manager.old manager.new p }
    ensures up { OnOk result (manager.new.down ≡ None) }
    ensures calm { OnOk result (NoneRose D.state manager.old manager.new) }
    ensures read { HasOnlyRead D.state manager.old manager.new }
{
    if let Some(part) = manager.down() {
        return Err(DumpFault::Down(part));
    }
    let configured = &config.volumes[volume as usize];
    let records = manager.index().len();
    let segments = segments_in(alloc, manager.index())?;
    let digest = digest_of(rt, alloc, manager, shared, configured.home, config.most())?;
    let Ok(digits) = hex::encode(alloc, digest.as_slice()) else {
        return Err(DumpFault::NoMemory);
    };
    append_check(
        configured.name.as_bytes(),
        digits.as_bytes(),
        records,
        segments,
        out,
    )?;
    Ok(())
}

// Appends the line of these values.
#[tactic(auto, unfolding(crate::specs::Texts::check_line))]
fn append_check<'a>(
    name: &'a [u8],
    digits: &'a [u8],
    records: u64,
    segments: u64,
    out: &mut Vec<u8>,
) -> Result<(), NoMemory>
    ensures ok { OnOk result
        (out.new.items ≡ out.old.items ++ check_line name.now digits.now records segments) }
    ensures err { OnErr result (out.new.items ≡ out.old.items) }
{
    append_line(
        &[
            Text(name),
            Text(b"ok sha256"),
            Text(digits),
            Text(b"records"),
            Number(records),
            Text(b"segments"),
            Number(segments),
        ],
        out,
    )
}
