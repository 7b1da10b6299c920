// An image is opened, in one use of its spindle.
ghost use Rattle.log_layout.specs.Values.{shape_of};
ghost use Rattle.spin_model.specs.Operations.{has_token, operation_of};
ghost use Rattle.std.specs.Prelude.{◌≡◌, ◌⊎◌, ◌≤◌, ◌∷◌, ◌++◌, [], false, ℕ, option_map, IfOk, IfErr, OnOk, OnErr, IfSome, IsErrOf};
ghost use Rattle.turn_lock.specs.Passes.{pass_lock, pass_number, pass_mine, IsPassOf, IsFree, IsSamePass};
ghost use Rattle.volume_images.specs.Formatted.{part_sizes};
ghost use Rattle.volume_images.specs.Left.{IsTold};
ghost use Rattle.volume_images.specs.Refusals.{IsCutOpenable, SaysSo, Refuses, IsCallFault, refusal_of_bay};
ghost use Rattle.volume_images.specs.declared.reading.ImageFault.{ImageFault};
ghost use Rattle.wol_bay.specs.Bay.{IsHome, outs, sent_out};
ghost use Rattle.wol_bay.specs.Refusals.{blocks_at};
ghost use Rattle.wol_disk.specs.Disk.{Rose};
ghost use Rattle.wol_model.specs.Heads.{IsShape};
ghost use Rattle.wol_model.specs.Journal.{Needed, Done};

use crate::attach::{OutImage, read_out, send_out};
use crate::reading::ImageFault;
use log_layout::Label;
use spin_model::{Spindle, give_token, take_token};
use std::alloc::Global;
use std::sync::Wait;
use turn_lock::{Pass, TurnLock};
use wol_bay::{Bay, BayFault};

/// Why an image wasn't opened. It is in the bay as it was.
#[derive(Clone, Copy, Debug, PartialEq, Eq)]
pub enum ImageRefusal {
    /// There is no image of that name.
    Absent,
    /// The image has another length than the configured one: so many bytes.
    WrongLength { bytes: u64 },
    /// The bay failed.
    BayFailed,
    /// It may not be opened, or couldn't be read.
    Fault(ImageFault),
    /// There was no memory.
    NoMemory,
}

/// Takes the image with the sizes of the label `want` out of the bay and reads what it says, in turns of its spindle's
/// lock. `volumes` is how many volumes are configured. Where it is refused it is in the bay as it was.
pub fn open_image<R: Wait, B: Bay>(
    alloc: Global,
    rt: &R,
    bay: &mut B,
    name: &str,
    want: &Label,
    volumes: u32,
    lock: &TurnLock<Spindle>,
    pass: &mut Pass<Spindle>,
) -> Result<OutImage<B::Part>, ImageRefusal>
    requires shape { IsShape (shape_of want.now) }
    requires home { IsHome name.now (B.state bay.old) }
    requires own { IsPassOf lock.now pass.old }
    requires free { IsFree pass.old }
    requires settled { has_token (pass_mine pass.old) ≡ false }
    requires volume { (pass_lock pass.old).base.volume ≡ want.now.id }
    ensures out { IfOk result (IsCutOpenable B.Part.state volumes want.now.id (shape_of want.now)
        (blocks_at name.now (B.state bay.old).told)) }
    ensures ok { OnOk result ((B.state bay.new).told
        ≡ option_map (sent_out name.now (part_sizes (shape_of want.now)))
        (B.state bay.old).told) }
    ensures says { IfOk result (λ o.
        IfSome (B.state bay.old).told
        (SaysSo volumes want.now.id (shape_of want.now) name.now o)) }
    ensures home { OnErr result (outs (B.state bay.new) ≡ outs (B.state bay.old)) }
    ensures refused { IfErr result (λ r.
        IsTold (Refuses volumes want.now.id (shape_of want.now) name.now r)
        (B.state bay.old).told (B.state bay.new).told) }
    ensures cause { IsErrOf result ImageRefusal.BayFailed
        → Rose (B.state bay.old).faults (B.state bay.new).faults }
    ensures part_cause { (f : ImageFault) → IsErrOf result (ImageRefusal.Fault f) → IsCallFault f
        → Rose (B.state bay.old).faults (B.state bay.new).faults }
    ensures counts { (B.state bay.old).faults ≤ (B.state bay.new).faults }
    ensures same { IsSamePass pass.old pass.new }
    // it made no turn, or two
    ensures uses { (pass_mine pass.new ≡ pass_mine pass.old)
        ⊎ (pass_mine pass.new ≡ pass_mine pass.old
        ++ (pass_number pass.old, operation_of Needed)
        ∷ (pass_number pass.old, operation_of Done) ∷ []) }
    ensures free { IsFree pass.new }
    ensures settled { has_token (pass_mine pass.new) ≡ false }
{
    let Ok(heads) = Vec::with_capacity(alloc, want.segments as usize) else {
        return Err(ImageRefusal::NoMemory);
    };
    let out = match send_out(alloc, bay, name, want) {
        Ok(out) => out,
        Err(fault) => return Err(refusal_of_bay(fault)),
    };
    let token = take_token(rt, lock, pass);
    let read = read_out(&token, bay, name, want, volumes, out, heads);
    give_token(rt, lock, pass, token);
    match read {
        Ok(image) => Ok(image),
        Err(fault) => Err(ImageRefusal::Fault(fault)),
    }
}

fn refusal_of_bay(fault: BayFault) -> ImageRefusal
    ensures { result ≡ refusal_of_bay fault }
{
    match fault {
        BayFault::Absent => ImageRefusal::Absent,
        BayFault::WrongLength { bytes } => ImageRefusal::WrongLength { bytes },
        BayFault::Failed => ImageRefusal::BayFailed,
        BayFault::NoMemory => ImageRefusal::NoMemory,
    }
}
