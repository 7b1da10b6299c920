// A bay as its callers see it.
ghost use Rattle.std.specs.Prelude.{◌≡◌, ◌≢◌, ◌≤◌, ◌<◌, ◌*◌, ◌⊎◌, [], length, sum, option_map, option_and_then, IfOk, IfErr, IfSome, OnOk, OnErr, IsErrOf, None};
ghost use Rattle.wol_bay.specs.Bay.{BayState, AreNamedApart, IsHome, IsOut, at_name, sent_out, came_back};
ghost use Rattle.wol_bay.specs.Parts.{AreBlank, AreCut, blocks_of, sizes_of, faulty_places};
ghost use Rattle.wol_bay.specs.Refusals.{blocks_at, refusal, IsAnswered};
ghost use Rattle.wol_disk.specs.Disk.{Rose};

use crate::fault::BayFault;
use wol_disk::Disk;

/// Images by name.
///
/// An image goes out cut into parts, which are disks, and comes back as those parts. While its name is out it can't
/// go out again. A bay has a count of faults that never falls: its own, and one for each image that came back with
/// a fault.
pub trait Bay {
    type Part: Disk;

    /// What it tells of its images and names, and its count of faults.
    ghost state: { Self → BayState };

    /// No two images that it tells have one name.
    ghost apart: { (b : Self) → IfSome (state b).told (λ t. AreNamedApart t) };

    /// Makes the image anew and hands it out: parts of so many blocks in this order, all zero in every image. It
    /// answers only `Failed` or `NoMemory`.
    fn create(&mut self, name: &str, sizes: &[u64]) -> Result<Vec<Self::Part>, BayFault>
        requires { IsHome name.now (state self.old) }
        ensures parts { IfOk result
            (λ parts. AreBlank Self.Part.state (state self.old).told sizes.now parts.items) }
        ensures ok { OnOk result ((state self.new).told
            ≡ option_map (sent_out name.now sizes.now) (state self.old).told) }
        ensures err { OnErr result ((state self.new).told ≡ (state self.old).told) }
        ensures faults { IfErr result (λ e. (e ≡ BayFault.Failed) ⊎ (e ≡ BayFault.NoMemory)) }
        ensures cause { IsErrOf result BayFault.Failed
            → Rose (state self.old).faults (state self.new).faults }
        ensures calm { (IsErrOf result BayFault.Failed → ⊥)
            → (state self.new).faults ≡ (state self.old).faults }
        ensures counts { (state self.old).faults ≤ (state self.new).faults };

    /// Hands the image out, cut into parts of so many blocks in this order, each with a count of 0. `Absent` comes
    /// exactly where no image has that name, and `WrongLength` exactly where its length in bytes isn't 512 times the
    /// number of all their blocks. After a refusal the image is as it was.
    fn attach(&mut self, name: &str, sizes: &[u64]) -> Result<Vec<Self::Part>, BayFault>
        requires { IsHome name.now (state self.old) }
        ensures parts { IfOk result (λ parts.
            AreCut Self.Part.state (blocks_at name.now (state self.old).told) sizes.now
            parts.items) }
        ensures ok { OnOk result ((state self.new).told
            ≡ option_map (sent_out name.now sizes.now) (state self.old).told) }
        ensures err { OnErr result ((state self.new).told ≡ (state self.old).told) }
        ensures refused { IfSome (state self.old).told
            (λ t. IsAnswered (refusal name.now sizes.now t) result) }
        ensures cause { IsErrOf result BayFault.Failed
            → Rose (state self.old).faults (state self.new).faults }
        ensures calm { (IsErrOf result BayFault.Failed → ⊥)
            → (state self.new).faults ≡ (state self.old).faults }
        ensures counts { (state self.old).faults ≤ (state self.new).faults };

    /// Takes the parts back. It can't be refused, and takes no memory. The bay's count rises exactly where a part's
    /// count isn't 0.
    fn detach(&mut self, name: &str, parts: Vec<Self::Part>)
        requires { IsOut name.now (sizes_of Self.Part.state parts.items) (state self.old) }
        ensures back { (state self.new).told
            ≡ option_map (came_back name.now (blocks_of Self.Part.state parts.items)
            (faulty_places Self.Part.state parts.items)) (state self.old).told }
        ensures cause { faulty_places Self.Part.state parts.items ≢ []
            → Rose (state self.old).faults (state self.new).faults }
        ensures calm { faulty_places Self.Part.state parts.items ≡ []
            → (state self.new).faults ≡ (state self.old).faults }
        ensures counts { (state self.old).faults ≤ (state self.new).faults };
}
