// A rack is closed.
ghost use Rattle.rack.specs.Closes.{IsClosedSpindle, AreClosedVolumes, IsQuiet, AreLeftOfParts, HasFaultIn, ListsFaulty, LeavesOpen, LeavesUnopened, LeavesVolumes};
ghost use Rattle.rack.specs.Opens.{BeganWith, WereThere, KeepsOthers, KeepsAllSound};
ghost use Rattle.rack.specs.Owners.{HadRefused};
ghost use Rattle.rack.specs.RackRuns.{BeganIn, RunsRack};
ghost use Rattle.rack_parts.specs.Closing.{LeavesNoneOut};
ghost use Rattle.rack_parts.specs.Racks.{IsClosable};
ghost use Rattle.spin_model.specs.Spindles.{SpindleView};
ghost use Rattle.std.specs.Prelude.{◌≡◌, ◌<◌, ◌≤◌, ℕ, length, Some, All, IsTrue, slice_get};
ghost use Rattle.volume_images.specs.Left.{IsTold};
ghost use Rattle.volume_images.specs.Volumes.{shapes_of};
ghost use Rattle.wol_bay.specs.Bay.{BayState, Told, outs};
ghost use Rattle.wol_config.specs.Configs.{IsValid};
ghost use Rattle.wol_disk.specs.Disk.{Rose};

use logger::Shared;
use rack_parts::{ClosedSpindle, Rack, Rest, end_passes, give_back};
use wol_bay::Bay;
use wol_config::Config;

/// Closes a rack that `open_all` opened over this bay with this configuration. Each part goes back to its image, and each image
/// that is out to the bay. The spindles come in order. It takes no memory.
pub fn close_all<B: Bay>(rack: Rack<B::Part>, bay: &mut B, config: &Config) -> Vec<ClosedSpindle>
    requires config { IsValid config.now }
    requires rack { IsClosable B.Part.state config.now (B.state bay.old) rack }
    ensures home { LeavesNoneOut config.now rack.rest.images.items (outs (B.state bay.old))
        (outs (B.state bay.new)) }
    ensures count { length result.items ≡ length (shapes_of config.now) }
    ensures spindles { (k : ℕ) (s : SpindleView) → slice_get result.items k ≡ Some s
        → IsClosedSpindle rack k s }
    // and the pools that they shared, whose entries are those of the volumes' passes
    ensures stations { AreClosedVolumes B.Part.tells config.now (B.state bay.old) (B.state bay.new)
        rack }
    ensures parts { IsTrue B.Part.tells
        → IsTold (λ old new. AreLeftOfParts B.Part.state config.now rack new) (B.state bay.old).told
        (B.state bay.new).told }
    // since the rack was opened, where nothing was written
    ensures left { (entry : Told) → IsTrue B.Part.tells
        → BeganWith B.Part.state config.now entry rack → All (λ s. IsQuiet s) rack.stations.items
        → IsTold (λ old new. LeavesOpen config.now rack entry new) (B.state bay.old).told
        (B.state bay.new).told }
    // and of all volumes, where images that aren't out were as they are now
    ensures volumes { (entry : Told) → IsTrue B.Part.tells
        → BeganWith B.Part.state config.now entry rack
        → WereThere config.now rack.rest.images.items entry
        → All (λ s. IsQuiet s) rack.stations.items
        → IsTold (λ old new. HadRefused config.now rack.rest.images.items entry old
        → LeavesVolumes config.now rack entry new) (B.state bay.old).told (B.state bay.new).told }
    // of those that weren't opened, and of their logs, whatever was written to others, and also where a call of a disk failed
    ensures unopened { (entry : Told) → IsTrue B.Part.tells
        → BeganWith B.Part.state config.now entry rack
        → WereThere config.now rack.rest.images.items entry
        → IsTold (λ old new. HadRefused config.now rack.rest.images.items entry old
        → LeavesUnopened config.now rack entry new) (B.state bay.old).told
        (B.state bay.new).told }
    // since then, whatever was written, and also where a call of a disk failed
    ensures sound { (entry : Told) → IsTrue B.Part.tells
        → BeganWith B.Part.state config.now entry rack
        → WereThere config.now rack.rest.images.items entry
        → IsTold (λ old new. HadRefused config.now rack.rest.images.items entry old
        → KeepsAllSound config.now entry new) (B.state bay.old).told (B.state bay.new).told }
    // images that aren't out stay as they were
    ensures kept { IsTrue B.Part.tells → IsTold (HadRefused config.now rack.rest.images.items)
        (B.state bay.old).told (B.state bay.new).told }
    ensures others { IsTold (KeepsOthers config.now) (B.state bay.old).told (B.state bay.new).told }
    // the parts that came back with a fault are listed
    ensures faulty { IsTold (ListsFaulty B.Part.state config.now rack.rest) (B.state bay.old).told
        (B.state bay.new).told }
    // the run of the bay since it was as the rack was opened of it
    ensures run { (first : BayState)
        → BeganIn B.Part.tells B.Part.state config.now first (B.state bay.old) rack
        → RunsRack B.Part.tells config.now first (B.state bay.new) rack }
    ensures counts { (B.state bay.old).faults ≤ (B.state bay.new).faults }
    ensures cause { HasFaultIn B.Part.state rack.rest
        → Rose (B.state bay.old).faults (B.state bay.new).faults }
{
    let Rack {
        shared,
        keepers,
        stations,
        faults: _,
        mut rest,
    } = rack;
    let Shared { pools, spindles } = shared;
    rest.close_stations(stations);
    rest.close_pools(pools);
    rest.close_spindles(spindles, keepers);
    let Rest {
        images,
        passes,
        rooms,
    } = rest;
    end_passes(passes);
    give_back(bay, config, images);
    let mut closed = rooms.closed;
    closed.reverse();
    closed
}
