// Not all volumes are open.
ghost use Rattle.rack.specs.NotOpened.{first_closed};
ghost use Rattle.std.specs.Prelude.{◌≡◌, ◌≤◌, ◌^◌, length};

use crate::{VolumeFault, trouble_of};
use report::Fault;

/// What is told of the first volume, in order, that isn't open. The faults are those of a rack, one for each volume.
pub fn first_closed(faults: &[Option<VolumeFault>]) -> Option<Fault>
    requires few { length faults.now ≤ 2 ^ 32 }
    ensures { result ≡ first_closed 0 faults.now }
{
    for (volume, fault) in faults.iter().enumerate() {
        if let Some(fault) = fault {
            return Some(Fault::Volume {
                volume: volume as u32,
                trouble: trouble_of(*fault),
            });
        }
    }
    None
}
