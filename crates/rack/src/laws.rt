// Laws of racks that are opened over one bay, one after the other.
ghost use Rattle.rack.specs.Laws.{ReadsAreLeft, OpensAgain, OpensCut, OpensAllAgain, QuietKeeps, RefusesSound};

use wol_disk::Disk;

/// What was written to a volume while it was open is there when it is opened again.
pub fn reopening_laws<D: Disk>()
    ensures reads { ReadsAreLeft }
    ensures again { OpensAgain D.tells D.state }
    ensures cut { OpensCut D.tells D.state }
    ensures all { OpensAllAgain D.tells D.state }
{}

/// Sound images show no damage, also where a call fails.
pub fn sound_images_laws<D: Disk>()
    ensures sound { RefusesSound D.tells D.state }
{}

/// Where nothing was written to an open volume, it keeps its array.
pub fn bay_run_laws()
    ensures quiet { QuietKeeps }
{}
