// The owned segments come into the hands of their lanes.
ghost use Rattle.manager_recovery.specs.Opening.{CanOpen};
ghost use Rattle.manager_recovery.specs.Refused.{IsNamesAnswer};
ghost use Rattle.manager_recovery.specs.Scanned.{IsScanned, AreHeld};
ghost use Rattle.std.specs.List.{AllZip};
ghost use Rattle.std.specs.Prelude.{◌≡◌, [], None};

use crate::names::place_of;
use crate::{Opening, OwnedPart};
use log_scan::{Adopted, Scan, adopt};
use logger::Shared;
use wol_disk::Disk;

/// Each lane holds the segments of its logger, in order.
pub fn hold_all<D: Disk>(shared: &Shared<D>, opening: &mut Opening<D>, scans: &[Scan])
    requires ready { CanOpen D.state shared.now opening.old }
    requires named { IsNamesAnswer opening.old None }
    requires scanned { AllZip (IsScanned D.state opening.old.want.id opening.old.want.home)
        opening.old.owned.items scans.now }
    ensures same { opening.new
        ≡ record opening.old { lanes = opening.new.lanes; owned = opening.new.owned } }
    ensures none { opening.new.owned.items ≡ [] }
    ensures held { AreHeld D.state shared.now opening.old.owned.items scans.now
        opening.old.lanes.items opening.new.lanes.items }
{
    let _ = shared;
    opening.owned.reverse();
    for scan in scans {
        let Some(
            OwnedPart {
                logger,
                index,
                first_block: _,
                part,
            },
        ) = opening.owned.pop()
        else {
            unreachable!()
        };
        let Some(place) = place_of(opening.view.ids(), logger) else {
            unreachable!()
        };
        match adopt(part, scan) {
            Adopted::Held(segment) => opening.lanes[place].hold(index, segment),
            Adopted::Free(_free) => unreachable!(),
        }
    }
}
