// The requests of a window, each for the desk of its volume.
ghost use Rattle.std.specs.Prelude.{◌<◌, [], ℕ, length, slice_index_or, OnOk};
ghost use Rattle.window_desks.specs.Floors.{AreSameButRoom, IsSameButRoom};
ghost use Rattle.window_desks.specs.Handed.{IsHanded, HasTaken, AreHandedOut};
ghost use Rattle.window_desks.specs.Requests.{AreOfVolumes};
ghost use Rattle.window_desks.specs.declared.desk.Desk.{Desk};

use crate::desk::Desk;
use request_turns::Tally;
use trace_windows::Request;
use wol_disk::{Disk, NoMemory};

impl<D: Disk> Desk<D> {
    // Lets go the requests of the window before, with what it counted and what was refused.
    fn begin(&mut self)
        ensures { IsHanded [] self.old self.new }
    {
        self.requests.clear();
        self.tally = Tally::new();
        self.fault = None;
    }

    // Takes one request more, with room for its outcome.
    fn take(&mut self, request: Request) -> Result<(), NoMemory>
        ensures same { IsSameButRoom self.old self.new }
        ensures taken { OnOk result (HasTaken request self.old self.new) }
    {
        self.requests.push(request)?;
        self.outcomes.reserve(self.requests.len())?;
        Ok(())
    }
}

fn begin_all<D: Disk>(desks: &mut [Desk<D>])
    ensures { (k : ℕ) (d : Desk _) → k < length desks.old
        → IsHanded [] (slice_index_or desks.old k d) (slice_index_or desks.new k d) }
{
    for k in 0..desks.len() {
        desks[k].begin();
    }
}

/// Hands each desk the requests of its volume, in their order, with room for their outcomes, and begins to count.
/// After `NoMemory` some desks have requests of this window and others don't: none is to be served before the next call.
pub fn hand_out<D: Disk>(desks: &mut [Desk<D>], requests: &[Request]) -> Result<(), NoMemory>
    requires volumes { AreOfVolumes (length desks.old) requests.now }
    ensures same { AreSameButRoom desks.old desks.new }
    ensures handed { OnOk result (AreHandedOut requests.now desks.old desks.new) }
{
    begin_all(desks);
    for request in requests {
        let place = request.volume as usize;
        desks[place].take(*request)?;
    }
    Ok(())
}
