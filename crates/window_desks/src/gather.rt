// The outcomes of all desks, in the order of the requests.
ghost use Rattle.std.specs.Prelude.{◌≡◌, ◌≤◌, ◌<◌, ◌∷◌, [], ◌++◌, ℕ, All, length, vec_len, vec_capacity, slice_index_or};
ghost use Rattle.window_desks.specs.Collects.{IsSameDesk, IsCollected, HoldsOutcomes};
ghost use Rattle.window_desks.specs.Requests.{AreOfVolumes};
ghost use Rattle.window_desks.specs.declared.desk.Desk.{Desk};

use crate::desk::Desk;
use request_turns::Outcome;
use trace_windows::Request;
use wol_disk::Disk;

impl<D: Disk> Desk<D> {
    // Takes its last outcome.
    fn take_last(&mut self) -> Outcome
        requires some { 0 < vec_len self.old.outcomes }
        ensures outcomes { self.old.outcomes.items ≡ self.new.outcomes.items ++ result ∷ [] }
        ensures same { IsSameDesk self.old self.new }
    {
        self.outcomes.pop().unwrap()
    }
}

/// Moves the outcomes of all desks into `out`, in the order of the requests. It takes no memory.
pub fn collect<D: Disk>(desks: &mut [Desk<D>], requests: &[Request], out: &mut Vec<Outcome>)
    requires volumes { AreOfVolumes (length desks.old) requests.now }
    requires each { (k : ℕ) (d : Desk _) → k < length desks.old
        → HoldsOutcomes requests.now k (slice_index_or desks.old k d) }
    requires empty { out.old.items ≡ [] }
    requires room { length requests.now ≤ vec_capacity out.old }
    ensures len { length out.new.items ≡ length requests.now }
    ensures each { (k : ℕ) (d : Desk _) → k < length desks.old
        → IsCollected requests.now out.new.items k (slice_index_or desks.old k d)
        (slice_index_or desks.new k d) }
{
    let mut left = requests.len();
    while 0 < left {
        left -= 1;
        let place = requests[left].volume as usize;
        out.push_reserved(desks[place].take_last());
    }
    out.as_mut_slice().reverse();
}
