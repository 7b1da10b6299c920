// Whether a segment goes with all its records in place of its first one.
ghost use Rattle.garbage_list.specs.Least.{HasLane};
ghost use Rattle.manager.specs.Reclaim.{AllGoIn};
ghost use Rattle.manager.specs.Stands.{IsReady, entries_at};
ghost use Rattle.reclaimer.specs.Groups.{lanes_of};
ghost use Rattle.reclaimer.specs.Wholes.{ComeFirst};
ghost use Rattle.redirect_map.specs.Index.{entry_at, IsAnswer, IsIndex};
ghost use Rattle.std.specs.List.{AllByRecursion};
ghost use Rattle.std.specs.Prelude.{◌≡◌, ◌==◌, ◌&&◌, true, ℕ, None, Some, IfSome};
ghost use Rattle.wol_model.specs.Index.{listed_in, cover_of, goes};

use garbage_list::may_go;
use manager::Manager;
use redirect_map::{Index, Rec};
use wol_disk::Disk;

/// A view has at most so many loggers, all of which a drain counts as awake.
const ALL: [bool; 16] = [true; 16];

/// The position of a segment's first record.
const FIRST: u32 = 1;

/// So many records out of reach are passed over at most.
const PASSED: u64 = 64;

// Whether all that this record keeps may go.
fn goes_all(index: &Index, record: &Rec) -> bool
    requires index { IsIndex index.now.entries }
    requires there { IsAnswer (entry_at index.now.entries record.now.version) (Some record.now) }
    ensures { result ≡ true → IfSome (entry_at index.now.entries record.now.version)
        (λ e. (b : ℕ) → (cover_of e.listed).covers b ≡ true
        → goes (listed_in index.now.entries) e.listed b ≡ true) }
{
    record.keep & !may_go(index, record.version) == 0
}

// Whether two records lie in one segment.
fn lie_together(a: &Rec, b: &Rec) -> bool
    ensures { result ≡ (a.now.lane == b.now.lane && a.now.segment == b.now.segment) }
{
    a.lane == b.lane && a.segment == b.segment
}

// Whether the records of this one's segment, of which there are so many, are the first ones on awake lanes, and all that they
// keep may go.
fn comes_first(index: &Index, lanes: &[bool], first: &Rec, count: u32) -> bool
    requires lanes { AllByRecursion (HasLane lanes.now) index.now.entries }
    requires count { entries_at first.now.lane first.now.segment index.now.entries ≡ count }
    ensures go { result ≡ true → AllGoIn first.now.lane first.now.segment index.now.entries }
    ensures first { result ≡ true
        → ComeFirst lanes.now first.now.lane first.now.segment index.now.entries }
{
    let most = u64::from(count) + PASSED;
    let mut left = count;
    for place in 0..index.len() {
        if left == 0 {
            return true;
        }
        if place >= most {
            return false;
        }
        let record = index.at(place);
        if lie_together(&record, first) {
            if !goes_all(index, &record) {
                return false;
            }
            left -= 1;
        } else if lanes[record.lane as usize] {
            return false;
        }
    }
    true
}

/// Whether the segment of this record may go whole in its place: its records are the first ones within reach, and all that they
/// keep may go. It is looked at once, at its first record, and no further than to few records behind the first ones: else each
/// record that goes by itself would cost a walk over many.
pub(crate) fn goes_whole<D: Disk>(m: &Manager<D>, any: bool, first: &Rec) -> bool
    requires ready { IsReady D.state m.now }
    requires up { m.now.down ≡ None }
    requires there { IsAnswer (entry_at m.now.index.entries first.now.version) (Some first.now) }
    ensures go { result ≡ true → AllGoIn first.now.lane first.now.segment m.now.index.entries }
    ensures first { result ≡ true → ComeFirst (lanes_of any m.now) first.now.lane
        first.now.segment m.now.index.entries }
{
    if first.pos != FIRST {
        return false;
    }
    let count = m.records_beside(first.version);
    if any {
        comes_first(m.index(), &ALL, first, count)
    } else {
        comes_first(m.index(), m.ups(), first, count)
    }
}
