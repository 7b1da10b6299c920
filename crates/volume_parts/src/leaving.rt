// A segment's records leave the index together, since all that they keep may go.
ghost use Rattle.volume_parts.specs.Changes.{AllGoIn, GoesIn, lies_elsewhere, stays_behind};
ghost use Rattle.volume_parts.specs.Entries.{entries_at};
ghost use Rattle.redirect_map.specs.Index.{entry_at, IsIndex};
ghost use Rattle.std.specs.List.{AllByRecursion};
ghost use Rattle.std.specs.Prelude.{◌≡◌, ◌+◌, ◌<◌, ◌≤◌, ◌^◌, ◌==◌, ◌&&◌, if◌then◌else◌, true, false, filter, slice_index_or, IfSome, IfNone};
ghost use Rattle.wol_model.specs.Index.{listed_in, has_going};

use redirect_map::{Index, Rec};

// Whether the record lies in the segment of this index of this lane.
fn lies_in(record: &Rec, lane: u32, segment: u32) -> bool
    ensures { result ≡ (record.now.lane == lane && record.now.segment == segment) }
{
    record.lane == lane && record.segment == segment
}

// Takes the record of this version out of the index, if it lies in this segment, where all that it keeps may go. Answers
// whether it did.
fn forget_one(index: &mut Index, version: u64, lane: u32, segment: u32) -> bool
    requires goes { IfSome (entry_at index.old.entries version)
        (GoesIn lane segment index.old.entries) }
    ensures gone { index.new.entries
        ≡ filter (stays_behind lane segment version) index.old.entries }
    ensures counted { entries_at lane segment index.old.entries
        ≡ entries_at lane segment index.new.entries + (if result then 1 else 0) }
{
    let Some(record) = index.find(version) else {
        return false;
    };
    if !lies_in(&record, lane, segment) {
        return false;
    }
    index.trim(version, record.keep);
    true
}

// The least version from `from` on whose record may have a block that goes: `from` itself where it has a record, since records
// mostly have versions one behind the other, and that is found fast.
fn next_going(index: &Index, from: u64, ups: &[bool]) -> Option<u64>
    ensures from { IfSome result (λ v. from ≤ v) }
    ensures least { IfSome result (λ v. AllByRecursion
        (λ e. from ≤ e.listed.version → e.listed.version < v
        → slice_index_or ups.now e.listed.lane false ≡ true
        → has_going (listed_in index.now.entries) e.listed ≡ false) index.now.entries) }
    ensures none { IfNone result (AllByRecursion
        (λ e. from ≤ e.listed.version → slice_index_or ups.now e.listed.lane false ≡ true
        → has_going (listed_in index.now.entries) e.listed ≡ false) index.now.entries) }
    ensures index { IsIndex index.now.entries }
{
    if index.find(from).is_some() {
        return Some(from);
    }
    index.first_going(from, ups)
}

/// Takes all records of a segment, of which there are so many, out of the index. All that they keep may go, so they are among
/// those that are marked as ones that may have blocks that go.
pub fn forget(index: &mut Index, ups: &[bool], lane: u32, segment: u32, count: u32)
    requires count { entries_at lane segment index.old.entries ≡ count }
    requires awake { slice_index_or ups.now lane false ≡ true }
    requires below { AllByRecursion (λ e. e.listed.version < 2 ^ 63) index.old.entries }
    requires go { AllGoIn lane segment index.old.entries }
    ensures { index.new.entries ≡ filter (lies_elsewhere lane segment) index.old.entries }
{
    let mut from = 0;
    let mut left = count;
    'records: while left > 0 {
        let Some(version) = next_going(index, from, ups) else {
            return;
        };
        if version >= 1 << 63 {
            return;
        }
        if forget_one(index, version, lane, segment) {
            left -= 1;
        }
        from = version + 1;
    }
}
