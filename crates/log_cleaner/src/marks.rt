// Which segments may have live blocks, by one look at the records that are due.
ghost use Rattle.log_cleaner.specs.Chunks.{NoneHomed};
ghost use Rattle.log_cleaner.specs.Marks.{mark_of, AreMarked};
ghost use Rattle.redirect_map.specs.Index.{entry_at, IsIndex};
ghost use Rattle.std.specs.List.{AllByRecursion};
ghost use Rattle.std.specs.Prelude.{◌≡◌, ◌<◌, ℕ, true, false, slice_index_or, IfSome};
ghost use Rattle.wol_model.specs.Index.{listed_in};

use redirect_map::Index;

/// How many marks there are. Segments may share one.
pub(crate) const MARKS: usize = 4096;

/// Versions lie below this.
const END: u64 = 1 << 63;

// Which mark a segment has.
fn mark_of(lane: u32, segment: u32) -> usize
    ensures mark { result ≡ mark_of lane segment }
    ensures within { result < 4096 }
{
    (segment as usize + 257 * lane as usize) % MARKS
}

// Marks the segment of this version's record, if there is one.
fn mark(index: &Index, version: u64, marks: &mut [bool; MARKS])
    ensures kept { (k : ℕ) → slice_index_or marks.old k false ≡ true
        → slice_index_or marks.new k false ≡ true }
    ensures marked { IfSome (entry_at index.now.entries version)
        (λ e. slice_index_or marks.new (mark_of e.listed.lane e.index) false ≡ true) }
    ensures index { IsIndex index.now.entries }
{
    if let Some(record) = index.find(version) {
        marks[mark_of(record.lane, record.segment)] = true;
    }
}

// Sets all marks.
fn set_all(marks: &mut [bool; MARKS])
    ensures { (k : ℕ) → k < 4096 → slice_index_or marks.new k false ≡ true }
{
    for place in 0..MARKS {
        marks[place] = true;
    }
}

/// Marks each segment in which a record has a live block. No block is home too, so live blocks are due, and their records
/// are among those that are marked in the index.
pub(crate) fn marks_of(index: &Index, ups: &[bool]) -> [bool; MARKS]
    requires unhomed { NoneHomed (listed_in index.now.entries) }
    requires awake { AllByRecursion (λ e. slice_index_or ups.now e.listed.lane false ≡ true)
        index.now.entries }
    ensures { AreMarked result index.now.entries }
{
    let mut marks = [false; MARKS];
    let mut from = 0;
    'records: loop {
        let Some(version) = index.first_due(from, ups) else {
            return marks;
        };
        if version >= END {
            set_all(&mut marks);
            return marks;
        }
        mark(index, version, &mut marks);
        from = version + 1;
    }
}

/// Whether a segment is marked.
pub(crate) fn is_marked(marks: &[bool; MARKS], lane: u32, segment: u32) -> bool
    ensures { result ≡ slice_index_or marks.now (mark_of lane segment) false }
{
    marks[mark_of(lane, segment)]
}
