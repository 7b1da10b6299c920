// The chunks of a volume's covered blocks, one after another.
ghost use Rattle.block_cells.specs.Masks.{in_mask};
ghost use Rattle.log_cleaner.specs.Chunks.{IsAhead, IsNext, AreNext, BecomesTidy, IsTidy, is_within};
ghost use Rattle.log_segment.specs.declared.item.Item.{Item};
ghost use Rattle.redirect_map.specs.Index.{IsIndex};
ghost use Rattle.std.specs.List.{AllByRecursion};
ghost use Rattle.std.specs.Prelude.{◌≡◌, ◌↔◌, ◌≤◌, ◌<◌, ◌+◌, ◌^◌, ◌∷◌, ℕ, List, true, false, IfSome, IfNone, take};
ghost use Rattle.wol_model.specs.Index.{listed_in, is_covered};

use block_cells::moved;
use log_segment::Item;
use redirect_map::{Index, Rec};

// Block numbers lie below this.
const END: u64 = 1 << 32;

/// The most chunks that are written together.
pub(crate) const TOGETHER: usize = 8;

/// The most blocks that are asked for at once.
const WIDEST: u64 = 1 << 31;

/// Once the next so many blocks are to be asked for, all that are left are asked for first.
const FAR: u64 = 1024;

// The first block from `low` to `high` on that a record covers, of which there is one.
fn first_covered(index: &Index, low: u64, high: u64) -> u64
    requires order { low ≤ high }
    requires within { high < 2 ^ 32 }
    requires there { (b : ℕ) × (low ≤ b) × (b ≤ high)
        × (is_covered (listed_in index.now.entries) b ≡ true) }
    ensures bounds { (low ≤ result) × (result ≤ high) }
    ensures bare { (b : ℕ) → low ≤ b → b < result
        → is_covered (listed_in index.now.entries) b ≡ false }
    ensures covered { is_covered (listed_in index.now.entries) result ≡ true }
{
    let mut first = low;
    let mut last = high;
    'search: while first < last {
        let middle = first + (last - first) / 2;
        if index.covered(first, (middle - first + 1) as u32) {
            last = middle;
        } else {
            first = middle + 1;
        }
    }
    first
}

// The first block from `from` on that a record covers, and `END` where there is none. It looks at ranges one behind
// the other, each twice as wide as the one before, and where nothing is near it sees first whether anything is left.
fn next_covered(index: &Index, from: u64) -> u64
    requires { from ≤ 2 ^ 32 }
    ensures bounds { (from ≤ result) × (result ≤ 2 ^ 32) }
    ensures bare { (b : ℕ) → from ≤ b → b < result
        → is_covered (listed_in index.now.entries) b ≡ false }
    ensures covered { result < 2 ^ 32 → is_covered (listed_in index.now.entries) result ≡ true }
    ensures index { IsIndex index.now.entries }
{
    if index.len() == 0 {
        return END;
    }
    let mut low = from;
    let mut width = 1;
    'widening: while low < END {
        let rest = END - low;
        if width == FAR && rest < END && !index.covered(low, rest as u32) {
            return END;
        }
        let count = width.min(rest);
        if index.covered(low, count as u32) {
            return first_covered(index, low, low + count - 1);
        }
        low += count;
        width = WIDEST.min(width * 2);
    }
    END
}

// Whether the record keeps this block.
fn keeps(record: &Rec, block: u64) -> bool
    requires { record.now.lbn ≤ block }
    ensures { result ≡ in_mask record.now.lbn record.now.keep block }
{
    let Rec { lbn, keep, .. } = *record;
    let place = block - lbn;
    place < 128 && keep >> place & 1 == 1
}

// Where the blocks that this record keeps end, from `lbn + count` on, which it keeps: so many blocks behind `lbn`, and at
// most `most`.
fn kept_end(record: &Rec, lbn: u64, count: u32, most: u32) -> u32
    requires order { count < most }
    requires most { most ≤ 128 }
    requires within { lbn < 2 ^ 32 }
    requires kept { in_mask record.now.lbn record.now.keep (lbn + count) ≡ true }
    ensures count { (count < result) × (result ≤ most) }
    ensures kept { (b : ℕ) → lbn + count ≤ b → b < lbn + result
        → in_mask record.now.lbn record.now.keep b ≡ true }
{
    for next in count + 1..most {
        if !keeps(record, lbn + u64::from(next)) {
            return next;
        }
    }
    most
}

// How many blocks the chunk has that begins with this covered block: up to the end of its run, and at most `most`.
fn chunk_len(index: &Index, lbn: u64, most: u32) -> u32
    requires most { (1 ≤ most) × (most ≤ 128) }
    requires within { lbn < 2 ^ 32 }
    requires covered { is_covered (listed_in index.now.entries) lbn ≡ true }
    ensures count { (1 ≤ result) × (result ≤ most) }
    ensures run { (b : ℕ) → lbn ≤ b → b < lbn + result
        → is_covered (listed_in index.now.entries) b ≡ true }
    ensures ends { result < most → is_covered (listed_in index.now.entries) (lbn + result) ≡ false }
{
    let mut count = 1;
    'records: while count < most {
        let Some(record) = index.newest(lbn + u64::from(count)) else {
            return count;
        };
        count = kept_end(&record, lbn, count, most);
    }
    most
}

/// The next chunk from this block on, tidy or not, and none where no block is covered from there on.
pub(crate) fn next_chunk(index: &Index, from: u64, most: u32) -> Option<Item>
    requires from { from ≤ 2 ^ 32 }
    requires most { (1 ≤ most) × (most ≤ 128) }
    ensures ahead { IfSome result (IsAhead (is_covered (listed_in index.now.entries)) most from) }
    ensures within { IfSome result (λ i. (i.lbn < 2 ^ 32) × (1 ≤ i.count) × (i.count ≤ 128)) }
    ensures none { IfNone result ((b : ℕ) → from ≤ b → b < 2 ^ 32
        → is_covered (listed_in index.now.entries) b ≡ false) }
    ensures index { IsIndex index.now.entries }
{
    let lbn = next_covered(index, from);
    if lbn == END {
        return None;
    }
    let count = chunk_len(index, lbn, most);
    Some(Item { lbn, count })
}

// Whether the record keeps just these blocks.
fn keeps_just(record: &Rec, lbn: u64, count: u32) -> bool
    requires within { lbn < 2 ^ 32 }
    requires count { (1 ≤ count) × (count ≤ 128) }
    requires range { record.now.lbn + record.now.count ≤ 2 ^ 32 }
    requires few { record.now.count ≤ 128 }
    requires kept { record.now.keep < 2 ^ record.now.count }
    ensures { (result ≡ true)
        ↔ ((b : ℕ) → in_mask record.now.lbn record.now.keep b ≡ is_within lbn count b) }
{
    for place in 0..record.count {
        let block = record.lbn + u64::from(place);
        let within = lbn <= block && block < lbn + u64::from(count);
        let kept = record.keep >> place & 1 == 1;
        if kept != within {
            return false;
        }
    }
    record.lbn <= lbn && lbn + u64::from(count) <= record.lbn + u64::from(record.count)
}

/// Whether one record keeps just these blocks, and no other record keeps any of them.
pub(crate) fn is_tidy(index: &Index, lbn: u64, count: u32) -> bool
    requires within { lbn < 2 ^ 32 }
    requires count { (1 ≤ count) × (count ≤ 128) }
    ensures { (result ≡ true) ↔ IsTidy (listed_in index.now.entries) lbn count }
{
    let Some(newest) = index.newest(lbn) else {
        return false;
    };
    let Some(record) = index.find(newest.version) else {
        return false;
    };
    index.alone(record.version) == record.keep && keeps_just(&record, lbn, count)
}

// Whether the chunk is tidy once the chunks before it were written again and all was given up that may go: from its first
// block on, the newest record of that block has just the chunk's as live blocks.
fn becomes_tidy(index: &Index, chunk: Item) -> bool
    requires count { (1 ≤ chunk.count) × (chunk.count ≤ 128) }
    ensures { (result ≡ true)
        ↔ BecomesTidy (listed_in index.now.entries) chunk.lbn chunk.count }
{
    let Some(newest) = index.newest(chunk.lbn) else {
        return false;
    };
    let Some(record) = index.find(newest.version) else {
        return false;
    };
    let live = moved(index.live(record.version), record.lbn, chunk.lbn);
    live == u128::MAX >> (128 - chunk.count)
}

/// Whether what may go is given up before cleaning goes on, where that isn't done: once no chunk is next, and where the next one
/// is tidy only then.
pub(crate) fn settles_first(index: &Index, next: Option<Item>, settled: bool) -> bool
    requires within { IfSome next (λ i. (i.lbn < 2 ^ 32) × (1 ≤ i.count) × (i.count ≤ 128)) }
    ensures unsettled { result ≡ true → settled ≡ false }
    ensures last { result ≡ false → next ≡ None → settled ≡ true }
    // else the next one is tidy, or not even then
    ensures next { result ≡ false → settled ≡ false → IfSome next
        (λ i. BecomesTidy (listed_in index.now.entries) i.lbn i.count
        → IsTidy (listed_in index.now.entries) i.lbn i.count) }
{
    if settled {
        return false;
    }
    match next {
        Some(chunk) => becomes_tidy(index, chunk) && !is_tidy(index, chunk.lbn, chunk.count),
        None => true,
    }
}

// The next chunk from this block on, where there is one, and it isn't tidy and doesn't become so.
fn untidy_chunk(index: &Index, from: u64, most: u32) -> Option<Item>
    requires from { from ≤ 2 ^ 32 }
    requires most { (1 ≤ most) × (most ≤ 128) }
    ensures next { IfSome result (IsNext (is_covered (listed_in index.now.entries))
        (listed_in index.now.entries) most from) }
    ensures still { IfSome result
        (λ i. BecomesTidy (listed_in index.now.entries) i.lbn i.count → ⊥) }
    ensures within { IfSome result (λ i. i.lbn + i.count ≤ 2 ^ 32) }
{
    let chunk = next_chunk(index, from, most)?;
    if chunk.lbn + u64::from(chunk.count) > END {
        return None;
    }
    if is_tidy(index, chunk.lbn, chunk.count) || becomes_tidy(index, chunk) {
        return None;
    }
    Some(chunk)
}

/// Chunks that are written together: so many first ones of these.
#[derive(Clone, Copy)]
pub(crate) struct Gathered {
    pub(crate) chunks: [Item; TOGETHER],
    pub(crate) count: usize,
}

/// The chunk and those behind it, at most so many, up to the first that is tidy, or is so once those were written and what may go
/// was given up.
pub(crate) fn gather(index: &Index, first: Item, most: u32, width: usize) -> Gathered
    requires most { (1 ≤ most) × (most ≤ 128) }
    requires within { first.lbn + first.count ≤ 2 ^ 32 }
    requires width { width ≤ 8 }
    ensures count { (1 ≤ result.count) × (result.count ≤ 8) }
    ensures next { (rest : List Item) × (take result.count result.chunks ≡ first ∷ rest)
        × AreNext (is_covered (listed_in index.now.entries)) (listed_in index.now.entries) most
        (first.lbn + first.count) rest
        × AllByRecursion (λ i. BecomesTidy (listed_in index.now.entries) i.lbn i.count → ⊥) rest }
{
    let mut gathered = Gathered {
        chunks: [first; TOGETHER],
        count: 1,
    };
    let mut from = first.lbn + u64::from(first.count);
    for place in 1..width {
        let Some(chunk) = untidy_chunk(index, from, most) else {
            return gathered;
        };
        gathered.chunks[place] = chunk;
        gathered.count = place + 1;
        from = chunk.lbn + u64::from(chunk.count);
    }
    gathered
}
