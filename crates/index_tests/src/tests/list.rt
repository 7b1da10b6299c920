// The index as a plain program: a list of records by rising version that every call walks.
use redirect_map::Rec;

#[derive(Clone, Copy)]
pub struct Item {
    pub record: Rec,
    pub homed: u128,
}

fn keeps(record: &Rec, lbn: u64) -> bool {
    lbn >= record.lbn && lbn - record.lbn < 128 && record.keep >> (lbn - record.lbn) & 1 == 1
}

// The blocks that the record keeps, as a mask from `first` on.
fn from_block(record: &Rec, first: u64) -> u128 {
    if record.lbn >= first {
        record
            .keep
            .checked_shl(u32::try_from(record.lbn - first).unwrap_or(128))
            .unwrap_or(0)
    } else {
        record
            .keep
            .checked_shr(u32::try_from(first - record.lbn).unwrap_or(128))
            .unwrap_or(0)
    }
}

// The blocks of a mask from `first` on that one of the items keeps.
fn kept_by(items: &[Item], first: u64) -> u128 {
    items
        .iter()
        .fold(0, |mask, item| mask | from_block(&item.record, first))
}

pub fn newest(items: &[Item], lbn: u64) -> Option<Rec> {
    let item = items.iter().rev().find(|item| keeps(&item.record, lbn))?;
    Some(item.record)
}

pub fn covered(items: &[Item], lbn: u64, count: u32) -> bool {
    (0..count).any(|i| newest(items, lbn.wrapping_add(u64::from(i))).is_some())
}

// What is known of the blocks of one item.
#[derive(Clone, Copy)]
pub struct Known {
    pub live: u128,
    pub older: u128,
    pub going: u128,
    pub due: u128,
}

// Of the item at this place.
pub fn known_at(items: &[Item], place: usize) -> Option<Known> {
    let item = items.get(place)?;
    let live = item.record.keep & !kept_by(items.get(place + 1..)?, item.record.lbn);
    let older = item.record.keep & kept_by(items.get(..place)?, item.record.lbn);
    Some(Known {
        live,
        older,
        going: (item.record.keep & !live) | (item.homed & !older),
        due: live & !item.homed,
    })
}

// The blocks of the newer record are homed no more in the others.
pub fn unhome(items: &mut [Item], newer: &Rec) {
    for place in 0..items.len() {
        items[place].homed &= !from_block(newer, items[place].record.lbn);
    }
}

// Blocks are given up.
pub fn give_up(items: &mut Vec<Item>, place: usize, mask: u128) {
    if place < items.len() {
        items[place].record.keep &= !mask;
        items[place].homed &= !mask;
        if items[place].record.keep == 0 {
            items.remove(place);
        }
    }
}
