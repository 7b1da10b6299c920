// The loggers that a volume uses: at most sixteen, and none of them twice.
ghost use Rattle.byteorder.specs.Endian.{little_bytes};
ghost use Rattle.std.specs.List.{flat_map};
ghost use Rattle.std.specs.Prelude.{◌≡◌, ◌≤◌, ◌<◌, ◌↔◌, ◌-◌, ◌*◌, ◌++◌, ℕ, List, length, replicate, IsTrue, IfSome, IfNone, SomeIff, slice_index};
ghost use Rattle.wol_model.specs.Blocks.{AreApart};
ghost use Rattle.wol_model.specs.Heads.{IsViewList, SpellsView, view_block};

use crate::bytes::{put_bytes, put_u32, u32_at};
use std::marker::Model;
use wol_disk::Block;

/// The loggers that a volume uses, in the order in which it asks them.
///
/// Contracts see it as the list of their ids.
#[derive(Clone, Copy, Debug)]
pub struct View {
    ids: [u32; 16],
    len: u32,
}

impl Model for View {
    ghost use Rattle.std.specs.Prelude.{ℕ, List};

    ghost Value = { List ℕ };

    ghost use Rattle.log_layout.specs.View.{ids_of, IsStored, stored, stored-ids_of};

    ghost view = { ids_of };

    ghost invariant = { IsStored };

    ghost inverse = { stored };

    ghost inverse_ok = { stored-ids_of };
}

impl View {
    /// The most ids that a view has.
    pub const MOST: usize = 16;

    /// A view of these ids, unless there are too many or two of them are equal.
    pub fn new(ids: &[u32]) -> Option<View>
        ensures { SomeIff result (IsViewList ids.now) ids.now }
    {
        if ids.len() > View::MOST || !are_apart(ids) {
            return None;
        }
        let mut kept = [0; 16];
        kept[..ids.len()].copy_from_slice(ids);
        Some(View {
            ids: kept,
            len: ids.len() as u32,
        })
    }

    /// How many ids it has.
    pub fn len(&self) -> u32
        ensures count { result ≡ length self.now }
        ensures valid { IsViewList self.now }
    {
        self.len
    }

    /// Whether it has no id.
    pub fn is_empty(&self) -> bool
        ensures { IsTrue result ↔ (length self.now ≡ 0) }
    {
        self.len == 0
    }

    /// The id at this place, counted from 0.
    pub fn id(&self, place: u32) -> u32
        requires { place < length self.now }
        ensures { result ≡ slice_index self.now place }
    {
        self.ids[place as usize]
    }

    /// The ids in order.
    pub fn ids(&self) -> &[u32]
        ensures value { result.now ≡ self.now }
        ensures valid { IsViewList self.now }
    {
        &self.ids[..self.len as usize]
    }
}

/// The view that the block spells, if there is one.
pub fn read_view(b: &Block) -> Option<View>
    ensures found { IfSome result (SpellsView b.now) }
    ensures none { IfNone result ((ids : List ℕ) → ¬ SpellsView b.now ids) }
{
    let count = u32_at(b, 8) as usize;
    if count > View::MOST {
        return None;
    }
    let mut ids = [0; 16];
    for i in 0..count {
        ids[i] = u32_at(b, 12 + 4 * i);
    }
    let Some(view) = View::new(&ids[..count]) else {
        return None;
    };
    let mut again = [0; 512];
    write_view(&view, &mut again);
    if again == *b { Some(view) } else { None }
}

/// Makes the block the one that spells the view.
pub fn write_view(v: &View, b: &mut Block)
    ensures { b.new ≡ view_block v.now }
{
    *b = [0; 512];
    put_bytes(b, 0, b"WOLVIEW1");
    put_u32(b, 8, v.len());
    put_ids(b, v.ids());
}

// Writes the ids behind their number.
fn put_ids(b: &mut Block, ids: &[u32])
    requires { length ids.now ≤ 16 }
    ensures { (front : List ℕ) → length front ≡ 12 → b.old ≡ front ++ replicate 500 0
        → b.new ≡ front ++ flat_map (little_bytes 4) ids.now
        ++ replicate (500 - 4 * length ids.now) 0 }
{
    for (i, id) in ids.iter().enumerate() {
        put_u32(b, 12 + 4 * i, *id);
    }
}

// Whether no two of the ids are equal.
fn are_apart(ids: &[u32]) -> bool
    ensures { IsTrue result ↔ AreApart ids.now }
{
    for (i, id) in ids.iter().enumerate() {
        if ids[i + 1..].contains(id) {
            return false;
        }
    }
    true
}
