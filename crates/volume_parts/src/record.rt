// One record of the index: its head, and places for more of them.
ghost use Rattle.log_layout.specs.Values.{record_head};
ghost use Rattle.std.specs.Prelude.{◌≡◌, ◌+◌, ◌<◌, ◌≤◌, ◌^◌, IfSome, IsNone};
ghost use Rattle.wol_model.specs.Heads.{IsRecordHead};

use log_layout::RecHead;
use redirect_map::{Index, Rec};

/// The head of a record of this volume, as the index has it.
pub fn head_of(owner: u32, listed: &Rec) -> RecHead
    requires version { (1 ≤ listed.now.version) × (listed.now.version < 2 ^ 63) }
    requires count { (1 ≤ listed.now.count) × (listed.now.count ≤ 128) }
    requires range { listed.now.lbn + listed.now.count ≤ 2 ^ 32 }
    requires kept { listed.now.keep < 2 ^ listed.now.count }
    ensures value { result ≡ record {
      form = 2;
      keep = listed.now.keep;
      owner = owner;
      version = listed.now.version;
      lbn = listed.now.lbn;
      count = listed.now.count;
    } }
    ensures head { IsRecordHead (record_head result) }
{
    RecHead {
        form: 2,
        keep: listed.keep,
        owner,
        version: listed.version,
        lbn: listed.lbn,
        count: listed.count,
    }
}

/// For how many of so many items the index has places, once memory was asked for: for all, or for one.
pub fn reserve_places(index: &mut Index, items: u32) -> Option<usize>
    requires { 1 ≤ items }
    ensures entries { index.new.entries ≡ index.old.entries }
    ensures some { IfSome result (λ n. (1 ≤ n) × (n ≤ items) × (n ≤ index.new.reserved)) }
    ensures none { IsNone result → index.old.reserved < 1 }
{
    if index.reserve(items).is_ok() {
        return Some(items as usize);
    }
    if items > 1 && index.reserve(1).is_ok() {
        return Some(1);
    }
    None
}
