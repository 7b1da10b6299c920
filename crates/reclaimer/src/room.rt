// Room for a record that is read, so that its due blocks can go home in a later step.
ghost use Rattle.manager.specs.Causes.{NoneRose};
ghost use Rattle.manager.specs.Reading.{IsReadThrough};
ghost use Rattle.manager.specs.Reclaim.{OnTried, OnKept, OnFailed, TellsStep, KeepsOn, BreaksOff, StopsSince, Always, HasFetched};
ghost use Rattle.manager.specs.Stands.{Keeps, IsReady, IsHome};
ghost use Rattle.manager.specs.Stops.{HoldsOn};
ghost use Rattle.manager.specs.declared.base.ManagerBase.{ManagerBase};
ghost use Rattle.reclaimer.specs.Fetches.{IsFetchOf, HasData};
ghost use Rattle.reclaimer.specs.Records.{record_of};
ghost use Rattle.redirect_map.specs.Index.{entry_at, HasVersion};
ghost use Rattle.std.specs.Option.{ForSome};
ghost use Rattle.std.specs.Prelude.{◌≡◌, ◌≤◌, ◌<◌, ◌^◌, List, None, IfOk, IsTrue, IsSomeAnd, OnOk, length};
ghost use Rattle.wol_model.specs.Index.{listed_in};
ghost use Rattle.wol_promise.specs.Ruled.{Noted};

use garbage_list::due;
use logger::Shared;
use manager::{Manager, StepFault};
use std::alloc::Global;
use std::marker::Model;
use std::sync::Wait;
use wol_disk::{Block, Disk, NoMemory};

/// The most blocks of a record.
const MOST_BLOCKS: usize = 128;

/// What was fetched, beside the blocks.
#[derive(Clone, Copy, Debug, PartialEq, Eq)]
pub(crate) struct Filled {
    pub version: u64,
    pub lbn: u64,
    pub count: u32,
    /// The blocks that were due: bit i is block `lbn + i`.
    pub due: u128,
}

/// Room for the blocks of a record, and once it is filled the record's version, range, due blocks and data. It belongs to the
/// volume of the manager that filled it; an empty one belongs to none.
#[derive(Drop)]
pub struct Fetch {
    pub(crate) filled: Option<Filled>,
    pub(crate) blocks: Vec<Block>,
}

impl Model for Fetch {
    ghost use Rattle.reclaimer.specs.Records.{FetchedRecord, record_of};
    ghost use Rattle.std.specs.Prelude.{◌≡◌, ◌≤◌, length, Option, IfSome};

    ghost Value = { Option FetchedRecord };

    ghost view = { λ f. record_of f.filled f.blocks.items };

    ghost invariant = { λ f. (length f.blocks.items ≡ 128) × IfSome f.filled (λ r. r.count ≤ 128) };
}

impl Fetch {
    /// An empty one. This is the one call of reclaim that takes memory.
    pub fn new(alloc: Global) -> Result<Fetch, NoMemory>
        ensures { IfOk result (λ f. f ≡ None) }
    {
        Ok(Fetch {
            filled: None,
            blocks: vec![in alloc; [0; 512]; MOST_BLOCKS]?,
        })
    }

    // Nothing is fetched any more.
    pub(crate) fn clear(&mut self)
        ensures { self.new ≡ None }
    {
        self.filled = None;
    }
}

// Reads the record of this version into the first of these blocks.
pub(crate) fn read_record<R: Wait, D: Disk>(
    rt: &R,
    m: &mut Manager<D>,
    shared: &Shared<D>,
    version: u64,
    blocks: &mut [Block],
) -> Result<Filled, StepFault>
    requires ready { IsReady D.state m.old }
    requires at { IsHome shared.now m.old }
    requires there { HasVersion m.old.index.entries version }
    requires room { length blocks.old ≡ 128 }
    ensures ready { IsReady D.state m.new }
    ensures at { IsHome shared.now m.new }
    ensures fault { TellsStep D.state result m.old m.new }
    ensures calm { OnOk result (NoneRose D.state m.old m.new) }
    ensures fetched { OnTried result (ForSome (entry_at m.old.index.entries version)
        (λ e. HasFetched e.listed.lane m.old m.new)) }
    ensures read { OnOk result (IsReadThrough D.state m.old m.new) }
    ensures few { IfOk result (λ f. (f.count ≤ 128) × (f.due < 2 ^ 128)) }
    ensures filled { IfOk result (λ f. IsSomeAnd (entry_at m.old.index.entries version)
        (λ e. IsSomeAnd (record_of (Some f) blocks.new)
        (IsFetchOf (listed_in m.old.index.entries) e) × (f.count ≡ length e.listed.keep))) }
    ensures content { IfOk result (λ f. (b : ManagerBase) (notes : List Noted)
        → Keeps D.tells D.state m.old b notes
        → HasData D.tells (record_of (Some f) blocks.new) b notes) }
    ensures keeps { OnKept result (KeepsOn D.tells D.state m.old m.new Always) }
    ensures broke { OnFailed result (BreaksOff D.tells D.state m.old m.new Always) }
    ensures any_moment { OnTried result
        (IsTrue D.tells → StopsSince D.tells D.state m.old m.new Always) }
    ensures since { OnTried result (HoldsOn D.tells D.state m.old m.new Always) }
{
    let Some(record) = m.index().find(version) else {
        unreachable!()
    };
    let due = due(m.index(), version);
    m.fetch_rec(rt, shared, version, &mut blocks[..record.count as usize])?;
    Ok(Filled {
        version,
        lbn: record.lbn,
        count: record.count,
        due,
    })
}
