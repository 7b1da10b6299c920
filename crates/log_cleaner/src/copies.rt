// The copies of a cleaning, as contracts see them.
ghost use base.Fml.{ftrue};
ghost use Rattle.log_cleaner.specs.Steps.{noted};
ghost use Rattle.manager.specs.Groups.{log_writes};
ghost use Rattle.std.specs.Prelude.{◌≡◌, ◌++◌, List, [], take};
ghost use Rattle.wol_disk.specs.Disk.{Block};
ghost use Rattle.wol_model.specs.Blocks.{Write};

use log_segment::Item;
use manager::{Manager, Ran, WriteRefusal};
use std::marker::{Model, PhantomData};
use turn_lock::Chosen;
use wol_disk::{Block, Disk};

/// Writes in order, as contracts see them. No value of it is made.
pub struct Writes {
    marker: PhantomData<u64>,
    pub ghost items: { List Write },
}

impl Model for Writes {
    ghost also_owns = { λ _. ftrue };
}

/// The copies that a cleaning made, in order, which only clauses read: it has no bytes. The entry of the turn in which
/// they were made names them.
pub type Copies = Chosen<Writes>;

/// No copies.
pub fn no_copies() -> Copies
    ensures { result.value.items ≡ [] }
{
    Chosen::pick()
}

// These copies, which the caller's proof names by what is given.
fn copies_of<D: Disk>(_m: &Manager<D>, _chunks: &[Item], _blocks: &[Block]) -> Copies
    ghost copies: { List Write }
    ensures { result.value.items ≡ copies }
{
    Chosen::pick()
}

/// The copies of these chunks, to a log, that the manager would do next.
pub(crate) fn next_copies<D: Disk>(m: &Manager<D>, chunks: &[Item], blocks: &[Block]) -> Copies
    ensures { result.value.items ≡ log_writes m.now.next chunks.now blocks.now }
{
    copies_of(m, chunks, blocks)
}

// Copies, and behind them some first ones of others.
fn copies_behind(_done: &Copies, _more: &Copies, _count: usize) -> Copies
    ghost copies: { List Write }
    ensures { result.value.items ≡ copies }
{
    Chosen::pick()
}

fn with_first(done: &Copies, more: &Copies, count: usize) -> Copies
    ensures { result.value.items ≡ done.now.value.items ++ take count more.now.value.items }
{
    copies_behind(done, more, count)
}

/// The copies with those of the run that were done or may be in flight.
pub(crate) fn noted(done: &mut Copies, more: &Copies, ran: Ran)
    ensures { done.new.value.items
        ≡ done.old.value.items ++ noted ran.answer (take ran.items more.now.value.items) }
{
    match ran.answer {
        Ok(_) | Err(WriteRefusal::DiskFault(_)) => *done = with_first(done, more, ran.items),
        Err(_) => {}
    }
}
