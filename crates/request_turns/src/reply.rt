// The blocks that a read gave, as contracts see them.
ghost use base.Fml.{ftrue};
ghost use Rattle.std.specs.Prelude.{◌≡◌, List};
ghost use Rattle.wol_disk.specs.Disk.{Block};

use std::marker::{Model, PhantomData};
use turn_lock::Chosen;
use wol_disk::Block;

/// Blocks in order, as contracts see them. No value of it is made.
pub(crate) struct Blocks {
    marker: PhantomData<u64>,
    pub ghost items: { List Block },
}

impl Model for Blocks {
    ghost also_owns = { λ _. ftrue };
}

/// The blocks that a read gave, which only clauses read: it has no bytes. The entry of the read's turn names them.
pub(crate) type Reply = Chosen<Blocks>;

// Blocks that the caller's proof names by what is given.
fn reply_named(_blocks: &[Block]) -> Reply
    ghost items: { List Block }
    ensures { result.value.items ≡ items }
{
    Chosen::pick()
}

/// These blocks.
pub(crate) fn reply_of(blocks: &[Block]) -> Reply
    ensures { result.value.items ≡ blocks.now }
{
    reply_named(blocks)
}
