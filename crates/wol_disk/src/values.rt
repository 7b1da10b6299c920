// The values of one block, kept apart from a disk, so that a disk can be made of them again.
ghost use Rattle.std.specs.Prelude.{◌≡◌, OnOk, IfOk, map};
ghost use Rattle.wol_disk.specs.Disk.{fresh};
ghost use Rattle.wol_disk.specs.Later.{with_later};

use crate::Block;
use crate::record::Call;
use crate::restart::touch;
use crate::touch::Touch;
use std::alloc::{AllocError, Global};

/// The values that one block had since the last sync that succeeded.
#[derive(Drop)]
pub struct BlockValues {
    oldest: Block,
    later: Vec<Block>,
    latest: Block,
    ghost last: { latest ≡ (with_later later.items (fresh oldest)).now },
}

impl BlockValues {
    ghost use Rattle.wol_disk.specs.BlockValues.{oldest_of, later_of, values_of};
    ghost use Rattle.wol_disk.specs.Record.{block_after};
    ghost use Rattle.wol_disk.specs.Touch.{touched};

    // A block that has this value and no other.
    fn new(alloc: Global, value: Block) -> BlockValues
        ensures { values_of result ≡ fresh value }
    {
        BlockValues {
            oldest: value,
            later: Vec::new(alloc),
            latest: value,
        }
    }

    // The oldest of its values.
    pub(crate) fn oldest(&self) -> Block
        ensures { result ≡ oldest_of self.now }
    {
        self.oldest
    }

    // Those after it, the latest last.
    pub(crate) fn later(&self) -> &[Block]
        ensures { result.now ≡ later_of self.now }
    {
        &self.later
    }

    // Notes what a call did to the block.
    fn note(&mut self, touch: Touch) -> Result<(), AllocError>
        ensures { OnOk result (values_of self.new ≡ touched touch (values_of self.old)) }
    {
        match touch {
            Touch::Wrote(block) => {
                self.later.push(block)?;
                self.latest = block;
            }
            Touch::Synced => {
                self.later.clear();
                self.oldest = self.latest;
            }
            Touch::Nothing => {}
        }
        Ok(())
    }

    // What the calls leave of a block.
    pub(crate) fn after(
        alloc: Global,
        first: &Block,
        calls: &[Call],
        i: usize,
    ) -> Result<BlockValues, AllocError>
        ensures { IfOk result (λ b. values_of b ≡ block_after i calls.now (fresh first.now)) }
    {
        let mut values = BlockValues::new(alloc, *first);
        for call in calls {
            values.note(touch(call, i))?;
        }
        Ok(values)
    }

    // The oldest value of each block.
    pub(crate) fn oldest_blocks(
        alloc: Global,
        values: &[BlockValues],
    ) -> Result<Vec<Block>, AllocError>
        ensures { IfOk result (λ blocks. blocks.items ≡ map oldest_of values.now) }
    {
        let mut blocks = Vec::new(alloc);
        for block in values {
            blocks.push(block.oldest())?;
        }
        Ok(blocks)
    }
}
