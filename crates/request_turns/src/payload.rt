// Room for the blocks of one request.
use log_segment::Item;
use std::alloc::Global;
use std::marker::Model;
use wol_disk::{Block, NoMemory};

/// The most blocks of a request.
const MOST_BLOCKS: usize = 128;

/// Room for the blocks of one request, whichever they are.
#[derive(Drop)]
pub struct Payload {
    pub(crate) blocks: Vec<Block>,
    // what writes of one turn say to the log
    pub(crate) items: Vec<Item>,
}

impl Model for Payload {
    ghost use Rattle.std.specs.Prelude.{◌≡◌, ◌≤◌, length, vec_capacity, List};
    ghost use Rattle.wol_disk.specs.Disk.{Block};

    ghost Value = { List Block };

    ghost view = { λ p. p.blocks.items };

    ghost invariant = { λ p. (length p.blocks.items ≡ 128) × (128 ≤ vec_capacity p.items) };
}

impl Payload {
    pub fn new(alloc: Global) -> Result<Payload, NoMemory> {
        Ok(Payload {
            blocks: vec![in alloc; [0; 512]; MOST_BLOCKS]?,
            items: Vec::with_capacity(alloc, MOST_BLOCKS)?,
        })
    }
}
