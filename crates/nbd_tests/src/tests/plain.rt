// A volume in memory.
ghost use Rattle.std.specs.Prelude.{◌≡◌, length, IfOk};

use nbd_session::{Refusal, Volume};
use std::alloc::Global;
use std::test::Fail;
use wol_disk::Block;

/// The most blocks of one turn of it.
const MOST: usize = 8;

/// Blocks in memory. The write numbered `refused`, counted from 0, is refused so, and at `Broke` the volume is down from
/// then on.
#[derive(Drop)]
pub struct Plain {
    pub blocks: Vec<Block>,
    pub refused: Option<(u32, Refusal)>,
    pub is_down: bool,
    /// How many writes were asked.
    pub writes: u32,
}

impl Plain {
    pub fn new(alloc: Global, blocks: usize) -> Result<Plain, Fail>
        ensures { IfOk result (λ volume. length volume.blocks.items ≡ blocks) }
    {
        Ok(Plain {
            blocks: vec![in alloc; [0; 512]; blocks]?,
            refused: None,
            is_down: false,
            writes: 0,
        })
    }

    // Why the write with this number is refused, if it is.
    fn refusal_of(&self, number: u32) -> Option<Refusal> {
        if self.is_down {
            return Some(Refusal::Down);
        }
        match self.refused {
            Some((write, refusal)) if write == number => Some(refusal),
            _ => None,
        }
    }
}

impl Volume for Plain {
    ghost use Rattle.std.specs.Prelude.{length};

    ghost Turned = { λ turn old new. Unit {0} };

    ghost Ready = { λ v. Unit {0} };

    ghost home = { λ v. length v.blocks.items };

    ghost most = { λ v. 8 };

    fn home(&self) -> u64 {
        self.blocks.len() as u64
    }

    fn most(&self) -> u32 {
        MOST as u32
    }

    fn look(&mut self) -> Result<(), Refusal> {
        if self.is_down {
            Err(Refusal::Down)
        } else {
            Ok(())
        }
    }

    fn read(&mut self, at: u64, out: &mut [Block]) -> Result<(), Refusal> {
        self.look()?;
        let at = at as usize;
        out.copy_from_slice(&self.blocks[at..at + out.len()]);
        Ok(())
    }

    fn write(&mut self, at: u64, from: &[Block]) -> Result<(), Refusal> {
        let number = self.writes;
        self.writes = number.saturating_add(1);
        if let Some(refusal) = self.refusal_of(number) {
            self.is_down = self.is_down || refusal == Refusal::Broke;
            return Err(refusal);
        }
        let at = at as usize;
        self.blocks[at..at + from.len()].copy_from_slice(from);
        Ok(())
    }
}
