// Blocks of a part that are read one after another, many at a time.
ghost use Rattle.log_scan.specs.Reading.{AreAhead, StandsAt};
ghost use Rattle.spin_model.specs.Spun.{volume_of, state_of, token_volume};
ghost use Rattle.std.specs.Prelude.{◌≡◌, ◌<◌, ◌≤◌, ◌+◌, ◌-◌, ℕ, List, length, Some, IfOk, IsErr, OnOk};
ghost use Rattle.wol_disk.specs.Disk.{Block, only, Passes};

use spin_model::{Awake, Spun};
use wol_disk::{Block, Disk, Failed};

/// The most blocks that are read at a time.
pub(crate) const MOST: usize = 32;

/// Which blocks of a part were read ahead.
#[derive(Clone, Copy)]
pub(crate) struct Ahead {
    pub from: u32,
    pub count: u32,
    /// The next block that is asked for lies further on than those that would be read with it.
    pub far: bool,
}

// How many blocks are read at a time, of which so many are left.
fn span(far: bool, left: u32) -> u32
    requires { 1 ≤ left }
    ensures { (1 ≤ result) × (result ≤ left) × (result ≤ 32) }
{
    if far {
        return 1;
    }
    if left < MOST as u32 {
        left
    } else {
        MOST as u32
    }
}

// Reads blocks from a place on into the first ones of the room.
fn read_ahead<D: Disk>(
    part: &mut Spun<D>,
    token: &Awake,
    blocks: u32,
    at: u32,
    ahead: &mut Ahead,
    room: &mut [Block],
) -> Result<(), Failed>
    requires volume { token_volume token.now ≡ volume_of part.old }
    requires size { (state_of D.state part.old).size ≡ blocks }
    requires inside { at < blocks }
    requires room { length room.old ≡ 32 }
    ensures there { OnOk result ((ahead.new.from ≡ at) × (1 ≤ ahead.new.count)) }
    ensures few { ahead.new.count ≤ 32 }
    ensures room { length room.new ≡ 32 }
    ensures ahead { AreAhead (state_of D.state part.old).values ahead.new.from ahead.new.count
        room.new }
    ensures values { (state_of D.state part.new).values ≡ (state_of D.state part.old).values }
    ensures passes { Passes (state_of D.state part.old) (state_of D.state part.new) (IsErr result) }
    ensures volume { volume_of part.new ≡ volume_of part.old }
{
    let count = span(ahead.far, blocks - at);
    ahead.count = 0;
    part.read(token, at as u64, &mut room[..count as usize])?;
    ahead.from = at;
    ahead.count = count;
    Ok(())
}

/// The block at a place, which is read with those behind it where it wasn't read ahead.
pub(crate) fn block_at<D: Disk>(
    part: &mut Spun<D>,
    token: &Awake,
    blocks: u32,
    at: u32,
    ahead: &mut Ahead,
    room: &mut [Block],
) -> Result<Block, Failed>
    requires volume { token_volume token.now ≡ volume_of part.old }
    requires size { (state_of D.state part.old).size ≡ blocks }
    requires inside { at < blocks }
    requires few { ahead.old.count ≤ 32 }
    requires room { length room.old ≡ 32 }
    requires ahead { AreAhead (state_of D.state part.old).values ahead.old.from ahead.old.count
        room.old }
    ensures few { ahead.new.count ≤ 32 }
    ensures room { length room.new ≡ 32 }
    ensures ahead { AreAhead (state_of D.state part.old).values ahead.new.from ahead.new.count
        room.new }
    ensures block { (bs : List Block) → (state_of D.state part.old).values ≡ Some (only bs)
        → IfOk result (StandsAt bs at) }
    ensures values { (state_of D.state part.new).values ≡ (state_of D.state part.old).values }
    ensures passes { Passes (state_of D.state part.old) (state_of D.state part.new) (IsErr result) }
    ensures volume { volume_of part.new ≡ volume_of part.old }
{
    if at < ahead.from || at - ahead.from >= ahead.count {
        read_ahead(part, token, blocks, at, ahead, room)?;
    }
    Ok(room[(at - ahead.from) as usize])
}
