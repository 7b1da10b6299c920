// A range is read and written in pieces, one turn each.
ghost use Rattle.wol_disk.specs.Disk.{bytes_of};
ghost use Rattle.nbd_session.specs.Ranges.{AreWhole, HasRead, HasWritten, HasNotRead, HasNotWritten, ReadsPiece};
ghost use Rattle.nbd_session.specs.Turns.{StaysReady};
ghost use Rattle.std.specs.Prelude.{◌≡◌, ◌≤◌, ◌+◌, ◌*◌, ◌/◌, ◌++◌, ◌<◌, ◌^◌, length, take, MatchResult};

use crate::volume::{Refusal, Volume};
use wol_disk::Block;

/// The bytes of a block.
pub(crate) const BLOCK_BYTES: usize = 512;

// Puts blocks into bytes, behind as many blocks as are done.
fn put_blocks(bytes: &mut [u8], done: usize, blocks: &[Block])
    requires { 512 * (done + length blocks.now) ≤ length bytes.old }
    ensures put { take (512 * (done + length blocks.now)) bytes.new
        ≡ take (512 * done) bytes.old ++ bytes_of blocks.now }
    ensures whole { AreWhole blocks.now }
{
    let from = BLOCK_BYTES * done;
    let to = BLOCK_BYTES * (done + blocks.len());
    bytes[from..to].copy_from_slice(blocks.as_flattened());
}

// Reads a piece by way of room for its blocks, and puts it into bytes, behind as many blocks as are done.
fn read_piece<V: Volume>(
    volume: &mut V,
    at: u64,
    blocks: &mut [Block],
    bytes: &mut [u8],
    done: usize,
) -> Result<(), Refusal>
    requires ready { V.Ready volume.old }
    requires some { 1 ≤ length blocks.old }
    requires few { length blocks.old ≤ V.most volume.old }
    requires fits { at + length blocks.old ≤ V.home volume.old }
    requires bytes { 512 * (done + length blocks.old) ≤ length bytes.old }
    ensures stays { StaysReady V.Ready V.home V.most volume.old volume.new }
    ensures read { ReadsPiece V.Turned at (length blocks.old) done bytes.old bytes.new volume.old
        volume.new result }
{
    volume.read(at, blocks)?;
    put_blocks(bytes, done, blocks);
    Ok(())
}

/// Reads the blocks from place `at` on into `bytes`, which has room for `count` of them, by way of `room`.
pub(crate) fn read_range<V: Volume>(
    volume: &mut V,
    at: u64,
    count: usize,
    bytes: &mut [u8],
    room: &mut [Block],
) -> Result<(), Refusal>
    requires ready { V.Ready volume.old }
    requires bytes { length bytes.old ≡ 512 * count }
    requires room { length room.old ≡ 128 }
    requires fits { at + count ≤ V.home volume.old }
    requires small { at + count < 2 ^ 64 }
    ensures stays { StaysReady V.Ready V.home V.most volume.old volume.new }
    ensures read { MatchResult result
        (λ _. HasRead V.Turned (V.most volume.old) at count volume.old count bytes.new volume.new)
        (λ refusal. HasNotRead V.Turned (V.most volume.old) at count volume.old volume.new refusal) }
{
    let most = volume.most() as usize;
    let mut done = 0;
    while done < count {
        let piece = most.min(count - done);
        read_piece(volume, at + done as u64, &mut room[..piece], bytes, done)?;
        done += piece;
    }
    Ok(())
}

// Writes blocks from place `at` on.
fn write_blocks<V: Volume>(volume: &mut V, at: u64, blocks: &[Block]) -> Result<(), Refusal>
    requires ready { V.Ready volume.old }
    requires whole { AreWhole blocks.now }
    requires fits { at + length blocks.now ≤ V.home volume.old }
    requires small { at + length blocks.now < 2 ^ 64 }
    ensures stays { StaysReady V.Ready V.home V.most volume.old volume.new }
    ensures written { MatchResult result
        (λ _. HasWritten V.Turned (V.most volume.old) at (length blocks.now) volume.old
        (length blocks.now) (bytes_of blocks.now) volume.new)
        (λ refusal. HasNotWritten V.Turned (V.most volume.old) at (length blocks.now)
        (bytes_of blocks.now) volume.old volume.new refusal) }
{
    let most = volume.most() as usize;
    let count = blocks.len();
    let mut done = 0;
    while done < count {
        let piece = most.min(count - done);
        volume.write(at + done as u64, &blocks[done..done + piece])?;
        done += piece;
    }
    Ok(())
}

/// Writes the blocks in `bytes` from place `at` on.
pub(crate) fn write_range<V: Volume>(
    volume: &mut V,
    at: u64,
    count: usize,
    bytes: &[u8],
) -> Result<(), Refusal>
    requires ready { V.Ready volume.old }
    requires bytes { length bytes.now ≡ 512 * count }
    requires fits { at + count ≤ V.home volume.old }
    requires small { at + count < 2 ^ 64 }
    ensures stays { StaysReady V.Ready V.home V.most volume.old volume.new }
    ensures written { MatchResult result
        (λ _. HasWritten V.Turned (V.most volume.old) at count volume.old count bytes.now
        volume.new)
        (λ refusal. HasNotWritten V.Turned (V.most volume.old) at count bytes.now volume.old
        volume.new refusal) }
{
    let _ = count;
    let (blocks, _) = bytes.as_chunks();
    write_blocks(volume, at, blocks)
}
