// What a replayed write stores, and the mark of what is read.
ghost use Rattle.msr_trace.specs.Payload.{stamp};
ghost use Rattle.std.specs.List.{flat_map, range_with_len};
ghost use Rattle.std.specs.Prelude.{◌≡◌, ◌+◌, ◌≤◌, ◌^◌, length, map};
ghost use Rattle.wol_model.specs.Trace.{block_mark, mark, payload_block};

use std::simd::prelude::*;
use wol_disk::Block;

/// Fills blocks from `lbn` on with what the line with this number writes there: the numbers of the line and of the block,
/// 32 times, each as eight little-endian bytes.
pub fn fill(line: u64, lbn: u64, out: &mut [Block])
    requires { lbn + length out.old ≤ 2 ^ 64 }
    ensures { out.new ≡ map (payload_block line) (range_with_len lbn (length out.old)) }
{
    for (i, block) in out.iter_mut().enumerate() {
        fill_block(line, lbn + i as u64, block);
    }
}

// Fills a block with what a line writes there, in its place.
fn fill_block(line: u64, lbn: u64, block: &mut Block)
    ensures { block.new ≡ payload_block line lbn }
{
    repeat(stamp_of(line, lbn), block);
}

// Fills a block with a stamp, in its place. A stamp is one vector, so that it stays in a register and a block is 32 stores.
fn repeat(stamp: u8x16, block: &mut Block)
    ensures { block.new ≡ flat_map (λ _. stamp) (range_with_len 0 32) }
{
    for i in 0..8 {
        let at: usize = 64 * i;
        put_four(stamp, &mut block[at..at + 64]);
    }
}

// Writes a stamp four times where there is room for four.
fn put_four(stamp: u8x16, place: &mut [u8])
    requires { length place.old ≡ 64 }
    ensures { place.new ≡ flat_map (λ _. stamp) (range_with_len 0 4) }
{
    put(stamp, &mut place[..16]);
    put(stamp, &mut place[16..32]);
    put(stamp, &mut place[32..48]);
    put(stamp, &mut place[48..]);
}

// Writes a stamp where there is room for one.
fn put(stamp: u8x16, place: &mut [u8])
    requires { length place.old ≡ 16 }
    ensures { place.new ≡ stamp }
{
    stamp.copy_to_slice(place);
}

fn stamp_of(line: u64, lbn: u64) -> u8x16
    ensures { result ≡ stamp line lbn }
{
    u64x2::from_array([line, lbn]).to_le_bytes()
}

/// The mark of what a read gives: the sum, modulo 2^64, of the first eight bytes of each block as a little-endian number.
#[tactic(auto, unfolding(wol_model::specs::Trace::mark))]
pub fn mark(content: &[Block]) -> u64
    ensures { result ≡ mark content.now }
{
    let mut sum = 0u64;
    for block in content {
        sum = sum.wrapping_add(first_number(block));
    }
    sum
}

fn first_number(block: &Block) -> u64
    ensures { result ≡ block_mark block.now }
{
    let mut bytes = [0u8; 8];
    bytes.copy_from_slice(&block[..8]);
    u64::from_le_bytes(bytes)
}
