// Images, configurations and traces that are spoiled at random, the same each time: each is told by a status that it may have, what is
// told is told again, and none brings the program down.
ghost use Rattle.solo.specs.Images.{NoneOut};
ghost use Rattle.wol_bay.specs.MemBay.{mem_bay_state};

use super::calls::{NONE, make_call};
use fixtures::{
    AFTER_STAYS, Call, RECLAIMS, ROOMY_THREE, SMALL_THREE, THREE_ROOMY, asked, bay_of, holds_at,
    images_of, same, same_at,
};
use rand_xoshiro::SplitMix64;
use rand_xoshiro::rand_core::{Rng, SeedableRng};
use std::alloc::Global;
use std::sync::Wait;
use std::test::Fail;
use std::thread::Threads;
use wol_bay::MemBay;
use wol_disk::Block;

// How many of each kind are tried.
const IMAGES: u32 = 400;

const CONFIGS: u32 = 400;

const TRACES: u32 = 400;

const SEED: [u8; 8] = *b"spoiled!";

// Heads whose numbers stand at the ends of their ranges: owners, versions, places, counts, masks.
const HEADS: [&[u8]; 11] = [
    b"",
    b"WOLSEGF1",
    b"WOLSEGO1\x02",
    b"WOLSEGO1\xff\xff\xff\xff",
    b"WOLVIEW1\x02\0\0\0\x01\0\0\0\x01",
    b"WOLVIEW1\xff\xff\xff\xff",
    b"WOLREC01\x01\0\0\0\0\0\0\0\xff\xff\xff\xff\xff\xff\xff\x7f\0\0\0\0\0\0\0\0\x01",
    b"WOLREC01\x01\0\0\0\0\0\0\0\0\0\0\0\0\0\0\x80\0\0\0\0\0\0\0\0\x01",
    b"WOLREC01\x01\0\0\0\xff\xff\xff\xff\x01\0\0\0\0\0\0\0\xff\xff\xff\xff\xff\xff\xff\xff\xff\xff\xff\xff",
    b"WOLREC02\0\0\0\0\x02\0\0\0\xff\xff\xff\xff\xff\xff\xff\x7f\x01\0\0\0\0\0\0\0\x01\0\0\0\x01",
    b"WOLREC02\0\0\0\0\0\0\0\0\x09\0\0\0\0\0\0\0\0\0\0\0\0\0\0\0\x02\0\0\0\xff\xff\xff\xff\xff\xff\xff\xff",
];

// Bytes that a number of a head, of a configuration or of a line is changed by.
const BYTES: [u8; 12] = [
    0, 1, 0x7f, 0x80, 0xc3, 0xff, b'\n', b'"', b',', b'0', b'9', b'-',
];

const BITS: [u8; 8] = [1, 2, 4, 8, 16, 32, 64, 128];

// The place of a block: the number of the image and that of the block.
type Place = (usize, usize);

// A number below this one; 0 where there is none.
fn below(generator: &mut SplitMix64, end: usize) -> usize {
    let end = end as u64;
    if end == 0 {
        return 0;
    }
    (generator.next_u64() % end) as usize
}

// One of these.
fn one_of<T: Copy>(generator: &mut SplitMix64, all: &[T], none: T) -> T {
    *all.get(below(generator, all.len())).unwrap_or(&none)
}

// The block of a place.
fn block_at(images: &[Vec<Block>], place: Place) -> Block {
    let Some(image) = images.get(place.0) else {
        return [0; 512];
    };
    *image.get(place.1).unwrap_or(&[0; 512])
}

fn put_block(images: &mut [Vec<Block>], place: Place, block: Block) {
    if let Some(image) = images.get_mut(place.0) {
        if let Some(old) = image.get_mut(place.1) {
            *old = block;
        }
    }
}

// Any block of the images.
fn any_place(generator: &mut SplitMix64, images: &[Vec<Block>]) -> Place {
    let image = below(generator, images.len());
    let blocks = images.get(image).map_or(0, |it| it.len());
    (image, below(generator, blocks))
}

// Where heads stand.
fn places_of_heads(alloc: Global, images: &[Vec<Block>]) -> Result<Vec<Place>, Fail> {
    let mut places = Vec::new(alloc);
    for (image, blocks) in images.iter().enumerate() {
        for (number, block) in blocks.iter().enumerate() {
            if block.starts_with(b"WOL") {
                places.push((image, number))?;
            }
        }
    }
    Ok(places)
}

// A block that begins with these bytes.
fn block_of(front: &[u8]) -> Block {
    let mut block = [0; 512];
    for (byte, value) in block.iter_mut().zip(front) {
        *byte = *value;
    }
    block
}

// A block with one byte of its first so many changed.
fn with_changed_byte(generator: &mut SplitMix64, mut block: Block, first: usize) -> Block {
    let at = below(generator, first);
    let (bit, value) = (one_of(generator, &BITS, 1), one_of(generator, &BYTES, 0));
    let flips = below(generator, 2) == 0;
    if let Some(byte) = block.get_mut(at) {
        *byte = if flips { *byte ^ bit } else { value };
    }
    block
}

// Changes a block of the images, mostly a head: by a byte, by a block from elsewhere, by the two in each other's place, by another
// head.
fn spoil(generator: &mut SplitMix64, images: &mut [Vec<Block>], heads: &[Place]) {
    let (other, somewhere) = (any_place(generator, images), any_place(generator, images));
    let head = one_of(generator, heads, other);
    let at = one_of(generator, &[head, head, somewhere], other);
    let (block, there) = (block_at(images, at), block_at(images, other));
    match below(generator, 6) {
        0 => put_block(images, at, there),
        1 => {
            put_block(images, at, there);
            put_block(images, other, block);
        }
        2 => put_block(images, at, block_of(one_of(generator, &HEADS, b""))),
        3 => put_block(images, other, block),
        _ => put_block(images, at, with_changed_byte(generator, block, 48)),
    }
}

// The status of a command on these volumes, and what it prints.
fn called<R: Threads + Wait + Sync>(
    rt: &R,
    alloc: Global,
    bay: &mut MemBay,
    words: &str,
    trace: &[u8],
) -> Result<(u8, Vec<u8>), Fail>
    requires { NoneOut (mem_bay_state bay.old) }
    ensures { NoneOut (mem_bay_state bay.new) }
{
    let call = Call { words, trace };
    make_call(rt, alloc, bay, ROOMY_THREE.as_bytes(), call, NONE)
}

// Images of which the log of the second has what the others wrote.
fn sound_images<R: Threads + Wait + Sync>(rt: &R, alloc: Global) -> Result<Vec<Vec<Block>>, Fail> {
    let mut bay = MemBay::new(alloc);
    for earlier in AFTER_STAYS {
        let (status, _text) = called(rt, alloc, &mut bay, earlier.words, earlier.trace)?;
        same_at(&status, &0, &earlier.words)?;
    }
    images_of(alloc, &mut bay, &THREE_ROOMY)
}

// What `check` tells of images, `dump` tells too, and `check` again behind it. A replay is refused for it and changes nothing, or
// is run as far as versions go and leaves what is in order. The status of `check`.
fn try_images<R: Threads + Wait + Sync>(
    rt: &R,
    alloc: Global,
    images: &[Vec<Block>],
) -> Result<u8, Fail> {
    let mut bay = bay_of(alloc, &THREE_ROOMY, images)?;
    let (status, text) = called(rt, alloc, &mut bay, "check", b"")?;
    holds_at(matches!(status, 0 | 5 | 6), &status)?;
    let (dumped, _records) = called(rt, alloc, &mut bay, "dump", b"")?;
    same(&dumped, &status)?;
    let (again, retold) = called(rt, alloc, &mut bay, "check", b"")?;
    same(&again, &status)?;
    holds_at(retold == text, &"the second check")?;
    let (played, _answers) = called(rt, alloc, &mut bay, "replay --each", RECLAIMS)?;
    holds_at(played == status || status == 0 && played == 11, &played)?;
    let (left, kept) = called(rt, alloc, &mut bay, "check", b"")?;
    same(&left, &status)?;
    holds_at(status == 0 || kept == text, &"the check behind a replay")?;
    Ok(status)
}

#[test]
fn spoiled_images_are_told_or_are_what_they_say(rt: HostRuntime) -> Result<(), Fail> {
    let alloc = rt.alloc();
    let mut generator = SplitMix64::from_seed(SEED);
    let sound = sound_images(&rt, alloc)?;
    let heads = places_of_heads(alloc, &sound)?;
    let mut in_order = 0u32;
    for number in 0..IMAGES {
        let mut images = sound.clone()?;
        for _ in 0..number % 3 + 1 {
            spoil(&mut generator, &mut images, &heads);
        }
        if try_images(&rt, alloc, &images)? == 0 {
            in_order = in_order.saturating_add(1);
        }
    }
    // both kinds came
    holds_at(20 < in_order && in_order < IMAGES - 20, &in_order)?;
    Ok(())
}

// A text with some of its bytes changed, or cut.
fn spoiled_text(alloc: Global, generator: &mut SplitMix64, text: &[u8]) -> Result<Vec<u8>, Fail> {
    let mut bytes = Vec::from_slice(alloc, text)?;
    for _ in 0..=below(generator, 3) {
        let (at, value) = (below(generator, bytes.len()), one_of(generator, &BYTES, 0));
        if let Some(byte) = bytes.get_mut(at) {
            *byte = value;
        }
    }
    if below(generator, 4) == 0 {
        bytes.truncate(below(generator, text.len()));
    }
    Ok(bytes)
}

#[test]
fn spoiled_configurations_are_told_or_read(rt: HostRuntime) -> Result<(), Fail> {
    let alloc = rt.alloc();
    let mut generator = SplitMix64::from_seed(SEED);
    for _ in 0..CONFIGS {
        let config = spoiled_text(alloc, &mut generator, SMALL_THREE.as_bytes())?;
        let mut bay = MemBay::new(alloc);
        let (status, text) = make_call(&rt, alloc, &mut bay, &config, asked("gen 7 3"), NONE)?;
        holds_at(matches!(status, 0 | 2), &status)?;
        holds_at(status == 0 || text.starts_with(b"fault 2 config "), &status)?;
    }
    Ok(())
}

#[test]
fn spoiled_lines_are_told_or_run(rt: HostRuntime) -> Result<(), Fail> {
    let alloc = rt.alloc();
    let mut generator = SplitMix64::from_seed(SEED);
    let sound = sound_images(&rt, alloc)?;
    for _ in 0..TRACES {
        let trace = spoiled_text(alloc, &mut generator, RECLAIMS)?;
        let mut bay = bay_of(alloc, &THREE_ROOMY, &sound)?;
        let (status, text) = called(&rt, alloc, &mut bay, "replay --each", &trace)?;
        let text = String::from_utf8_lossy(alloc, &text)?;
        let told = text.lines().any(|line| line.starts_with("fault 3 line "));
        holds_at(matches!(status, 0 | 3), &status)?;
        same_at(&told, &(status == 3), &text)?;
        let (left, _lines) = called(&rt, alloc, &mut bay, "check", b"")?;
        same(&left, &0)?;
    }
    Ok(())
}

#[test]
fn a_line_too_long_or_without_its_end_is_told_or_run(rt: HostRuntime) -> Result<(), Fail> {
    let alloc = rt.alloc();
    let sound = sound_images(&rt, alloc)?;
    let mut long = Vec::from_slice(alloc, b"1,u,0,Write,0,512,")?;
    long.resize(5000, b'0')?;
    let rows: [(&[u8], u8); 6] = [
        (&long, 3),
        (b"128166372000000000,u,0,Write,0,512,100", 0),
        (b"128166372000000000,u,0,Write,0,512,1\0", 3),
        (b"128166372000000000,\xc3,0,Write,0,512,100", 0),
        (
            b"18446744073709551615,u,0,Write,18446744073709551615,2,1",
            3,
        ),
        (
            b"128166372000000000,u,0,Write,0,512,18446744073709551616\n",
            3,
        ),
    ];
    for (trace, wanted) in rows {
        let mut bay = bay_of(alloc, &THREE_ROOMY, &sound)?;
        let (status, text) = called(&rt, alloc, &mut bay, "replay --each", trace)?;
        let text = String::from_utf8_lossy(alloc, &text)?;
        same_at(&status, &wanted, &text)?;
    }
    Ok(())
}
