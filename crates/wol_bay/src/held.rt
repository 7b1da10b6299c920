// What a bay in memory keeps: its images, the names that are out, and the faults that it was told of.
ghost use Rattle.std.specs.Prelude.{◌≡◌, ◌≤◌, ◌<◌, ◌+◌, ◌*◌, [], IfOk, length, sum, string_bytes, vec_capacity, vec_len};
ghost use Rattle.wol_bay.specs.Stored.{stored_blocks};
ghost use Rattle.wol_disk.specs.Disk.{only};
ghost use Rattle.wol_disk.specs.Memory.{mem_values};

use crate::names::Entry;
use std::alloc::Global;
use wol_disk::{Block, Disk, MemDisk, NoMemory, StopDisk};

// An image that is in the bay: the parts as which it came back, the bytes behind its last block, and its length in
// bytes.
#[derive(Drop)]
pub struct Image {
    pub name: String,
    pub parts: Vec<StopDisk<MemDisk>>,
    pub rest: Vec<u8>,
    pub bytes: u64,
    ghost in_all: { bytes ≡ 512 * length (stored_blocks parts.items) + length rest.items },
    ghost short: { length rest.items < 512 },
}

// The places of those parts of an image that came back with a fault.
#[derive(Drop)]
pub struct Faulty {
    pub name: String,
    pub places: Vec<usize>,
}

// A name that is out, with the sizes of its parts and the length of its image in bytes, and with the room for what
// there is to tell when it comes back.
#[derive(Drop)]
pub struct Leave {
    pub name: String,
    pub sizes: Vec<u64>,
    pub bytes: u64,
    pub faulty: Faulty,
    ghost in_all: { bytes ≡ 512 * sum sizes.items },
    ghost same_name: { string_bytes faulty.name ≡ string_bytes name },
    ghost none: { faulty.places.items ≡ [] },
    ghost room: { length sizes.items ≤ vec_capacity faulty.places },
}

// A disk that has these blocks and no other values of them.
fn disk_of(alloc: Global, blocks: &[Block]) -> Result<MemDisk, NoMemory>
    ensures { IfOk result (λ disk. mem_values disk ≡ only blocks.now) }
{
    let mut disk = MemDisk::new(alloc, blocks.len() as u64)?;
    // No call of it is planned to fail, so it fails for want of memory only.
    let Ok(()) = disk.write(0, blocks) else {
        return Err(NoMemory);
    };
    let Ok(()) = disk.sync() else {
        return Err(NoMemory);
    };
    Ok(disk)
}

impl Image {
    ghost use Rattle.wol_bay.specs.Bay.{image_of};
    ghost use Rattle.wol_bay.specs.MemBay.{named_image};

    // The image that these bytes are.
    pub fn from_bytes(alloc: Global, name: &str, image: &[u8]) -> Result<Image, NoMemory>
        ensures { IfOk result (λ made. named_image made ≡ (name.now, image_of image.now)) }
    {
        let (blocks, rest) = image.as_chunks();
        let disk = disk_of(alloc, blocks)?;
        let mut parts = Vec::with_capacity(alloc, 1)?;
        parts.push(StopDisk::new(disk, None))?;
        Ok(Image {
            name: String::from_str(alloc, name)?,
            parts,
            rest: Vec::from_slice(alloc, rest)?,
            bytes: image.len() as u64,
        })
    }
}

impl Leave {
    // `bytes` is the length of the image.
    pub fn new(alloc: Global, name: &str, sizes: &[u64], bytes: u64) -> Result<Leave, NoMemory>
        requires { bytes ≡ 512 * sum sizes.now }
        ensures name { IfOk result (λ leave. string_bytes leave.name ≡ name.now) }
        ensures sizes { IfOk result (λ leave. leave.sizes.items ≡ sizes.now) }
    {
        let faulty = Faulty {
            name: String::from_str(alloc, name)?,
            places: Vec::with_capacity(alloc, sizes.len())?,
        };
        Ok(Leave {
            name: String::from_str(alloc, name)?,
            sizes: Vec::from_slice(alloc, sizes)?,
            bytes,
            faulty,
        })
    }
}

impl Entry for Image {
    ghost name_of = { λ image. string_bytes image.name };

    fn name(&self) -> &str {
        self.name.as_str()
    }
}

impl Entry for Leave {
    ghost name_of = { λ leave. string_bytes leave.name };

    fn name(&self) -> &str {
        self.name.as_str()
    }
}
