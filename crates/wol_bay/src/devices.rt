// A block device becomes an image of zeros.
use std::alloc::Global;
use std::fs::File;
use std::io::{self, ErrorKind, IsTerminal, Seek, SeekFrom};
use std::os::unix::fs::FileExt;
use std::time::{Clock, Instant};

// So many bytes are looked at at a time, and at the beginning, where file systems and tables of partitions have their marks.
const PIECE: u64 = 1_048_576;

const BLOCK: u64 = 512;

// How an image's first block begins, and its second.
const LABEL: &[u8] = b"WOLVOL01";

const VIEW: &[u8] = b"WOLVIEW1";

/// Makes the first so many bytes of a device zeros, and syncs them. What reads as zeros already isn't written.
///
/// `AlreadyExists` comes where the device isn't an image and has anything else than zeros in its first MiB: nothing is
/// written then. `InvalidInput` comes where it is shorter. After a stop within, it is no image, and may be made one. On a terminal it
/// is told how far that is.
pub fn make_zero(rt: &HostRuntime, alloc: Global, device: &mut File, bytes: u64) -> io::Result<()> {
    let length = device.seek(SeekFrom::End(0))?;
    if length < bytes {
        return Err(io::Error::from(ErrorKind::InvalidInput));
    }
    let mut piece = vec![in alloc; 0u8; PIECE as usize]?;
    let first = room_for(&mut piece, length);
    device.read_exact_at(first, 0)?;
    let was_image = is_image(first);
    if !was_image && !are_zero(first) {
        return Err(io::Error::from(ErrorKind::AlreadyExists));
    }
    if was_image {
        // no label, and yet the mark of an image
        write_first(device, LABEL)?;
    }
    let mut told = Told::new(rt);
    let done = zero_pieces(rt, device, &mut piece, bytes, &mut told);
    told.end(rt);
    done?;
    device.sync_all()?;
    if was_image {
        write_first(device, b"")?;
    }
    Ok(())
}

// Makes all but the first block zeros, and tells how far that is.
fn zero_pieces(
    rt: &HostRuntime,
    device: &File,
    piece: &mut [u8],
    bytes: u64,
    told: &mut Told,
) -> io::Result<()> {
    for number in 0..bytes.div_ceil(PIECE) {
        let from = number.saturating_mul(PIECE).max(BLOCK);
        let end = number.saturating_add(1).saturating_mul(PIECE).min(bytes);
        zero_piece(device, room_for(piece, end.saturating_sub(from)), from)?;
        told.tell(rt, end, bytes);
    }
    Ok(())
}

// So much of the piece, or all of it.
fn room_for(piece: &mut [u8], bytes: u64) -> &mut [u8] {
    let size = bytes.min(piece.len() as u64) as usize;
    &mut piece[..size]
}

// Whether the bytes are the beginning of an image, or of what a stop within a format left of one.
fn is_image(first: &[u8]) -> bool {
    let Some((label, rest)) = first.split_at_checked(BLOCK as usize) else {
        return false;
    };
    label.starts_with(LABEL) || are_zero(label) && rest.starts_with(VIEW)
}

fn are_zero(bytes: &[u8]) -> bool {
    bytes.iter().all(|byte| *byte == 0)
}

// Writes the first block, of these bytes and zeros behind them, and syncs it.
fn write_first(device: &File, begin: &[u8]) -> io::Result<()> {
    let mut block = [0; BLOCK as usize];
    for (to, from) in block.iter_mut().zip(begin) {
        *to = *from;
    }
    device.write_all_at(&block, 0)?;
    device.sync_all()
}

// Makes so many bytes of the device zeros as the room has, unless they read as that.
fn zero_piece(device: &File, room: &mut [u8], from: u64) -> io::Result<()> {
    device.read_exact_at(room, from)?;
    if are_zero(room) {
        return Ok(());
    }
    room.fill(0);
    device.write_all_at(room, from)
}

// What is told of a long format, at most once a second, over what was told before.
#[derive(Drop)]
struct Told {
    last: Option<Instant>,
    stands: bool,
}

impl Told {
    // It tells nothing where standard error is no terminal, or where there is no clock.
    fn new(rt: &HostRuntime) -> Told {
        let last = if rt.stderr().is_terminal() {
            Instant::now(rt).ok()
        } else {
            None
        };
        Told {
            last,
            stands: false,
        }
    }

    fn tell(&mut self, rt: &HostRuntime, done: u64, bytes: u64) {
        let (Some(last), Ok(now)) = (self.last, Instant::now(rt)) else {
            return;
        };
        if now.duration_since(last).as_secs() < 1 {
            return;
        }
        self.last = Some(now);
        self.stands = true;
        let _ = eprint!(rt;
            "\rwol: {} of {} MiB are zeros  ",
            done / PIECE,
            bytes / PIECE
        );
    }

    // Ends the line, if one stands there.
    fn end(&self, rt: &HostRuntime) {
        if self.stands {
            let _ = rt.eprintln("");
        }
    }
}
