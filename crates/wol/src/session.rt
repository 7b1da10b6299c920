// What a client asked for, by the bytes that it sent.
use std::alloc::{AllocError, Global};

// The bytes of a request in front of its data, and of an option of the handshake.
const REQUEST_BYTES: usize = 28;

const OPTION_BYTES: usize = 16;

// The flags that a client's handshake begins with.
const FLAG_BYTES: u64 = 4;

const READ: u16 = 0;

const WRITE: u16 = 1;

const DISC: u16 = 2;

const FLUSH: u16 = 3;

/// Counts of a client's requests.
#[derive(Drop)]
pub struct Session {
    // The front of a request or of an option, and how many of its bytes came.
    head: [u8; REQUEST_BYTES],
    held: usize,
    // How many bytes behind it are passed over.
    data: u64,
    reads: u64,
    writes: u64,
    flushes: u64,
    others: u64,
    is_ended: bool,
    is_lost: bool,
}

impl Session {
    /// No requests yet, of a client that begins at once or with a handshake.
    pub fn new(is_handshake: bool) -> Session {
        Session {
            head: [0; REQUEST_BYTES],
            held: 0,
            data: if is_handshake { FLAG_BYTES } else { 0 },
            reads: 0,
            writes: 0,
            flushes: 0,
            others: 0,
            is_ended: false,
            is_lost: false,
        }
    }

    /// These bytes of the client come next.
    pub fn see(&mut self, bytes: &[u8]) {
        let mut rest = bytes;
        for _ in 0..bytes.len() {
            if rest.is_empty() || self.is_lost {
                return;
            }
            if self.data > 0 {
                let count = self.data.min(rest.len() as u64);
                self.data -= count;
                rest = &rest[count as usize..];
            } else {
                rest = self.take(rest);
            }
        }
    }

    // Takes bytes of a front, at least one, and gives the others.
    fn take<'a>(&mut self, bytes: &'a [u8]) -> &'a [u8] {
        let Some((byte, rest)) = bytes.split_first() else {
            return bytes;
        };
        if let Some(place) = self.head.get_mut(self.held) {
            *place = *byte;
            self.held += 1;
        }
        if self.held == OPTION_BYTES && self.head.starts_with(b"IHAVEOPT") {
            self.data = u64::from(self.word_at(12));
            self.held = 0;
        } else if self.held == 4 && !self.is_begun() {
            self.is_lost = true;
        } else if self.held >= REQUEST_BYTES {
            self.count();
            self.held = 0;
        }
        rest
    }

    // Whether the front begins as a request or an option does.
    fn is_begun(&self) -> bool {
        self.head.starts_with(&[0x25, 0x60, 0x95, 0x13]) || self.head.starts_with(b"IHAV")
    }

    fn word_at(&self, place: usize) -> u32 {
        let mut word: u32 = 0;
        for byte in self.head.iter().skip(place).take(4) {
            word = word.wrapping_mul(256).wrapping_add(u32::from(*byte));
        }
        word
    }

    fn count(&mut self) {
        let command = (self.word_at(4) % 65536) as u16;
        match command {
            READ => self.reads = self.reads.saturating_add(1),
            WRITE => {
                self.writes = self.writes.saturating_add(1);
                self.data = u64::from(self.word_at(24));
            }
            DISC => self.is_ended = true,
            FLUSH => self.flushes = self.flushes.saturating_add(1),
            _ => self.others = self.others.saturating_add(1),
        }
    }

    /// A line on the session of a volume, which ended with this status.
    pub fn line(&self, alloc: Global, status: u8) -> Result<String, AllocError> {
        let end = match status {
            0 if self.is_ended => "the client ended it",
            0 => "the client went away",
            7 => "the client took no more replies",
            8 => "the client's bytes could not be read",
            14 => "the client sent no request",
            _ => "it could not go on",
        };
        let (reads, writes, flushes) = (self.reads, self.writes, self.flushes);
        let others = self.others;
        format!(in alloc;
            "wol: session over, {end}: reads {reads}, writes {writes}, flushes {flushes}, others {others}.\n"
        )
    }
}
