// All that sees the bytes of the input go by.
use crate::progress::Progress;
use crate::session::Session;
use crate::tally::Tally;
use std::time::Clock;
use wol_io::Watch;

// The commas of a line of a trace.
const COMMAS: u64 = 6;

/// How far the input is, what its lines are or its requests, and what it begins with.
#[derive(Drop)]
pub struct Watching<'a, R: Clock + Eprint> {
    progress: Progress<'a, R>,
    tally: Option<Tally>,
    session: Option<Session>,
    front: [u8; 2],
    seen: usize,
    // The commas of the first line, and whether it goes on.
    commas: u64,
    is_first: bool,
}

impl<'a, R: Clock + Eprint + Drop> Watching<'a, R> {
    pub fn new(
        progress: Progress<'a, R>,
        tally: Option<Tally>,
        session: Option<Session>,
    ) -> Watching<'a, R> {
        Watching {
            progress,
            tally,
            session,
            front: [0; 2],
            seen: 0,
            commas: 0,
            is_first: true,
        }
    }

    pub fn progress(&self) -> &Progress<'a, R> {
        &self.progress
    }

    pub fn session(&self) -> Option<&Session> {
        self.session.as_ref()
    }

    /// The first two bytes, as far as there were any.
    pub fn front(&self) -> &[u8] {
        self.front.get(..self.seen).unwrap_or(&[])
    }

    /// Whether the bytes are those of a compressed file.
    pub fn is_compressed(&self) -> bool {
        self.front().starts_with(&[0x1f, 0x8b])
    }

    /// Whether the first line has as many fields as each line of a trace, and begins with a letter: it is a heading.
    pub fn is_headed(&self) -> bool {
        let is_letter = self
            .front()
            .first()
            .is_some_and(|byte| byte.is_ascii_alphabetic());
        is_letter && self.commas == COMMAS
    }

    // Counts the commas of the first line.
    fn see_first(&mut self, bytes: &[u8]) {
        for byte in bytes {
            if *byte == b'\n' {
                self.is_first = false;
                return;
            }
            if *byte == b',' {
                self.commas = self.commas.saturating_add(1);
            }
        }
    }

    /// What the lines were, at their end.
    pub fn into_tally(self) -> Option<Tally> {
        let mut tally = self.tally?;
        tally.end();
        Some(tally)
    }
}

impl<'a, R: Clock + Eprint + Drop> Watch for Watching<'a, R> {
    fn see(&mut self, bytes: &[u8]) {
        for byte in bytes.iter().take(2) {
            if let Some(place) = self.front.get_mut(self.seen) {
                *place = *byte;
                self.seen += 1;
            }
        }
        if self.is_first {
            self.see_first(bytes);
        }
        if let Some(tally) = &mut self.tally {
            tally.see(bytes);
        }
        if let Some(session) = &mut self.session {
            session.see(bytes);
        }
        self.progress.see(bytes);
    }
}

/// A watch that is lent, so that its owner has it again.
#[derive(Drop)]
pub struct Lent<'b, W>(&'b mut W);

impl<'b, W: Watch> Lent<'b, W> {
    pub fn new(watch: &'b mut W) -> Lent<'b, W> {
        Lent(watch)
    }
}

impl<'b, W: Watch> Watch for Lent<'b, W> {
    fn see(&mut self, bytes: &[u8]) {
        self.0.see(bytes);
    }
}
