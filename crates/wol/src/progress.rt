// How far a long trace is, on standard error.
use std::cell::Cell;
use std::env;
use std::io::IsTerminal;
use std::rt::Env;
use std::time::{Clock, Instant};
use wol_io::Watch;

/// Counts the lines that go by, and tells them and their rate at most once a second, each time over what it told before.
#[derive(Drop)]
pub struct Progress<'a, R: Clock + Eprint> {
    rt: R,
    lines: u64,
    began: Option<Instant>,
    told: Option<Instant>,
    is_told: &'a Cell<bool>,
}

impl<'a, R: Clock + Eprint> Progress<'a, R> {
    /// It begins at this moment. It tells nothing where it is not wanted, or where there is no clock. The cell says whether the
    /// line that it told stands on the terminal yet.
    pub fn new(rt: R, is_wanted: bool, is_told: &'a Cell<bool>) -> Progress<'a, R> {
        let began = if is_wanted {
            Instant::now(&rt).ok()
        } else {
            None
        };
        Progress {
            rt,
            lines: 0,
            began,
            told: None,
            is_told,
        }
    }

    /// Ends the line, if one stands there.
    pub fn end(&self) {
        if self.is_told.get() {
            self.is_told.set(false);
            let _ = self.rt.eprintln("");
        }
    }

    // Tells how far it is, where a second has gone by since it did last.
    fn tell(&mut self, began: Instant) {
        let Ok(now) = Instant::now(&self.rt) else {
            return;
        };
        if now.duration_since(self.told.unwrap_or(began)).as_secs() < 1 {
            return;
        }
        self.told = Some(now);
        self.is_told.set(true);
        let lines = self.lines;
        let s = if lines == 1 { "" } else { "s" };
        let rate = lines / now.duration_since(began).as_secs().max(1);
        let _ = eprint!(self.rt; "\rwol: {lines} line{s}, {rate} a second  ");
    }
}

impl<'a, R: Clock + Eprint> Watch for Progress<'a, R> {
    fn see(&mut self, bytes: &[u8]) {
        let Some(began) = self.began else {
            return;
        };
        for byte in bytes {
            if *byte == b'\n' {
                self.lines = self.lines.saturating_add(1);
            }
        }
        self.tell(began);
    }
}

/// Whether progress is wanted: standard error is a terminal, or the variable WOL_PROGRESS is set, and nothing bounds it.
pub fn is_wanted(rt: &(impl Env + AllocGlobal), errors: &impl IsTerminal, room: u64) -> bool {
    room == u64::MAX && (errors.is_terminal() || env::var(rt, "WOL_PROGRESS").is_ok())
}
