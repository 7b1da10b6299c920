// What is counted of the lines of a trace.
ghost use Rattle.std.specs.Prelude.{◌≡◌, ◌+◌, ◌-◌, ◌<◌, ◌≤◌, ◌^◌, ◌==◌, if◌then◌else◌};

/// What was counted of the lines that were taken.
#[derive(Clone, Copy, Debug, PartialEq, Eq)]
pub struct Tally {
    /// All lines.
    pub lines: u64,
    pub blank: u64,
    /// Lines that belong to no volume.
    pub skipped: u64,
    /// The requests of the lines.
    pub requests: u64,
    /// The time of the first line that isn't blank, in units of 100 ns.
    pub started: u64,
    /// The time of the last line that isn't blank, in units of 100 ns.
    pub ended: u64,
}

impl Tally {
    pub(crate) const NONE: Tally = Tally {
        lines: 0,
        blank: 0,
        skipped: 0,
        requests: 0,
        started: 0,
        ended: 0,
    };

    /// The time from the first line to the last, in units of 100 ns.
    pub fn span(&self) -> u64
        requires { self.now.started ≤ self.now.ended }
        ensures { result ≡ self.now.ended - self.now.started }
    {
        self.ended - self.started
    }

    /// Counts a blank line.
    pub(crate) fn add_blank(&mut self)
        requires lines { self.old.lines < 2 ^ 32 }
        requires blank { self.old.blank < 2 ^ 32 }
        ensures { self.new
            ≡ record self.old { lines = self.old.lines + 1; blank = self.old.blank + 1 } }
    {
        self.lines += 1;
        self.blank += 1;
    }

    /// Counts a line that isn't blank.
    pub(crate) fn add_line(&mut self, time: u64, is_skipped: bool, requests: u64)
        requires lines { self.old.lines < 2 ^ 32 }
        requires skipped { self.old.skipped < 2 ^ 32 }
        requires before { self.old.requests ≤ 2 ^ 62 }
        requires few { requests ≤ 131073 }
        ensures lines { self.new.lines ≡ self.old.lines + 1 }
        ensures blank { self.new.blank ≡ self.old.blank }
        ensures skipped { self.new.skipped ≡ self.old.skipped + (if is_skipped then 1 else 0) }
        ensures requests { self.new.requests ≡ self.old.requests + requests }
        ensures started { self.new.started
            ≡ (if self.old.lines == self.old.blank then time else self.old.started) }
        ensures ended { self.new.ended ≡ time }
    {
        if self.lines == self.blank {
            self.started = time;
        }
        self.lines += 1;
        if is_skipped {
            self.skipped += 1;
        }
        self.requests += requests;
        self.ended = time;
    }
}
