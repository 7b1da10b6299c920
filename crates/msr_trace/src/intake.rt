// The bytes that were taken from a source and not given yet.
ghost use Rattle.msr_trace.specs.Intake.{Takes};
ghost use Rattle.msr_trace.specs.Lines.{is_feed};
ghost use Rattle.std.specs.Io.KnownBytes.{Consumes, IsAtEnd, Keeps};
ghost use Rattle.std.specs.List.{list_any, position_or_len};
ghost use Rattle.std.specs.Prelude.{◌≡◌, ◌+◌, ◌-◌, ◌<◌, ◌≤◌, ◌⊎◌, true, false, [], length, drop, take, position, MatchBool, OnOk, OnErr, IfOk};
ghost use Rattle.wol_disk.specs.Disk.{Rose};

use crate::parse::LINE_MAX;
use std::marker::Model;
use wol_disk::Failed;
use wol_io::Source;

/// A source, and what was taken from it: at most 8,192 bytes are held.
#[derive(Drop)]
pub struct Intake<S: Source> {
    source: S,
    buffer: [u8; 8192],
    start: usize,
    end: usize,
    ended: bool,
}

impl<S: Source> Model for Intake<S> {
    ghost use Rattle.msr_trace.specs.Intake.{Held};
    ghost use Rattle.std.specs.Io.KnownBytes.{IsAtEnd};
    ghost use Rattle.std.specs.Prelude.{◌≡◌, ◌-◌, ◌≤◌, true, take, drop};

    ghost Value = { Held S };

    ghost view = { λ i. record { source = i.source; bytes = take (i.end - i.start) (drop i.start i.buffer); ended = i.ended } };

    ghost invariant = { λ i. (i.start ≤ i.end) × (i.end ≤ 8192) × (i.ended ≡ true → IsAtEnd (S.left i.source)) };
}

impl<S: Source> Intake<S> {
    pub fn new(source: S) -> Intake<S>
        ensures { result ≡ record { source = source; bytes = []; ended = false } }
    {
        Intake {
            source,
            buffer: [0; 8192],
            start: 0,
            end: 0,
            ended: false,
        }
    }

    pub fn into_source(self) -> S
        ensures { result ≡ self.source }
    {
        let Intake {
            source,
            buffer: _,
            start: _,
            end: _,
            ended: _,
        } = self;
        source
    }

    /// What is held.
    pub fn bytes(&self) -> &[u8]
        ensures value { result.now ≡ self.now.bytes }
        ensures size { length self.now.bytes ≤ 8192 }
        ensures end { self.now.ended ≡ true → IsAtEnd (S.left self.now.source) }
    {
        &self.buffer[self.start..self.end]
    }

    /// Whether the source has told that nothing is left.
    pub fn has_ended(&self) -> bool
        ensures value { result ≡ self.now.ended }
        ensures end { self.now.ended ≡ true → IsAtEnd (S.left self.now.source) }
    {
        self.ended
    }

    /// Gives the first bytes.
    pub fn skip(&mut self, count: usize)
        requires { count ≤ length self.old.bytes }
        ensures { self.new ≡ record {
          source = self.old.source;
          bytes = drop count self.old.bytes;
          ended = self.old.ended;
        } }
    {
        self.start += count;
    }

    /// Takes one byte or more, or learns that nothing is left.
    fn take_more(&mut self) -> Result<(), Failed>
        requires room { length self.old.bytes < 8192 }
        requires open { self.old.ended ≡ false }
        ensures takes { Takes S.left S.faults S.borrow self.old self.new }
        ensures grows { OnOk result
            ((self.new.ended ≡ true) ⊎ (length self.old.bytes < length self.new.bytes)) }
        ensures size { length self.new.bytes ≤ 8192 }
        ensures err { OnErr result (self.new.bytes ≡ self.old.bytes) }
        ensures cause { OnErr result (Rose (S.faults self.old.source) (S.faults self.new.source)) }
        ensures calm { OnOk result (S.faults self.new.source ≡ S.faults self.old.source) }
    {
        let held = self.end - self.start;
        close_up(&mut self.buffer, self.start, held);
        self.start = 0;
        self.end = held;
        let count = read_after(&mut self.source, &mut self.buffer, held)?;
        self.end = held + count;
        self.ended = count == 0;
        Ok(())
    }

    // Whether the first line goes on behind what is held, where this is the place of the first line feed or the length.
    fn is_cut(&self, end: usize) -> bool
        requires { end ≤ length self.now.bytes }
        ensures { MatchBool result ((end ≡ length self.now.bytes) × (end ≤ 4096)
            × (self.now.ended ≡ false))
            ((end < length self.now.bytes) ⊎ ((self.now.ended ≡ true) ⊎ (4096 < end))) }
    {
        end == self.bytes().len() && end <= LINE_MAX && !self.has_ended()
    }

    /// Takes bytes until a first one is held, unless nothing is left.
    pub fn take_first(&mut self) -> Result<(), Failed>
        ensures takes { Takes S.left S.faults S.borrow self.old self.new }
        ensures some { OnOk result ((self.new.ended ≡ true) ⊎ (0 < length self.new.bytes)) }
        ensures err { OnErr result (self.new.bytes ≡ []) }
        ensures size { length self.new.bytes ≤ 8192 }
        ensures cause { OnErr result (Rose (S.faults self.old.source) (S.faults self.new.source)) }
        ensures calm { OnOk result (S.faults self.new.source ≡ S.faults self.old.source) }
    {
        if self.ended || self.start < self.end {
            return Ok(());
        }
        self.take_more()
    }

    /// Takes bytes until the first line is whole, and answers how many bytes come before its line feed. A line ends where
    /// nothing is left, too; one that is known to be too long isn't taken whole.
    pub fn take_line(&mut self) -> Result<usize, Failed>
        ensures takes { Takes S.left S.faults S.borrow self.old self.new }
        ensures first { IfOk result (λ length. length ≡ position_or_len is_feed self.new.bytes) }
        ensures whole { IfOk result (λ count.
            (count < length self.new.bytes) ⊎ ((self.new.ended ≡ true) ⊎ (4096 < count))) }
        ensures err { OnErr result (list_any is_feed self.new.bytes ≡ false) }
        ensures size { length self.new.bytes ≤ 8192 }
        ensures cause { OnErr result (Rose (S.faults self.old.source) (S.faults self.new.source)) }
        ensures calm { OnOk result (S.faults self.new.source ≡ S.faults self.old.source) }
    {
        let mut end = first_feed(self.bytes(), 0);
        'taking: while self.is_cut(end) {
            self.take_more()?;
            end = first_feed(self.bytes(), end);
        }
        Ok(end)
    }
}

// Moves what is held to the front of the buffer.
fn close_up(buffer: &mut [u8], start: usize, held: usize)
    requires { start + held ≤ length buffer.old }
    ensures { take held buffer.new ≡ take held (drop start buffer.old) }
{
    if start > 0 {
        buffer.copy_within(start..start + held, 0);
    }
}

// Reads what comes next behind what is held.
fn read_after<S: Source>(source: &mut S, buffer: &mut [u8], held: usize) -> Result<usize, Failed>
    requires { held < length buffer.old }
    ensures size { IfOk result (λ count. held + count ≤ length buffer.new) }
    ensures held { take held buffer.new ≡ take held buffer.old }
    ensures content { IfOk result (λ count.
        Consumes (S.left source.old) (S.left source.new) (take count (drop held buffer.new))) }
    ensures end { IfOk result (λ count. count ≡ 0 → IsAtEnd (S.left source.new)) }
    ensures kept { OnErr result (Keeps (S.left source.old) (S.left source.new)) }
    ensures later { S.faults source.old ≤ S.faults source.new }
    ensures cause { OnErr result (Rose (S.faults source.old) (S.faults source.new)) }
    ensures calm { OnOk result (S.faults source.new ≡ S.faults source.old) }
    ensures same_borrow { S.borrow source.new ≡ S.borrow source.old }
{
    source.read(&mut buffer[held..])
}

// The place of the first line feed, or the length where there is none; none stands before `from`.
fn first_feed(bytes: &[u8], from: usize) -> usize
    requires within { from ≤ length bytes.now }
    requires none { list_any is_feed (take from bytes.now) ≡ false }
    ensures first { result ≡ position_or_len is_feed bytes.now }
    ensures within { result ≤ length bytes.now }
{
    match feed_in(&bytes[from..]) {
        Some(at) => from + at,
        None => bytes.len(),
    }
}

fn feed_in(bytes: &[u8]) -> Option<usize>
    ensures { result ≡ position is_feed bytes.now }
{
    memchr::memchr(b'\n', bytes)
}
