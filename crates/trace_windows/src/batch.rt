// The requests of a window.
ghost use Rattle.msr_trace.specs.Lines.{Fits, trace_line};
ghost use Rattle.std.specs.Prelude.{◌≡◌, ◌+◌, ◌<◌, ◌≤◌, ◌^◌, true, not, length, IfOk, IfSome, OnOk, OnErr};
ghost use Rattle.trace_gen.specs.Generated.{targets_of};
ghost use Rattle.trace_windows.specs.Batches.{Admits, IsPut, no_lines, with_line};
ghost use Rattle.trace_windows.specs.Requests.{numbered};
ghost use Rattle.wol_config.specs.Configs.{IsValid, most_of};
ghost use Rattle.wol_model.specs.Trace.{requests_on};

use crate::asking::push_requests;
use crate::request::Request;
use msr_trace::Line;
use std::alloc::Global;
use std::marker::Model;
use std::mem;
use wol_config::Config;
use wol_disk::NoMemory;

/// A line joins a window only within this time after the window's first line, in units of 100 ns: a second.
const SPAN: u64 = 10_000_000;

/// The most lines of a window.
const LINES_MAX: u32 = 4_096;

/// The most requests of a window that has more than one line.
const REQUESTS_MAX: u64 = 65_536;

/// The requests of a window, in order.
#[derive(Drop)]
pub struct Batch {
    moment: u64,
    lines: u32,
    requests: Vec<Request>,
}

impl Model for Batch {
    ghost use Rattle.std.specs.Prelude.{◌≡◌, ◌≤◌, length};
    ghost use Rattle.trace_windows.specs.Batches.{Batched};

    ghost Value = { Batched };

    ghost view = { λ b. record { moment = b.moment; lines = b.lines; requests = b.requests.items } };

    ghost invariant = { λ b. (length b.requests.items ≤ 131073) × (b.lines ≡ 0 → length b.requests.items ≡ 0) };
}

/// A line, and where it stands in the trace.
#[derive(Clone, Copy)]
pub(crate) struct Entry {
    /// The line's number, counted from 1 with blank lines.
    pub number: u64,
    /// The time that it counts for.
    pub time: u64,
    /// The volume that it belongs to.
    pub volume: Option<usize>,
    /// The number of its first request.
    pub next: u64,
}

impl Batch {
    pub(crate) fn new(alloc: Global) -> Batch
        ensures { result ≡ no_lines }
    {
        Batch {
            moment: 0,
            lines: 0,
            requests: Vec::new(alloc),
        }
    }

    /// When the window began: the time of its first line, in units of 100 ns.
    pub fn moment(&self) -> u64
        ensures { result ≡ self.now.moment }
    {
        self.moment
    }

    /// How many lines it has, with those that belong to no volume. There is no line only before the first line of a trace,
    /// and where no window is whole.
    pub fn lines(&self) -> u32
        ensures { result ≡ self.now.lines }
    {
        self.lines
    }

    /// The requests: at most 65,536, or those of one line, which are at most 131,073.
    pub fn requests(&self) -> &[Request]
        ensures content { result.now ≡ self.now.requests }
        ensures few { length result.now ≤ 131073 }
    {
        self.requests.as_slice()
    }

    /// Takes all lines out. The room stays.
    pub(crate) fn clear(&mut self)
        ensures { self.new ≡ no_lines }
    {
        self.moment = 0;
        self.lines = 0;
        self.requests.clear();
    }

    /// Whether a line of this time, with so many requests, goes into the window: one does where there is no line yet.
    pub(crate) fn admits(&self, time: u64, count: u64) -> bool
        requires later { self.now.moment ≤ time }
        requires few { count ≤ 131073 }
        ensures admits { Admits self.now time count result }
        ensures few { result ≡ true → self.now.lines < 4096 }
        ensures room { result ≡ true → length self.now.requests + count ≤ 131073 }
    {
        self.lines == 0
            || (time - self.moment < SPAN
                && self.lines < LINES_MAX
                && self.requests.len() as u64 + count <= REQUESTS_MAX)
    }

    /// Puts the requests of a line behind the others. `NoMemory` leaves the window as it was.
    pub(crate) fn push(
        &mut self,
        config: &Config,
        line: &Line,
        entry: Entry,
    ) -> Result<(), NoMemory>
        requires valid { IsValid config.now }
        requires within { IfSome entry.volume (λ v. v < length config.now.volumes.items) }
        requires fits { Fits (trace_line line.now) }
        requires next { entry.next ≤ 2 ^ 62 }
        requires few { self.old.lines < 4096 }
        requires room { length self.old.requests
            + length (requests_on (most_of config.now) (targets_of config.now) entry.number
            (trace_line line.now) entry.volume) ≤ 131073 }
        ensures ok { OnOk result (self.new
            ≡ with_line entry.time (numbered entry.next
            (requests_on (most_of config.now) (targets_of config.now) entry.number
            (trace_line line.now) entry.volume)) self.old) }
        ensures err { OnErr result (self.new ≡ self.old) }
    {
        push_requests(
            config,
            line,
            entry.number,
            entry.volume,
            entry.next,
            &mut self.requests,
        )?;
        if self.lines == 0 {
            self.moment = entry.time;
        }
        self.lines += 1;
        Ok(())
    }
}

/// Puts a line into the open window where that admits it. Else the open window is whole, and the line opens the next one.
/// Answers whether that is so. `NoMemory` leaves both windows as they were.
pub(crate) fn put_line(
    current: &mut Batch,
    whole: &mut Batch,
    config: &Config,
    line: &Line,
    entry: Entry,
    count: u64,
) -> Result<bool, NoMemory>
    requires valid { IsValid config.now }
    requires within { IfSome entry.volume (λ v. v < length config.now.volumes.items) }
    requires fits { Fits (trace_line line.now) }
    requires next { entry.next ≤ 2 ^ 62 }
    requires later { current.old.moment ≤ entry.time }
    requires few { count ≤ 131073 }
    requires count { length (requests_on (most_of config.now) (targets_of config.now) entry.number
        (trace_line line.now) entry.volume) ≡ count }
    requires none { whole.old ≡ no_lines }
    ensures admits { IfOk result (λ closes. Admits current.old entry.time count (not closes)) }
    ensures ok { IfOk result (λ closes.
        IsPut entry.time (numbered entry.next
        (requests_on (most_of config.now) (targets_of config.now) entry.number
        (trace_line line.now) entry.volume)) current.old current.new whole.new closes) }
    ensures err { OnErr result ((current.new ≡ current.old) × (whole.new ≡ whole.old)) }
{
    if current.admits(entry.time, count) {
        current.push(config, line, entry)?;
        return Ok(false);
    }
    whole.push(config, line, entry)?;
    mem::swap(current, whole);
    Ok(true)
}
