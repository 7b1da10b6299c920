// Lines of a trace are taken one by one, and are cut into windows.
ghost use Rattle.msr_trace.specs.Lines.{Fits, trace_line};
ghost use Rattle.std.specs.Prelude.{◌≡◌, ◌+◌, ◌<◌, ◌≤◌, ◌^◌, ℕ, [], Some, option_map, IfOk, IfSome, OnOk, OnErr};
ghost use Rattle.trace_gen.specs.Generated.{targets_of};
ghost use Rattle.trace_windows.specs.Batches.{no_lines};
ghost use Rattle.trace_windows.specs.Cutting.{HasCut, Takes};
ghost use Rattle.wol_config.specs.Configs.{IsValid, most_of};

use crate::asking::{count_requests, volume_of};
use crate::batch::{Batch, Entry, put_line};
use crate::tally::Tally;
use msr_trace::Line;
use std::alloc::Global;
use std::marker::Model;
use wol_config::Config;
use wol_disk::NoMemory;

/// Cuts a trace into windows. It keeps the requests of the open window, and of the window that the last line made whole.
#[derive(Drop)]
pub struct Cutter {
    tally: Tally,
    current: Batch,
    whole: Batch,
}

impl Model for Cutter {
    ghost use Rattle.std.specs.Prelude.{◌≤◌, ◌*◌, ◌+◌, ◌^◌};
    ghost use Rattle.trace_windows.specs.Cutting.{Cutting};

    ghost Value = { Cutting };

    ghost view = { λ c. record { tally = c.tally; current = c.current; whole = c.whole } };

    ghost invariant = { λ c. (c.tally.lines ≤ 2 ^ 32) × (c.tally.blank + c.tally.skipped ≤ c.tally.lines) × (c.tally.requests ≤ 131073 * c.tally.lines) × (c.tally.started ≤ c.tally.ended) × (c.current.moment ≤ c.tally.ended) };
}

impl Cutter {
    /// Nothing was taken yet.
    pub fn new(alloc: Global) -> Cutter
        ensures cut { (most : ℕ) (targets : _) → HasCut most targets [] [] result }
        ensures whole { result.whole ≡ no_lines }
        ensures lines { result.tally.lines ≡ 0 }
    {
        Cutter {
            tally: Tally::NONE,
            current: Batch::new(alloc),
            whole: Batch::new(alloc),
        }
    }

    /// Takes the next line, a blank one as None, and tells whether the window before it is whole now. `whole` has that
    /// window until the next call.
    ///
    /// `NoMemory` takes nothing, and the line may be offered again.
    pub fn take(&mut self, config: &Config, line: Option<&Line>) -> Result<bool, NoMemory>
        requires valid { IsValid config.now }
        requires few { self.old.tally.lines < 2 ^ 32 }
        requires fits { IfSome line (λ l. Fits (trace_line l.now)) }
        ensures ok { IfOk result (λ closes. (ls : _) (given : _)
            → HasCut (most_of config.now) (targets_of config.now) ls given self.old
            → Takes (most_of config.now) (targets_of config.now) ls given
            (option_map (λ l. trace_line l.now) line.entry) closes self.new) }
        ensures lines { OnOk result (self.new.tally.lines ≡ self.old.tally.lines + 1) }
        ensures err { OnErr result (self.new ≡ record self.old { whole = no_lines }) }
    {
        self.whole.clear();
        match line {
            Some(line) => self.take_line(config, line),
            None => {
                self.tally.add_blank();
                Ok(false)
            }
        }
    }

    // Takes a line that isn't blank, while no window is whole.
    fn take_line(&mut self, config: &Config, line: &Line) -> Result<bool, NoMemory>
        requires valid { IsValid config.now }
        requires few { self.old.tally.lines < 2 ^ 32 }
        requires fits { Fits (trace_line line.now) }
        requires none { self.old.whole ≡ no_lines }
        ensures ok { IfOk result (λ closes. (ls : _) (given : _)
            → HasCut (most_of config.now) (targets_of config.now) ls given self.old
            → Takes (most_of config.now) (targets_of config.now) ls given
            (Some (trace_line line.now)) closes self.new) }
        ensures lines { OnOk result (self.new.tally.lines ≡ self.old.tally.lines + 1) }
        ensures err { OnErr result (self.new ≡ self.old) }
    {
        let volume = volume_of(config.volumes.as_slice(), line);
        let count = count_requests(config, line, volume);
        let entry = Entry {
            number: self.tally.lines + 1,
            time: self.tally.ended.max(line.time),
            volume,
            next: self.tally.requests,
        };
        let closes = put_line(
            &mut self.current,
            &mut self.whole,
            config,
            line,
            entry,
            count,
        )?;
        self.tally.add_line(entry.time, volume.is_none(), count);
        Ok(closes)
    }

    /// The open window. At the end of a trace it is the last one, if it has a line.
    pub fn current(&self) -> &Batch
        ensures { result.now ≡ self.now.current }
    {
        &self.current
    }

    /// The window that the last line made whole. It has no line where that line made none whole.
    pub fn whole(&self) -> &Batch
        ensures { result.now ≡ self.now.whole }
    {
        &self.whole
    }

    /// What was counted of the lines that were taken.
    pub fn tally(&self) -> Tally
        ensures value { result ≡ self.now.tally }
        ensures order { result.started ≤ result.ended }
    {
        self.tally
    }
}
