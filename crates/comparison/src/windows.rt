// The windows of a trace, run one after another by each policy.
ghost use Rattle.comparison.specs.Asked.{ask_of, asked_by, asked_of, comparison_of, counts_text, tells_more};
ghost use Rattle.comparison.specs.Side.{HasBegun, HasTaken, HasTakenSome, IsBehind, MayRun};
ghost use Rattle.msr_trace.specs.Lines.{Fits, trace_line};
ghost use Rattle.std.specs.List.{AllByRecursion};
ghost use Rattle.std.specs.Prelude.{◌≡◌, ◌<◌, ◌≤◌, ◌+◌, ◌-◌, ◌*◌, ◌^◌, ◌++◌, ◌∷◌, [], List, length, map, option_map, IfOk, IfSome, OnOk, is_some, if◌then◌else◌};
ghost use Rattle.trace_gen.specs.Generated.{targets_of};
ghost use Rattle.trace_windows.specs.Requests.{IsInside, asked};
ghost use Rattle.whatif.specs.Machine.{Asked};
ghost use Rattle.wol_config.specs.Configs.{IsValid, most_of};
ghost use Rattle.wol_model.specs.Trace.{ended, started, timed};

use crate::machines::Machines;
use msr_trace::Line;
use report::Word::{Number, Text};
use report::append_line;
use std::alloc::Global;
use trace_windows::{Batch, Cutter, Request, Tally};
use whatif::{Ask, Details};
use wol_config::Config;
use wol_disk::NoMemory;

/// The machines of the policies, behind the windows that they ran.
#[derive(Drop)]
pub(crate) struct Comparison {
    pub machines: Machines,
    /// Whether a window was run. The account begins with the first one.
    pub started: bool,
    /// What the last window asked. The room is used again.
    pub asks: Vec<Ask>,
}

// What a request asks of its volume.
fn ask_of(request: &Request) -> Ask
    ensures { result ≡ ask_of (asked request.now) }
{
    Ask {
        volume: request.volume,
        kind: request.kind,
        lbn: request.lbn,
        count: request.count,
    }
}

// What requests ask, in place of what stood there.
fn gather(requests: &[Request], asks: &mut Vec<Ask>) -> Result<(), NoMemory>
    ensures { OnOk result (asks.new.items ≡ map (λ r. ask_of (asked r)) requests.now) }
{
    asks.clear();
    for request in requests {
        asks.push(ask_of(request))?;
    }
    Ok(())
}

// Appends what was read: the lines, and the time from the first to the last.
#[tactic(auto, unfolding(crate::specs::Asked::counts_text))]
fn counts_lines(tally: &Tally, out: &mut Vec<u8>) -> Result<(), NoMemory>
    ensures { OnOk result (out.new.items ≡ out.old.items
        ++ counts_text tally.now.lines tally.now.blank tally.now.skipped
        (tally.now.ended - tally.now.started)) }
{
    append_line(
        &[
            Text(b"lines"),
            Number(tally.lines),
            Text(b"blank"),
            Number(tally.blank),
            Text(b"skipped"),
            Number(tally.skipped),
        ],
        out,
    )?;
    let span = tally.ended.saturating_sub(tally.started);
    append_line(&[Text(b"span"), Number(span)], out)
}

// What is told ahead of the policies: what was read, or nothing.
fn heading(alloc: Global, long: bool, tally: &Tally) -> Result<Vec<u8>, NoMemory>
    ensures { IfOk result (λ text. text.items
        ≡ (if long then counts_text tally.now.lines tally.now.blank tally.now.skipped
        (tally.now.ended - tally.now.started) else [])) }
{
    let mut text = Vec::new(alloc);
    if long {
        counts_lines(tally, &mut text)?;
    }
    Ok(text)
}

// Others take the place of these machines.
fn replace(machines: &mut Machines, others: Machines)
    ensures { machines.new ≡ others }
{
    *machines = others;
}

impl Comparison {
    /// No window was run.
    pub(crate) fn new(alloc: Global, config: &Config, more: bool) -> Result<Comparison, NoMemory>
        requires { IsValid config.now }
        ensures more { IfOk result (λ s. is_some s.machines.views ≡ more) }
        ensures behind { IfOk result (IsBehind config.now []) }
        ensures none { IfOk result (λ s. s.machines.always.asked ≡ 0) }
    {
        Ok(Comparison {
            machines: Machines::new(alloc, config, more, 0)?,
            started: false,
            asks: Vec::new(alloc),
        })
    }

    // The account begins at this moment, where no window was run.
    fn begin(&mut self, alloc: Global, config: &Config, moment: u64) -> Result<(), NoMemory>
        requires valid { IsValid config.now }
        requires may { MayRun config.now moment self.old }
        ensures begun { OnOk result ((ws : List Asked) → IsBehind config.now ws self.old
            → HasBegun config.now moment ws self.new) }
        ensures few { OnOk result (self.new.machines.always.asked ≤ self.old.machines.always.asked) }
        ensures more { OnOk result
            (is_some self.new.machines.views ≡ is_some self.old.machines.views) }
    {
        if self.started {
            return Ok(());
        }
        let more = self.machines.tells_more();
        let machines = Machines::new(alloc, config, more, moment)?;
        replace(&mut self.machines, machines);
        self.started = true;
        Ok(())
    }

    // Runs a window.
    fn run(&mut self, alloc: Global, config: &Config, batch: &Batch) -> Result<(), NoMemory>
        requires valid { IsValid config.now }
        requires inside { AllByRecursion (IsInside (most_of config.now) (targets_of config.now))
            batch.now.requests }
        requires may { MayRun config.now batch.now.moment self.old }
        requires few { self.old.machines.always.asked ≤ 131073 * 2 ^ 32 }
        ensures behind { OnOk result ((ws : List Asked) → IsBehind config.now ws self.old
            → IsBehind config.now (ws ++ asked_of batch.now ∷ []) self.new) }
        ensures few { OnOk result
            (self.new.machines.always.asked ≤ self.old.machines.always.asked + 131073) }
        ensures more { OnOk result
            (is_some self.new.machines.views ≡ is_some self.old.machines.views) }
    {
        let moment = batch.moment();
        self.begin(alloc, config, moment)?;
        gather(batch.requests(), &mut self.asks)?;
        self.machines.window(moment, self.asks.as_slice())
    }

    /// Takes a line, and runs the window that it makes whole, if it makes one whole.
    pub(crate) fn take(
        &mut self,
        alloc: Global,
        config: &Config,
        cutter: &mut Cutter,
        line: Option<&Line>,
    ) -> Result<(), NoMemory>
        requires valid { IsValid config.now }
        requires lines { cutter.old.tally.lines < 2 ^ 32 }
        requires fits { IfSome line (λ l. Fits (trace_line l.now)) }
        requires some { HasTakenSome config.now cutter.old self.old }
        ensures taken { OnOk result ((ls : List _) → HasTaken config.now ls cutter.old self.old
            → HasTaken config.now (ls ++ option_map (λ l. trace_line l.now) line.entry ∷ [])
            cutter.new self.new) }
        ensures lines { OnOk result (cutter.new.tally.lines ≡ cutter.old.tally.lines + 1) }
        ensures more { OnOk result
            (is_some self.new.machines.views ≡ is_some self.old.machines.views) }
    {
        if cutter.take(config, line)? {
            let batch = cutter.whole();
            self.run(alloc, config, batch)?;
        }
        Ok(())
    }

    // Runs the last window, if there is one.
    fn run_last(&mut self, alloc: Global, config: &Config, cutter: &Cutter) -> Result<(), NoMemory>
        requires valid { IsValid config.now }
        requires lines { cutter.now.tally.lines ≤ 2 ^ 32 }
        requires some { HasTakenSome config.now cutter.now self.old }
        ensures more { OnOk result
            (is_some self.new.machines.views ≡ is_some self.old.machines.views) }
        ensures behind { OnOk result ((ls : List _) → HasTaken config.now ls cutter.now self.old
            → IsBehind config.now (asked_by config.now ls) self.new) }
    {
        let last = cutter.current();
        if last.lines() == 0 {
            return Ok(());
        }
        self.run(alloc, config, last)
    }

    /// What is told, where no further line comes: the last window is run too, if there is one.
    pub(crate) fn finish(
        mut self,
        alloc: Global,
        config: &Config,
        details: Details,
        cutter: &Cutter,
    ) -> Result<Vec<u8>, NoMemory>
        requires valid { IsValid config.now }
        requires lines { cutter.now.tally.lines ≤ 2 ^ 32 }
        requires some { HasTakenSome config.now cutter.now self }
        requires more { is_some self.machines.views ≡ tells_more details }
        ensures { IfOk result (λ text. (ls : List _) → HasTaken config.now ls cutter.now self
            → text.items ≡ comparison_of details config.now ls) }
    {
        self.run_last(alloc, config, cutter)?;
        let tally = cutter.tally();
        let mut text = heading(alloc, details.long, &tally)?;
        self.machines.tell(config, details, tally.ended, &mut text)?;
        Ok(text)
    }
}
