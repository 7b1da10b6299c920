// The windows of a trace, served one after another.
ghost use Rattle.msr_trace.specs.Lines.{Fits, trace_line};
ghost use Rattle.replay.specs.Counts.{AddsAtMost, HasRoomFor, no_totals};
ghost use Rattle.replay.specs.Givens.{IsNew, IsWithin, faults_of, borrow_of};
ghost use Rattle.replay.specs.Served.{HaveStarted, AreSamePasses, StartsOnce};
ghost use Rattle.replay.specs.Sessions.{EndsIn, Finishes, GoesOn, HasBegunWindow, HasFailedToBegin, HasTaken, StopsAtLine, TakesOn, IsReady, IsSession, ServesSome, ServesWhole};
ghost use Rattle.request_workers.specs.Begun.{AreKeepers};
ghost use Rattle.request_workers.specs.Crews.{IsCrew};
ghost use Rattle.std.specs.List.{AllByRecursion};
ghost use Rattle.std.specs.Prelude.{◌≡◌, ◌≢◌, ◌∷◌, ◌++◌, [], ◌+◌, ◌^◌, List, option_map, IfSome, ◌≤◌, ◌<◌, ◌⊎◌, ◌-◌, true, false, length, OnOk, OnErr, IfOk, IfErr, Err, All};
ghost use Rattle.trace_gen.specs.Generated.{targets_of};
ghost use Rattle.trace_windows.specs.Cutting.{HasCut};
ghost use Rattle.trace_windows.specs.Requests.{IsInside};
ghost use Rattle.wol_config.specs.Configs.{IsValid, most_of};
ghost use Rattle.wol_disk.specs.Disk.{Rose};

use crate::counting::{Counted, NOTHING, add_window};
use crate::ending::fault_of_window;
use crate::given::Given;
use crate::printing::print_reads;
use crate::stop::{Stop, fault_of_trace, is_memory};
use logger::Shared;
use msr_trace::Line;
use report::{Fault, Totals};
use request_workers::{Crew, Floor, Reclaim, Request, Sharing, Window, begin_window, calls};
use spin_model::{Spindle, start_turn};
use std::alloc::Global;
use std::sync::Wait;
use trace_windows::{Batch, Cutter, Tally};
use turn_lock::Pass;
use wol_config::Config;
use wol_disk::{Disk, NoMemory};
use wol_io::{Gate, Sink, Source};

/// How a trace is replayed.
#[derive(Clone, Copy, Debug, PartialEq, Eq)]
pub struct Options {
    /// 1 to 64 of them.
    pub workers: u32,
    /// Which windows they serve.
    pub sharing: Sharing,
    pub reclaim: Reclaim,
    /// Whether a line is printed for each read.
    pub each: bool,
}

/// What windows are served on, and what was counted of those that were.
pub(crate) struct Session<'l, D: Disk> {
    pub floor: Floor<'l, D>,
    pub keepers: Vec<Pass<Spindle>>,
    pub totals: Totals,
    /// Whether the account has started.
    pub started: bool,
}

// The account of each spindle starts.
fn start_spindles<D: Disk, R: Wait>(
    rt: &R,
    shared: &Shared<D>,
    keepers: &mut [Pass<Spindle>],
    at: u64,
)
    requires keepers { AreKeepers shared.now keepers.old }
    ensures keepers { AreKeepers shared.now keepers.new }
    ensures same { AreSamePasses keepers.old keepers.new }
    ensures started { HaveStarted at keepers.old keepers.new }
{
    for k in 0..keepers.len() {
        start_turn(rt, &shared.spindles[k], &mut keepers[k], at);
    }
}

// Prints the lines of a window's reads, where that is asked for, and tells what the window ends the run with.
fn finish<K: Sink>(
    alloc: Global,
    config: &Config,
    options: Options,
    requests: &[Request],
    window: &Window,
    out: &mut K,
) -> Result<(), Stop>
    requires volumes { All (λ (r : _). r.volume < length config.now.volumes.items) requests.now }
    requires count { length window.now.outcomes.items ≡ length requests.now }
    ensures finishes { Finishes result config.now options requests.now window.now (K.faults out.old)
        (K.faults out.new) (K.taken out.old) (K.taken out.new) }
    ensures not_source { result ≢ Err (Stop.Fault Fault.TraceSource) }
    ensures later { K.faults out.old ≤ K.faults out.new }
{
    if options.each {
        print_reads(alloc, config, requests, window.outcomes.as_slice(), out)?;
    }
    match fault_of_window(requests, window) {
        Some(fault) => Err(Stop::Fault(fault)),
        None => Ok(()),
    }
}

impl<'l, D: Disk> Session<'l, D> {
    pub(crate) fn new(floor: Floor<'l, D>, keepers: Vec<Pass<Spindle>>) -> Session<'l, D>
        ensures { result ≡ record {
          floor = floor.entry;
          keepers = keepers;
          totals = no_totals;
          started = false;
        } }
    {
        Session {
            floor,
            keepers,
            totals: NOTHING,
            started: false,
        }
    }

    // Starts the account where that wasn't done yet.
    fn start<R: Wait>(&mut self, rt: &R, shared: &Shared<D>, moment: u64)
        requires ready { IsReady shared.now self.old }
        ensures ready { IsReady shared.now self.new }
        ensures same { AreSamePasses self.old.keepers.items self.new.keepers.items }
        ensures starts { StartsOnce self.old.started moment self.old.keepers.items
            self.new.keepers.items }
        ensures only { self.new ≡ record self.old { keepers = self.new.keepers; started = true } }
    {
        if !self.started {
            start_spindles(rt, shared, self.keepers.as_mut_slice(), moment);
            self.started = true;
        }
    }

    // Begins a window. The account starts with the first one.
    fn begin<R: Wait>(
        &mut self,
        rt: &R,
        alloc: Global,
        shared: &Shared<D>,
        moment: u64,
    ) -> Result<(), NoMemory>
        requires ready { IsReady shared.now self.old }
        ensures ready { IsReady shared.now self.new }
        ensures same { AreSamePasses self.old.keepers.items self.new.keepers.items }
        ensures started { self.new.started ≡ true }
        ensures totals { self.new.totals ≡ self.old.totals }
        ensures ok { OnOk result (HasBegunWindow D.tells moment self.old self.new) }
        ensures err { OnErr result (HasFailedToBegin moment self.old self.new) }
    {
        self.start(rt, shared, moment);
        begin_window(
            rt,
            alloc,
            &mut self.floor,
            shared,
            self.keepers.as_mut_slice(),
            moment,
        )
    }

    // Serves a window, unless it has no line: it is begun, its requests are run, the lines of its reads are printed where that is
    // asked for, and then the run ends where a request was refused.
    fn serve<R: Wait, K: Sink, G: Gate>(
        &mut self,
        rt: &R,
        alloc: Global,
        config: &Config,
        options: Options,
        shared: &'l Shared<D>,
        batch: &Batch,
        out: &mut K,
        crew: &mut Crew<'_, 'l, D, G>,
    ) -> Result<(), Stop>
        requires valid { IsValid config.now }
        requires session { IsSession config.now shared.now self.old }
        requires crew { IsCrew crew.old }
        requires inside { AllByRecursion (IsInside (most_of config.now) (targets_of config.now))
            batch.now.requests }
        requires room { HasRoomFor 131073 self.old.totals }
        ensures session { IsSession config.now shared.now self.new }
        ensures crew { IsCrew crew.new }
        ensures same { AreSamePasses self.old.keepers.items self.new.keepers.items }
        ensures locks { self.new.floor.locks ≡ self.old.floor.locks }
        ensures few { OnOk result (AddsAtMost 131073 self.old.totals self.new.totals) }
        ensures started { OnOk result (0 < batch.now.lines → self.new.started ≡ true) }
        ensures ok { OnOk result
            (((batch.now.lines ≡ 0) × (self.new ≡ self.old) × (out.new ≡ out.old))
            ⊎ ((0 < batch.now.lines) × GoesOn D.tells config.now options batch.now self.old self.new
            (K.faults out.old) (K.faults out.new) (K.taken out.old) (K.taken out.new))) }
        ensures err { IfErr result (λ e.
            (0 < batch.now.lines) × EndsIn e D.tells config.now options batch.now self.old
            self.new (K.faults out.old) (K.faults out.new) (K.taken out.old) (K.taken out.new)) }
        ensures not_source { result ≢ Err (Stop.Fault Fault.TraceSource) }
        ensures later { K.faults out.old ≤ K.faults out.new }
    {
        if batch.lines() == 0 {
            return Ok(());
        }
        self.begin(rt, alloc, shared, batch.moment())?;
        let window = calls::window(
            rt,
            alloc,
            &mut self.floor,
            shared,
            batch.requests(),
            crew,
            options.reclaim,
        )?;
        add_window(&mut self.totals, &window);
        finish(alloc, config, options, batch.requests(), &window, out)
    }

    // Takes a line, and serves the window that it makes whole, if it makes one whole.
    fn take<R: Wait, K: Sink, G: Gate>(
        &mut self,
        rt: &R,
        alloc: Global,
        config: &Config,
        options: Options,
        shared: &'l Shared<D>,
        cutter: &mut Cutter,
        line: Option<&Line>,
        out: &mut K,
        crew: &mut Crew<'_, 'l, D, G>,
    ) -> Result<(), Stop>
        requires valid { IsValid config.now }
        requires session { IsSession config.now shared.now self.old }
        requires crew { IsCrew crew.old }
        requires lines { cutter.old.tally.lines < 2 ^ 32 }
        requires fits { IfSome line (λ l. Fits (trace_line l.now)) }
        // some lines were taken before
        requires cut { HasTaken config.now cutter.old }
        requires room { HasRoomFor 131073 self.old.totals }
        ensures session { IsSession config.now shared.now self.new }
        ensures crew { IsCrew crew.new }
        ensures same { AreSamePasses self.old.keepers.items self.new.keepers.items }
        ensures locks { self.new.floor.locks ≡ self.old.floor.locks }
        ensures lines { OnOk result (cutter.new.tally.lines ≡ cutter.old.tally.lines + 1) }
        ensures few { OnOk result (AddsAtMost 131073 self.old.totals self.new.totals) }
        ensures ok { OnOk result ((ls : List _) (ws : List _)
            → HasCut (most_of config.now) (targets_of config.now) ls ws cutter.old
            → TakesOn D.tells config.now options ls ws
            (option_map (λ l. trace_line l.now) line.entry) cutter.new self.old self.new
            (K.faults out.old) (K.faults out.new) (K.taken out.old) (K.taken out.new)) }
        ensures err { IfErr result (λ e. (ls : List _) (ws : List _)
            → HasCut (most_of config.now) (targets_of config.now) ls ws cutter.old
            → StopsAtLine e D.tells config.now options ls ws
            (option_map (λ l. trace_line l.now) line.entry) cutter.new self.old self.new
            (K.faults out.old) (K.faults out.new) (K.taken out.old) (K.taken out.new)) }
        ensures not_source { result ≢ Err (Stop.Fault Fault.TraceSource) }
        ensures later { K.faults out.old ≤ K.faults out.new }
    {
        if cutter.take(config, line)? {
            let batch = cutter.whole();
            self.serve(rt, alloc, config, options, shared, batch, out, crew)?;
        }
        Ok(())
    }

    // What was counted of the trace.
    fn counted(&self, tally: Tally) -> Counted
        requires order { tally.started ≤ tally.ended }
        ensures totals { result.totals ≡ record self.now.totals {
          lines = tally.lines;
          blank = tally.blank;
          skipped = tally.skipped;
          span = tally.ended - tally.started;
        } }
        ensures started { result.started ≡ tally.started }
        ensures ended { result.ended ≡ tally.ended }
    {
        Counted {
            totals: Totals {
                lines: tally.lines,
                blank: tally.blank,
                skipped: tally.skipped,
                span: tally.span(),
                ..self.totals
            },
            started: tally.started,
            ended: tally.ended,
        }
    }

    /// Serves the windows of the lines that are given, each as soon as it is whole. Where no further line is given the last one
    /// is served too, but not where there is no memory for a line.
    pub(crate) fn serve_all<R: Wait, S: Source, K: Sink, G: Gate>(
        &mut self,
        rt: &R,
        alloc: Global,
        config: &Config,
        given: &mut Given<S>,
        options: Options,
        shared: &'l Shared<D>,
        out: &mut K,
        crew: &mut Crew<'_, 'l, D, G>,
    ) -> Result<Counted, Stop>
        requires valid { IsValid config.now }
        requires new { IsNew given.old }
        requires session { IsSession config.now shared.now self.old }
        requires crew { IsCrew crew.old }
        requires started { self.old.started ≡ false }
        requires totals { self.old.totals ≡ no_totals }
        ensures session { IsSession config.now shared.now self.new }
        ensures crew { IsCrew crew.new }
        ensures same { AreSamePasses self.old.keepers.items self.new.keepers.items }
        ensures locks { self.new.floor.locks ≡ self.old.floor.locks }
        ensures whole { IfOk result (λ counted.
            ServesWhole D.tells S.left config.now options given.old given.new self.old.floor
            self.old.keepers.items self.new.floor self.new.keepers.items
            counted (K.faults out.old) (K.faults out.new) (K.taken out.old) (K.taken out.new)) }
        ensures some { IfErr result (λ e.
            ServesSome D.tells S.left config.now options given.old e given.new self.old.floor
            self.old.keepers.items self.new.floor self.new.keepers.items
            (K.faults out.old) (K.faults out.new) (K.taken out.old) (K.taken out.new)) }
        ensures later { K.faults out.old ≤ K.faults out.new }
        ensures source_later { faults_of S.faults given.old ≤ faults_of S.faults given.new }
        ensures source { result ≡ Err (Stop.Fault Fault.TraceSource)
            → Rose (faults_of S.faults given.old) (faults_of S.faults given.new) }
        ensures same_borrow { borrow_of S.borrow given.new ≡ borrow_of S.borrow given.old }
        ensures within { IsWithin given.new }
    {
        let mut cutter = Cutter::new(alloc);
        for _ in 0..u64::MAX {
            match given.next(alloc, config) {
                Ok(Some(line)) => {
                    let line = line.as_ref();
                    self.take(
                        rt,
                        alloc,
                        config,
                        options,
                        shared,
                        &mut cutter,
                        line,
                        out,
                        crew,
                    )?;
                }
                Ok(None) => {
                    let batch = cutter.current();
                    self.serve(rt, alloc, config, options, shared, batch, out, crew)?;
                    return Ok(self.counted(cutter.tally()));
                }
                Err(fault) => {
                    if is_memory(fault) {
                        return Err(Stop::Fault(Fault::Memory));
                    }
                    let batch = cutter.current();
                    self.serve(rt, alloc, config, options, shared, batch, out, crew)?;
                    return Err(Stop::Fault(fault_of_trace(fault)));
                }
            }
        }
        unreachable!()
    }
}
