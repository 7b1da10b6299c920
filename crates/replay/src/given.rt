// Where the lines of a run come from.
ghost use Rattle.msr_trace.specs.Lines.{Fits, trace_line};
ghost use Rattle.msr_trace.specs.Reading.{is_no_memory};
ghost use Rattle.replay.specs.Givens.{given_count, IsLive, IsWithin, faults_of, borrow_of, HasGiven, HasGivenAll, Refuses};
ghost use Rattle.std.specs.Io.KnownBytes.{Keeps};
ghost use Rattle.std.specs.List.{range_with_len};
ghost use Rattle.std.specs.Prelude.{◌≡◌, ◌≢◌, ◌≤◌, ◌<◌, ◌+◌, ◌^◌, ◌++◌, ◌∷◌, [], ℕ, List, map, length, option_map, Some, Err, IfOk, IfErr, IfSome, IfNone, OnOk, OnErr, MatchResult};
ghost use Rattle.trace_gen.specs.Generated.{line, targets_of};
ghost use Rattle.wol_config.specs.Configs.{IsValid};
ghost use Rattle.wol_disk.specs.Disk.{Rose};
ghost use Rattle.wol_model.specs.Trace.{TraceLine};

use msr_trace::{Line, Lines, TraceFault};
use std::alloc::Global;
use trace_gen::Gen;
use wol_config::Config;
use wol_disk::NoMemory;
use wol_io::Source;

/// Where the lines of a run come from.
#[derive(Drop)]
pub enum Given<S: Source> {
    /// A trace that is read.
    Trace(Lines<S>),
    /// The lines that a generator gives until it gave so many.
    Generated { generator: Gen, lines: u32 },
}

impl<S: Source> Given<S> {
    /// The next line; a blank line is None in it. None in place of both means that there is none left.
    ///
    /// A trace is refused as `Lines::next` says. Generated lines are refused for want of memory alone, and the next call
    /// gives the same line then.
    pub fn next(
        &mut self,
        alloc: Global,
        config: &Config,
    ) -> Result<Option<Option<Line>>, TraceFault>
        requires live { IsLive self.old }
        requires valid { IsValid config.now }
        ensures live { OnOk result (IsLive self.new) }
        ensures count { IfOk result
            (λ o. IfSome o (λ l. given_count self.new ≡ given_count self.old + 1)) }
        ensures most { given_count self.new ≤ 2 ^ 32 }
        ensures within { IsWithin self.new }
        // whatever lines came before, this is the next one
        ensures line { IfOk result (λ o.
            IfSome o (λ l. (start : _) (ls : List _)
            → HasGiven S.left (targets_of config.now) start self.old ls
            → HasGiven S.left (targets_of config.now) start self.new
            (ls ++ option_map trace_line l ∷ []))) }
        ensures fits { IfOk result (λ o. IfSome o (λ l. IfSome l (λ v. Fits (trace_line v)))) }
        ensures end { IfOk result (λ o.
            IfNone o
            ((start : _) (ls : List _)
            → HasGiven S.left (targets_of config.now) start self.old ls
            → HasGiven S.left (targets_of config.now) start self.new ls
            × HasGivenAll S.left (targets_of config.now) start self.new ls)) }
        ensures refused { IfErr result (λ e. (start : _) (ls : List _)
            → HasGiven S.left (targets_of config.now) start self.old ls
            → HasGiven S.left (targets_of config.now) start self.new ls
            × Refuses S.left e start self.new ls) }
        ensures later { faults_of S.faults self.old ≤ faults_of S.faults self.new }
        ensures cause { result ≡ Err TraceFault.Source
            → Rose (faults_of S.faults self.old) (faults_of S.faults self.new) }
        ensures calm { result ≢ Err TraceFault.Source
            → faults_of S.faults self.new ≡ faults_of S.faults self.old }
        ensures same_borrow { borrow_of S.borrow self.new ≡ borrow_of S.borrow self.old }
    {
        match self {
            Given::Trace(lines) => lines.next_line(),
            Given::Generated { generator, lines } => {
                if generator.given() == *lines {
                    return Ok(None);
                }
                match generator.next(alloc, config) {
                    Ok(line) => Ok(Some(Some(line))),
                    Err(NoMemory) => Err(TraceFault::NoMemory),
                }
            }
        }
    }
}
