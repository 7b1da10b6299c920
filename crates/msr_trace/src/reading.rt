// The lines of a source, one at a time.
ghost use Rattle.msr_trace.specs.Intake.{to_give};
ghost use Rattle.msr_trace.specs.Lines.{Fits, is_feed, trace_line};
ghost use Rattle.msr_trace.specs.Reading.{IsDone, RefusesLine, TakesLine, is_no_memory, pending};
ghost use Rattle.std.specs.Io.KnownBytes.{Keeps};
ghost use Rattle.std.specs.List.{list_any, position_or_len};
ghost use Rattle.std.specs.Prelude.{◌≡◌, ◌≢◌, ◌≤◌, ◌<◌, ◌+◌, ◌^◌, ◌↔◌, ◌⊎◌, true, false, [], length, option_map, Ok, Err, IfOk, IfSome, IfNone, OnErr, MatchResult};
ghost use Rattle.wol_disk.specs.Disk.{Rose};

use crate::format::{Line, LineFault, TraceFault};
use crate::intake::Intake;
use crate::parse::read_line;
use std::alloc::Global;
use std::marker::Model;
use wol_io::Source;

/// The most lines of a trace: 2^32.
const LINES_MAX: u64 = 4_294_967_296;

/// The lines of a source. It takes the source piece by piece, and holds at most 8,192 bytes that it hasn't given.
#[derive(Drop)]
pub struct Lines<S: Source> {
    alloc: Global,
    intake: Intake<S>,
    given: u64,
    live: bool,
}

impl<S: Source> Model for Lines<S> {
    ghost use Rattle.msr_trace.specs.Reading.{Reading};
    ghost use Rattle.std.specs.Prelude.{◌≤◌, ◌^◌};

    ghost Value = { Reading S };

    ghost view = { λ l. record { source = l.intake.source; held = l.intake.bytes; given = l.given; live = l.live } };

    ghost invariant = { λ l. l.given ≤ 2 ^ 32 };
}

impl<S: Source> Lines<S> {
    pub fn new(alloc: Global, source: S) -> Lines<S>
        ensures { result ≡ record { source = source; held = []; given = 0; live = true } }
    {
        Lines {
            alloc,
            intake: Intake::new(source),
            given: 0,
            live: true,
        }
    }

    /// The next line with its number, counted from 1 with blank lines; a blank line is None. None in place of both means
    /// that the source is at its end.
    ///
    /// `Source` comes only where the source's count of faults rose in this call, `Bad` where the line is refused, `Spent`
    /// where 2^32 lines were given and a further byte is there. After `NoMemory` the next call gives the same line; after
    /// another refusal there is none.
    pub fn next(&mut self) -> Result<Option<(u64, Option<Line>)>, TraceFault>
        requires { self.old.live ≡ true }
        ensures size { length self.new.held ≤ 8192 }
        ensures number { IfOk result
            (λ o. IfSome o (λ p. (p.0 ≡ self.old.given + 1) × (self.new.given ≡ p.0))) }
        ensures most { self.new.given ≤ 2 ^ 32 }
        ensures line { IfOk result (λ o.
            IfSome o (λ p. TakesLine (pending S.left self.old) (pending S.left self.new)
            (Ok (option_map trace_line p.1)))) }
        ensures fits { IfOk result (λ o. IfSome o (λ p. IfSome p.1 (λ l. Fits (trace_line l)))) }
        ensures end { IfOk result (λ o. IfNone o (IsDone S.left self.old self.new)) }
        ensures bad { (line : _) (why : _) → result ≡ Err (TraceFault.Bad line why)
            → (line ≡ self.old.given + 1) × (line ≤ 2 ^ 32)
            × RefusesLine (pending S.left self.old) why }
        ensures spent { (result ≡ Err TraceFault.Spent)
            ↔ ((self.old.given ≡ 2 ^ 32) × (0 < length self.new.held)) }
        ensures cut { result ≡ Err TraceFault.Source → list_any is_feed self.new.held ≡ false }
        ensures kept { OnErr result (Keeps (pending S.left self.old) (pending S.left self.new)) }
        ensures given { OnErr result (self.new.given ≡ self.old.given) }
        ensures live { MatchResult result (λ _. self.new.live ≡ true)
            (λ e. self.new.live ≡ is_no_memory e) }
        ensures later { S.faults self.old.source ≤ S.faults self.new.source }
        ensures cause { result ≡ Err TraceFault.Source
            → Rose (S.faults self.old.source) (S.faults self.new.source) }
        ensures calm { result ≢ Err TraceFault.Source
            → S.faults self.new.source ≡ S.faults self.old.source }
        ensures same_borrow { S.borrow self.new.source ≡ S.borrow self.old.source }
    {
        match self.next_line() {
            Ok(Some(line)) => Ok(Some((self.given, line))),
            Ok(None) => Ok(None),
            Err(fault) => Err(fault),
        }
    }

    /// The next line without its number: one more was given then. A blank line is None in it, and None in place of both
    /// means that the source is at its end. It is refused as `next` says.
    pub fn next_line(&mut self) -> Result<Option<Option<Line>>, TraceFault>
        requires { self.old.live ≡ true }
        ensures size { length self.new.held ≤ 8192 }
        ensures count { IfOk result
            (λ o. IfSome o (λ _. self.new.given ≡ self.old.given + 1)) }
        ensures most { self.new.given ≤ 2 ^ 32 }
        ensures line { IfOk result (λ o.
            IfSome o (λ line. TakesLine (pending S.left self.old) (pending S.left self.new)
            (Ok (option_map trace_line line)))) }
        ensures fits { IfOk result (λ o. IfSome o (λ p. IfSome p (λ l. Fits (trace_line l)))) }
        ensures end { IfOk result (λ o. IfNone o (IsDone S.left self.old self.new)) }
        ensures bad { (line : _) (why : _) → result ≡ Err (TraceFault.Bad line why)
            → (line ≡ self.old.given + 1) × (line ≤ 2 ^ 32)
            × RefusesLine (pending S.left self.old) why }
        ensures spent { (result ≡ Err TraceFault.Spent)
            ↔ ((self.old.given ≡ 2 ^ 32) × (0 < length self.new.held)) }
        ensures cut { result ≡ Err TraceFault.Source → list_any is_feed self.new.held ≡ false }
        ensures kept { OnErr result (Keeps (pending S.left self.old) (pending S.left self.new)) }
        ensures given { OnErr result (self.new.given ≡ self.old.given) }
        ensures live { MatchResult result (λ _. self.new.live ≡ true)
            (λ e. self.new.live ≡ is_no_memory e) }
        ensures later { S.faults self.old.source ≤ S.faults self.new.source }
        ensures cause { result ≡ Err TraceFault.Source
            → Rose (S.faults self.old.source) (S.faults self.new.source) }
        ensures calm { result ≢ Err TraceFault.Source
            → S.faults self.new.source ≡ S.faults self.old.source }
        ensures same_borrow { S.borrow self.new.source ≡ S.borrow self.old.source }
    {
        if self.intake.take_first().is_err() {
            self.live = false;
            return Err(TraceFault::Source);
        }
        if self.intake.bytes().is_empty() {
            return Ok(None);
        }
        if self.given == LINES_MAX {
            self.live = false;
            return Err(TraceFault::Spent);
        }
        let Ok(end) = self.intake.take_line() else {
            self.live = false;
            return Err(TraceFault::Source);
        };
        match give_first(self.alloc, &mut self.intake, end) {
            Ok(line) => {
                self.given += 1;
                Ok(Some(line))
            }
            Err(LineFault::NoMemory) => Err(TraceFault::NoMemory),
            Err(LineFault::Bad(why)) => {
                self.live = false;
                let line = self.given + 1;
                Err(TraceFault::Bad { line, why })
            }
        }
    }

    /// Whether `next` and `next_line` may be called: no line was refused, and the source didn't fail.
    pub fn is_live(&self) -> bool
        ensures { result ≡ self.now.live }
    {
        self.live
    }

    /// The source, less the bytes that were taken.
    pub fn into_source(self) -> S
        ensures { result ≡ self.source }
    {
        let Lines {
            alloc: _,
            intake,
            given: _,
            live: _,
        } = self;
        intake.into_source()
    }
}

// Reads the first line that is held, which has so many bytes, and gives it.
fn give_first<S: Source>(
    alloc: Global,
    intake: &mut Intake<S>,
    end: usize,
) -> Result<Option<Line>, LineFault>
    requires some { 0 < length intake.old.bytes }
    requires first { end ≡ position_or_len is_feed intake.old.bytes }
    requires whole { (end < length intake.old.bytes) ⊎ ((intake.old.ended ≡ true) ⊎ (4096 < end)) }
    ensures line { IfOk result (λ o. TakesLine (to_give S.left intake.old)
        (to_give S.left intake.new) (Ok (option_map trace_line o))) }
    ensures fits { IfOk result (λ o. IfSome o (λ l. Fits (trace_line l))) }
    ensures bad { (why : _) → result ≡ Err (LineFault.Bad why)
        → RefusesLine (to_give S.left intake.old) why }
    ensures err { OnErr result (intake.new ≡ intake.old) }
    ensures source { intake.new.source ≡ intake.old.source }
    ensures size { length intake.new.bytes ≤ 8192 }
{
    let held = intake.bytes();
    let line = match read_line(alloc, &held[..end]) {
        Ok(line) => line,
        Err(fault) => return Err(fault),
    };
    let taken = held.len().min(end + 1);
    intake.skip(taken);
    Ok(line)
}
