// What is counted of the windows of a run.
ghost use Rattle.replay.specs.Counts.{AddsAtMost, CountsOutcomes, CountsWindow, HasRoomFor, no_totals};
ghost use Rattle.std.specs.Prelude.{◌≡◌, ◌∷◌, [], length};

use manager::Place;
use report::Totals;
use request_workers::{Outcome, Window};

/// What is counted before the first window.
pub(crate) const NOTHING: Totals = Totals {
    lines: 0,
    blank: 0,
    skipped: 0,
    reads: 0,
    writes: 0,
    home: 0,
    log: 0,
    drains: 0,
    blocks: 0,
    records: 0,
    span: 0,
};

/// What is counted of a trace that was read to its end, with the time of its first line and that of its last, in units of 100 ns.
#[derive(Clone, Copy)]
pub(crate) struct Counted {
    pub totals: Totals,
    pub started: u64,
    pub ended: u64,
}

// Counts an answered write.
fn add_write(totals: &mut Totals, place: Place, drained: bool)
    requires room { HasRoomFor 1 totals.old }
    ensures { CountsOutcomes (Outcome.Wrote place drained ∷ []) totals.old totals.new }
{
    totals.writes += 1;
    match place {
        Place::Home => totals.home += 1,
        Place::Log { .. } => totals.log += 1,
    }
    if drained {
        totals.drains += 1;
    }
}

// Counts the outcome of a request.
fn add_outcome(totals: &mut Totals, outcome: &Outcome)
    requires room { HasRoomFor 1 totals.old }
    ensures { CountsOutcomes (outcome.now ∷ []) totals.old totals.new }
{
    match *outcome {
        Outcome::Read { .. } => totals.reads += 1,
        Outcome::Wrote { place, drained } => add_write(totals, place, drained),
        Outcome::NoRead(_) => {}
        Outcome::NoWrite(_) => {}
        Outcome::NotRun => {}
    }
}

// Counts the outcomes of requests.
fn add_outcomes(totals: &mut Totals, outcomes: &[Outcome])
    requires room { HasRoomFor (length outcomes.now) totals.old }
    ensures { CountsOutcomes outcomes.now totals.old totals.new }
{
    for outcome in outcomes {
        add_outcome(totals, outcome);
    }
}

/// Counts the requests of a window that were answered, and what was reclaimed in it. A count of what was reclaimed stands
/// still at its type's end.
pub(crate) fn add_window(totals: &mut Totals, window: &Window)
    requires room { HasRoomFor (length window.now.outcomes.items) totals.old }
    ensures counts { CountsWindow window.now totals.old totals.new }
    ensures few { AddsAtMost (length window.now.outcomes.items) totals.old totals.new }
{
    add_outcomes(totals, window.outcomes.as_slice());
    totals.blocks = totals.blocks.saturating_add(window.blocks);
    totals.records = totals.records.saturating_add(window.records);
}
