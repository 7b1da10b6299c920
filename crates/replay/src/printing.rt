// What a run prints.
ghost use Rattle.replay.specs.Prints.{HandsOn, HasJournal, PrintsLines, PrintsText, all_amounts, line_of_outcome, lines_of_outcomes};
ghost use Rattle.report.specs.Names.{printed_names};
ghost use Rattle.report.specs.Summaries.{summary_text, units_of};
ghost use Rattle.spin_model.specs.Spindles.{SpindleView};
ghost use Rattle.std.specs.Prelude.{◌≡◌, ◌≤◌, ◌<◌, ◌⊎◌, ◌++◌, ◌^◌, ◌*◌, [], map, length, option_copied, Some, OnOk, OnErr, IfOk, All};
ghost use Rattle.wol_config.specs.Configs.{IsValid};
ghost use Rattle.wol_disk.specs.Disk.{Rose};
ghost use Rattle.wol_io.specs.Streams.{AppendsFront};
ghost use Rattle.wol_model.specs.Journal.{ArePowers};
ghost use Rattle.wol_promise.specs.Run.{joined_lines};

use crate::counting::Counted;
use crate::stop::Stop;
use energy::{Amounts, Powers, calls};
use rack_parts::ClosedSpindle;
use report::{read_line_text, summary};
use request_workers::{Outcome, Request};
use std::alloc::Global;
use wol_config::Config;
use wol_disk::{Failed, NoMemory};
use wol_io::Sink;

/// How many bytes of lines are gathered for a call of the sink.
pub const CHUNK_BYTES: usize = 8_192;

/// Writes a text that has so many bytes to the sink, and empties it. A shorter one stays as it is. `Failed`: the sink failed.
pub fn hand_on<K: Sink>(out: &mut K, text: &mut Vec<u8>, least: usize) -> Result<(), Failed>
    ensures ok { OnOk result
        (HandsOn (K.taken out.old) (K.taken out.new) text.old.items text.new.items) }
    ensures left { OnOk result ((length text.new.items < least) ⊎ (text.new.items ≡ [])) }
    ensures short { length text.old.items < least → (out.new ≡ out.old) × (text.new ≡ text.old) }
    ensures err { OnErr result (AppendsFront (K.taken out.old) (K.taken out.new) text.old.items) }
    ensures later { K.faults out.old ≤ K.faults out.new }
    ensures cause { OnErr result (Rose (K.faults out.old) (K.faults out.new)) }
    ensures calm { OnOk result (K.faults out.new ≡ K.faults out.old) }
{
    if text.len() < least {
        return Ok(());
    }
    out.write(text)?;
    text.clear();
    Ok(())
}

// Appends the line of a request that was read.
fn append_read(
    config: &Config,
    request: &Request,
    outcome: &Outcome,
    text: &mut Vec<u8>,
) -> Result<(), NoMemory>
    requires volume { request.now.volume < length config.now.volumes.items }
    ensures ok { OnOk result (text.new.items
        ≡ text.old.items ++ joined_lines
        (line_of_outcome (printed_names config.now.volumes.items) request.now outcome.now)) }
    ensures err { OnErr result (text.new.items ≡ text.old.items) }
{
    let Outcome::Read { mark, .. } = *outcome else {
        return Ok(());
    };
    let name = &config.volumes[request.volume as usize].name;
    read_line_text(
        Some(name),
        request.line,
        request.lbn,
        request.count,
        mark,
        text,
    )
}

/// Prints the lines of the requests that were read, in order. Where there is no memory some first ones were printed.
pub(crate) fn print_reads<K: Sink>(
    alloc: Global,
    config: &Config,
    requests: &[Request],
    outcomes: &[Outcome],
    out: &mut K,
) -> Result<(), Stop>
    requires volumes { All (λ (r : _). r.volume < length config.now.volumes.items) requests.now }
    requires count { length outcomes.now ≡ length requests.now }
    ensures prints { PrintsLines result
        (lines_of_outcomes (printed_names config.now.volumes.items) requests.now outcomes.now)
        (K.faults out.old) (K.faults out.new) (K.taken out.old) (K.taken out.new) }
    ensures later { K.faults out.old ≤ K.faults out.new }
{
    let mut text = Vec::new(alloc);
    for (at, request) in requests.iter().enumerate() {
        append_read(config, request, &outcomes[at], &mut text)?;
        hand_on(out, &mut text, CHUNK_BYTES)?;
    }
    hand_on(out, &mut text, 1)?;
    Ok(())
}

// What the disks used in the time of the account.
fn amounts_of(
    alloc: Global,
    powers: &Powers,
    spindles: &[ClosedSpindle],
    counted: &Counted,
) -> Result<Vec<Amounts>, NoMemory>
    requires journals { All (λ (s : SpindleView).
        HasJournal counted.now.started counted.now.ended s) spindles.now }
    requires powers { ArePowers powers.now }
    ensures amounts { IfOk result (λ amounts.
        amounts.items
        ≡ all_amounts powers.now counted.now.started counted.now.ended spindles.now) }
    ensures units { IfOk result (λ amounts. units_of amounts.items ≤ length spindles.now * 2 ^ 120) }
{
    let mut amounts = Vec::with_capacity(alloc, spindles.len())?;
    for spindle in spindles {
        amounts.push_reserved(calls::amounts(
            &spindle.sums_until(counted.ended),
            counted.started,
            counted.ended,
            powers,
        ));
    }
    Ok(amounts)
}

/// Prints the summary of a run that was read to its end, whose spindles were closed with these journals.
pub(crate) fn print_summary<K: Sink>(
    alloc: Global,
    config: &Config,
    counted: &Counted,
    spindles: &[ClosedSpindle],
    out: &mut K,
) -> Result<(), Stop>
    requires valid { IsValid config.now }
    requires count { length spindles.now ≡ length config.now.volumes.items }
    requires journals { All (λ (s : SpindleView).
        HasJournal counted.now.started counted.now.ended s) spindles.now }
    ensures prints { PrintsText result (summary_text counted.now.totals
        (printed_names config.now.volumes.items)
        (all_amounts config.now.powers counted.now.started counted.now.ended spindles.now))
        (K.faults out.old) (K.faults out.new) (K.taken out.old) (K.taken out.new) }
    ensures later { K.faults out.old ≤ K.faults out.new }
{
    let amounts = amounts_of(alloc, &config.powers, spindles, counted)?;
    let mut text = Vec::new(alloc);
    summary(&counted.totals, &config.volumes, &amounts, &mut text)?;
    out.write(&text)?;
    Ok(())
}
