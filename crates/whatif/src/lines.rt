// What is printed of a policy.
ghost use Rattle.std.specs.Prelude.{◌≡◌, ◌++◌, ℕ, List, OnOk, OnErr, Some, length, take};
ghost use Rattle.whatif.specs.Waits.{AreLogged, AreTold, IsMost, IsTold, Waited};
ghost use Rattle.whatif.specs.declared.logged.Held.{Held};
ghost use Rattle.whatif.specs.Lines.{kind_text, logged_text, name_of, policy_text, volume_text, volume_words, waits_text};

use crate::logged::{Logged, Most};
use crate::policy::{Compared, Policy, Used};
use crate::waits::{Told, Waits};
use report::Word::{Large, Number, Text};
use report::{Word, append_line};
use wol_config::VolumeConf;
use wol_disk::NoMemory;
use wol_model::Kind;

fn name_of(policy: Policy) -> &'static [u8]
    ensures { result.now ≡ name_of policy }
{
    match policy {
        Policy::Always => b"always",
        Policy::SpinDown => b"spindown",
        Policy::Host => b"host",
        Policy::All => b"all",
        Policy::Views => b"views",
    }
}

/// Appends the line of a policy: how often disks woke and slept, and the energy in mJ, rounded down. `NoMemory` appends
/// nothing.
#[tactic(auto, unfolding(crate::specs::Lines::policy_text))]
pub fn policy_line(policy: Policy, sums: &Compared, out: &mut Vec<u8>) -> Result<(), NoMemory>
    ensures ok { OnOk result (out.new.items ≡ out.old.items ++ policy_text policy sums.now) }
    ensures err { OnErr result (out.new.items ≡ out.old.items) }
{
    append_line(
        &[
            Text(name_of(policy)),
            Text(b"wakes"),
            Number(sums.wakes),
            Text(b"sleeps"),
            Number(sums.sleeps),
            Text(b"energy"),
            Large(sums.units / 10_000_000),
        ],
        out,
    )
}

fn kind_of(kind: Kind) -> &'static [u8]
    ensures { result.now ≡ kind_text kind }
{
    match kind {
        Kind::Read => b"reads",
        Kind::Write => b"writes",
    }
}

/// Appends the line of a policy's reads or writes: how many there were, how many of them waited, the time that at most one in a
/// hundred waited longer than, that of one in a thousand, and all waits together. Times are in ms; `wake` is how long a disk
/// takes to come up, in units of 100 ns. `NoMemory` appends nothing.
#[tactic(auto, unfolding(crate::specs::Lines::waits_text))]
pub(crate) fn waits_line(
    policy: Policy,
    kind: Kind,
    waits: &Waits,
    wake: u64,
    out: &mut Vec<u8>,
) -> Result<(), NoMemory>
    ensures ok { (ws : List ℕ) → IsTold wake ws waits.now
        → OnOk result (out.new.items ≡ out.old.items ++ waits_text policy kind wake ws) }
    ensures err { OnErr result (out.new.items ≡ out.old.items) }
{
    append_line(
        &[
            Text(name_of(policy)),
            Text(kind_of(kind)),
            Number(waits.count),
            Text(b"wait"),
            Number(waits.waiting()),
            Text(b"p99"),
            Large(waits.late_ms(100, wake)),
            Text(b"p999"),
            Large(waits.late_ms(1_000, wake)),
            Text(b"sum"),
            Large(waits.sum / 10_000),
        ],
        out,
    )
}

/// Appends the line of what a policy's logs held: how many writes went to them, the most blocks that all together kept at one
/// moment, and the most segments that one disk held. `NoMemory` appends nothing.
#[tactic(auto, unfolding(crate::specs::Lines::logged_text))]
pub(crate) fn logged_line(
    policy: Policy,
    logged: &Logged,
    out: &mut Vec<u8>,
) -> Result<(), NoMemory>
    ensures ok { (hs : List Held) → AreLogged hs logged.now
        → OnOk result (out.new.items ≡ out.old.items ++ logged_text policy hs) }
    ensures err { OnErr result (out.new.items ≡ out.old.items) }
{
    append_line(
        &[
            Text(name_of(policy)),
            Text(b"logged"),
            Number(logged.count),
            Text(b"blocks"),
            Large(logged.blocks),
            Text(b"segments"),
            Large(logged.segments),
        ],
        out,
    )
}

// How many words a volume's line has: two more where it says how many segments there are.
fn volume_words(policy: Policy) -> usize
    ensures { result ≡ volume_words policy }
{
    match policy {
        Policy::Always | Policy::SpinDown | Policy::Host | Policy::All => 25,
        Policy::Views => 27,
    }
}

// The words of a volume's line: of 27 the last two only where it says how many segments there are.
fn shown<'a, 'b>(policy: Policy, words: &'a [Word<'b>]) -> &'a [Word<'b>]
    requires { length words.now ≡ 27 }
    ensures { result.now ≡ take (volume_words policy) words.now }
{
    &words[..volume_words(policy)]
}

/// Appends the line of a volume: how often its own disk came up and went down, how long it was awake and in standby, what it
/// used, how many of its own reads and writes there were and how many waited, and how many blocks and segments of others it held
/// at most; with the policy of the views also how many segments it has. `NoMemory` appends nothing.
#[tactic(auto, unfolding(crate::specs::Lines::volume_text))]
pub(crate) fn volume_line(
    policy: Policy,
    volume: &VolumeConf,
    used: &Used,
    told: &Told,
    held: &Most,
    out: &mut Vec<u8>,
) -> Result<(), NoMemory>
    ensures ok { (wake : ℕ) (ws : List Waited) (hs : List Held) → AreTold wake ws told.now
        → IsMost hs held.now → OnOk result (out.new.items
        ≡ out.old.items ++ volume_text policy (Some volume.now) used.now wake ws hs) }
    ensures err { OnErr result (out.new.items ≡ out.old.items) }
{
    let words = [
        Text(name_of(policy)),
        Text(b"volume"),
        Text(volume.name.as_bytes()),
        Text(b"wakes"),
        Number(used.wakes),
        Text(b"sleeps"),
        Number(used.sleeps),
        Text(b"awake"),
        Number(used.awake),
        Text(b"standby"),
        Number(used.standby),
        Text(b"energy"),
        Large(used.units / 10_000_000),
        Text(b"reads"),
        Number(told.reads.count),
        Text(b"wait"),
        Number(told.reads.waiting()),
        Text(b"writes"),
        Number(told.writes.count),
        Text(b"wait"),
        Number(told.writes.waiting()),
        Text(b"blocks"),
        Large(held.blocks),
        Text(b"segments"),
        Large(held.segments),
        Text(b"of"),
        Number(u64::from(volume.segments)),
    ];
    append_line(shown(policy, &words), out)
}
