// What a disk used, by the sums over its journal.
ghost use Rattle.std.specs.Prelude.{◌≡◌, ◌≤◌, ◌<◌, ◌+◌, ◌-◌, ◌^◌, List};
ghost use Rattle.energy.specs.Sums.{AreSumsOf, AreSums, amounts_by, amounts_of};
ghost use Rattle.wol_model.specs.Journal.{ArePowers};
ghost use Rattle.wol_model.specs.declared.journal.Turned.{Turned};

use crate::{Amounts, Powers, Sums};

/// What a disk used from `from` to `to`, both in units of 100 ns, where these are the sums over its journal, which begins
/// awake at `from`. Each journal with these sums gives these amounts.
pub fn amounts(sums: &Sums, from: u64, to: u64, powers: &Powers) -> Amounts
    requires sums { AreSums from to sums.now }
    requires powers { ArePowers powers.now }
    ensures value { result ≡ amounts_by powers.now from to sums.now }
    ensures journal { (journal : List Turned) → AreSumsOf sums.now journal to
        → result ≡ amounts_of powers.now from to journal }
{
    let awake = to - from - sums.standby;
    Amounts {
        wakes: sums.wakes,
        sleeps: sums.sleeps,
        awake,
        standby: sums.standby,
        units: awake as u128 * powers.awake_mw as u128
            + sums.standby as u128 * powers.standby_mw as u128
            + sums.wakes as u128 * powers.wake_mj as u128 * 10_000_000,
    }
}
