// Amounts that were worked out by hand.
use energy::{Powers, Sums, calls};
use fixtures::same;
use std::test::Fail;

#[test]
fn sums_a_journal_that_ends_in_standby() -> Result<(), Fail> {
    let start = 128_166_372_000_000_000;
    let sums = Sums {
        wakes: 1,
        sleeps: 2,
        standby: (2_000_000_000 - 600_000_000) + (4_000_000_000 - 2_900_000_000),
    };
    let powers = Powers {
        awake_mw: 8_000,
        standby_mw: 1_000,
        wake_mj: 50_000,
    };
    let used = calls::amounts(&sums, start, start + 4_000_000_000, &powers);
    same(&used.wakes, &1)?;
    same(&used.sleeps, &2)?;
    same(&used.awake, &1_500_000_000)?;
    same(&used.standby, &2_500_000_000)?;
    same(&used.units, &(1_500_000 * 10_000_000))?;
    Ok(())
}

#[test]
fn a_disk_that_never_turned_was_awake() -> Result<(), Fail> {
    let powers = Powers {
        awake_mw: 1_000_000,
        standby_mw: 0,
        wake_mj: 0,
    };
    let sums = Sums {
        wakes: 0,
        sleeps: 0,
        standby: 0,
    };
    let used = calls::amounts(&sums, 5, 12, &powers);
    same(&(used.wakes, used.sleeps), &(0, 0))?;
    same(&(used.awake, used.standby), &(7, 0))?;
    same(&used.units, &7_000_000)?;
    Ok(())
}
