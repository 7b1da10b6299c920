// Writes in a row that go to a log together.
use super::gates::Counting;
use super::stopping::{Stops, alone, stopped, try_stops};
use super::volumes::{laid_out, run};
use fixtures::{APART, Left, TOGETHER, config_text};
use request_workers::Reclaim;
use std::test::Fail;
use wol_config::read_config;

// Two volumes of eight blocks; the first logs on the one segment of the second. What is read of the four blocks after some first
// ones of the writes: the mark is the sum of the lines that wrote them.
const GROUPED: Stops<'_> = Stops {
    config: config_text!(12:
        "a" of "a" 8 0 "\"b\"",
        "b" of "b" 8 1 ""
    ),
    volumes: [("a", 10), ("b", 22)],
    reclaim: Reclaim::Off,
    trace: TOGETHER,
    placed: b"placed home 0 log 4 drains 0\n",
    read: b"128166373000000000,a,0,Read,0,2048,100\n",
    found: &[
        b"read 1 a 0 4 0\n",
        b"read 1 a 0 4 3\n",
        b"read 1 a 0 4 7\n",
        b"read 1 a 0 4 12\n",
        b"read 1 a 0 4 18\n",
    ],
};

#[test]
fn a_stop_leaves_the_first_writes_of_a_window(rt: HostRuntime) -> Result<(), Fail> {
    // the oldest of what a crash may leave has none of them before the last sync, the newest has all
    for (left, last) in [(Left::AllOld, 0), (Left::AllNew, 4)] {
        try_stops(&rt, rt.alloc(), &GROUPED, left, last)?;
    }
    Ok(())
}

#[test]
fn writes_of_a_window_share_their_syncs(rt: HostRuntime) -> Result<(), Fail> {
    let alloc = rt.alloc();
    let config = read_config(alloc, GROUPED.config.as_bytes())?;
    let all = Left::AllNew;
    let (_, together, _) = stopped(&rt, alloc, &config, &GROUPED, TOGETHER, u64::MAX, all)?;
    let (_, apart, _) = stopped(&rt, alloc, &config, &GROUPED, APART, u64::MAX, all)?;
    // two syncs for all, in place of two for each
    assert_eq!(rt; apart.checked_sub(together), Some(6));
    Ok(())
}

#[test]
fn each_request_of_a_group_passes_the_gate_once(rt: HostRuntime) -> Result<(), Fail> {
    let alloc = rt.alloc();
    let (config, mut bay) = laid_out(&rt, alloc, GROUPED.config)?;
    let gate = Counting::new();
    let options = alone(Reclaim::Off);
    let (status, _out) = run(&rt, alloc, &config, &mut bay, TOGETHER, options, &gate)?;
    assert_eq!(rt; (status, gate.passes()), (0, 6));
    Ok(())
}
