// Moments, one after another.
ghost use Rattle.live_serving.specs.Moments.{CanTick, HasRunOut, HasTicked, TicksNext, hands};
ghost use Rattle.std.specs.Prelude.{◌≡◌, IfOk, OnErr};

use crate::ticks::Ticks;
use logger::Shared;
use manager::Manager;
use spin_model::Spindle;
use std::alloc::Global;
use std::sync::Wait;
use turn_lock::{Pass, TurnLock};
use window_desks::{HelperRoom, begin_moment, help};
use wol_disk::{Disk, NoMemory};

// The most rounds that the helpers make at a moment.
const MOST_ROUNDS: usize = 16;

/// Lets the moment `t` come, in 100 ns: it begins at every spindle, the managers are told which disks are awake, and the helpers
/// reclaim, in at most 16 rounds. The answer says of each disk whether it is awake. After `NoMemory` nobody had a turn; the
/// next moment may come.
pub fn tick<D: Disk, R: Wait>(
    rt: &R,
    alloc: Global,
    locks: &[TurnLock<Manager<D>>],
    shared: &Shared<D>,
    spindles: &mut [Pass<Spindle>],
    keepers: &mut [Pass<Manager<D>>],
    helpers: &mut [Pass<Manager<D>>],
    room: &mut HelperRoom,
    t: u64,
) -> Result<Vec<bool>, NoMemory>
    requires { CanTick locks.now shared.now (hands spindles.old keepers.old helpers.old)
        room.old.fault }
    ensures ready { CanTick locks.now shared.now (hands spindles.new keepers.new helpers.new)
        room.new.fault }
    ensures ticked { IfOk result (λ awake. HasTicked D.tells t awake.items
        (hands spindles.old keepers.old helpers.old)
        (hands spindles.new keepers.new helpers.new)) }
    ensures missed { OnErr result (hands spindles.new keepers.new helpers.new
        ≡ hands spindles.old keepers.old helpers.old) }
{
    let awake = begin_moment(rt, alloc, locks, shared, spindles, keepers, t)?;
    help(rt, locks, shared, MOST_ROUNDS, helpers, room);
    Ok(awake)
}

// Takes the next moment, and lets it come. Tells whether there was one.
fn tick_next<D: Disk, R: Wait, T: Ticks>(
    rt: &R,
    alloc: Global,
    locks: &[TurnLock<Manager<D>>],
    shared: &Shared<D>,
    spindles: &mut [Pass<Spindle>],
    keepers: &mut [Pass<Manager<D>>],
    helpers: &mut [Pass<Manager<D>>],
    room: &mut HelperRoom,
    ticks: &mut T,
) -> bool
    requires { CanTick locks.now shared.now (hands spindles.old keepers.old helpers.old)
        room.old.fault }
    ensures ready { CanTick locks.now shared.now (hands spindles.new keepers.new helpers.new)
        room.new.fault }
    ensures ticked { TicksNext T.Gave T.last D.tells ticks.old
        (hands spindles.old keepers.old helpers.old) ticks.new
        (hands spindles.new keepers.new helpers.new) result }
{
    match ticks.next() {
        Some(t) => {
            let _awake = tick(
                rt, alloc, locks, shared, spindles, keepers, helpers, room, t,
            );
            true
        }
        None => false,
    }
}

/// Lets moments come until there are no more. One for which there is no memory is passed over.
pub fn run_clock<D: Disk, R: Wait, T: Ticks>(
    rt: &R,
    alloc: Global,
    locks: &[TurnLock<Manager<D>>],
    shared: &Shared<D>,
    spindles: &mut [Pass<Spindle>],
    keepers: &mut [Pass<Manager<D>>],
    helpers: &mut [Pass<Manager<D>>],
    room: &mut HelperRoom,
    ticks: &mut T,
)
    requires { CanTick locks.now shared.now (hands spindles.old keepers.old helpers.old)
        room.old.fault }
    ensures ready { CanTick locks.now shared.now (hands spindles.new keepers.new helpers.new)
        room.new.fault }
    ensures ticked { HasRunOut T.Gave T.last D.tells ticks.old
        (hands spindles.old keepers.old helpers.old) ticks.new
        (hands spindles.new keepers.new helpers.new) }
{
    'moments: for _ in rt.forever() {
        if !tick_next(
            rt, alloc, locks, shared, spindles, keepers, helpers, room, ticks,
        ) {
            return;
        }
    }
    unreachable!()
}
