// All duties, while moments come.
ghost use Rattle.live_serving.specs.Together.{CanTickOn, HasTickedOn};
ghost use Rattle.std.specs.Prelude.{◌≤◌, ◌<◌, ℕ, length, slice_index_or};

use crate::clock::run_clock;
use crate::posts::{Duty, serve_all};
use crate::ticks::Ticks;
use logger::Shared;
use spin_model::Spindle;
use std::alloc::Global;
use std::sync::Wait;
use std::thread::{Threads, join_mut};
use turn_lock::Pass;
use window_desks::Floor;
use wol_disk::Disk;

// Lets moments come with the keepers and helpers of a floor, until there are no more.
fn tick_on<R: Wait, D: Disk, T: Ticks>(
    rt: &R,
    alloc: Global,
    shared: &Shared<D>,
    spindles: &mut [Pass<Spindle>],
    floor: &mut Floor<'_, D>,
    ticks: &mut T,
)
    requires { CanTickOn shared.now spindles.old floor.old }
    ensures { HasTickedOn T.Gave T.last D.tells shared.now spindles.old floor.old ticks.old
        spindles.new floor.new ticks.new }
{
    run_clock(
        rt,
        alloc,
        floor.locks,
        shared,
        spindles,
        floor.keepers.as_mut_slice(),
        floor.helpers.as_mut_slice(),
        &mut floor.help,
        ticks,
    );
}

/// Does all duties, each in a thread of its own, while one more thread lets moments come with the keepers and the helpers of a
/// floor. It ends behind the last duty and the last moment: the ticks have to give none any more once the duties are done.
///
/// Over posts themselves the borrow checker doesn't cover what is sent to a thread, so the duties are of any type.
pub fn serve_and_tick<
    'a,
    'l,
    R: Threads + Wait + Sync,
    U: Duty + Send,
    D: Disk + Send,
    T: Ticks + Send,
>(
    rt: &'a R,
    alloc: Global,
    shared: &'a Shared<D>,
    spindles: &'a mut [Pass<Spindle>],
    floor: &'a mut Floor<'l, D>,
    duties: &'a mut [U],
    ticks: &'a mut T,
)
    requires some { 1 ≤ length duties.old }
    requires ready { (k : ℕ) (d : U) → k < length duties.old
        → U.Ready (slice_index_or duties.old k d) }
    requires ticks { CanTickOn shared.now spindles.old floor.old }
    ensures did { (k : ℕ) (d : U) → k < length duties.old
        → U.Did (slice_index_or duties.old k d) (slice_index_or duties.new k d) }
    ensures ticked { HasTickedOn T.Gave T.last D.tells shared.now spindles.old floor.old ticks.old
        spindles.new floor.new ticks.new }
{
    let again = alloc;
    join_mut(
        rt,
        &mut ||
            requires { (1 ≤ length duties.now) × ((k : ℕ) (d : U) → k < length duties.now
                → U.Ready (slice_index_or duties.now k d)) }
            ensures { (k : ℕ) (d : U) → k < length duties.entry.now
                → U.Did (slice_index_or duties.entry.now k d) (slice_index_or duties.exit.now k d) }
        { serve_all(rt, alloc, duties) },
        &mut ||
            requires { CanTickOn shared.now spindles.now floor.now }
            ensures { HasTickedOn T.Gave T.last D.tells shared.entry.now spindles.entry.now
                floor.entry.now ticks.entry.now spindles.exit.now floor.exit.now ticks.exit.now }
        { tick_on(rt, again, shared, spindles, floor, ticks) },
    );
}
