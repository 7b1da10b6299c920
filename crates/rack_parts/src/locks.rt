// Locks with all of their passes, and those of the spindles.
ghost use Rattle.rack_parts.specs.Locks.{IsWholeLock, AreSpindlesOf};
ghost use Rattle.std.specs.Prelude.{◌≡◌, ◌<◌, ◌≤◌, ◌+◌, ℕ, length, IfOk, All};

use log_segment::FreeSegment;
use seg_pool::Pool;
use spin_model::Spindle;
use std::alloc::Global;
use turn_lock::{Object, Pass, TurnLock};
use wol_disk::NoMemory;

/// A lock with all of its passes.
pub struct Issued<T: Object> {
    pub lock: TurnLock<T>,
    pub passes: Vec<Pass<T>>,
}

pub type IssuedPool<D> = Issued<Pool<FreeSegment<D>>>;

/// A lock over each spindle: a pass for each volume by its number, and the keeper's behind them.
pub fn issue_spindles(
    alloc: Global,
    volumes: u32,
    timeout: u64,
) -> Result<Vec<Issued<Spindle>>, NoMemory>
    requires few { volumes ≤ 1023 }
    requires timeout { 0 < timeout }
    ensures count { IfOk result (λ made. length made.items ≡ volumes) }
    ensures spindles { IfOk result (λ made. AreSpindlesOf volumes timeout made.items) }
{
    let Ok(mut made) = Vec::with_capacity(alloc, volumes as usize) else {
        return Err(NoMemory);
    };
    for id in 0..volumes {
        let spindle = Spindle::new(id, timeout);
        match TurnLock::new(alloc, spindle, volumes + 1, 0) {
            Ok((lock, passes)) => made.push_reserved(Issued { lock, passes }),
            Err(_) => {
                end_spindles(made);
                return Err(NoMemory);
            }
        }
    }
    Ok(made)
}

/// Ends the locks of spindles.
pub fn end_spindles(mut made: Vec<Issued<Spindle>>)
    requires { All (λ i. IsWholeLock i) made.items }
{
    while let Some(Issued { lock, passes }) = made.pop() {
        let _spindle = lock.close(passes);
    }
    made.destroy_empty();
}
