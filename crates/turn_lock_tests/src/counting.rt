// A worker that counts up, and the one that hands it numbers.
ghost use Rattle.errands.specs.Ends.{IsIdle, IsOver, IsTold, IsWaiting};
ghost use Rattle.std.specs.Prelude.{◌≡◌, IfOk};

use errands::{Errand, Errands, NoMemory, Sender, Worker};
use std::alloc::Global;
use std::sync::Wait;
use std::thread::{Threads, join};

/// What is handed over.
#[derive(Drop)]
pub struct Number {
    pub value: u64,
}

impl Errand for Number {
    ghost use Rattle.std.specs.Prelude.{◌≡◌, ◌<◌, ◌+◌, ◌^◌};

    ghost ready = { λ x. x.value < 2 ^ 32 };

    ghost served = { λ x y. y.value ≡ x.value + 1 };
}

// Counts up what is handed over, until nothing more comes.
fn work<R: Wait>(rt: &R, errands: &Errands<Number>, worker: &mut Worker<Number>)
    requires { IsWaiting errands.now worker.old }
    ensures { IsTold errands.entry.now worker.new }
{
    for _ in rt.forever() {
        let Some(number) = errands.take(rt, worker) else {
            return;
        };
        let next = Number {
            value: number.value + 1,
        };
        errands.leave(worker, next);
    }
    unreachable!()
}

// Hands a number over and takes it back, so many times, from 0 on, and tells the worker that nothing more comes.
fn lead<R: Wait>(rt: &R, errands: &Errands<Number>, sender: &mut Sender<Number>, rounds: u32) -> u64
    requires { IsIdle errands.now sender.old }
    ensures counted { result ≡ rounds }
    ensures over { IsOver errands.entry.now sender.new }
{
    let mut value = 0;
    for _ in 0..rounds {
        errands.give(sender, Number { value });
        value = errands.get_back(rt, sender).value;
    }
    errands.end(sender);
    value
}

/// A number that a worker counted up so many times, from 0 on, in a thread of its own.
pub fn counted<R: Threads + Wait + Sync>(
    rt: &R,
    alloc: Global,
    rounds: u32,
) -> Result<u64, NoMemory>
    ensures { IfOk result (λ n. n ≡ rounds) }
{
    let (errands, mut sender, mut worker) = Errands::new(alloc)?;
    let errands = &errands;
    let sender = &mut sender;
    let worker = &mut worker;
    let (_, value) = join(
        rt,
        ||
            requires { IsWaiting errands.now worker.now }
        { work(rt, errands, worker) },
        || -> u64
            requires { IsIdle errands.now sender.now }
            ensures { result ≡ rounds }
        { lead(rt, errands, sender, rounds) },
    );
    Ok(value)
}
