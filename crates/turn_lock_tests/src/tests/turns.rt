// Turns of locks that threads make, and their passes.
ghost use Rattle.std.specs.Prelude.{◌≡◌, ◌+◌, ℕ, length, All, vec_len, IfSome};
ghost use Rattle.turn_lock.specs.Passes.{lock_id, lock_passes, pass_lock, pass_mine, IsPassOf, IsFree};
ghost use Rattle.turn_lock_tests.specs.Made.{HasMade};

use crate::*;
use std::alloc::Global;
use std::sync::Wait;
use std::test::Fail;
use std::thread;
use std::thread::Threads;
use turn_lock::{Pass, TurnLock};

const TURNS: u32 = 1000;

fn many<R: Wait>(rt: &R, lock: &TurnLock<Counter>, pass: &mut Pass<Counter>)
    requires own { IsPassOf lock.now pass.old }
    requires free { IsFree pass.old }
    ensures own { IsPassOf lock.entry.now pass.new }
    ensures free { IsFree pass.new }
    ensures made { length (pass_mine pass.new) ≡ length (pass_mine pass.old) + 1000 }
{
    for _ in 0..TURNS {
        count_up(rt, lock, pass);
    }
}

fn all_turns<R: Threads + Wait + Sync>(
    rt: &R,
    lock: &TurnLock<Counter>,
    passes: &mut Vec<Pass<Counter>>,
)
    requires { All (HasMade lock.now 0) passes.old.items }
    ensures made { All (HasMade lock.entry.now 1000) passes.new.items }
    ensures count { vec_len passes.new ≡ vec_len passes.old }
{
    thread::for_each_mut(
        rt,
        passes.as_mut_slice(),
        4,
        &|_, pass: &mut Pass<Counter>|
            requires { HasMade lock.now 0 pass.now }
            ensures { HasMade lock.entry.now 1000 pass.exit.now }
        { many(rt, lock, pass) },
    );
}

// Four threads of 1,000 turns each.
fn four_thousand<R: Threads + Wait + Sync>(rt: &R, alloc: Global) -> Option<u64>
    ensures { IfSome result (λ n. n ≡ 4000) }
{
    match TurnLock::new(alloc, Counter { count: 0 }, 4, 0) {
        Ok((lock, mut passes)) => {
            all_turns(rt, &lock, &mut passes);
            let counter = lock.close(passes);
            Some(counter.count)
        }
        Err((_, _)) => None,
    }
}

#[test]
fn four_threads_of_a_thousand_turns_count_to_four_thousand(rt: HostRuntime) -> Result<(), Fail> {
    assert_eq!(rt; four_thousand(&rt, rt.alloc()), Some(4000));
    Ok(())
}

// One client and two helpers, by their numbers.
fn numbers(alloc: Global) -> Option<(u32, u32, u32)>
    ensures { IfSome result (λ n. (n.0 ≡ 0) × (n.1 ≡ 1) × (n.2 ≡ 2)) }
{
    match TurnLock::new(alloc, Counter { count: 7 }, 1, 2) {
        Ok((lock, passes)) => {
            let found = (passes[0].number(), passes[1].number(), passes[2].number());
            let _counter = lock.close(passes);
            Some(found)
        }
        Err((_, _)) => None,
    }
}

#[test]
fn passes_are_numbered_from_zero(rt: HostRuntime) -> Result<(), Fail> {
    assert_eq!(rt; numbers(rt.alloc()), Some((0, 1, 2)));
    Ok(())
}

// Two threads of ten turns each at a desk, whose counter has one pass.
fn desk_turns<R: Threads + Wait + Sync>(
    rt: &R,
    counter: &TurnLock<Counter>,
    lock: &TurnLock<Desk>,
    passes: &mut Vec<Pass<Desk>>,
)
    requires counter { (lock_id lock.now).base.counter.id ≡ lock_id counter.now }
    requires passes { All (λ p. IsPassOf lock.now p × IsFree p) passes.old.items }
    ensures passes { All (λ p. IsPassOf lock.entry.now p × IsFree p) passes.new.items }
    ensures count { vec_len passes.new ≡ vec_len passes.old }
{
    thread::for_each_mut(
        rt,
        passes.as_mut_slice(),
        2,
        &|_, pass: &mut Pass<Desk>|
            requires { IsPassOf lock.now pass.now × IsFree pass.now
                × ((lock_id lock.now).base.counter.id ≡ lock_id counter.now) }
            ensures { IsPassOf lock.entry.now pass.exit.now × IsFree pass.exit.now }
        { ten_turns(rt, counter, lock, pass) },
    );
}

fn ten_turns<R: Wait>(
    rt: &R,
    counter: &TurnLock<Counter>,
    lock: &TurnLock<Desk>,
    pass: &mut Pass<Desk>,
)
    requires pass { IsPassOf lock.now pass.old × IsFree pass.old }
    requires counter { (lock_id lock.now).base.counter.id ≡ lock_id counter.now }
    ensures { IsPassOf lock.entry.now pass.new × IsFree pass.new }
{
    for _ in 0..10 {
        work_once(rt, counter, lock, pass);
    }
}

// A lock over a desk that owns this pass of a counter's lock, and twenty turns of it. The pass comes back.
fn twenty_turns<R: Threads + Wait + Sync>(
    rt: &R,
    alloc: Global,
    counter: &TurnLock<Counter>,
    pass: Pass<Counter>,
) -> Pass<Counter>
    requires own { IsPassOf counter.now pass }
    requires free { IsFree pass }
    ensures own { IsPassOf counter.now result }
    ensures free { IsFree result }
{
    match TurnLock::new(alloc, Desk { counter: pass }, 1, 1) {
        Ok((lock, mut passes)) => {
            desk_turns(rt, counter, &lock, &mut passes);
            let Desk { counter: pass } = lock.close(passes);
            pass
        }
        Err((desk, _)) => {
            let Desk { counter: pass } = desk;
            pass
        }
    }
}

fn counted_within<R: Threads + Wait + Sync>(rt: &R, alloc: Global) -> Option<u64> {
    let Ok((lock, mut passes)) = TurnLock::new(alloc, Counter { count: 0 }, 1, 0) else {
        return None;
    };
    let Some(pass) = passes.pop() else {
        unreachable!()
    };
    passes.push_reserved(twenty_turns(rt, alloc, &lock, pass));
    let counter = lock.close(passes);
    Some(counter.count)
}

#[test]
fn turns_within_turns_are_each_made_once(rt: HostRuntime) -> Result<(), Fail> {
    assert_eq!(rt; counted_within(&rt, rt.alloc()), Some(40));
    Ok(())
}
