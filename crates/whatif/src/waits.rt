// What is told of the waits of requests.
ghost use Rattle.std.specs.Prelude.{◌≡◌, ◌≢◌, ◌<◌, ◌≤◌, ◌+◌, ◌*◌, ◌^◌, ◌++◌, ◌∷◌, [], ℕ, List, Option, length, nat_le, option_to_list, position, slice_index, unwrap_or, IfOk};
ghost use Rattle.whatif.specs.declared.logged.Held.{Held};
ghost use Rattle.whatif.specs.Waits.{AreFew, AreFewIn, AreLogged, AreTallied, AreTold, IsFew, IsTold, Waited, is_over, late_ms};
ghost use Rattle.wol_model.specs.declared.trace.Kind.{Kind};

use crate::logged::{Held, Logged};
use crate::policy::Ask;
use std::alloc::Global;
use wol_disk::NoMemory;
use wol_model::Kind;

/// The waits of the requests of one kind.
#[derive(Clone, Copy)]
pub struct Waits {
    /// How many requests there were.
    pub count: u64,
    /// How many of them waited longer than no tenth, than one, and so on up to nine tenths, of the time that a disk takes to come
    /// up.
    pub over: [u64; 10],
    /// All waits together, in units of 100 ns.
    pub sum: u128,
}

/// The waits of reads and of writes.
#[derive(Clone, Copy)]
pub struct Told {
    pub reads: Waits,
    pub writes: Waits,
}

/// The waits of the requests of all volumes, and of each, and what logs held.
#[derive(Drop)]
pub(crate) struct Tallies {
    pub all: Told,
    pub each: Vec<Told>,
    pub logged: Logged,
}

// Whether a wait is longer than so many tenths of the time that a disk takes to come up.
fn is_over(wake: u64, tenths: u64, wait: u64) -> bool
    ensures { result ≡ is_over wake tenths wait }
{
    u128::from(tenths) * u128::from(wake) < 10 * u128::from(wait)
}

// By how many tenths a wait may be late: none where there is no wait.
fn tenths_of(wait: u64) -> usize
    ensures most { result ≤ 10 }
    ensures all { wait ≢ 0 → result ≡ 10 }
{
    if wait == 0 { 0 } else { 10 }
}

impl Waits {
    // No request was made.
    fn new() -> Waits
        ensures told { (wake : ℕ) → IsTold wake [] result }
        ensures few { IsFew 0 result }
    {
        Waits {
            count: 0,
            over: [0; 10],
            sum: 0,
        }
    }

    // A request more waited so long, where a disk takes `wake` to come up. One that doesn't wait is late by no tenth.
    fn add(&mut self, wait: u64, wake: u64, asked: u64)
        requires few { IsFew asked self.old }
        requires room { asked < 2 ^ 63 }
        ensures few { IsFew (asked + 1) self.new }
        ensures told { (waits : List ℕ) → IsTold wake waits self.old
            → IsTold wake (waits ++ wait ∷ []) self.new }
    {
        for k in 0..tenths_of(wait) {
            self.over[k] += u64::from(is_over(wake, k as u64, wait));
        }
        self.count += 1;
        self.sum += u128::from(wait);
    }

    /// How many requests waited.
    pub fn waiting(&self) -> u64
        ensures { result ≡ slice_index self.now.over 0 }
    {
        self.over[0]
    }

    // The least number of tenths, up to ten, that at most one request in `share` waited longer than.
    fn late(&self, share: u64) -> u64
        ensures { result ≡ unwrap_or
            (position (λ n. nat_le (share * n) self.now.count) self.now.over) 10 }
    {
        match first_rare(&self.over, share, self.count) {
            Some(tenths) => tenths as u64,
            None => 10,
        }
    }

    /// In ms, rounded up to a tenth of `wake`, the least time that at most one request in `share` waited longer than.
    pub fn late_ms(&self, share: u64, wake: u64) -> u128
        ensures { (waits : List ℕ) → IsTold wake waits self.now → result ≡ late_ms wake share waits }
    {
        (u128::from(self.late(share)) * u128::from(wake / 10_000) + 9) / 10
    }
}

// The place of the first of these numbers that at most one in `share` of so many requests make.
fn first_rare(numbers: &[u64], share: u64, of: u64) -> Option<usize>
    ensures { result ≡ position (λ n. nat_le (share * n) of) numbers.now }
{
    numbers.iter().position(|n| is_rare(share, *n, of))
}

fn is_rare(share: u64, number: u64, of: u64) -> bool
    ensures { result ≡ nat_le (share * number) of }
{
    u128::from(share) * u128::from(number) <= u128::from(of)
}

impl Told {
    /// No request was made.
    pub(crate) fn new() -> Told
        ensures told { (wake : ℕ) → AreTold wake [] result }
        ensures few { AreFew 0 result }
    {
        Told {
            reads: Waits::new(),
            writes: Waits::new(),
        }
    }

    /// A request more waited so long, where a disk takes `wake` to come up.
    pub(crate) fn add(&mut self, kind: Kind, wait: u64, wake: u64, asked: u64)
        requires few { AreFew asked self.old }
        requires room { asked < 2 ^ 63 }
        ensures few { AreFew (asked + 1) self.new }
        ensures told { (ws : List Waited) (volume : ℕ) (held : Option Held) → AreTold wake ws self.old
            → AreTold wake
            (ws ++ record { volume = volume; kind = kind; wait = wait; held = held } ∷ []) self.new }
    {
        match kind {
            Kind::Read => self.reads.add(wait, wake, asked),
            Kind::Write => self.writes.add(wait, wake, asked),
        }
    }
}

// A request went to a log, if it did.
fn log_if(logged: &mut Logged, held: &Option<Held>)
    requires room { logged.old.count < 2 ^ 63 }
    ensures told { (hs : List Held) → AreLogged hs logged.old
        → AreLogged (hs ++ option_to_list held.now) logged.new }
    ensures count { logged.new.count ≤ logged.old.count + 1 }
    ensures disks { length logged.new.each.items ≡ length logged.old.each.items }
{
    if let Some(held) = held {
        logged.add(held);
    }
}

impl Tallies {
    /// No request was made of these volumes.
    pub(crate) fn new(alloc: Global, volumes: usize) -> Result<Tallies, NoMemory>
        ensures told { IfOk result (λ t. (wake : ℕ) → AreTallied wake [] t) }
        ensures few { IfOk result (AreFewIn volumes 0) }
    {
        Ok(Tallies {
            all: Told::new(),
            each: vec![in alloc; Told::new(); volumes]?,
            logged: Logged::new(alloc, volumes)?,
        })
    }

    /// A request more waited so long, where a disk takes `wake` to come up, and logs hold so much where it went to one.
    pub(crate) fn add(&mut self, ask: &Ask, wait: u64, held: &Option<Held>, wake: u64, asked: u64)
        requires few { AreFewIn (length self.old.each.items) asked self.old }
        requires room { asked < 2 ^ 63 }
        requires volume { ask.now.volume < length self.old.each.items }
        ensures few { AreFewIn (length self.old.each.items) (asked + 1) self.new }
        ensures told { (ws : List Waited) → AreTallied wake ws self.old → AreTallied wake
            (ws ++ record {
              volume = ask.now.volume;
              kind = ask.now.kind;
              wait = wait;
              held = held.now;
            } ∷ []) self.new }
    {
        log_if(&mut self.logged, held);
        self.all.add(ask.kind, wait, wake, asked);
        self.each[ask.volume as usize].add(ask.kind, wait, wake, asked);
    }
}
