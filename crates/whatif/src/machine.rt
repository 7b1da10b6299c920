// The machine: all volumes and all disks by one policy.
ghost use Rattle.std.specs.List.{AllByRecursion, range_with_len};
ghost use Rattle.std.specs.Prelude.{◌≡◌, ◌<◌, ◌≤◌, ◌+◌, ◌^◌, ◌++◌, ◌∷◌, [], ℕ, true, false, List, length, map, option_map, OnOk, OnErr, IfOk, if◌then◌else◌};
ghost use Rattle.whatif.specs.Disks.{AreDisks, AreKeptTo, IsKept, moments_of};
ghost use Rattle.whatif.specs.Lines.{volumes_text};
ghost use Rattle.whatif.specs.Machine.{Asked, all_sleeps, all_units, all_wakes, asking, seeing, tidying};
ghost use Rattle.whatif.specs.Policies.{HaveViews, compared, goes_down, machine_after, waits_by};
ghost use Rattle.whatif.specs.Stands.{AreNew, AreReady, AreRules, HasRun, HaveTurned, HaveWaited, IsAmong, IsAsk, IsMachine, Stands};
ghost use Rattle.whatif.specs.Volumes.{volume_in};
ghost use Rattle.whatif.specs.Waits.{AreFewIn, AreTallied, AreTold, held_on};
ghost use Rattle.whatif.specs.declared.policy.Policy.{Policy};
ghost use Rattle.wol_config.specs.Configs.{IsValid};
ghost use Rattle.wol_config.specs.declared.config.Config.{Config};
ghost use Rattle.wol_model.specs.Journal.{SpindleState, Began, ArePowers, used};

use crate::disk::Disk;
use crate::logged::{Held, Logged};
use crate::policy::{Ask, Compared, Policy};
use crate::telling::volume_lines;
use crate::views::loggers_of;
use crate::volume::Volume;
use crate::waits::{Tallies, Told};
use std::alloc::Global;
use wol_config::{Config, VolumeConf};
use wol_disk::NoMemory;
use wol_model::Powers;

// When disks go down and how long they take to come up, in units of 100 ns.
#[derive(Clone, Copy)]
pub(crate) struct Rules {
    pub timeout: u64,
    // Whether disks go down at all.
    pub sleeps: bool,
    pub wake: u64,
}

/// All volumes of a configuration and their disks, by one policy, between two windows of requests.
///
/// It keeps an index of what is logged of each volume, and the sums of each disk: its memory grows with what is logged alone,
/// and not with the trace.
#[derive(Drop)]
pub struct Machine {
    rules: Rules,
    powers: Powers,
    volumes: Vec<Volume>,
    disks: Vec<Disk>,
    // The moment of the last window, or the beginning of the account.
    moment: u64,
    // How many requests were asked.
    asked: u64,
    // What is told of their waits.
    tallies: Tallies,
    live: bool,
}

// The volumes, of which nothing is logged.
fn volumes_of(
    alloc: Global,
    policy: Policy,
    volumes: &[VolumeConf],
    whole: u32,
) -> Result<Vec<Volume>, NoMemory>
    requires few { length volumes.now ≤ 64 }
    requires views { HaveViews volumes.now }
    ensures volumes { IfOk result (λ made. AreNew policy whole volumes.now made.items) }
{
    let mut made = Vec::new(alloc);
    for number in 0..volumes.len() {
        let loggers = loggers_of(alloc, policy, volumes, number)?;
        let volume = Volume::new(alloc, number as u32, loggers, volumes.len(), whole)?;
        made.push(volume)?;
    }
    Ok(made)
}

// The moment comes at each disk.
fn begin_disks(disks: &mut [Disk], at: u64, timeout: u64)
    requires kept { AreKeptTo at disks.old }
    requires timeout { 10000 ≤ timeout }
    ensures kept { AreKeptTo at disks.new }
    ensures began { (ss : List SpindleState) → AreDisks disks.old ss
        → AreDisks disks.new (map (λ s. used timeout s 0 (Began at)) ss) }
{
    for place in 0..disks.len() {
        disks[place].begin(at, timeout);
    }
}

// Whether disks go down by this policy.
fn goes_down(policy: Policy) -> bool
    ensures { result ≡ goes_down policy }
{
    match policy {
        Policy::Always => false,
        Policy::SpinDown | Policy::Host | Policy::All | Policy::Views => true,
    }
}

// The moment comes at each disk, if disks go down at all.
fn begin_if(disks: &mut [Disk], sleeps: bool, at: u64, timeout: u64)
    requires kept { AreKeptTo at disks.old }
    requires timeout { 10000 ≤ timeout }
    ensures kept { AreKeptTo at disks.new }
    ensures began { (ss : List SpindleState) → AreDisks disks.old ss
        → AreDisks disks.new (if sleeps then map (λ s. used timeout s 0 (Began at)) ss else ss) }
{
    if sleeps {
        begin_disks(disks, at, timeout);
    }
}

// Each volume sees which disks are awake.
fn show_disks(volumes: &mut [Volume], disks: &[Disk], asked: u64)
    requires volumes { AllByRecursion (IsAmong (length disks.now) asked) volumes.old }
    ensures volumes { AllByRecursion (IsAmong (length disks.now) asked) volumes.new }
    ensures seen { (ss : List SpindleState) → AreDisks disks.now ss
        → map volume_in volumes.new ≡ map (seeing ss) (map volume_in volumes.old) }
{
    for place in 0..volumes.len() {
        volumes[place].see(disks);
    }
}

// What logs hold: on this disk, and on all.
fn held_on(volumes: &[Volume], disk: u32, asked: u64) -> Held
    requires few { length volumes.now ≤ 64 }
    requires volumes { AllByRecursion (IsAmong (length volumes.now) asked) volumes.now }
    requires asked { asked < 2 ^ 63 }
    ensures { result ≡ held_on (map volume_in volumes.now) disk }
{
    let mut held = Held {
        disk,
        blocks: 0,
        segments: 0,
        all: 0,
    };
    for place in 0..volumes.len() {
        let store = &volumes[place].store;
        held.blocks += store.kept_on(disk);
        held.segments += u128::from(store.segments_on(disk));
        held.all += store.kept;
    }
    held
}

// .. where a request went to a log.
fn held_if(volumes: &[Volume], log: Option<u32>, asked: u64) -> Option<Held>
    requires few { length volumes.now ≤ 64 }
    requires volumes { AllByRecursion (IsAmong (length volumes.now) asked) volumes.now }
    requires asked { asked < 2 ^ 63 }
    ensures { result ≡ option_map (held_on (map volume_in volumes.now)) log }
{
    match log {
        Some(disk) => Some(held_on(volumes, disk, asked)),
        None => None,
    }
}

// Does what is asked of its volume, and tells its wait and what logs hold.
fn serve(
    volumes: &mut [Volume],
    disks: &mut [Disk],
    tallies: &mut Tallies,
    ask: &Ask,
    wake: u64,
    asked: u64,
    moment: u64,
) -> Result<(), NoMemory>
    requires ready { AreReady volumes.old disks.old asked moment }
    requires tallies { AreFewIn (length volumes.old) asked tallies.old }
    requires ask { IsAsk (length volumes.old) ask.now }
    requires count { length volumes.old ≤ 64 }
    requires few { asked + 1 < 2 ^ 63 }
    ensures ready { OnOk result (AreReady volumes.new disks.new (asked + 1) moment) }
    ensures tallies { OnOk result (AreFewIn (length volumes.old) (asked + 1) tallies.new) }
    ensures turn { OnOk result
        (HaveTurned (asking ask.now ∷ []) volumes.old disks.old volumes.new disks.new) }
    ensures waits { OnOk result
        (HaveWaited wake (ask.now ∷ []) volumes.old disks.old tallies.old tallies.new) }
{
    let served = volumes[ask.volume as usize].serve(disks, ask, wake)?;
    let held = held_if(volumes, served.log, asked + 1);
    tallies.add(ask, served.wait, &held, wake, asked);
    Ok(())
}

// Serves the requests of a window, in order.
fn serve_all(
    volumes: &mut [Volume],
    disks: &mut [Disk],
    tallies: &mut Tallies,
    asks: &[Ask],
    wake: u64,
    asked: u64,
    moment: u64,
) -> Result<(), NoMemory>
    requires ready { AreReady volumes.old disks.old asked moment }
    requires tallies { AreFewIn (length volumes.old) asked tallies.old }
    requires asks { AllByRecursion (IsAsk (length volumes.old)) asks.now }
    requires count { length volumes.old ≤ 64 }
    requires few { asked + length asks.now < 2 ^ 63 }
    ensures ready { OnOk result (AreReady volumes.new disks.new (asked + length asks.now) moment) }
    ensures tallies { OnOk result
        (AreFewIn (length volumes.old) (asked + length asks.now) tallies.new) }
    ensures turns { OnOk result
        (HaveTurned (map asking asks.now) volumes.old disks.old volumes.new disks.new) }
    ensures waits { OnOk result
        (HaveWaited wake asks.now volumes.old disks.old tallies.old tallies.new) }
{
    for place in 0..asks.len() {
        let before = asked + place as u64;
        serve(volumes, disks, tallies, &asks[place], wake, before, moment)?;
    }
    Ok(())
}

// A volume reclaims.
fn reclaim(volumes: &mut [Volume], disks: &mut [Disk], number: usize, asked: u64, moment: u64)
    requires ready { AreReady volumes.old disks.old asked moment }
    requires within { number < length volumes.old }
    ensures ready { AreReady volumes.new disks.new asked moment }
    ensures turn { HaveTurned (tidying number ∷ []) volumes.old disks.old volumes.new disks.new }
{
    volumes[number].reclaim(disks);
}

// Each volume reclaims, in order.
fn reclaim_all(volumes: &mut [Volume], disks: &mut [Disk], asked: u64, moment: u64)
    requires ready { AreReady volumes.old disks.old asked moment }
    ensures ready { AreReady volumes.new disks.new asked moment }
    ensures turns { HaveTurned (map tidying (range_with_len 0 (length volumes.old))) volumes.old
        disks.old volumes.new disks.new }
{
    for number in 0..volumes.len() {
        reclaim(volumes, disks, number, asked, moment);
    }
}

// A window of requests: it begins, its requests are served, and then each volume reclaims.
fn run(
    volumes: &mut [Volume],
    disks: &mut [Disk],
    tallies: &mut Tallies,
    asks: &[Ask],
    rules: &Rules,
    at: u64,
    asked: u64,
) -> Result<(), NoMemory>
    requires ready { AreReady volumes.old disks.old asked at }
    requires tallies { AreFewIn (length volumes.old) asked tallies.old }
    requires timeout { 10000 ≤ rules.now.timeout }
    requires asks { AllByRecursion (IsAsk (length volumes.old)) asks.now }
    requires count { length volumes.old ≤ 64 }
    requires few { asked + length asks.now < 2 ^ 63 }
    ensures ready { OnOk result (AreReady volumes.new disks.new (asked + length asks.now) at) }
    ensures tallies { OnOk result
        (AreFewIn (length volumes.old) (asked + length asks.now) tallies.new) }
    ensures run { OnOk result ((p : Policy) (c : Config) (from : ℕ) (ws : List Asked)
        → AreRules p c rules.now → Stands volumes.old disks.old (machine_after p c from ws)
        → Stands volumes.new disks.new
        (machine_after p c from (ws ++ record { moment = at; asks = asks.now } ∷ []))) }
    ensures waits { OnOk result ((p : Policy) (c : Config) (from : ℕ) (ws : List Asked)
        → AreRules p c rules.now → Stands volumes.old disks.old (machine_after p c from ws)
        → AreTallied c.wake (waits_by p c from ws) tallies.old
        → AreTallied c.wake
        (waits_by p c from (ws ++ record { moment = at; asks = asks.now } ∷ [])) tallies.new) }
{
    begin_if(disks, rules.sleeps, at, rules.timeout);
    show_disks(volumes, disks, asked);
    serve_all(volumes, disks, tallies, asks, rules.wake, asked, at)?;
    reclaim_all(volumes, disks, asked + asks.len() as u64, at);
    Ok(())
}

// Sums over disks.
fn sum_up(disks: &[Disk], to: u64, powers: &Powers) -> Compared
    requires few { length disks.now ≤ 64 }
    requires kept { AllByRecursion IsKept disks.now }
    requires moments { AllByRecursion (λ t. t ≤ to) (moments_of disks.now) }
    requires powers { ArePowers powers.now }
    ensures { (ss : List SpindleState) → AreDisks disks.now ss
        → result ≡ record {
          wakes = all_wakes ss;
          sleeps = all_sleeps ss;
          units = all_units powers.now ss to;
        } }
{
    let mut sums = Compared {
        wakes: 0,
        sleeps: 0,
        units: 0,
    };
    for place in 0..disks.len() {
        let used = disks[place].used_until(to, powers);
        sums.wakes += used.wakes;
        sums.sleeps += used.sleeps;
        sums.units += used.units;
    }
    sums
}

impl Machine {
    /// A machine by this policy, with nothing logged and all disks awake. Its account begins at `from`, in units of 100 ns.
    pub fn new(
        alloc: Global,
        policy: Policy,
        config: &Config,
        from: u64,
    ) -> Result<Machine, NoMemory>
        requires { IsValid config.now }
        ensures machine { IfOk result IsMachine }
        ensures live { IfOk result (λ m. m.live ≡ true) }
        ensures fresh { IfOk result (λ m. (m.moment ≡ from) × (m.asked ≡ 0)) }
        ensures count { IfOk result (λ m. length m.volumes.items ≡ length config.now.volumes.items) }
        ensures run { IfOk result (HasRun policy config.now from []) }
    {
        let volumes = volumes_of(
            alloc,
            policy,
            config.volumes.as_slice(),
            config.segment_blocks,
        )?;
        let disks = vec![in alloc; Disk::new(from); volumes.len()]?;
        let tallies = Tallies::new(alloc, volumes.len())?;
        Ok(Machine {
            rules: Rules {
                timeout: config.timeout,
                sleeps: goes_down(policy),
                wake: config.wake,
            },
            powers: config.powers,
            volumes,
            disks,
            moment: from,
            asked: 0,
            tallies,
            live: true,
        })
    }

    /// A window of requests, whose moment is `at`, in units of 100 ns. After `NoMemory` the machine isn't live.
    pub fn window(&mut self, at: u64, asks: &[Ask]) -> Result<(), NoMemory>
        requires machine { IsMachine self.old }
        requires live { self.old.live ≡ true }
        requires later { self.old.moment ≤ at }
        requires asks { AllByRecursion (IsAsk (length self.old.volumes.items)) asks.now }
        requires few { self.old.asked + length asks.now < 2 ^ 63 }
        ensures machine { OnOk result (IsMachine self.new) }
        ensures live { OnOk result (self.new.live ≡ true) }
        ensures dead { OnErr result (self.new.live ≡ false) }
        ensures on { OnOk result
            ((self.new.moment ≡ at) × (self.new.asked ≡ self.old.asked + length asks.now)) }
        ensures count { OnOk result (length self.new.volumes.items ≡ length self.old.volumes.items) }
        ensures run { OnOk result ((p : Policy) (c : Config) (from : ℕ) (ws : List Asked)
            → HasRun p c from ws self.old
            → HasRun p c from (ws ++ record { moment = at; asks = asks.now } ∷ []) self.new) }
    {
        self.live = false;
        run(
            self.volumes.as_mut_slice(),
            self.disks.as_mut_slice(),
            &mut self.tallies,
            asks,
            &self.rules,
            at,
            self.asked,
        )?;
        self.moment = at;
        self.asked += asks.len() as u64;
        self.live = true;
        Ok(())
    }

    /// Whether further windows may come.
    pub fn is_live(&self) -> bool
        ensures { result ≡ self.now.live }
    {
        self.live
    }

    /// What is told of what logs held.
    pub(crate) fn logged(&self) -> &Logged
        ensures { result.now ≡ self.now.tallies.logged }
    {
        &self.tallies.logged
    }

    /// What is told of the waits of all requests that were asked.
    pub fn told(&self) -> Told
        requires { IsMachine self.now }
        ensures { (p : Policy) (c : Config) (from : ℕ) (ws : List Asked) → HasRun p c from ws self.now
            → AreTold c.wake (waits_by p c from ws) result }
    {
        self.tallies.all
    }

    /// What all disks used until `to`, where the account ends, in units of 100 ns.
    pub fn used_until(&self, to: u64) -> Compared
        requires machine { IsMachine self.now }
        requires live { self.now.live ≡ true }
        requires later { self.now.moment ≤ to }
        ensures { (p : Policy) (c : Config) (from : ℕ) (ws : List Asked) → HasRun p c from ws self.now
            → result ≡ compared p c from ws to }
    {
        sum_up(self.disks.as_slice(), to, &self.powers)
    }

    // Appends the line of each volume. The account ends at `to`, in units of 100 ns.
    pub(crate) fn volume_lines(
        &self,
        policy: Policy,
        volumes: &[VolumeConf],
        to: u64,
        out: &mut Vec<u8>,
    ) -> Result<(), NoMemory>
        requires machine { IsMachine self.now }
        requires later { self.now.moment ≤ to }
        requires count { length volumes.now ≡ length self.now.volumes.items }
        ensures { (c : Config) (from : ℕ) (ws : List Asked) → HasRun policy c from ws self.now
            → volumes.now ≡ c.volumes.items
            → OnOk result (out.new.items ≡ out.old.items ++ volumes_text policy c from ws to) }
    {
        let disks = self.disks.as_slice();
        let told = self.tallies.each.as_slice();
        let held = self.tallies.logged.each.as_slice();
        volume_lines(policy, volumes, disks, told, held, &self.powers, to, out)
    }
}
