// One volume: what of it is logged, which disks it sees awake, and what its requests do.
ghost use Rattle.std.specs.List.{AllByRecursion};
ghost use Rattle.std.specs.Prelude.{◌≡◌, ◌<◌, ◌≤◌, ◌+◌, ◌-◌, ◌^◌, ◌&&◌, ℕ, not, false, List, length, slice_set, slice_index_or, OnOk, IfOk, None};
ghost use Rattle.whatif.specs.Disks.{AreDisks, IsKept, moments_of};
ghost use Rattle.whatif.specs.Logs.{all_moved, filed_on, first_store};
ghost use Rattle.whatif.specs.Machine.{Reach, answering, filed_at, first_look, logger_at, reading, seeing, source_of, write_of, writing};
ghost use Rattle.whatif.specs.Volumes.{HasDone, IsLate, IsVolume, IsWithin, look_in, reach_in, store_in, volume_in};
ghost use Rattle.wol_model.specs.Index.{listed_in};
ghost use Rattle.wol_model.specs.Journal.{SpindleState};
ghost use Rattle.wol_model.specs.Placing.{Log};
ghost use Rattle.wol_promise.specs.Policy.{placed, woken};

use crate::disk::{Disk, access_at, lag_at};
use crate::policy::Ask;
use crate::store::Store;
use offload_policy::{Room, Step, place};
use redirect_map::{Index, Rec};
use std::alloc::Global;
use wol_disk::NoMemory;
use wol_model::Kind;

/// A volume, and the disks that it may use.
#[derive(Drop)]
pub(crate) struct Volume {
    /// Its own disk.
    pub own: u32,
    /// The disks of its loggers, in the order of its view.
    pub loggers: Vec<u32>,
    /// What is known of the loggers' room: there always is some.
    pub rooms: Vec<Room>,
    /// Whether its own disk counts as awake.
    pub home_up: bool,
    /// Whether the loggers' disks count as awake.
    pub ups: Vec<bool>,
    /// The version of the next write to a log.
    pub next: u64,
    pub index: Index,
    /// What it has in logs.
    pub store: Store,
    /// Whether nothing is left to reclaim while no further disk counts as awake and nothing further is logged.
    pub settled: bool,
}

// The mask of a record that keeps all its blocks.
fn all_kept(count: u32) -> u128
    requires { (1 ≤ count) × (count ≤ 128) }
    ensures { result ≡ 2 ^ count - 1 }
{
    u128::MAX >> (128 - count)
}

/// How long a request waits, and the disk of the log to which it went, where it did.
#[derive(Clone, Copy)]
pub(crate) struct Served {
    pub wait: u64,
    pub log: Option<u32>,
}

impl Volume {
    /// A volume among so many disks, of which nothing is logged, and which counts all disks as awake. A segment has `whole` blocks.
    pub(crate) fn new(
        alloc: Global,
        own: u32,
        loggers: Vec<u32>,
        disks: usize,
        whole: u32,
    ) -> Result<Volume, NoMemory>
        requires few { length loggers.items ≤ 64 }
        requires within { AllByRecursion (λ d. d < disks) loggers.items }
        ensures volume { IfOk result IsVolume }
        ensures reach { IfOk result
            (λ v. reach_in v ≡ record { own = own; loggers = loggers.items }) }
        ensures look { IfOk result (λ v. look_in v ≡ first_look (reach_in v)) }
        ensures store { IfOk result (λ v. store_in v.store ≡ first_store whole) }
    {
        let count = loggers.len();
        Ok(Volume {
            own,
            loggers,
            rooms: vec![in alloc; Room::Yes; count]?,
            home_up: true,
            ups: vec![in alloc; true; count]?,
            next: 1,
            index: Index::new(alloc),
            store: Store::new(alloc, disks, whole)?,
            settled: false,
        })
    }

    // Its own disk counts as awake.
    fn see_home(&mut self, awake: bool)
        requires volume { IsVolume self.old }
        ensures volume { IsVolume self.new }
        ensures flag { self.new.home_up ≡ awake }
        ensures rest { self.new
            ≡ record self.old { home_up = self.new.home_up; settled = self.new.settled } }
    {
        if self.home_up == awake {
            return;
        }
        self.settled &= !awake | self.home_up;
        self.home_up = awake;
    }

    // The disk of the logger at this place of the view counts as awake, or not.
    fn see_logger(&mut self, lane: usize, awake: bool)
        requires volume { IsVolume self.old }
        requires within { lane < length self.old.ups.items }
        ensures volume { IsVolume self.new }
        ensures flag { self.new.ups.items ≡ slice_set self.old.ups.items lane awake }
        ensures rest { self.new
            ≡ record self.old { ups = self.new.ups; settled = self.new.settled } }
    {
        // (most flags stay as they are from window to window, and a store costs more than a look)
        if self.ups[lane] == awake {
            return;
        }
        self.settled &= !awake | self.ups[lane];
        self.ups[lane] = awake;
    }

    /// Sees which disks are awake.
    pub(crate) fn see(&mut self, disks: &[Disk])
        requires volume { IsVolume self.old }
        requires within { IsWithin (length disks.now) (reach_in self.old) }
        ensures volume { IsVolume self.new }
        ensures seen { (ss : List SpindleState) → AreDisks disks.now ss
            → volume_in self.new ≡ seeing ss (volume_in self.old) }
        ensures reach { reach_in self.new ≡ reach_in self.old }
        ensures next { self.new.next ≡ self.old.next }
    {
        self.see_home(disks[self.own as usize].is_awake());
        for lane in 0..self.loggers.len() {
            let disk = self.loggers[lane] as usize;
            self.see_logger(lane, disks[disk].is_awake());
        }
    }

    // The disk that has the block counts as awake. Answers which it is, and how many blocks from there on it has, of so many.
    fn wake_source(&mut self, lbn: u64, most: u32) -> (u32, u32)
        requires volume { IsVolume self.old }
        requires some { 1 ≤ most }
        requires blocks { lbn + most ≤ 2 ^ 32 }
        ensures volume { IsVolume self.new }
        ensures some { 1 ≤ result.1 }
        ensures most { result.1 ≤ most }
        ensures source { (b : ℕ) → lbn ≤ b → b < lbn + result.1 → result.0
            ≡ source_of (reach_in self.old) (listed_in self.old.index.entries) b }
        ensures look { look_in self.new ≡ woken (look_in self.old) lbn result.1 }
        ensures reach { reach_in self.new ≡ reach_in self.old }
        ensures store { self.new.store ≡ self.old.store }
    {
        let (source, run) = self.index.newest_run(lbn, most as usize);
        match source {
            Some(record) => {
                let lane = record.lane as usize;
                self.see_logger(lane, true);
                (self.loggers[lane], run as u32)
            }
            None => {
                self.see_home(true);
                (self.own, run as u32)
            }
        }
    }

    // Reads blocks, each from the disk that has it. Answers how long it waits for them, where a disk takes `spin_up` to come up.
    fn read(&mut self, disks: &mut [Disk], lbn: u64, count: u32, spin_up: u64) -> u64
        requires volume { IsVolume self.old }
        requires within { IsWithin (length disks.old) (reach_in self.old) }
        requires kept { AllByRecursion IsKept disks.old }
        requires blocks { lbn + count ≤ 2 ^ 32 }
        ensures volume { IsVolume self.new }
        ensures kept { AllByRecursion IsKept disks.new }
        ensures moments { moments_of disks.new ≡ moments_of disks.old }
        ensures done { HasDone (reading lbn count) self.old self.new disks.old disks.new }
        ensures late { IsLate spin_up (reading lbn count) self.old disks.old result }
    {
        let mut wait: u64 = 0;
        let mut done = 0;
        // (a disk that has several blocks in a row is used once for all of them: a second use at one moment changes nothing)
        'runs: while done < count {
            let (disk, run) = self.wake_source(lbn + u64::from(done), count - done);
            access_at(disks, disk);
            wait = wait.max(lag_at(disks, disk, spin_up));
            done += run;
        }
        wait
    }

    // Adds a record to the log on the logger at this place of the view. Answers the logger's disk.
    fn log(&mut self, lane: u32, lbn: u64, count: u32) -> Result<u32, NoMemory>
        requires volume { IsVolume self.old }
        requires lane { lane < length self.old.ups.items }
        requires next { self.old.next < 2 ^ 63 }
        requires some { 1 ≤ count }
        requires few { count ≤ 128 }
        requires blocks { lbn + count ≤ 2 ^ 32 }
        ensures volume { OnOk result (IsVolume self.new) }
        ensures look { OnOk result
            (look_in self.new ≡ placed (Log lane) (look_in self.old) (write_of lbn count)) }
        ensures reach { OnOk result (reach_in self.new ≡ reach_in self.old) }
        ensures disk { IfOk result (λ d. d ≡ logger_at (reach_in self.old) lane) }
        ensures store { OnOk result (store_in self.new.store
            ≡ all_moved (filed_at self.old.next count (reach_in self.old) (Log lane))
            (store_in self.old.store)) }
    {
        let disk = self.loggers[lane as usize];
        self.store.file(disk, self.next, count)?;
        self.index.reserve(1)?;
        self.index.add(Rec {
            version: self.next,
            lbn,
            count,
            keep: all_kept(count),
            lane,
            segment: 0,
            pos: 0,
        });
        self.next += 1;
        self.ups[lane as usize] = true;
        self.settled = false;
        Ok(disk)
    }

    // Writes blocks where the rule of placing says. Answers how long it waits, where a disk takes `spin_up` to come up, and where it
    // went.
    fn write(
        &mut self,
        disks: &mut [Disk],
        lbn: u64,
        count: u32,
        spin_up: u64,
    ) -> Result<Served, NoMemory>
        requires volume { IsVolume self.old }
        requires within { IsWithin (length disks.old) (reach_in self.old) }
        requires kept { AllByRecursion IsKept disks.old }
        requires next { self.old.next < 2 ^ 63 }
        requires some { 1 ≤ count }
        requires few { count ≤ 128 }
        requires blocks { lbn + count ≤ 2 ^ 32 }
        ensures volume { OnOk result (IsVolume self.new) }
        ensures kept { OnOk result (AllByRecursion IsKept disks.new) }
        ensures moments { OnOk result (moments_of disks.new ≡ moments_of disks.old) }
        ensures done { OnOk result
            (HasDone (writing lbn count) self.old self.new disks.old disks.new) }
        ensures late { IfOk result
            (λ s. IsLate spin_up (writing lbn count) self.old disks.old s.wait) }
        ensures log { IfOk result (λ s. s.log
            ≡ filed_on (writing lbn count (reach_in self.old) (look_in self.old)).moves) }
    {
        let covered = self.index.covered(lbn, count);
        match place(
            self.home_up,
            covered,
            self.ups.as_slice(),
            self.rooms.as_slice(),
        ) {
            Step::Home | Step::WakeHome => {
                self.see_home(true);
                access_at(disks, self.own);
                Ok(Served {
                    wait: lag_at(disks, self.own, spin_up),
                    log: None,
                })
            }
            Step::Log(lane) | Step::WakeLog(lane) | Step::Ask(lane) => {
                let disk = self.log(lane, lbn, count)?;
                access_at(disks, disk);
                Ok(Served {
                    wait: lag_at(disks, disk, spin_up),
                    log: Some(disk),
                })
            }
            Step::Full => Ok(Served { wait: 0, log: None }),
        }
    }

    /// Does what is asked of the volume. Answers how long the request waits, where a disk takes `spin_up` to come up, and to which log
    /// it went.
    pub(crate) fn serve(
        &mut self,
        disks: &mut [Disk],
        ask: &Ask,
        spin_up: u64,
    ) -> Result<Served, NoMemory>
        requires volume { IsVolume self.old }
        requires within { IsWithin (length disks.old) (reach_in self.old) }
        requires kept { AllByRecursion IsKept disks.old }
        requires next { self.old.next < 2 ^ 63 }
        requires some { 1 ≤ ask.now.count }
        requires few { ask.now.count ≤ 128 }
        requires blocks { ask.now.lbn + ask.now.count ≤ 2 ^ 32 }
        ensures volume { OnOk result (IsVolume self.new) }
        ensures kept { OnOk result (AllByRecursion IsKept disks.new) }
        ensures moments { OnOk result (moments_of disks.new ≡ moments_of disks.old) }
        ensures done { OnOk result (HasDone (answering ask.now.kind ask.now.lbn ask.now.count)
            self.old self.new disks.old disks.new) }
        ensures late { IfOk result (λ s. IsLate spin_up
            (answering ask.now.kind ask.now.lbn ask.now.count) self.old disks.old s.wait) }
        ensures log { IfOk result (λ s. s.log ≡ filed_on (answering ask.now.kind ask.now.lbn
            ask.now.count (reach_in self.old) (look_in self.old)).moves) }
    {
        match ask.kind {
            Kind::Read => Ok(Served {
                wait: self.read(disks, ask.lbn, ask.count, spin_up),
                log: None,
            }),
            Kind::Write => self.write(disks, ask.lbn, ask.count, spin_up),
        }
    }
}
