// What a volume puts home and gives up after a window.
ghost use Rattle.std.specs.List.{AllByRecursion, count_by, range_with_len};
ghost use Rattle.std.specs.Prelude.{[], ◌==◌, ◌≡◌, ◌<◌, ◌≤◌, ℕ, true, false, List, length, IfNone, IfSome, None, is_none, if◌then◌else◌};
ghost use Rattle.whatif.specs.Disks.{IsKept, moments_of};
ghost use Rattle.whatif.specs.Machine.{Reach, give_step, put_step, next_due, next_to_go, reclaiming};
ghost use Rattle.whatif.specs.Volumes.{HasDone, IsVolume, IsWithin, StaysOpen, give_answer, given_moves, look_in, put_answer, reach_in};
ghost use Rattle.wol_model.specs.Index.{left, listed_in};
ghost use Rattle.wol_model.specs.Log.{has_bit};

use crate::disk::{Disk, access_at};
use crate::store::Given;
use crate::volume::Volume;
use block_cells::has;
use garbage_list::{due, may_go, next_due, next_to_go};
use redirect_map::Rec;

// One for a bit that is set.
fn one_if(set: bool) -> u32
    ensures { result ≡ (if set then 1 else 0) }
{
    if set { 1 } else { 0 }
}

// How many of so many bits are set.
fn bits(mask: u128, count: u32) -> u32
    requires { count ≤ 128 }
    ensures { result ≡ count_by (has_bit mask) (range_with_len 0 count) }
{
    let mut set = 0;
    for bit in 0..count {
        set += one_if(has(mask, bit));
    }
    set
}

// The record, on this disk, gives up the blocks of a mask.
fn given(record: &Rec, mask: u128, disk: u32) -> Given
    requires { record.now.count ≤ 128 }
    ensures { result ≡ (let blocks = count_by (has_bit mask) (range_with_len 0 record.now.count) in
        record {
          disk = disk;
          version = record.now.version;
          blocks = blocks;
          gone = blocks == count_by (has_bit record.now.keep) (range_with_len 0 record.now.count);
        }) }
{
    let blocks = bits(mask, record.count);
    Given {
        disk,
        version: record.version,
        blocks,
        gone: blocks == bits(record.keep, record.count),
    }
}

impl Volume {
    // The due blocks of the record of least version within reach go home. Answers the disk of its logger.
    fn put_home(&mut self) -> Option<u32>
        requires volume { IsVolume self.old }
        requires settled { self.old.settled ≡ false }
        ensures stays { StaysOpen [] self.old self.new }
        ensures none { IfNone result ((next_due (look_in self.old) ≡ None) × (self.new ≡ self.old)) }
        ensures step { put_step (reach_in self.old) (look_in self.old)
            ≡ put_answer (reach_in self.old) (look_in self.new) result }
        ensures within { IfSome result
            (λ d. (disks : ℕ) → IsWithin disks (reach_in self.old) → d < disks) }
        ensures lowers { IfSome result (λ d.
            left (listed_in self.new.index.entries) < left (listed_in self.old.index.entries)) }
    {
        if !self.home_up {
            return None;
        }
        let version = next_due(&self.index, self.ups.as_slice())?;
        let record = self.index.find(version)?;
        let homed = self.index.homed(version) | due(&self.index, version);
        self.index.set_homed(version, homed);
        Some(self.loggers[record.lane as usize])
    }

    // The record of least version within reach of which blocks may go gives these up. Answers what it gave up, and where.
    fn give_up(&mut self) -> Option<Given>
        requires volume { IsVolume self.old }
        requires settled { self.old.settled ≡ false }
        ensures stays { StaysOpen (given_moves result) self.old self.new }
        ensures none { IfNone result
            ((next_to_go (look_in self.old) ≡ None) × (self.new ≡ self.old)) }
        ensures step { give_step (reach_in self.old) (look_in self.old)
            ≡ give_answer (look_in self.new) result }
        ensures within { IfSome result
            (λ g. (disks : ℕ) → IsWithin disks (reach_in self.old) → g.disk < disks) }
        ensures lowers { IfSome result (λ g.
            left (listed_in self.new.index.entries) < left (listed_in self.old.index.entries)) }
    {
        let version = next_to_go(&self.index, self.ups.as_slice())?;
        let record = self.index.find(version)?;
        let mask = may_go(&self.index, version);
        let given = given(&record, mask, self.loggers[record.lane as usize]);
        self.index.trim(version, mask);
        self.store.give(&given);
        Some(given)
    }

    // Whether nothing is due within reach.
    fn has_nothing_due(&self) -> bool
        requires { IsVolume self.now }
        ensures { result ≡ is_none (next_due (look_in self.now)) }
    {
        !self.home_up || next_due(&self.index, self.ups.as_slice()).is_none()
    }

    /// Puts home what is due, and then gives up what may go.
    pub(crate) fn reclaim(&mut self, disks: &mut [Disk])
        requires volume { IsVolume self.old }
        requires within { IsWithin (length disks.old) (reach_in self.old) }
        requires kept { AllByRecursion IsKept disks.old }
        ensures volume { IsVolume self.new }
        ensures kept { AllByRecursion IsKept disks.new }
        ensures moments { moments_of disks.new ≡ moments_of disks.old }
        ensures next { self.new.next ≡ self.old.next }
        ensures done { HasDone reclaiming self.old self.new disks.old disks.new }
    {
        if self.settled {
            return;
        }
        'puts: while let Some(logger) = self.put_home() {
            access_at(disks, logger);
            access_at(disks, self.own);
        }
        'gives: while let Some(given) = self.give_up() {
            access_at(disks, given.disk);
        }
        self.settled = self.has_nothing_due();
    }
}
