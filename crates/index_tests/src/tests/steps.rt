// Single calls of an index whose versions are all below a number, on three lanes.
ghost use Rattle.index_tests.specs.Below.{AreBelow};
ghost use Rattle.std.specs.Prelude.{◌≡◌, ◌<◌, ◌≤◌, ◌+◌, ◌^◌};

use garbage_list::may_go;
use redirect_map::{Index, Rec};
use wol_disk::NoMemory;

pub fn add_next(index: &mut Index, record: Rec) -> Result<(), NoMemory>
    requires below { AreBelow record.version index.old.entries }
    requires lane { record.lane < 3 }
    requires some { 1 ≤ record.count }
    requires count { record.count ≤ 128 }
    requires within { record.lbn + record.count ≤ 2 ^ 32 }
    requires keeps { 0 < record.keep }
    requires keep_within { record.keep < 2 ^ record.count }
    ensures { AreBelow (record.version + 1) index.new.entries }
{
    index.reserve(record.runs())?;
    index.add(record);
    Ok(())
}

// Notes that all live blocks of this version's record are home, and says which these are.
pub fn put_home(index: &mut Index, next: u64, version: u64) -> u128
    requires { AreBelow next index.old.entries }
    ensures { AreBelow next index.new.entries }
{
    if index.find(version).is_none() {
        return 0;
    }
    let live = index.live(version);
    index.set_homed(version, live);
    live
}

// Gives up what may go of this version's record, and says what that is.
pub fn give_up(index: &mut Index, next: u64, version: u64) -> u128
    requires { AreBelow next index.old.entries }
    ensures { AreBelow next index.new.entries }
{
    if index.find(version).is_none() {
        return 0;
    }
    let mask = may_go(index, version);
    if mask != 0 {
        index.trim(version, mask);
    }
    mask
}
