// The index of the records, and the next version.
ghost use Rattle.log_scan.specs.declared.Found.{Found};
ghost use Rattle.log_scan.specs.declared.Scan.{Scan};
ghost use Rattle.manager_recovery.specs.Scanned.{entries_from, IsEntryInRange, next_found, next_of};
ghost use Rattle.manager_recovery.specs.declared.listing.FoundRecord.{FoundRecord};
ghost use Rattle.std.specs.List.{AllByRecursion};
ghost use Rattle.std.specs.Prelude.{◌≡◌, ◌<◌, ◌≤◌, ◌^◌, ℕ, map, IfOk};
ghost use Rattle.wol_model.specs.Index.{AreRising};

use crate::listing::FoundRecord;
use log_scan::{Found, Scan};
use redirect_map::Index;
use std::alloc::Global;
use wol_disk::NoMemory;

/// The index of records of rising versions.
pub fn fill_index(alloc: Global, listed: &[FoundRecord]) -> Result<Index, NoMemory>
    requires rising { AreRising (map (λ (r : FoundRecord). r.entry.version) listed.now) }
    requires ranges { AllByRecursion IsEntryInRange listed.now }
    ensures { IfOk result (λ index. index.entries ≡ entries_from listed.now) }
{
    let mut index = Index::new(alloc);
    for one in listed {
        index.reserve(one.entry.runs())?;
        index.add(one.entry);
    }
    Ok(index)
}

// One above the greatest version of these records, and at least `next`.
fn next_after(next: u64, found: &[Found]) -> u64
    requires next { (1 ≤ next) × (next ≤ 2 ^ 63) }
    requires ranges { AllByRecursion (λ (f : Found). f.head.version < 2 ^ 63) found.now }
    ensures value { result ≡ next_found next found.now }
    ensures range { (1 ≤ result) × (result ≤ 2 ^ 63) }
{
    let mut next = next;
    for one in found {
        next = next.max(one.head.version + 1);
    }
    next
}

/// One above the greatest version of all records, whether they keep blocks or not, and 1 where there is none.
pub fn next_version(scans: &[Scan]) -> u64
    requires { AllByRecursion (λ (s : Scan).
        AllByRecursion (λ (f : Found). f.head.version < 2 ^ 63) s.records.items) scans.now }
    ensures value { result ≡ next_of 1 scans.now }
    ensures range { (1 ≤ result) × (result ≤ 2 ^ 63) }
{
    let mut next = 1;
    for scan in scans {
        next = next_after(next, &scan.records);
    }
    next
}
