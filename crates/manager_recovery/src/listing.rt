// The records that keep blocks, by rising version, with the places of their heads.
ghost use Rattle.log_scan.specs.declared.Found.{Found};
ghost use Rattle.log_scan.specs.declared.Scan.{Scan};
ghost use Rattle.manager_recovery.specs.Owned.{HaveNoTwins, AreFirstTwins};
ghost use Rattle.manager_recovery.specs.Scanned.{record_in, lane_of, keeps_some, all_found, head_of, AreSortedByVersion, IsStableByVersion};
ghost use Rattle.manager_recovery.specs.declared.listing.FoundRecord.{FoundRecord};
ghost use Rattle.manager_recovery.specs.declared.opening.OwnedPart.{OwnedPart};
ghost use Rattle.std.specs.List.{AllByRecursion, AllZip};
ghost use Rattle.std.specs.Prelude.{◌≡◌, ◌≤◌, ◌<◌, ◌+◌, ◌^◌, ◌++◌, ℕ, true, List, map, filter, length, take, None, Some, MatchOption, OnOk, OnErr, IfOk, IsPermutation};
ghost use Rattle.wol_model.specs.Index.{AreRising};

use crate::OwnedPart;
use crate::names::place_of;
use log_layout::View;
use log_scan::{Found, Scan};
use redirect_map::Rec;
use std::alloc::Global;
use wol_disk::{Disk, NoMemory};

/// A record that keeps blocks, and where its head stands: the volume in whose image it lies, and the block there.
#[derive(Clone, Copy)]
pub struct FoundRecord {
    pub entry: Rec,
    pub volume: u32,
    pub block: u64,
}

// The record that was found in this segment of the logger at this place of the view.
fn record_at<D: Disk>(lane: u32, owned: &OwnedPart<D>, found: &Found) -> FoundRecord
    requires { owned.now.first_block + found.now.pos < 2 ^ 64 }
    ensures { result ≡ record_in lane owned.now found.now }
{
    let head = found.head;
    FoundRecord {
        entry: Rec {
            version: head.version,
            lbn: head.lbn,
            count: head.count,
            keep: head.keep,
            lane,
            segment: owned.index,
            pos: found.pos,
        },
        volume: owned.logger,
        block: owned.first_block + u64::from(found.pos),
    }
}

// Adds the records of one segment that keep blocks.
fn list_segment<D: Disk>(
    listed: &mut Vec<FoundRecord>,
    lane: u32,
    owned: &OwnedPart<D>,
    found: &[Found],
) -> Result<(), NoMemory>
    requires { AllByRecursion (λ (f : Found). owned.now.first_block + f.pos < 2 ^ 64) found.now }
    ensures { OnOk result (listed.new.items
        ≡ listed.old.items ++ map (record_in lane owned.now) (filter keeps_some found.now)) }
{
    for one in found {
        if one.head.keep != 0 {
            listed.push(record_at(lane, owned, one))?;
        }
    }
    Ok(())
}

/// The records of all owned segments that keep blocks, in order.
pub fn list_all<D: Disk>(
    alloc: Global,
    view: &View,
    owned: &[OwnedPart<D>],
    scans: &[Scan],
) -> Result<Vec<FoundRecord>, NoMemory>
    requires counted { length scans.now ≡ length owned.now }
    requires named { AllByRecursion
        (λ (o : OwnedPart D). lane_of view.now o.logger < length view.now) owned.now }
    requires fits { AllZip (λ (o : OwnedPart D) (s : Scan).
        AllByRecursion (λ (f : Found). o.first_block + f.pos < 2 ^ 64) s.records.items)
        owned.now scans.now }
    ensures { IfOk result (λ listed. listed.items ≡ all_found view.now owned.now scans.now) }
{
    let mut listed = Vec::new(alloc);
    for k in 0..owned.len() {
        let part = &owned[k];
        let lane = match place_of(view.ids(), part.logger) {
            Some(place) => place as u32,
            None => 0,
        };
        list_segment(&mut listed, lane, part, &scans[k].records)?;
    }
    Ok(listed)
}

/// Sorts them by version; records of one version stay in their order.
pub fn sort_by_version(alloc: Global, listed: &mut [FoundRecord]) -> Result<(), NoMemory>
    ensures same { IsPermutation listed.old listed.new }
    ensures sorted { OnOk result (AreSortedByVersion listed.new) }
    ensures stable { IsStableByVersion listed.old listed.new }
{
    listed.sort_by_key(alloc, |one| one.entry.version)?;
    Ok(())
}

/// The first two of the least version that two of them have, of records that are sorted by version.
pub fn first_twins(listed: &[FoundRecord]) -> Option<(FoundRecord, FoundRecord)>
    requires { AreSortedByVersion listed.now }
    ensures { MatchOption result (AreRising (map (λ (r : FoundRecord). r.entry.version) listed.now))
        (λ r. AreFirstTwins (map head_of listed.now) (head_of r.0) (head_of r.1)) }
{
    for k in 1..listed.len() {
        if listed[k - 1].entry.version == listed[k].entry.version {
            return Some((listed[k - 1], listed[k]));
        }
    }
    None
}
