// The volume of one station of a rack is cleaned.
ghost use Rattle.cleaning.specs.Racks.{CanCleanAll, CleansStation, IsSameButWorked, IsWorked};
ghost use Rattle.cleaning.specs.Turns.{CleansIn};
ghost use Rattle.manager.specs.Stands.{IsShared};
ghost use Rattle.rack.specs.Racks.{IsStation, base_of_station};
ghost use Rattle.std.specs.Prelude.{◌≡◌, ◌<◌, ℕ, length, slice_get};
ghost use Rattle.wol_config.specs.Configs.{IsValid};

use crate::turn::clean_turn;
use log_cleaner::{CleanFault, Cleaned};
use logger::Shared;
use manager::Station;
use rack::Rack;
use std::alloc::Global;
use std::sync::Wait;
use wol_config::Config;
use wol_disk::Disk;

// Cleans the volume of a station.
fn clean_station<D: Disk, R: Wait>(
    rt: &R,
    alloc: Global,
    station: &mut Station<D>,
    shared: &Shared<D>,
    most: u32,
) -> Result<Cleaned, CleanFault>
    requires station { IsStation station.old }
    requires at { IsShared shared.now (base_of_station station.old) }
    requires most { (base_of_station station.old).volume.began.most ≡ most }
    ensures same { IsSameButWorked station.old station.new }
    ensures cleans { CleansIn D.tells D.state most station.old.worker station.new.worker result }
{
    clean_turn(rt, alloc, &station.lock, &mut station.worker, shared, most)
}

/// Cleans the volume with this number.
pub(crate) fn clean_volume<D: Disk, R: Wait>(
    rt: &R,
    alloc: Global,
    rack: &mut Rack<D>,
    config: &Config,
    volume: usize,
) -> Result<Cleaned, CleanFault>
    requires valid { IsValid config.now }
    requires can { CanCleanAll config.now rack.old }
    requires volume { volume < length config.now.volumes.items }
    ensures worked { IsWorked rack.old rack.new }
    ensures others { (k : ℕ) → (k ≡ volume → ⊥)
        → slice_get rack.new.stations.items k ≡ slice_get rack.old.stations.items k }
    ensures cleans { CleansStation D.tells D.state config.now rack.old rack.new volume result }
{
    clean_station(
        rt,
        alloc,
        &mut rack.stations[volume],
        &rack.shared,
        config.most(),
    )
}
