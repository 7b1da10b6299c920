// What a rack keeps is closed: stations, pools, spindles.
ghost use Rattle.rack_parts.specs.Closing.{pool_in, spindle_in, ArePoolsTaken, AreSpindlesTaken};
ghost use Rattle.rack_parts.specs.declared.rack.VolumePasses.{VolumePasses};
ghost use Rattle.std.specs.Prelude.{◌≡◌, ◌<◌, ◌≤◌, ◌++◌, ℕ, List, [], length, vec_capacity, Some, IsSome, All, slice_get, slice_index_or};

use crate::ClosedSpindle;
use crate::pools::empty_pool;
use crate::rack::{PoolPass, Rest, VolumePasses};
use log_segment::FreeSegment;
use manager::Station;
use seg_pool::Pool;
use spin_model::Spindle;
use turn_lock::{Pass, TurnLock};
use wol_disk::Disk;

impl<D: Disk> Rest<D> {
    ghost use Rattle.log_segment.specs.declared.free.FreeSegment.{FreeSegment};
    ghost use Rattle.logger.specs.declared.shared.Shared.{Shared};
    ghost use Rattle.manager.specs.declared.station.Station.{Station};
    ghost use Rattle.rack_parts.specs.Closing.{CanCloseStations, ClosesStation, ClosesStations, CanClosePool, CanClosePools, IsClosedPool, CanPutAllHeld, PutsAllHeld, RefillsAll, KeepsLogger, KeepsSpindles, KeepsOtherRows, HasSpindlePasses, StandsClosed, CanCloseSpindles, AreClosed};
    ghost use Rattle.rack_parts.specs.Rests.{spindle_pass, image_here, held_here, OnlyAccess, IsRest};
    ghost use Rattle.seg_pool.specs.declared.base.PoolBase.{PoolBase};
    ghost use Rattle.seg_pool.specs.declared.pool.Pool.{Pool};
    ghost use Rattle.std.specs.Prelude.{◌≡◌, ◌≢◌, ◌<◌, ◌≤◌, ◌+◌, ◌++◌, ◌∷◌, ℕ, List, [], length, vec_capacity, Some, slice_get};
    ghost use Rattle.turn_lock.specs.Histories.{Entry};
    ghost use Rattle.turn_lock.specs.Passes.{lock_id};
    ghost use Rattle.turn_lock.specs.declared.lock.TurnLock.{TurnLock};
    ghost use Rattle.wol_config.specs.declared.config.Config.{Config};
    ghost use Rattle.wol_model.specs.Heads.{Shape};

    /// Each station's lock is closed, and what its manager had comes back.
    pub fn close_stations(&mut self, stations: Vec<Station<D>>)
        requires { (config : Config) × (shared : Shared D)
            × CanCloseStations D.state config shared stations.items self.old }
        ensures rest { (config : Config) (shared : Shared D)
            → CanCloseStations D.state config shared stations.items self.old
            → IsRest D.state config shared [] self.new }
        ensures closed { ClosesStations D.tells D.state stations.items self.old self.new }
        ensures accesses { (config : Config) (shared : Shared D)
            → CanCloseStations D.state config shared stations.items self.old → OnlyAccess self.new }
    {
        let mut stations = stations;
        while let Some(station) = stations.pop() {
            self.close_station(station);
        }
        stations.destroy_empty();
    }

    // One station's lock is closed.
    fn close_station(&mut self, station: Station<D>)
        requires { (config : Config) × (shared : Shared D) × (before : List (Station D))
            × CanCloseStations D.state config shared (before ++ station ∷ []) self.old }
        ensures rest { (config : Config) (shared : Shared D) (before : List (Station D))
            → CanCloseStations D.state config shared (before ++ station ∷ []) self.old
            → CanCloseStations D.state config shared before self.new }
        ensures closed { ClosesStation D.tells D.state station self.old self.new }
    {
        let Station {
            id,
            lock,
            worker,
            helper,
            keeper,
        } = station;
        let Some(mut passes) = self.rooms.managers.pop() else {
            unreachable!()
        };
        passes.push_reserved(worker);
        passes.push_reserved(helper);
        passes.push_reserved(keeper);
        let manager = lock.close(passes);
        self.put_manager(id, manager.release());
    }

    // The pool of volume `id` is closed, and its segments and those that came back with lanes go to their places.
    fn close_pool(
        &mut self,
        id: usize,
        lock: TurnLock<Pool<FreeSegment<D>>>,
        room: Vec<PoolPass<D>>,
    )
        requires pool { (volumes : ℕ) × (s : Shape)
            × CanClosePool D.state volumes id s lock self.old }
        requires empty { room.items ≡ [] }
        requires room { length self.old.passes.items ≤ vec_capacity room }
        ensures image { RefillsAll D.state (lock_id lock).base.blocks self.old id
            (image_here self.old.images.items id) (image_here self.new.images.items id) }
        ensures uses { (entries : List Entry) × IsClosedPool lock self.old id entries }
        ensures held { (v : ℕ) → held_here self.new v id ≡ [] }
        ensures others { (k : ℕ) → k ≢ id → KeepsLogger self.old self.new k }
        ensures spindles { KeepsSpindles self.old self.new }
        ensures rooms { self.new.rooms ≡ self.old.rooms }
    {
        let room = gather_pools(&mut self.passes, id, room);
        let pool = lock.close(room);
        self.put_all_held(id);
        empty_pool(pool, &mut self.images[id]);
    }

    // The segments of volume `id` that came back with lanes go to their places.
    fn put_all_held(&mut self, id: usize)
        requires { CanPutAllHeld self.old id }
        ensures { PutsAllHeld self.old self.new id }
    {
        if self.images[id].is_some() {
            for volume in 0..self.passes.len() {
                self.put_held(volume, id);
            }
        }
    }

    /// All pools are closed.
    pub fn close_pools(&mut self, locks: Vec<TurnLock<Pool<FreeSegment<D>>>>)
        requires { (config : Config) × CanClosePools D.state config locks.items self.old }
        ensures images { (k : ℕ) (lock : TurnLock (Pool (FreeSegment D)) PoolBase)
            → slice_get locks.items k ≡ Some lock
            → RefillsAll D.state (lock_id lock).base.blocks self.old k
            (image_here self.old.images.items k) (image_here self.new.images.items k) }
        ensures uses { (k : ℕ) (lock : TurnLock (Pool (FreeSegment D)) PoolBase)
            → slice_get locks.items k ≡ Some lock
            → (entries : List Entry) × IsClosedPool lock self.old k entries }
        ensures held { (v k : ℕ) → k < length locks.items → held_here self.new v k ≡ [] }
        ensures others { (k : ℕ) → length locks.items ≤ k → KeepsLogger self.old self.new k }
        ensures spindles { KeepsSpindles self.old self.new }
        ensures rooms { self.new.rooms ≡ record self.old.rooms { pools = self.new.rooms.pools } }
    {
        let mut locks = locks;
        while let Some(lock) = locks.pop() {
            let Some(room) = self.rooms.pools.pop() else {
                unreachable!()
            };
            self.close_pool(locks.len(), lock, room);
        }
        locks.destroy_empty();
    }

    // The spindle of volume `id` is closed.
    fn close_spindle(
        &mut self,
        id: usize,
        lock: TurnLock<Spindle>,
        keeper: Pass<Spindle>,
        room: Vec<Pass<Spindle>>,
    ) -> ClosedSpindle
        requires passes { HasSpindlePasses self.old id lock keeper }
        requires empty { room.items ≡ [] }
        requires room { length self.old.passes.items + 1 ≤ vec_capacity room }
        ensures spindle { StandsClosed self.old id lock keeper result }
        ensures images { self.new.images ≡ self.old.images }
        ensures rooms { self.new.rooms ≡ self.old.rooms }
        ensures rows { KeepsOtherRows self.old self.new }
        ensures others { (v k : ℕ) → k ≢ id
            → spindle_pass self.new v k ≡ spindle_pass self.old v k }
    {
        let mut room = gather_spindles(&mut self.passes, id, room);
        room.push_reserved(keeper);
        ClosedSpindle::new(lock.close(room))
    }

    /// All spindles are closed. They stand in the room for them then, the last first.
    pub fn close_spindles(&mut self, locks: Vec<TurnLock<Spindle>>, keepers: Vec<Pass<Spindle>>)
        requires locks { CanCloseSpindles locks.items keepers.items self.old }
        requires empty { self.old.rooms.closed.items ≡ [] }
        ensures closed { AreClosed self.old locks.items keepers.items self.new.rooms.closed.items }
        ensures images { self.new.images ≡ self.old.images }
        ensures rows { KeepsOtherRows self.old self.new }
    {
        let (mut locks, mut keepers) = (locks, keepers);
        while let Some(lock) = locks.pop() {
            let (Some(keeper), Some(room)) = (keepers.pop(), self.rooms.spindles.pop()) else {
                unreachable!()
            };
            let spindle = self.close_spindle(locks.len(), lock, keeper, room);
            self.rooms.closed.push_reserved(spindle);
        }
        locks.destroy_empty();
    }
}

impl<D: Disk> VolumePasses<D> {
    ghost use Rattle.rack_parts.specs.Closing.{pool_in, spindle_in, IsPoolTaken, IsSpindleTaken};
    ghost use Rattle.std.specs.Prelude.{◌≡◌, IsSome};

    // The pass of the pool of volume `id` goes.
    fn take_pool(&mut self, id: usize) -> PoolPass<D>
        requires { IsSome (pool_in self.old id) }
        ensures { IsPoolTaken id self.old self.new result }
    {
        self.pools[id].take().unwrap()
    }

    // The pass of the spindle of volume `id` goes.
    fn take_spindle(&mut self, id: usize) -> Pass<Spindle>
        requires { IsSome (spindle_in self.old id) }
        ensures { IsSpindleTaken id self.old self.new result }
    {
        self.spindles[id].take().unwrap()
    }
}

// Takes the pass of the pool of volume `id` from each row, in order.
fn gather_pools<D: Disk>(
    passes: &mut [VolumePasses<D>],
    id: usize,
    room: Vec<PoolPass<D>>,
) -> Vec<PoolPass<D>>
    requires there { (v : ℕ) (d : VolumePasses D) → v < length passes.old
        → IsSome (pool_in (slice_index_or passes.old v d) id) }
    requires empty { room.items ≡ [] }
    requires room { length passes.old ≤ vec_capacity room }
    ensures { ArePoolsTaken id passes.old passes.new result.items }
{
    let mut room = room;
    for volume in passes.iter_mut() {
        room.push_reserved(volume.take_pool(id));
    }
    room
}

// Takes the pass of the spindle of volume `id` from each row, in order.
fn gather_spindles<D: Disk>(
    passes: &mut [VolumePasses<D>],
    id: usize,
    room: Vec<Pass<Spindle>>,
) -> Vec<Pass<Spindle>>
    requires there { (v : ℕ) (d : VolumePasses D) → v < length passes.old
        → IsSome (spindle_in (slice_index_or passes.old v d) id) }
    requires empty { room.items ≡ [] }
    requires room { length passes.old ≤ vec_capacity room }
    ensures taken { AreSpindlesTaken id passes.old passes.new result.items }
    ensures capacity { vec_capacity result ≡ vec_capacity room }
{
    let mut room = room;
    for volume in passes.iter_mut() {
        room.push_reserved(volume.take_spindle(id));
    }
    room
}

/// Ends the lists of volumes where no segment is in them.
pub fn end_passes<D: Disk>(mut passes: Vec<VolumePasses<D>>)
    requires { All (λ p. All (λ list. list.items ≡ []) p.held.items) passes.items }
{
    while let Some(
        VolumePasses {
            pools: _,
            spindles: _,
            mut held,
        },
    ) = passes.pop()
    {
        while let Some(list) = held.pop() {
            list.destroy_empty();
        }
        held.destroy_empty();
    }
    passes.destroy_empty();
}
