// The lists that a rack keeps are made, and filled.
ghost use Rattle.rack.specs.Making.{last_of, ArePopped, IsEmptyShared, AreNewRooms, AreEmptyPasses};
ghost use Rattle.std.specs.Prelude.{ℕ, ◌≡◌, ◌≤◌, [], length, map, IfOk, All, vec_capacity};

use logger::Shared;
use manager::Station;
use rack_parts::{
    ImageRest, Issued, IssuedPool, Rack, Rest, Rooms, VolumeFault, VolumePasses, end_passes,
};
use spin_model::Spindle;
use std::alloc::Global;
use turn_lock::Pass;
use wol_disk::{Disk, NoMemory};

/// Empty lists for what a rack keeps, but its images and faults. `passes` has an entry for each volume, both of whose lists
/// are empty.
pub(crate) struct Lists<D: Disk> {
    shared: Shared<D>,
    keepers: Vec<Pass<Spindle>>,
    stations: Vec<Station<D>>,
    passes: Vec<VolumePasses<D>>,
    rooms: Rooms<D>,
}

// Empty lists of the passes of so many volumes.
fn new_passes<D: Disk>(alloc: Global, volumes: usize) -> Result<Vec<VolumePasses<D>>, NoMemory>
    ensures count { IfOk result (λ ps. length ps.items ≡ volumes) }
    ensures empty { IfOk result (λ ps. All (AreEmptyPasses volumes) ps.items) }
{
    let mut passes = Vec::with_capacity(alloc, volumes)?;
    for _volume in 0..volumes {
        match new_row(alloc, volumes) {
            Ok(row) => passes.push_reserved(row),
            Err(NoMemory) => {
                end_passes(passes);
                return Err(NoMemory);
            }
        }
    }
    Ok(passes)
}

// Those of one volume.
fn new_row<D: Disk>(alloc: Global, volumes: usize) -> Result<VolumePasses<D>, NoMemory>
    ensures { IfOk result (AreEmptyPasses volumes) }
{
    let pools = Vec::with_capacity(alloc, volumes)?;
    let spindles = Vec::with_capacity(alloc, volumes)?;
    let mut held = Vec::with_capacity(alloc, volumes)?;
    for _logger in 0..volumes {
        held.push_reserved(Vec::new(alloc));
    }
    Ok(VolumePasses {
        pools,
        spindles,
        held,
    })
}

fn new_rooms<D: Disk>(alloc: Global, volumes: usize) -> Result<Rooms<D>, NoMemory>
    ensures { IfOk result (AreNewRooms volumes) }
{
    let pools = Vec::with_capacity(alloc, volumes)?;
    let spindles = Vec::with_capacity(alloc, volumes)?;
    let managers = Vec::with_capacity(alloc, volumes)?;
    let closed = Vec::with_capacity(alloc, volumes)?;
    Ok(Rooms {
        pools,
        spindles,
        managers,
        closed,
    })
}

fn new_shared<D: Disk>(alloc: Global, volumes: usize) -> Result<Shared<D>, NoMemory>
    ensures { IfOk result (IsEmptyShared volumes) }
{
    let Ok(pools) = Vec::with_capacity(alloc, volumes) else {
        return Err(NoMemory);
    };
    let Ok(spindles) = Vec::with_capacity(alloc, volumes) else {
        pools.destroy_empty();
        return Err(NoMemory);
    };
    Ok(Shared { pools, spindles })
}

fn destroy_shared<D: Disk>(shared: Shared<D>)
    requires { (volumes : ℕ) × IsEmptyShared volumes shared }
{
    let Shared { pools, spindles } = shared;
    pools.destroy_empty();
    spindles.destroy_empty();
}

// The last element of each row goes behind those of this list.
fn deal_one<T>(rows: &mut [Vec<T>], places: &mut Vec<Option<T>>)
    requires empty { places.old.items ≡ [] }
    requires room { length rows.old ≤ vec_capacity places.old }
    ensures places { places.new.items ≡ map last_of rows.old }
    ensures rows { ArePopped rows.old rows.new }
{
    for row in 0..rows.len() {
        places.push_reserved(rows[row].pop());
    }
}

impl<D: Disk> Lists<D> {
    ghost use Rattle.rack.specs.Making.{AreLists};
    ghost use Rattle.rack.specs.Making.{PutsSpindles, PutsPools, CanDeal, Deals, IsSetUp};
    ghost use Rattle.std.specs.Prelude.{◌≡◌, ◌≤◌, ◌+◌, ℕ, [], length, IfOk, All, vec_capacity};

    /// Lists with room for so many volumes.
    pub(crate) fn new(alloc: Global, volumes: usize) -> Result<Lists<D>, NoMemory>
        ensures { IfOk result (AreLists volumes) }
    {
        let keepers = Vec::with_capacity(alloc, volumes)?;
        let rooms = new_rooms(alloc, volumes)?;
        let passes = new_passes(alloc, volumes)?;
        let Ok(shared) = new_shared(alloc, volumes) else {
            end_passes(passes);
            return Err(NoMemory);
        };
        let Ok(stations) = Vec::with_capacity(alloc, volumes) else {
            end_passes(passes);
            destroy_shared(shared);
            return Err(NoMemory);
        };
        Ok(Lists {
            shared,
            keepers,
            stations,
            passes,
            rooms,
        })
    }

    pub(crate) fn destroy(self)
        requires { (volumes : ℕ) × AreLists volumes self }
    {
        let Lists {
            shared,
            keepers: _,
            stations,
            passes,
            rooms: _,
        } = self;
        end_passes(passes);
        destroy_shared(shared);
        stations.destroy_empty();
    }

    // The locks of the spindles and their rows of passes, of which the keepers' are taken.
    fn put_spindles(&mut self, mut spindles: Vec<Issued<Spindle>>)
        requires lists { AreLists (length spindles.items) self.old }
        requires spindles { All (λ i. length i.passes.items ≡ length spindles.items + 1)
            spindles.items }
        ensures { PutsSpindles spindles.items self.old self.new }
    {
        spindles.reverse();
        while let Some(Issued { lock, mut passes }) = spindles.pop() {
            let Some(keeper) = passes.pop() else {
                unreachable!()
            };
            self.shared.spindles.push_reserved(lock);
            self.keepers.push_reserved(keeper);
            self.rooms.spindles.push_reserved(passes);
        }
        spindles.destroy_empty();
    }

    // The locks of the pools and their rows of passes.
    fn put_pools(&mut self, mut pools: Vec<IssuedPool<D>>)
        requires shared { (self.old.shared.pools.items ≡ [])
            × (length pools.items ≤ vec_capacity self.old.shared.pools) }
        requires rooms { (self.old.rooms.pools.items ≡ [])
            × (length pools.items ≤ vec_capacity self.old.rooms.pools) }
        ensures { PutsPools pools.items self.old self.new }
    {
        pools.reverse();
        while let Some(Issued { lock, passes }) = pools.pop() {
            self.shared.pools.push_reserved(lock);
            self.rooms.pools.push_reserved(passes);
        }
        pools.destroy_empty();
    }

    // The last pass of each row is dealt to the last volume, and so on: the rows are empty then.
    fn deal(&mut self)
        requires { CanDeal self.old }
        ensures { Deals self.old self.new }
    {
        let mut left = self.passes.len();
        while left > 0 {
            left -= 1;
            let volume = &mut self.passes[left];
            deal_one(&mut self.rooms.pools, &mut volume.pools);
            deal_one(&mut self.rooms.spindles, &mut volume.spindles);
        }
    }

    /// The rack before a volume is opened: all parts of the images are in its rest or in the pools.
    pub(crate) fn filled(
        self,
        spindles: Vec<Issued<Spindle>>,
        pools: Vec<IssuedPool<D>>,
        images: Vec<Option<ImageRest<D>>>,
        faults: Vec<Option<VolumeFault>>,
    ) -> Rack<D>
        requires lists { AreLists (length spindles.items) self }
        requires spindles { All (λ i. length i.passes.items ≡ length spindles.items + 1)
            spindles.items }
        requires pool_count { length pools.items ≡ length spindles.items }
        requires pools { All (λ i. length i.passes.items ≡ length spindles.items) pools.items }
        ensures images { result.rest.images ≡ images }
        ensures faults { result.faults ≡ faults }
        ensures rest { IsSetUp spindles.items pools.items (length spindles.items) result }
    {
        let mut lists = self;
        lists.put_spindles(spindles);
        lists.put_pools(pools);
        lists.deal();
        let Lists {
            shared,
            keepers,
            stations,
            passes,
            rooms,
        } = lists;
        let rest = Rest {
            images,
            passes,
            rooms,
        };
        Rack {
            shared,
            keepers,
            stations,
            faults,
            rest,
        }
    }
}
