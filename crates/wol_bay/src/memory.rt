// Images in memory.
ghost use Rattle.std.specs.Arc.{arc_value};
ghost use Rattle.std.specs.Prelude.{◌≡◌, ◌≢◌, ◌+◌, ◌*◌, ◌≤◌, [], ◌∷◌, Some, None, IfSome, IfOk, OnOk, OnErr, IfErr, IsErrOf, ◌⊎◌, ◌++◌, length, map, sum, option_map, vec_len, vec_capacity};
ghost use Rattle.wol_bay.specs.Bay.{AreApart};
ghost use Rattle.wol_bay.specs.Held.{named_image};
ghost use Rattle.wol_bay.specs.Parts.{AreBlank, AreCut, blocks_of, sizes_of, faulty_places};
ghost use Rattle.wol_bay.specs.Stored.{stored_blocks};
ghost use Rattle.wol_disk.specs.BlockValues.{all_values};
ghost use Rattle.wol_disk.specs.Disk.{Rose};

use crate::bays::Bay;
use crate::fault::BayFault;
use crate::faulty::{keep_faulty, mark_faulty};
use crate::held::{Faulty, Image, Leave};
use crate::lengths::{bytes_of_parts, is_length};
use crate::names::{place_of, take_by_name};
use crate::plans::{Plan, drop_plans};
use crate::restart::restart_parts;
use std::alloc::Global;
use std::sync::Arc;
use wol_disk::{BlockValues, Disk, Fuse, MemDisk, NoMemory, StopDisk};

/// Images in memory, all of which it tells. Its parts fail as planned, for want of memory, and where a fuse stops
/// them; the bay itself never fails.
#[derive(Drop)]
pub struct MemBay {
    alloc: Global,
    images: Vec<Image>,
    out: Vec<Leave>,
    faulty: Vec<Faulty>,
    plans: Vec<Plan>,
    fuse: Option<Arc<Fuse, Global>>,
    faults: u64,
    ghost image_room: { vec_len images + vec_len out ≤ vec_capacity images },
    ghost faulty_room: { vec_len faulty + vec_len out ≤ vec_capacity faulty },
    ghost apart: { AreApart (map named_image images.items) },
}

// The values of the blocks of all parts.
fn list_parts(alloc: Global, parts: &[StopDisk<MemDisk>]) -> Result<Vec<BlockValues>, NoMemory>
    ensures { IfOk result (λ list. all_values list.items ≡ stored_blocks parts.now) }
{
    let mut list = Vec::new(alloc);
    for part in parts {
        part.inner().list_values(&mut list)?;
    }
    Ok(list)
}

impl MemBay {
    ghost use Rattle.wol_bay.specs.Bay.{BayState, Told, IsHome, Holds, sent_out, image_of, removed, restarted, with_image};
    ghost use Rattle.wol_bay.specs.MemBay.{mem_bay_state, plans_of, bay_fuse, AreArmed};
    ghost use Rattle.wol_bay.specs.Plans.{Planned, plans_without};
    ghost use Rattle.wol_bay.specs.Refusals.{blocks_at, refusal};
    ghost use Rattle.wol_disk.specs.Memory.{mem_state, plan_of};
    ghost use Rattle.wol_disk.specs.Plan.{no_plan};

    /// A bay with no image.
    pub fn new(alloc: Global) -> MemBay
        ensures state { mem_bay_state result
            ≡ record { told = Some (record { images = []; out = []; faulty = [] }); faults = 0 } }
        ensures plans { plans_of result ≡ [] }
        ensures fuse { bay_fuse result ≡ None }
    {
        MemBay {
            alloc,
            images: Vec::new(alloc),
            out: Vec::new(alloc),
            faulty: Vec::new(alloc),
            plans: Vec::new(alloc),
            fuse: None,
            faults: 0,
        }
    }

    /// Makes a call of a part fail when the image is out next. Parts are named by their place, and the calls of a part
    /// are counted from 0 when it goes out.
    pub fn plan(&mut self, name: &str, part: u32, call: u64) -> Result<(), NoMemory>
        requires { IsHome name.now (mem_bay_state self.old) }
        ensures ok { OnOk result (plans_of self.new
            ≡ plans_of self.old ++ record { name = name.now; part = part; call = call } ∷ []) }
        ensures err { OnErr result (plans_of self.new ≡ plans_of self.old) }
        ensures state { mem_bay_state self.new ≡ mem_bay_state self.old }
        ensures fuse { bay_fuse self.new ≡ bay_fuse self.old }
    {
        let name = String::from_str(self.alloc, name)?;
        self.plans.push(Plan { name, part, call })?;
        Ok(())
    }

    /// Gives this fuse to every part that goes out from now on. A new bay has none.
    pub fn set_fuse(&mut self, fuse: Option<Arc<Fuse, Global>>)
        ensures fuse { bay_fuse self.new ≡ option_map arc_value fuse }
        ensures state { mem_bay_state self.new ≡ mem_bay_state self.old }
        ensures plans { plans_of self.new ≡ plans_of self.old }
    {
        self.fuse = fuse;
    }

    /// Makes an image of these bytes, or replaces the one of that name. They are there in every image of the disk, also
    /// those behind the last whole block. After an error nothing has changed.
    pub fn put(&mut self, name: &str, image: &[u8]) -> Result<(), NoMemory>
        requires { IsHome name.now (mem_bay_state self.old) }
        ensures ok { OnOk result ((mem_bay_state self.new).told
            ≡ option_map (with_image name.now (image_of image.now))
            (mem_bay_state self.old).told) }
        ensures err { OnErr result ((mem_bay_state self.new).told ≡ (mem_bay_state self.old).told) }
        ensures calm { (mem_bay_state self.new).faults ≡ (mem_bay_state self.old).faults }
        ensures plans { plans_of self.new ≡ plans_of self.old }
        ensures fuse { bay_fuse self.new ≡ bay_fuse self.old }
    {
        let made = Image::from_bytes(self.alloc, name, image)?;
        let more = self.out.len() + 1;
        self.images.reserve(more)?;
        let _replaced = take_by_name(&mut self.images, name);
        self.images.push_reserved(made);
        Ok(())
    }

    /// Takes an image away, as one who deletes its file does. Plans for the name stay.
    pub fn remove(&mut self, name: &str)
        requires home { IsHome name.now (mem_bay_state self.old) }
        requires there { Holds name.now (mem_bay_state self.old) }
        ensures gone { (mem_bay_state self.new).told
            ≡ option_map (removed name.now) (mem_bay_state self.old).told }
        ensures calm { (mem_bay_state self.new).faults ≡ (mem_bay_state self.old).faults }
        ensures plans { plans_of self.new ≡ plans_of self.old }
        ensures fuse { bay_fuse self.new ≡ bay_fuse self.old }
    {
        let _removed = take_by_name(&mut self.images, name);
    }

    /// Leaves one of the images that a crash may leave of a disk that came back: block i takes the value at place
    /// `choice[i]` modulo the number of its values since the last sync, the oldest at place 0, and the last value where
    /// `choice` is shorter. The bytes behind the last block stay.
    pub fn restart(&mut self, name: &str, choice: &[u32])
        requires home { IsHome name.now (mem_bay_state self.old) }
        requires there { Holds name.now (mem_bay_state self.old) }
        ensures left { (mem_bay_state self.new).told
            ≡ option_map (restarted name.now choice.now) (mem_bay_state self.old).told }
        ensures calm { (mem_bay_state self.new).faults ≡ (mem_bay_state self.old).faults }
        ensures plans { plans_of self.new ≡ plans_of self.old }
        ensures fuse { bay_fuse self.new ≡ bay_fuse self.old }
    {
        let Some(image) = take_by_name(&mut self.images, name) else {
            unreachable!()
        };
        let Image {
            name,
            mut parts,
            rest,
            bytes,
        } = image;
        restart_parts(&mut parts, choice);
        let left = Image {
            name,
            parts,
            rest,
            bytes,
        };
        self.images.push_reserved(left);
    }

    // A part with its plan and the fuse.
    fn armed(
        &self,
        mut disk: MemDisk,
        name: &str,
        place: usize,
    ) -> Result<StopDisk<MemDisk>, NoMemory>
        requires { plan_of disk ≡ no_plan }
        ensures values { IfOk result
            (λ part. (⟦<StopDisk<MemDisk> as Disk>⟧.state part).values ≡ (mem_state disk).values) }
        ensures size { IfOk result
            (λ part. (⟦<StopDisk<MemDisk> as Disk>⟧.state part).size ≡ (mem_state disk).size) }
        ensures faults { IfOk result (λ part. (⟦<StopDisk<MemDisk> as Disk>⟧.state part).faults ≡ 0) }
        ensures armed { IfOk result
            (λ part. AreArmed name.now place (plans_of self.now) (bay_fuse self.now) (part ∷ [])) }
    {
        for plan in &self.plans {
            if plan.is_for(name, place) {
                disk.fail(plan.call)?;
            }
        }
        let fuse = match &self.fuse {
            Some(fuse) => Some(Arc::try_clone(fuse)?),
            None => None,
        };
        Ok(StopDisk::new(disk, fuse))
    }

    // A part of zeros.
    fn blank(&self, name: &str, place: usize, size: u64) -> Result<StopDisk<MemDisk>, NoMemory>
        ensures blank { IfOk result (λ part.
            AreBlank ⟦<StopDisk<MemDisk> as Disk>⟧.state (mem_bay_state self.now).told
            (size ∷ []) (part ∷ [])) }
        ensures armed { IfOk result
            (λ part. AreArmed name.now place (plans_of self.now) (bay_fuse self.now) (part ∷ [])) }
    {
        let disk = MemDisk::new(self.alloc, size)?;
        self.armed(disk, name, place)
    }

    // Parts of zeros.
    fn blank_parts(&self, name: &str, sizes: &[u64]) -> Result<Vec<StopDisk<MemDisk>>, NoMemory>
        ensures blank { IfOk result (λ parts.
            AreBlank ⟦<StopDisk<MemDisk> as Disk>⟧.state (mem_bay_state self.now).told sizes.now
            parts.items) }
        ensures armed { IfOk result
            (λ parts. AreArmed name.now 0 (plans_of self.now) (bay_fuse self.now) parts.items) }
    {
        let mut parts = Vec::with_capacity(self.alloc, sizes.len())?;
        for (place, size) in sizes.iter().enumerate() {
            parts.push(self.blank(name, place, *size)?)?;
        }
        Ok(parts)
    }

    // Why an image doesn't go out as parts of these sizes.
    fn refusal(&self, name: &str, sizes: &[u64]) -> Option<BayFault>
        ensures fault { IfSome (mem_bay_state self.now).told
            (λ t. result ≡ refusal name.now sizes.now t) }
    {
        let Some(at) = place_of(&self.images, name) else {
            return Some(BayFault::Absent);
        };
        let bytes = self.images[at].bytes;
        if is_length(bytes, sizes) {
            None
        } else {
            Some(BayFault::WrongLength { bytes })
        }
    }

    // The values of all blocks of an image, and none where no image has the name.
    fn list_blocks(&self, name: &str) -> Result<Vec<BlockValues>, NoMemory>
        ensures { IfOk result (λ list. IfSome (blocks_at name.now (mem_bay_state self.now).told)
            (λ vs. all_values list.items ≡ vs)) }
    {
        match place_of(&self.images, name) {
            Some(at) => list_parts(self.alloc, &self.images[at].parts),
            None => Ok(Vec::new(self.alloc)),
        }
    }

    // Parts of these values.
    fn cut_parts(
        &self,
        name: &str,
        sizes: &[u64],
        values: &[BlockValues],
    ) -> Result<Vec<StopDisk<MemDisk>>, NoMemory>
        requires { sum sizes.now ≡ length values.now }
        ensures cut { IfOk result (λ parts.
            AreCut ⟦<StopDisk<MemDisk> as Disk>⟧.state (Some (all_values values.now)) sizes.now
            parts.items) }
        ensures armed { IfOk result
            (λ parts. AreArmed name.now 0 (plans_of self.now) (bay_fuse self.now) parts.items) }
    {
        let mut parts = Vec::with_capacity(self.alloc, sizes.len())?;
        let mut first: usize = 0;
        for (place, size) in sizes.iter().enumerate() {
            let end = first + *size as usize;
            let disk = MemDisk::from_values(self.alloc, &values[first..end])?;
            parts.push(self.armed(disk, name, place)?)?;
            first = end;
        }
        Ok(parts)
    }

    // Enters a name that goes out. After an error nothing has changed.
    fn send_out(&mut self, name: &str, sizes: &[u64], bytes: u64) -> Result<(), NoMemory>
        requires { bytes ≡ 512 * sum sizes.now }
        ensures ok { OnOk result ((mem_bay_state self.new).told
            ≡ option_map (sent_out name.now sizes.now) (mem_bay_state self.old).told) }
        ensures err { OnErr result ((mem_bay_state self.new).told ≡ (mem_bay_state self.old).told) }
        ensures calm { (mem_bay_state self.new).faults ≡ (mem_bay_state self.old).faults }
        ensures plans { OnOk result (plans_of self.new ≡ plans_without name.now (plans_of self.old)) }
        ensures plans_err { OnErr result (plans_of self.new ≡ plans_of self.old) }
        ensures fuse { bay_fuse self.new ≡ bay_fuse self.old }
    {
        let leave = Leave::new(self.alloc, name, sizes, bytes)?;
        let more = self.out.len() + 1;
        self.images.reserve(more)?;
        self.faulty.reserve(more)?;
        self.out.push(leave)?;
        let _gone = take_by_name(&mut self.images, name);
        drop_plans(&mut self.plans, name);
        Ok(())
    }
}

impl Bay for MemBay {
    type Part = StopDisk<MemDisk>;

    ghost use Rattle.wol_bay.specs.Bay.{IsHome, IsOut, sent_out, came_back};
    ghost use Rattle.wol_bay.specs.MemBay.{mem_bay_state, plans_of, bay_fuse, AreArmed};
    ghost use Rattle.wol_bay.specs.Plans.{Planned, plans_without};
    ghost use Rattle.wol_bay.specs.Refusals.{blocks_at, refusal, IsAnswered};

    ghost state = { mem_bay_state };

    ghost apart = { λ b. b.apart };

    fn create(&mut self, name: &str, sizes: &[u64]) -> Result<Vec<StopDisk<MemDisk>>, BayFault>
        requires { IsHome name.now (mem_bay_state self.old) }
        ensures parts { IfOk result (λ parts.
            AreBlank ⟦<StopDisk<MemDisk> as Disk>⟧.state (mem_bay_state self.old).told sizes.now
            parts.items) }
        ensures ok { OnOk result ((mem_bay_state self.new).told
            ≡ option_map (sent_out name.now sizes.now) (mem_bay_state self.old).told) }
        ensures err { OnErr result ((mem_bay_state self.new).told ≡ (mem_bay_state self.old).told) }
        ensures faults { IfErr result (λ e. (e ≡ BayFault.Failed) ⊎ (e ≡ BayFault.NoMemory)) }
        ensures cause { IsErrOf result BayFault.Failed
            → Rose (mem_bay_state self.old).faults (mem_bay_state self.new).faults }
        ensures calm { (IsErrOf result BayFault.Failed → ⊥)
            → (mem_bay_state self.new).faults ≡ (mem_bay_state self.old).faults }
        ensures counts { (mem_bay_state self.old).faults ≤ (mem_bay_state self.new).faults }

        // It never fails, and its parts have the plans for them and the fuse.
        ensures never_failed { IfErr result (λ e. e ≡ BayFault.NoMemory) }
        ensures armed { IfOk result
            (λ parts. AreArmed name.now 0 (plans_of self.old) (bay_fuse self.old) parts.items) }
        ensures plans { OnOk result (plans_of self.new ≡ plans_without name.now (plans_of self.old)) }
        ensures plans_err { OnErr result (plans_of self.new ≡ plans_of self.old) }
        ensures fuse { bay_fuse self.new ≡ bay_fuse self.old }
    {
        // No memory holds an image whose length no number can tell.
        let Some(bytes) = bytes_of_parts(sizes) else {
            return Err(BayFault::NoMemory);
        };
        let Ok(parts) = self.blank_parts(name, sizes) else {
            return Err(BayFault::NoMemory);
        };
        match self.send_out(name, sizes, bytes) {
            Ok(()) => Ok(parts),
            Err(_) => Err(BayFault::NoMemory),
        }
    }

    fn attach(&mut self, name: &str, sizes: &[u64]) -> Result<Vec<StopDisk<MemDisk>>, BayFault>
        requires { IsHome name.now (mem_bay_state self.old) }
        ensures parts { IfOk result (λ parts.
            AreCut ⟦<StopDisk<MemDisk> as Disk>⟧.state
            (blocks_at name.now (mem_bay_state self.old).told) sizes.now parts.items) }
        ensures ok { OnOk result ((mem_bay_state self.new).told
            ≡ option_map (sent_out name.now sizes.now) (mem_bay_state self.old).told) }
        ensures err { OnErr result ((mem_bay_state self.new).told ≡ (mem_bay_state self.old).told) }
        ensures refused { IfSome (mem_bay_state self.old).told
            (λ t. IsAnswered (refusal name.now sizes.now t) result) }
        ensures cause { IsErrOf result BayFault.Failed
            → Rose (mem_bay_state self.old).faults (mem_bay_state self.new).faults }
        ensures calm { (IsErrOf result BayFault.Failed → ⊥)
            → (mem_bay_state self.new).faults ≡ (mem_bay_state self.old).faults }
        ensures counts { (mem_bay_state self.old).faults ≤ (mem_bay_state self.new).faults }

        // It never fails, and its parts have the plans for them and the fuse.
        ensures never_failed { IfErr result (λ e. e ≢ BayFault.Failed) }
        ensures armed { IfOk result
            (λ parts. AreArmed name.now 0 (plans_of self.old) (bay_fuse self.old) parts.items) }
        ensures plans { OnOk result (plans_of self.new ≡ plans_without name.now (plans_of self.old)) }
        ensures plans_err { OnErr result (plans_of self.new ≡ plans_of self.old) }
        ensures fuse { bay_fuse self.new ≡ bay_fuse self.old }
    {
        if let Some(fault) = self.refusal(name, sizes) {
            return Err(fault);
        }
        let Some(bytes) = bytes_of_parts(sizes) else {
            return Err(BayFault::NoMemory);
        };
        let Ok(values) = self.list_blocks(name) else {
            return Err(BayFault::NoMemory);
        };
        let Ok(parts) = self.cut_parts(name, sizes, &values) else {
            return Err(BayFault::NoMemory);
        };
        match self.send_out(name, sizes, bytes) {
            Ok(()) => Ok(parts),
            Err(_) => Err(BayFault::NoMemory),
        }
    }

    fn detach(&mut self, name: &str, parts: Vec<StopDisk<MemDisk>>)
        requires { IsOut name.now (sizes_of ⟦<StopDisk<MemDisk> as Disk>⟧.state parts.items)
            (mem_bay_state self.old) }
        ensures back { (mem_bay_state self.new).told
            ≡ option_map (came_back name.now
            (blocks_of ⟦<StopDisk<MemDisk> as Disk>⟧.state parts.items)
            (faulty_places ⟦<StopDisk<MemDisk> as Disk>⟧.state parts.items))
            (mem_bay_state self.old).told }
        ensures cause { faulty_places ⟦<StopDisk<MemDisk> as Disk>⟧.state parts.items ≢ []
            → Rose (mem_bay_state self.old).faults (mem_bay_state self.new).faults }
        ensures calm { faulty_places ⟦<StopDisk<MemDisk> as Disk>⟧.state parts.items ≡ []
            → (mem_bay_state self.new).faults ≡ (mem_bay_state self.old).faults }
        ensures counts { (mem_bay_state self.old).faults ≤ (mem_bay_state self.new).faults }
        ensures plans { plans_of self.new ≡ plans_of self.old }
        ensures fuse { bay_fuse self.new ≡ bay_fuse self.old }
    {
        let Some(leave) = take_by_name(&mut self.out, name) else {
            unreachable!()
        };
        let Leave {
            name: own_name,
            bytes,
            mut faulty,
            ..
        } = leave;
        mark_faulty(&mut faulty.places, &parts);
        if keep_faulty(&mut self.faulty, faulty) {
            self.faults = self.faults.saturating_add(1);
        }
        let _older = take_by_name(&mut self.images, name);
        let image = Image {
            name: own_name,
            parts,
            rest: Vec::new(self.alloc),
            bytes,
        };
        self.images.push_reserved(image);
    }
}
