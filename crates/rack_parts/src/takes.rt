// What goes out of the rest of a rack for a volume that is to be opened.
ghost use Rattle.log_layout.specs.Values.{shape_of};
ghost use Rattle.logger.specs.Lanes.{logger_of};
ghost use Rattle.manager_recovery.specs.declared.opening.Opening.{Opening};
ghost use Rattle.manager_recovery.specs.declared.opening.OwnedPart.{OwnedPart};
ghost use Rattle.rack_parts.specs.Parts.{CanPutLanes, PutsLanes, IsUsablePlace, IsNewLane, TakesPasses, TakesOneLane, TakesLanes, IsSameRest, loggers_out, segments_of, owned_in, TakesOwnedOf, CanTakeOwnedOf, AreOwnedHere, TakesOwned, HasPlace, ChangesHome, CanTake, TakesOpening, owned_total, count_owners, AreOwnersHere, TakesOwners, TakesOne, is_owned_by};
ghost use Rattle.rack_parts.specs.Rests.{image_here, segment_here, spindle_pass};
ghost use Rattle.rack_parts.specs.declared.rack.ImageRest.{ImageRest};
ghost use Rattle.rack_parts.specs.declared.rack.Rest.{Rest};
ghost use Rattle.std.specs.Prelude.{true, ◌≡◌, ◌<◌, ◌≤◌, ◌+◌, ◌∷◌, [], ◌++◌, List, None, Some, length, map, All, IfOk, OnOk, OnErr, IfSome, IsSome, is_some, vec_len, vec_capacity};
ghost use Rattle.wol_config.specs.Configs.{IsValid};
ghost use Rattle.wol_model.specs.Blocks.{AreApart};
ghost use Rattle.wol_model.specs.Heads.{IsShape};

use crate::heads_said::{Said, is_owned_by};
use crate::rack::{ImageRest, Rest};
use crate::rest::take_home;
use log_layout::{Label, SegHead, View};
use logger::Lane;
use manager_recovery::{Opening, OwnedPart};
use spin_model::{Spindle, Spun};
use std::alloc::Global;
use turn_lock::Pass;
use volume_images::{head_place, label_of};
use wol_config::Config;
use wol_disk::{Disk, NoMemory};

impl<D: Disk> Rest<D> {
    // Whether each volume's image is out.
    fn present(&self, alloc: Global) -> Result<Vec<bool>, NoMemory>
        ensures { IfOk result (λ present. present.items ≡ map is_some self.now.images.items) }
    {
        let mut present = Vec::with_capacity(alloc, self.images.len())?;
        for image in self.images.iter() {
            present.push_reserved(image.is_some());
        }
        Ok(present)
    }

    // Whether the image of a volume is out.
    fn is_out(&self, id: u32) -> bool
        ensures { result ≡ is_some (image_here self.now.images.items id) }
    {
        let place = id as usize;
        place < self.images.len() && self.images[place].is_some()
    }

    // A lane of volume `id` on the log of another.
    fn take_lane(
        &mut self,
        alloc: Global,
        config: &Config,
        id: u32,
        logger: u32,
    ) -> Result<Lane<D>, NoMemory>
        requires within { logger < vec_len config.now.volumes }
        requires place { IsUsablePlace self.old id logger (segments_of config.now logger) }
        ensures lane { IfOk result (IsNewLane D.state self.old id (segments_of config.now logger)) }
        ensures logger { IfOk result (λ l. logger_of l ≡ logger) }
        ensures taken { OnOk result (TakesPasses self.old self.new id (logger ∷ [])) }
        ensures same { OnErr result (IsSameRest self.old self.new) }
    {
        let segments = config.volumes[logger as usize].segments;
        let passes = &mut self.passes[id as usize];
        let Some(pool) = passes.pools[logger as usize].take() else {
            unreachable!()
        };
        let Some(spindle) = passes.spindles[logger as usize].take() else {
            unreachable!()
        };
        match Lane::new(alloc, logger, id, segments, pool, spindle) {
            Ok(lane) => Ok(lane),
            Err((pool, spindle, NoMemory)) => {
                passes.pools[logger as usize] = Some(pool);
                passes.spindles[logger as usize] = Some(spindle);
                Err(NoMemory)
            }
        }
    }

    // A lane for each logger of the view whose image is out, in view order. Where there is no memory all are back.
    fn take_lanes(
        &mut self,
        alloc: Global,
        config: &Config,
        id: u32,
        view: &View,
    ) -> Result<Vec<Lane<D>>, NoMemory>
        requires config { length self.old.images.items ≡ vec_len config.now.volumes }
        requires places { All (λ k. IsUsablePlace self.old id k (segments_of config.now k))
            (loggers_out self.old view.now) }
        ensures distinct { AreApart view.now }
        ensures taken { IfOk result (λ lanes.
            TakesLanes D.state config.now self.old self.new id (loggers_out self.old view.now)
            lanes.items) }
        ensures back { IfOk result (λ lanes. CanPutLanes D.state self.new id lanes.items) }
        ensures restored { IfOk result (λ lanes. (last : Rest D)
            → PutsLanes self.new last id lanes.items → IsSameRest self.old last) }
        ensures same { OnErr result (IsSameRest self.old self.new) }
    {
        let Ok(mut lanes) = Vec::with_capacity(alloc, view.len() as usize) else {
            return Err(NoMemory);
        };
        for logger in view.ids() {
            if let Err(NoMemory) = self.take_lane_of(alloc, config, id, *logger, &mut lanes) {
                self.put_lanes(id, lanes);
                return Err(NoMemory);
            }
        }
        Ok(lanes)
    }

    // The lane for this logger goes behind the others, where its image is out.
    fn take_lane_of(
        &mut self,
        alloc: Global,
        config: &Config,
        id: u32,
        logger: u32,
        lanes: &mut Vec<Lane<D>>,
    ) -> Result<(), NoMemory>
        requires config { length self.old.images.items ≡ vec_len config.now.volumes }
        requires room { vec_len lanes.old < vec_capacity lanes.old }
        requires place { IsSome (image_here self.old.images.items logger)
            → IsUsablePlace self.old id logger (segments_of config.now logger) }
        ensures room { vec_capacity lanes.new ≡ vec_capacity lanes.old }
        ensures taken { OnOk result (TakesOneLane D.state config.now
            (is_some (image_here self.old.images.items logger)) self.old self.new id logger
            lanes.old.items lanes.new.items) }
        ensures same { OnErr result (IsSameRest self.old self.new) }
        ensures same_lanes { OnErr result (lanes.new.items ≡ lanes.old.items) }
    {
        if !self.is_out(logger) {
            return Ok(());
        }
        let lane = self.take_lane(alloc, config, id, logger)?;
        lanes.push_reserved(lane);
        Ok(())
    }

    // The segments of one image that the volume owns go behind `owned`.
    fn take_owned_of(
        &mut self,
        config: &Config,
        id: u32,
        logger: u32,
        said: &Option<Said>,
        owned: &mut Vec<OwnedPart<D>>,
    )
        requires config { IsValid config.now }
        requires within { logger < vec_len config.now.volumes }
        requires images { logger < vec_len self.old.images }
        requires here { CanTakeOwnedOf self.old id logger said.now }
        requires room { vec_len owned.old + owned_in id said.now ≤ vec_capacity owned.old }
        ensures room { vec_capacity owned.new ≡ vec_capacity owned.old }
        ensures taken { (more : List (OwnedPart D)) × (owned.new.items ≡ owned.old.items ++ more)
            × (length more ≡ owned_in id said.now)
            × TakesOwnedOf config.now self.old self.new id logger said.now more }
    {
        let Some(said) = said else { return };
        let label = label_of(config, logger);
        take_owned_in(
            &mut self.images[logger as usize],
            &label,
            id,
            said.heads.as_slice(),
            owned,
        );
    }

    // All segments that the volume owns, by rising logger and index.
    fn take_owned(
        &mut self,
        alloc: Global,
        config: &Config,
        id: u32,
        said: &[Option<Said>],
    ) -> Result<Vec<OwnedPart<D>>, NoMemory>
        requires config { IsValid config.now }
        requires few { length said.now ≡ vec_len config.now.volumes }
        requires here { AreOwnedHere self.old said.now id }
        ensures taken { IfOk result
            (λ owned. TakesOwned config.now self.old self.new said.now id owned.items) }
        ensures same { OnErr result (self.new ≡ self.old) }
    {
        let count = count_owned(said, id);
        let mut owned = Vec::with_capacity(alloc, count)?;
        for logger in 0..said.len() {
            self.take_owned_of(config, id, logger as u32, &said[logger], &mut owned);
        }
        Ok(owned)
    }

    // The home of the volume, and the pass of its spindle.
    fn take_home(&mut self, id: u32) -> (Spun<D>, Pass<Spindle>)
        requires place { HasPlace self.old id id }
        requires home { IfSome (image_here self.old.images.items id) (λ r. IsSome r.home) }
        requires out { IsSome (image_here self.old.images.items id) }
        requires spindle { IsSome (spindle_pass self.old id id) }
        ensures home { (r : ImageRest D) → image_here self.old.images.items id ≡ Some r
            → r.home ≡ Some result.0 }
        ensures spindle { spindle_pass self.old id id ≡ Some result.1 }
        ensures rest { ChangesHome self.old self.new id None None }
    {
        let home = take_home(&mut self.images[id as usize]);
        let passes = &mut self.passes[id as usize];
        let Some(spindle) = passes.spindles[id as usize].take() else {
            unreachable!()
        };
        (home, spindle)
    }

    /// What the volume is opened of. Where there is no memory all is here as it was.
    pub fn take_opening(
        &mut self,
        alloc: Global,
        config: &Config,
        id: u32,
        view: View,
        said: &[Option<Said>],
    ) -> Result<Opening<D>, NoMemory>
        requires config { IsValid config.now }
        requires ready { CanTake config.now self.old said.now id view }
        ensures taken { IfOk result
            (TakesOpening D.state config.now self.old self.new said.now id view) }
        ensures same { OnErr result (IsSameRest self.old self.new) }
    {
        let present = self.present(alloc)?;
        let lanes = self.take_lanes(alloc, config, id, &view)?;
        let owned = match self.take_owned(alloc, config, id, said) {
            Ok(owned) => owned,
            Err(NoMemory) => {
                self.put_lanes(id, lanes);
                return Err(NoMemory);
            }
        };
        let (home, spindle) = self.take_home(id);
        let want = label_of(config, id);
        Ok(Opening {
            want,
            label: want,
            view,
            present,
            most: config.most(),
            home,
            spindle,
            lanes,
            owned,
        })
    }
}

// How many segments the volume owns in all images.
fn count_owned(said: &[Option<Said>], id: u32) -> usize
    requires few { length said.now ≤ 64 }
    requires short { All (λ s. IfSome s (λ x. length x.heads.items ≤ 1024)) said.now }
    ensures { result ≡ owned_total id said.now }
{
    let mut count = 0;
    for image in 0..said.len() {
        count += owned_in(&said[image], id);
    }
    count
}

// How many it owns in one of them.
fn owned_in(said: &Option<Said>, id: u32) -> usize
    ensures { result ≡ owned_in id said.now }
{
    match said {
        Some(said) => said.owned(id),
        None => 0,
    }
}

// The segments with the owner `id` go out of an image that is out, behind `owned`.
fn take_owned_in<D: Disk>(
    image: &mut Option<ImageRest<D>>,
    label: &Label,
    id: u32,
    heads: &[SegHead],
    owned: &mut Vec<OwnedPart<D>>,
)
    requires shape { IsShape (shape_of label.now) }
    requires few { length heads.now ≤ 1024 }
    requires there { IsSome image.old }
    requires here { IfSome image.old
        (λ r. (length heads.now ≡ length r.segments.items) × AreOwnersHere r id heads.now) }
    requires room { vec_len owned.old + count_owners id heads.now ≤ vec_capacity owned.old }
    ensures room { vec_capacity owned.new ≡ vec_capacity owned.old }
    ensures there { IsSome image.new }
    ensures taken { IfSome image.old (λ r.
        IfSome image.new (λ n. (more : List (OwnedPart D))
        × (owned.new.items ≡ owned.old.items ++ more)
        × (length more ≡ count_owners id heads.now)
        × TakesOwners (shape_of label.now) r n id label.now.id heads.now more)) }
{
    let Some(image) = image else { unreachable!() };
    image.take_owned(label, id, heads, owned);
}

impl<D: Disk> ImageRest<D> {
    // The segments with the owner `id` go behind `owned`.
    fn take_owned(
        &mut self,
        label: &Label,
        id: u32,
        heads: &[SegHead],
        owned: &mut Vec<OwnedPart<D>>,
    )
        requires shape { IsShape (shape_of label.now) }
        requires count { length heads.now ≡ length self.old.segments.items }
        requires few { length heads.now ≤ 1024 }
        requires here { AreOwnersHere self.old id heads.now }
        requires room { vec_len owned.old + count_owners id heads.now ≤ vec_capacity owned.old }
        ensures room { vec_capacity owned.new ≡ vec_capacity owned.old }
        ensures taken { (more : List (OwnedPart D)) × (owned.new.items ≡ owned.old.items ++ more)
            × (length more ≡ count_owners id heads.now)
            × TakesOwners (shape_of label.now) self.old self.new id label.now.id heads.now more }
    {
        for index in 0..heads.len() {
            self.take_one(label, id, heads[index], index as u32, owned);
        }
    }

    // The segment with this head and index goes there where the head is of the owner `id`.
    fn take_one(
        &mut self,
        label: &Label,
        id: u32,
        head: SegHead,
        index: u32,
        owned: &mut Vec<OwnedPart<D>>,
    )
        requires shape { IsShape (shape_of label.now) }
        requires within { index < length self.old.segments.items }
        requires here { is_owned_by id head ≡ true → IsSome (segment_here self.old index) }
        requires room { is_owned_by id head ≡ true → vec_len owned.old < vec_capacity owned.old }
        ensures room { vec_capacity owned.new ≡ vec_capacity owned.old }
        ensures taken { TakesOne (shape_of label.now) label.now.id (is_owned_by id head) self.old
            self.new index owned.old.items owned.new.items }
    {
        if !is_owned_by(head, id) {
            return;
        }
        let Some(part) = self.segments[index as usize].take() else {
            unreachable!()
        };
        owned.push_reserved(OwnedPart {
            logger: label.id,
            index,
            first_block: head_place(label, index),
            part,
        });
    }
}
