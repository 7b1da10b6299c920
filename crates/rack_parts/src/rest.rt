// What comes back to the rest of a rack, and the images that go back to their bay.
ghost use Rattle.logger.specs.Lanes.{IsLane, logger_of, taken_in};
ghost use Rattle.rack_parts.specs.Closing.{IsComplete, AreComplete, IsImageBack, GivesBack, HasFaultHere, LeavesNoneOut};
ghost use Rattle.rack_parts.specs.Parts.{IsFilled, HasPlace, IsBarePlace, CanPutLanes, PutsLane, PutsLanes, CanPutHeld, PutsHeld, PopsHeld, IsHomeAway, with_home, ChangesHome, PutsManager, CanPutOwned, PutsOpening};
ghost use Rattle.rack_parts.specs.Rests.{segment_here, image_here, held_here, IsImageOut, IsImageRest};
ghost use Rattle.rack_parts.specs.declared.rack.ImageRest.{ImageRest};
ghost use Rattle.std.specs.Prelude.{◌≡◌, ◌≢◌, ◌<◌, ◌≤◌, ℕ, None, Some, length, IsSome, IfSome, slice_get, All};
ghost use Rattle.volume_images.specs.Formatted.{part_sizes};
ghost use Rattle.volume_images.specs.Left.{IsTold};
ghost use Rattle.volume_images.specs.Volumes.{shape_in, shapes_of};
ghost use Rattle.wol_bay.specs.Bay.{outs, IsOut};
ghost use Rattle.wol_config.specs.Configs.{IsValid};
ghost use Rattle.wol_config.specs.declared.config.VolumeConf.{VolumeConf};
ghost use Rattle.wol_disk.specs.Disk.{Rose};
ghost use Rattle.wol_model.specs.Heads.{Shape};

use crate::rack::{ImageRest, Rest};
use logger::{Lane, LaneParts};
use manager::ManagerParts;
use manager_recovery::{Opening, OwnedPart};
use spin_model::{Spindle, Spun};
use std::mem;
use turn_lock::Pass;
use volume_images::ImageParts;
use wol_bay::Bay;
use wol_config::Config;
use wol_disk::Disk;

// Fills a place that was empty.
fn fill<T>(place: &mut Option<T>, value: T)
    requires { place.old ≡ None }
    ensures { place.new ≡ Some value }
{
    let old = mem::replace(place, Some(value));
    let None = old else { unreachable!() };
}

/// A segment comes back to what is here of its image.
pub(crate) fn put_segment<D: Disk>(image: &mut Option<ImageRest<D>>, index: u32, part: Spun<D>)
    requires there { IsSome image.old }
    requires here { IfSome image.old
        (λ r. (index < length r.segments.items) × (segment_here r index ≡ None)) }
    ensures there { IsSome image.new }
    ensures filled { IfSome image.old (λ r. IfSome image.new (λ n. IsFilled r n index part)) }
{
    let Some(image) = image else { unreachable!() };
    image.put(index, part);
}

// The home comes back to what is here of its image.
fn put_home<D: Disk>(image: &mut Option<ImageRest<D>>, home: Spun<D>)
    requires there { IsSome image.old }
    requires none { IfSome image.old (λ r. r.home ≡ None) }
    ensures { image.new ≡ with_home (Some home) image.old }
{
    let Some(image) = image else { unreachable!() };
    image.put_home(home);
}

/// The home goes out of what is here of its image.
pub(crate) fn take_home<D: Disk>(image: &mut Option<ImageRest<D>>) -> Spun<D>
    requires there { IsSome image.old }
    requires here { IfSome image.old (λ r. IsSome r.home) }
    ensures home { IfSome image.old (λ r. r.home ≡ Some result) }
    ensures rest { image.new ≡ with_home None image.old }
{
    let Some(image) = image else { unreachable!() };
    image.take_home()
}

impl<D: Disk> Rest<D> {
    // A lane of volume `id` comes back.
    fn put_lane(&mut self, id: u32, lane: Lane<D>)
        requires lane { IsLane D.state lane }
        requires untaken { taken_in lane ≡ None }
        requires bare { IsBarePlace self.old id (logger_of lane) }
        ensures { PutsLane self.old self.new id lane }
    {
        let LaneParts {
            logger,
            held,
            pool,
            spindle,
        } = lane.release();
        let logger = logger as usize;
        let passes = &mut self.passes[id as usize];
        fill(&mut passes.pools[logger], pool);
        fill(&mut passes.spindles[logger], spindle);
        let none = mem::replace(&mut passes.held[logger], held);
        none.destroy_empty();
    }

    /// The segments that came back with a lane of volume `id` go to their places in the image of the logger.
    pub(crate) fn put_held(&mut self, id: usize, logger: usize)
        requires { CanPutHeld self.old id logger }
        ensures { PutsHeld self.old self.new id logger }
    {
        for _segment in 0..self.passes[id].held[logger].len() {
            let (index, part) = self.pop_held(id, logger);
            put_segment(&mut self.images[logger], index, part);
        }
    }

    // The last of them goes out.
    fn pop_held(&mut self, id: usize, logger: usize) -> (u32, Spun<D>)
        requires place { HasPlace self.old id logger }
        requires some { 0 < length (held_here self.old id logger) }
        ensures { PopsHeld self.old self.new id logger result }
    {
        let passes = &mut self.passes[id];
        let Some(held) = passes.held[logger].pop() else {
            unreachable!()
        };
        held
    }

    /// Lanes of volume `id` come back.
    pub(crate) fn put_lanes(&mut self, id: u32, lanes: Vec<Lane<D>>)
        requires { CanPutLanes D.state self.old id lanes.items }
        ensures { PutsLanes self.old self.new id lanes.items }
    {
        let mut lanes = lanes;
        while let Some(lane) = lanes.pop() {
            self.put_lane(id, lane);
        }
        lanes.destroy_empty();
    }

    // The home of volume `id` comes back, with the pass of its spindle.
    fn put_home(&mut self, id: u32, home: Spun<D>, spindle: Pass<Spindle>)
        requires { IsHomeAway self.old id }
        ensures { ChangesHome self.old self.new id (Some home) (Some spindle) }
    {
        put_home(&mut self.images[id as usize], home);
        let passes = &mut self.passes[id as usize];
        fill(&mut passes.spindles[id as usize], spindle);
    }

    /// What volume `id` was opened with comes back.
    pub fn put_manager(&mut self, id: u32, parts: ManagerParts<D>)
        requires home { IsHomeAway self.old id }
        requires lanes { CanPutLanes D.state self.old id parts.lanes.items }
        requires others { All (λ l. id ≢ logger_of l) parts.lanes.items }
        ensures { PutsManager self.old self.new id parts }
    {
        let ManagerParts {
            home,
            spindle,
            lanes,
        } = parts;
        self.put_home(id, home, spindle);
        self.put_lanes(id, lanes);
    }

    /// What volume `id` was to be opened with comes back.
    pub fn put_opening(&mut self, id: u32, opening: Opening<D>)
        requires home { IsHomeAway self.old id }
        requires lanes { CanPutLanes D.state self.old id opening.lanes.items }
        requires others { All (λ l. id ≢ logger_of l) opening.lanes.items }
        requires owned { CanPutOwned self.old opening.owned.items }
        ensures { PutsOpening self.old self.new id opening }
    {
        let Opening {
            want: _,
            label: _,
            view: _,
            present: _,
            most: _,
            home,
            spindle,
            lanes,
            mut owned,
        } = opening;
        self.put_home(id, home, spindle);
        self.put_lanes(id, lanes);
        while let Some(
            OwnedPart {
                logger,
                index,
                first_block: _,
                part,
            },
        ) = owned.pop()
        {
            put_segment(&mut self.images[logger as usize], index, part);
        }
        owned.destroy_empty();
    }
}

impl<D: Disk> ImageRest<D> {
    ghost use Rattle.rack_parts.specs.Parts.{IsAllHere, IsTogether};
    ghost use Rattle.rack_parts.specs.Parts.{IsFilled};
    ghost use Rattle.rack_parts.specs.Rests.{segment_here};
    ghost use Rattle.std.specs.Prelude.{◌≡◌, ◌<◌, None, Some, length, IsSome};

    // A segment comes back.
    fn put(&mut self, index: u32, part: Spun<D>)
        requires within { index < length self.old.segments.items }
        requires none { segment_here self.old index ≡ None }
        ensures { IsFilled self.old self.new index part }
    {
        fill(&mut self.segments[index as usize], part);
    }

    // Its home comes back.
    fn put_home(&mut self, home: Spun<D>)
        requires { self.old.home ≡ None }
        ensures { self.new ≡ record self.old { home = Some home } }
    {
        fill(&mut self.home, home);
    }

    // Its home goes out.
    fn take_home(&mut self) -> Spun<D>
        requires { IsSome self.old.home }
        ensures home { self.old.home ≡ Some result }
        ensures rest { self.new ≡ record self.old { home = None } }
    {
        let Some(home) = self.home.take() else {
            unreachable!()
        };
        home
    }

    // The parts of an image all of which are here, for its bay.
    fn into_parts(self) -> Vec<D>
        requires { IsAllHere self }
        ensures { IsTogether self result.items }
    {
        let ImageRest {
            label,
            home,
            mut segments,
            mut row,
            room,
        } = self;
        segments.reverse();
        while let Some(segment) = segments.pop() {
            let Some(part) = segment else { unreachable!() };
            row.push_reserved(part);
        }
        segments.destroy_empty();
        let Some(home) = home else { unreachable!() };
        ImageParts {
            label,
            home,
            segments: row,
        }
        .put_together(room)
    }
}

/// Each image that is out goes back to its bay, the last volume's first.
pub fn give_back<B: Bay>(bay: &mut B, config: &Config, images: Vec<Option<ImageRest<B::Part>>>)
    requires config { IsValid config.now }
    requires count { length images.items ≤ length config.now.volumes.items }
    requires images { (k : ℕ) (s : Shape) (r : ImageRest B.Part)
        → slice_get (shapes_of config.now) k ≡ Some s → image_here images.items k ≡ Some r
        → IsImageRest B.Part.state k s r }
    requires whole { AreComplete images.items }
    requires out { (k : ℕ) (v : VolumeConf) → slice_get config.now.volumes.items k ≡ Some v
        → IsImageOut images.items k
        → IsOut v.name (part_sizes (shape_in config.now v)) (B.state bay.old) }
    ensures home { LeavesNoneOut config.now images.items (outs (B.state bay.old))
        (outs (B.state bay.new)) }
    ensures back { IsTold (GivesBack B.Part.state config.now images.items 0) (B.state bay.old).told
        (B.state bay.new).told }
    ensures cause { HasFaultHere B.Part.state images.items 0
        → Rose (B.state bay.old).faults (B.state bay.new).faults }
    ensures counts { (B.state bay.old).faults ≤ (B.state bay.new).faults }
{
    let mut images = images;
    while let Some(image) = images.pop() {
        give_image_back(bay, config, images.len(), image);
    }
    images.destroy_empty();
}

// The image of one volume goes back to its bay, where it is out.
fn give_image_back<B: Bay>(
    bay: &mut B,
    config: &Config,
    id: usize,
    image: Option<ImageRest<B::Part>>,
)
    requires known { id < length config.now.volumes.items }
    requires image { (v : VolumeConf) (r : ImageRest B.Part)
        → slice_get config.now.volumes.items id ≡ Some v → image ≡ Some r
        → IsImageRest B.Part.state id (shape_in config.now v) r × IsComplete r
        × IsOut v.name (part_sizes (shape_in config.now v)) (B.state bay.old) }
    ensures { (v : VolumeConf) → slice_get config.now.volumes.items id ≡ Some v
        → IsImageBack B.Part.state v.name image (B.state bay.old) (B.state bay.new) }
{
    if let Some(image) = image {
        let name = config.volumes[id].name.as_str();
        bay.detach(name, image.into_parts());
    }
}
