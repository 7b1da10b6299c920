// The pool of an image's free segments is made, and emptied.
ghost use Rattle.log_segment.specs.Segment.{IsBlank};
ghost use Rattle.rack_parts.specs.Parts.{MayBeFilled, AreFillable, IsBlankPart, left_by, FillsSlot, TakesFree, IsFilledPool, IsSameBut, HasPlaces, EmptiesInto, MaySupply, IsSupplied, CanIssue, IsIssuedPool, Supplies, Restores, CanEnd, EndsInto};
ghost use Rattle.seg_pool.specs.Pools.{IsEmptyPool, IsSamePool, StandsFor, item_at, note_at, room_of, volume_of, blocks_of, base_of};
ghost use Rattle.std.specs.Prelude.{◌≡◌, ◌<◌, ◌≤◌, ℕ, [], length, None, Some, IfOk, IfErr, OnOk, OnErr, IfSome, IsSome, MatchOption, slice_get, slice_index_or, slice_set, vec_len};
ghost use Rattle.turn_lock.specs.Passes.{lock_id, lock_passes, AreNewPasses};
ghost use Rattle.volume_images.specs.Volumes.{shapes_of};
ghost use Rattle.wol_config.specs.Configs.{IsValid};
ghost use Rattle.wol_model.specs.Heads.{Shape};

use crate::heads_said::Said;
use crate::locks::IssuedPool;
use crate::rack::ImageRest;
use crate::rest::put_segment;
use log_layout::SegHead;
use log_segment::FreeSegment;
use seg_pool::Pool;
use spin_model::Spun;
use std::alloc::Global;
use turn_lock::TurnLock;
use wol_config::Config;
use wol_disk::{Disk, NoMemory};

// Gives the free segments to the pool, and notes of each other that its owner's pass holds it.
fn fill_pool<D: Disk>(
    pool: &mut Pool<FreeSegment<D>>,
    heads: &[SegHead],
    segments: &mut [Option<Spun<D>>],
)
    requires pool { MayBeFilled D.state pool.old }
    requires room { room_of pool.old ≡ length heads.now }
    requires segments { AreFillable D.state (volume_of pool.old) (blocks_of pool.old) heads.now
        segments.old }
    ensures same { IsSamePool pool.old pool.new }
    ensures stands { StandsFor (IsBlank D.state) pool.new (base_of pool.new) [] }
    ensures filled { IsFilledPool heads.now segments.old pool.new }
    ensures segments { TakesFree heads.now segments.old segments.new }
{
    for index in 0..heads.len() {
        fill_slot(pool, index, heads[index], &mut segments[index]);
    }
}

// Gives the segment with this head and index to the pool, or notes that its owner's pass holds it.
fn fill_slot<D: Disk>(
    pool: &mut Pool<FreeSegment<D>>,
    index: usize,
    head: SegHead,
    segment: &mut Option<Spun<D>>,
)
    requires within { index < room_of pool.old }
    requires few { room_of pool.old ≤ 1024 }
    requires blocks { (4 ≤ blocks_of pool.old) × (blocks_of pool.old ≤ 65536) }
    requires none { item_at pool.old index ≡ None }
    requires unnoted { note_at pool.old index ≡ None }
    requires stands { StandsFor (IsBlank D.state) pool.old (base_of pool.old) [] }
    requires here { IsSome segment.old }
    requires blank { head ≡ SegHead.Free
        → IfSome segment.old (IsBlankPart D.state (volume_of pool.old) (blocks_of pool.old)) }
    ensures same { IsSamePool pool.old pool.new }
    ensures stands { StandsFor (IsBlank D.state) pool.new (base_of pool.new) [] }
    ensures segment { segment.new ≡ left_by head segment.old }
    ensures filled { FillsSlot index head segment.old pool.old pool.new }
{
    match head {
        SegHead::Owned(owner) => pool.hold(index as u32, owner),
        SegHead::Free => {
            let Some(part) = segment.take() else {
                unreachable!()
            };
            pool.give(index as u32, FreeSegment::new(part));
        }
    }
}

/// Puts the free segments of a pool back to what is here of the image.
pub(crate) fn empty_pool<D: Disk>(pool: Pool<FreeSegment<D>>, image: &mut Option<ImageRest<D>>)
    requires places { MatchOption image.old (IsEmptyPool pool) (HasPlaces pool) }
    ensures { EmptiesInto pool image.old image.new }
{
    let mut pool = pool;
    while let Some((index, free)) = pool.take() {
        put_segment(image, index, free.into_part());
    }
    pool.destroy_empty();
}

// Gives an empty pool the free segments of an image, where it is out.
fn supply<D: Disk>(
    pool: &mut Pool<FreeSegment<D>>,
    said: &Option<Said>,
    image: &mut Option<ImageRest<D>>,
)
    requires pool { MayBeFilled D.state pool.old }
    requires ready { MaySupply D.state pool.old said.now image.old }
    ensures same { IsSamePool pool.old pool.new }
    ensures stands { StandsFor (IsBlank D.state) pool.new (base_of pool.new) [] }
    ensures supplied { IsSupplied D.state said.now image.old image.new pool.new }
{
    let Some(said) = said else { return };
    let Some(image) = image else { unreachable!() };
    image.give_free(pool, said.heads.as_slice());
}

impl<D: Disk> ImageRest<D> {
    // Gives the free segments to an empty pool, and notes who holds the others.
    fn give_free(&mut self, pool: &mut Pool<FreeSegment<D>>, heads: &[SegHead])
        requires pool { MayBeFilled D.state pool.old }
        requires room { room_of pool.old ≡ length heads.now }
        requires segments { AreFillable D.state (volume_of pool.old) (blocks_of pool.old) heads.now
            self.old.segments.items }
        ensures same { IsSamePool pool.old pool.new }
        ensures stands { StandsFor (IsBlank D.state) pool.new (base_of pool.new) [] }
        ensures filled { IsFilledPool heads.now self.old.segments.items pool.new }
        ensures rest { IsSameBut self.old self.new }
        ensures segments { TakesFree heads.now self.old.segments.items self.new.segments.items }
    {
        fill_pool(pool, heads, &mut self.segments);
    }
}

// The pool of an image that is out, or an empty one, behind a lock with a pass for each volume.
fn issue_pool<D: Disk>(
    alloc: Global,
    config: &Config,
    id: u32,
    said: &Option<Said>,
    image: &mut Option<ImageRest<D>>,
) -> Result<IssuedPool<D>, NoMemory>
    requires config { IsValid config.now }
    requires within { id < vec_len config.now.volumes }
    requires image { (s : Shape) → slice_get (shapes_of config.now) id ≡ Some s
        → CanIssue D.state (vec_len config.now.volumes) id s said.now image.old }
    ensures issued { IfOk result (λ i. (s : Shape) → slice_get (shapes_of config.now) id ≡ Some s
        → IsIssuedPool (vec_len config.now.volumes) id s said.now i) }
    ensures supplies { OnOk result (Supplies said.now image.old image.new) }
    ensures restores { OnErr result
        (Restores D.state id config.now.segment_blocks said.now image.old image.new) }
{
    let segments = config.volumes[id as usize].segments;
    let mut pool = Pool::new(alloc, segments, id, config.segment_blocks)?;
    supply(&mut pool, said, image);
    match lock_pool(alloc, pool, config.volumes.len() as u32) {
        Ok(issued) => Ok(issued),
        Err(pool) => {
            empty_pool(pool, image);
            Err(NoMemory)
        }
    }
}

// A lock over the pool, with all of its passes. The pool comes back where there is no memory.
fn lock_pool<D: Disk>(
    alloc: Global,
    pool: Pool<FreeSegment<D>>,
    passes: u32,
) -> Result<IssuedPool<D>, Pool<FreeSegment<D>>>
    requires count { (1 ≤ passes) × (passes ≤ 1024) }
    requires stands { StandsFor (IsBlank D.state) pool (base_of pool) [] }
    ensures base { IfOk result (λ i. (lock_id i.lock).base ≡ base_of pool) }
    ensures passes { IfOk result (λ i. lock_passes i.lock ≡ passes) }
    ensures count { IfOk result (λ i. length i.passes.items ≡ passes) }
    ensures new { IfOk result (λ i. AreNewPasses i.lock i.passes.items) }
    ensures unchanged { IfErr result (λ p. p ≡ pool) }
{
    match TurnLock::new(alloc, pool, passes, 0) {
        Ok((lock, passes)) => Ok(IssuedPool { lock, passes }),
        Err((pool, _)) => Err(pool),
    }
}

/// A lock over each pool. Where there is no memory each segment is where it was.
pub fn issue_pools<D: Disk>(
    alloc: Global,
    config: &Config,
    said: &[Option<Said>],
    images: &mut [Option<ImageRest<D>>],
) -> Result<Vec<IssuedPool<D>>, NoMemory>
    requires config { IsValid config.now }
    requires said { length said.now ≡ vec_len config.now.volumes }
    requires images { length images.old ≡ vec_len config.now.volumes }
    requires each { (k : ℕ) (s : Shape) → slice_get (shapes_of config.now) k ≡ Some s
        → CanIssue D.state (vec_len config.now.volumes) k s (slice_index_or said.now k None)
        (slice_index_or images.old k None) }
    ensures count { IfOk result (λ made. length made.items ≡ vec_len config.now.volumes) }
    ensures images { length images.new ≡ length images.old }
    ensures issued { IfOk result (λ made. (k : ℕ) (s : Shape) (i : _)
        → slice_get (shapes_of config.now) k ≡ Some s → slice_get made.items k ≡ Some i
        → IsIssuedPool (vec_len config.now.volumes) k s (slice_index_or said.now k None) i) }
    ensures supplies { OnOk result ((k : ℕ)
        → Supplies (slice_index_or said.now k None) (slice_index_or images.old k None)
        (slice_index_or images.new k None)) }
    // the parts of free segments may be other blank ones
    ensures restores { OnErr result ((k : ℕ)
        → Restores D.state k config.now.segment_blocks (slice_index_or said.now k None)
        (slice_index_or images.old k None) (slice_index_or images.new k None)) }
{
    let count = config.volumes.len();
    let Ok(mut made) = Vec::with_capacity(alloc, count) else {
        return Err(NoMemory);
    };
    for id in 0..count {
        match issue_at(alloc, config, id, said, images) {
            Ok(issued) => made.push_reserved(issued),
            Err(NoMemory) => {
                end_pools(made, images);
                return Err(NoMemory);
            }
        }
    }
    Ok(made)
}

// The lock of one of them.
fn issue_at<D: Disk>(
    alloc: Global,
    config: &Config,
    id: usize,
    said: &[Option<Said>],
    images: &mut [Option<ImageRest<D>>],
) -> Result<IssuedPool<D>, NoMemory>
    requires config { IsValid config.now }
    requires within { id < vec_len config.now.volumes }
    requires in_said { id < length said.now }
    requires in_images { id < length images.old }
    requires image { (s : Shape) → slice_get (shapes_of config.now) id ≡ Some s
        → CanIssue D.state (vec_len config.now.volumes) id s (slice_index_or said.now id None)
        (slice_index_or images.old id None) }
    ensures images { images.new ≡ slice_set images.old id (slice_index_or images.new id None) }
    ensures issued { IfOk result (λ i. (s : Shape) → slice_get (shapes_of config.now) id ≡ Some s
        → IsIssuedPool (vec_len config.now.volumes) id s (slice_index_or said.now id None) i) }
    ensures supplies { OnOk result (Supplies (slice_index_or said.now id None)
        (slice_index_or images.old id None) (slice_index_or images.new id None)) }
    ensures restores { OnErr result (Restores D.state id config.now.segment_blocks
        (slice_index_or said.now id None) (slice_index_or images.old id None)
        (slice_index_or images.new id None)) }
{
    issue_pool(alloc, config, id as u32, &said[id], &mut images[id])
}

/// Ends the locks of pools, of each volume in order, and puts their segments to those that are here.
pub(crate) fn end_pools<D: Disk>(made: Vec<IssuedPool<D>>, images: &mut [Option<ImageRest<D>>])
    requires count { length made.items ≤ length images.old }
    requires each { (k : ℕ) (i : _) → slice_get made.items k ≡ Some i
        → CanEnd i (slice_index_or images.old k None) }
    ensures count { length images.new ≡ length images.old }
    ensures each { (k : ℕ) (i : _) → slice_get made.items k ≡ Some i
        → EndsInto D.state (lock_id i.lock).base (slice_index_or images.old k None)
        (slice_index_or images.new k None) }
    ensures others { (k : ℕ) → length made.items ≤ k
        → slice_index_or images.new k None ≡ slice_index_or images.old k None }
{
    let mut made = made;
    while let Some(issued) = made.pop() {
        end_pool(issued, &mut images[made.len()]);
    }
    made.destroy_empty();
}

// Ends one of them.
fn end_pool<D: Disk>(issued: IssuedPool<D>, image: &mut Option<ImageRest<D>>)
    requires ready { CanEnd issued image.old }
    ensures { EndsInto D.state (lock_id issued.lock).base image.old image.new }
{
    let IssuedPool { lock, passes } = issued;
    let pool = lock.close(passes);
    empty_pool(pool, image);
}
