// Segments that a volume owns.
ghost use Rattle.log_layout.specs.Values.{record_head};
ghost use Rattle.log_segment.specs.Kept.{Keeps, IsFreeInAll, IsWithOrWithout, IsKeptOrTrimmed, IsKeptOrIdle};
ghost use Rattle.log_segment.specs.Records.{new_record, group_of, count_of, trimmed, count_valid, AreItems, IsSameHead, IsProperPart};
ghost use Rattle.spin_model.specs.Spun.{state_of, token_volume};
ghost use Rattle.std.specs.Prelude.{◌≡◌, ◌↔◌, ◌+◌, ◌-◌, ◌<◌, ◌≤◌, ◌^◌, ◌==◌, if◌then◌else◌, ℕ, [], ◌∷◌, ◌++◌, length, take, drop, List, Some, slice_get, slice_set, OnOk, OnErr, IfOk, IfErr, IsErr, IsTrue};
ghost use Rattle.wol_disk.specs.Disk.{Block, Values, LeavesOnly, Rose};
ghost use Rattle.wol_model.specs.Heads.{IsRecordHead};
ghost use Rattle.wol_model.specs.Log.{Record, IsLog, HasFirstOf, position_of, end_of};

use crate::group::append_records;
use crate::head::{retire_part, store_head};
use crate::{FreeSegment, Item};
use log_layout::RecHead;
use spin_model::{Awake, Spun};
use wol_disk::{Block, Disk, Failed};

/// A segment of the log of the volume that owns it. Its records stand one behind the other.
///
/// After a write or a sync of it has failed it is broken: only `is_broken` and `into_part` are for it then.
#[derive(Drop)]
pub struct Segment<D: Disk> {
    part: Spun<D>,
    owner: u32,
    blocks: u32,
    end: u32,
    valid: u32,
    broken: bool,
}

impl<D: Disk> Segment<D> {
    ghost use Rattle.log_segment.specs.Segment.{IsSegment, IsFree, IsWhole, IsBroken, IsSame, Breaks, Holds, room_of, part_of, disk_of, free_disk, free_volume, free_blocks, segment_volume, owner_of, blocks_of, place_of, valid_of};

    // A segment without a record.
    pub(crate) fn with(part: Spun<D>, owner: u32, blocks: u32, broken: bool) -> Segment<D>
        ensures { result ≡ record {
          part = part;
          owner = owner;
          blocks = blocks;
          end = 1;
          valid = 0;
          broken = broken;
        } }
    {
        Segment {
            part,
            owner,
            blocks,
            end: 1,
            valid: 0,
            broken,
        }
    }

    /// The segment that a scan of its part found: its records end in front of `end`, and so many of them keep a block.
    pub fn restored(part: Spun<D>, owner: u32, end: u32, valid: u32) -> Segment<D>
        requires size { (4 ≤ (state_of D.state part).size)
            × ((state_of D.state part).size ≤ 65536) }
        requires place { (1 ≤ end) × (end ≤ (state_of D.state part).size) }
        requires few { valid < end }
        ensures shape { IsSegment D.state result }
        ensures whole { IsWhole result }
        ensures part { part_of result ≡ part }
        ensures owner { owner_of result ≡ owner }
        ensures place { place_of result ≡ end }
        ensures valid { valid_of result ≡ valid }
        ensures holds { (rs : List Record) → Keeps (state_of D.state part) owner rs
            → end ≡ end_of rs → valid ≡ count_valid rs → Holds D.state result rs }
    {
        let blocks = part.blocks() as u32;
        Segment {
            part,
            owner,
            blocks,
            end,
            valid,
            broken: false,
        }
    }

    /// How many blocks one more record may have, its head not counted.
    pub fn room(&self) -> u32
        requires { IsSegment D.state self.now }
        ensures { result ≡ room_of self.now }
    {
        (self.blocks - self.end).saturating_sub(1)
    }

    /// How many of its records keep a block.
    pub fn valid(&self) -> u32
        ensures { result ≡ valid_of self.now }
    {
        self.valid
    }

    /// The volume whose records it has.
    pub fn owner(&self) -> u32
        ensures { result ≡ owner_of self.now }
    {
        self.owner
    }

    /// Whether a write or a sync of it failed.
    pub fn is_broken(&self) -> bool
        ensures { IsTrue result ↔ IsBroken self.now }
    {
        self.broken
    }

    /// The part, for a bay that takes it back.
    pub fn into_part(self) -> Spun<D>
        ensures { result ≡ part_of self }
    {
        let Segment {
            part,
            owner: _,
            blocks: _,
            end: _,
            valid: _,
            broken: _,
        } = self;
        part
    }

    /// Adds a record of 1 to 128 blocks from block `lbn` of the owner on, and answers the position of its head.
    /// It is acknowledged once it is on the disk. `Failed` is the disk's, and the segment is broken then.
    pub fn append(
        &mut self,
        token: &Awake,
        version: u64,
        lbn: u64,
        from: &[Block],
    ) -> Result<u32, Failed>
        requires shape { IsSegment D.state self.old }
        requires whole { IsWhole self.old }
        requires volume { token_volume token.now ≡ segment_volume self.old }
        requires version { (1 ≤ version) × (version < 2 ^ 63) }
        requires count { (1 ≤ length from.now) × (length from.now ≤ 128) }
        requires range { lbn + length from.now ≤ 2 ^ 32 }
        requires room { length from.now ≤ room_of self.old }
        ensures shape { IsSegment D.state self.new }
        ensures same { IsSame self.old self.new }
        ensures position { IfOk result (λ pos. pos ≡ place_of self.old) }
        ensures place { OnOk result (place_of self.new ≡ place_of self.old + 1 + length from.now) }
        ensures valid { OnOk result (valid_of self.new ≡ valid_of self.old + 1) }
        ensures whole { OnOk result (IsWhole self.new) }
        ensures ok { (rs : List Record) → Holds D.state self.old rs
            → OnOk result (Holds D.state self.new
            (rs ++ new_record (owner_of self.old) version lbn from.now ∷ [])) }
        ensures err { OnErr result (Breaks self.old self.new) }
        ensures any_moment { (rs : List Record) → Holds D.state self.old rs
            → LeavesOnly (disk_of D.state self.old) (disk_of D.state self.new)
            (IsWithOrWithout (owner_of self.old) rs
            (new_record (owner_of self.old) version lbn from.now)) }
        ensures cause { IsErr result
            → Rose (disk_of D.state self.old).faults (disk_of D.state self.new).faults }
        ensures calm { OnOk result
            ((disk_of D.state self.new).faults ≡ (disk_of D.state self.old).faults) }
    {
        let item = Item {
            lbn,
            count: from.len() as u32,
        };
        self.append_group(token, version, &[item], from)
    }

    /// Adds one record for each item, of rising versions from `version` on, and answers the position of the first head.
    /// `from` has the items' blocks in order. All blocks are on the disk before the first head is written, so a stop
    /// leaves some first ones of the records. `Failed` is the disk's, and the segment is broken then.
    pub fn append_group(
        &mut self,
        token: &Awake,
        version: u64,
        items: &[Item],
        from: &[Block],
    ) -> Result<u32, Failed>
        requires shape { IsSegment D.state self.old }
        requires whole { IsWhole self.old }
        requires volume { token_volume token.now ≡ segment_volume self.old }
        requires version { (1 ≤ version) × (version + length items.now ≤ 2 ^ 63) }
        requires some { 1 ≤ length items.now }
        requires items { AreItems items.now }
        requires blocks { count_of items.now ≡ length from.now }
        requires room { length from.now + (length items.now - 1) ≤ room_of self.old }
        ensures shape { IsSegment D.state self.new }
        ensures same { IsSame self.old self.new }
        ensures position { IfOk result (λ pos. pos ≡ place_of self.old) }
        ensures place { OnOk result
            (place_of self.new ≡ place_of self.old + length items.now + length from.now) }
        ensures valid { OnOk result (valid_of self.new ≡ valid_of self.old + length items.now) }
        ensures whole { OnOk result (IsWhole self.new) }
        ensures ok { (rs : List Record) → Holds D.state self.old rs
            → OnOk result (Holds D.state self.new
            (rs ++ group_of (owner_of self.old) version items.now from.now)) }
        ensures err { OnErr result (Breaks self.old self.new) }
        ensures any_moment { (rs : List Record) → Holds D.state self.old rs
            → LeavesOnly (disk_of D.state self.old) (disk_of D.state self.new)
            (λ c. HasFirstOf c (owner_of self.old) rs
            (group_of (owner_of self.old) version items.now from.now)) }
        ensures cause { IsErr result
            → Rose (disk_of D.state self.old).faults (disk_of D.state self.new).faults }
        ensures calm { OnOk result
            ((disk_of D.state self.new).faults ≡ (disk_of D.state self.old).faults) }
    {
        let at = self.end;
        let added = items.len() as u32;
        match append_records(&mut self.part, token, at, self.owner, version, items, from) {
            Ok(()) => {
                self.end = at + added + from.len() as u32;
                self.valid += added;
                Ok(at)
            }
            Err(failed) => {
                self.broken = true;
                Err(failed)
            }
        }
    }

    /// Reads blocks of the record whose head stands at `pos`, from its block `skip` on.
    /// `Failed` is the disk's, and nothing changes then but the bytes in `out`.
    pub fn read(
        &mut self,
        token: &Awake,
        pos: u32,
        skip: u32,
        out: &mut [Block],
    ) -> Result<(), Failed>
        requires shape { IsSegment D.state self.old }
        requires whole { IsWhole self.old }
        requires volume { token_volume token.now ≡ segment_volume self.old }
        requires fits { pos + 1 + skip + length out.old ≤ blocks_of self.old }
        ensures shape { IsSegment D.state self.new }
        ensures same { IsSame self.old self.new }
        ensures place { place_of self.new ≡ place_of self.old }
        ensures valid { valid_of self.new ≡ valid_of self.old }
        ensures whole { IsWhole self.new }
        ensures content { (rs : List Record) (k : ℕ) (r : Record) → Holds D.state self.old rs
            → slice_get rs k ≡ Some r → pos ≡ position_of rs k
            → skip + length out.old ≤ length r.blocks
            → OnOk result (out.new ≡ take (length out.old) (drop skip r.blocks)) }
        ensures holds { (rs : List Record) → Holds D.state self.old rs → Holds D.state self.new rs }
        ensures any_moment { (rs : List Record) → Holds D.state self.old rs
            → LeavesOnly (disk_of D.state self.old) (disk_of D.state self.new)
            (λ c. IsLog c (owner_of self.old) rs) }
        ensures cause { IsErr result
            → Rose (disk_of D.state self.old).faults (disk_of D.state self.new).faults }
        ensures calm { OnOk result
            ((disk_of D.state self.new).faults ≡ (disk_of D.state self.old).faults) }
    {
        self.part.read(token, pos as u64 + 1 + skip as u64, out)
    }

    /// Gives up blocks of the record whose head stands at `pos`: of those that it keeps, those of `keep` are kept.
    /// `head` is its head, in whatever form. `Failed` is the disk's, and the segment is broken then.
    pub fn trim(
        &mut self,
        token: &Awake,
        pos: u32,
        head: &RecHead,
        keep: u128,
    ) -> Result<(), Failed>
        requires shape { IsSegment D.state self.old }
        requires whole { IsWhole self.old }
        requires volume { token_volume token.now ≡ segment_volume self.old }
        requires head { IsRecordHead (record_head head.now) }
        requires owner { head.now.owner ≡ owner_of self.old }
        requires keep { IsProperPart keep head.now.keep }
        requires fits { pos < blocks_of self.old }
        ensures shape { IsSegment D.state self.new }
        ensures same { IsSame self.old self.new }
        ensures place { place_of self.new ≡ place_of self.old }
        ensures valid { OnOk result
            (valid_of self.new ≡ valid_of self.old - (if keep == 0 then 1 else 0)) }
        ensures whole { OnOk result (IsWhole self.new) }
        ensures ok { (rs : List Record) (k : ℕ) (r : Record) → Holds D.state self.old rs
            → slice_get rs k ≡ Some r → pos ≡ position_of rs k
            → IsSameHead (record_head head.now) r.head
            → OnOk result (Holds D.state self.new (slice_set rs k (trimmed keep r))) }
        ensures err { OnErr result (Breaks self.old self.new) }
        ensures any_moment { (rs : List Record) (k : ℕ) (r : Record) → Holds D.state self.old rs
            → slice_get rs k ≡ Some r → pos ≡ position_of rs k
            → IsSameHead (record_head head.now) r.head
            → LeavesOnly (disk_of D.state self.old) (disk_of D.state self.new)
            (IsKeptOrTrimmed (owner_of self.old) rs k (trimmed keep r)) }
        ensures cause { IsErr result
            → Rose (disk_of D.state self.old).faults (disk_of D.state self.new).faults }
        ensures calm { OnOk result
            ((disk_of D.state self.new).faults ≡ (disk_of D.state self.old).faults) }
    {
        let left = RecHead {
            form: 2,
            keep,
            owner: self.owner,
            ..*head
        };
        match store_head(&mut self.part, token, pos, &left) {
            Ok(()) => {
                if keep == 0 {
                    self.valid = self.valid.saturating_sub(1);
                }
                Ok(())
            }
            Err(failed) => {
                self.broken = true;
                Err(failed)
            }
        }
    }

    /// Gives the segment up with all its records, by one write of its head: it is free then.
    /// `Failed` is the disk's. The refusal carries the segment, which is broken: it may be free or owned.
    pub fn retire(self, token: &Awake) -> Result<FreeSegment<D>, (Failed, Segment<D>)>
        requires shape { IsSegment D.state self }
        requires whole { IsWhole self }
        requires volume { token_volume token.now ≡ segment_volume self }
        ensures shape { IfOk result (IsFree D.state) }
        ensures volume { IfOk result (λ f. free_volume f ≡ segment_volume self) }
        ensures blocks { IfOk result (λ f. free_blocks f ≡ blocks_of self) }
        ensures told { (vs : List (Values Block)) → (disk_of D.state self).values ≡ Some vs
            → IfOk result
            (λ f. (ws : List (Values Block)) × ((free_disk D.state f).values ≡ Some ws)) }
        ensures err { IfErr result (λ e. Breaks self e.1) }
        ensures shape_err { IfErr result (λ e. IsSegment D.state e.1) }
        ensures same_err { IfErr result (λ e. IsSame self e.1) }
        ensures any_moment { (rs : List Record) → Holds D.state self rs
            → IfOk result (λ f. LeavesOnly (disk_of D.state self) (free_disk D.state f)
            (IsKeptOrIdle (owner_of self) rs)) }
        ensures any_moment_err { (rs : List Record) → Holds D.state self rs
            → IfErr result (λ e. LeavesOnly (disk_of D.state self) (disk_of D.state e.1)
            (IsKeptOrIdle (owner_of self) rs)) }
        ensures cause { IfErr result
            (λ e. Rose (disk_of D.state self).faults (disk_of D.state e.1).faults) }
        ensures calm { IfOk result
            (λ f. (free_disk D.state f).faults ≡ (disk_of D.state self).faults) }
    {
        let Segment {
            mut part,
            owner,
            blocks,
            end,
            valid,
            broken: _,
        } = self;
        match retire_part(&mut part, token) {
            Ok(()) => Ok(FreeSegment { part, blocks }),
            Err(failed) => Err((
                failed,
                Segment {
                    part,
                    owner,
                    blocks,
                    end,
                    valid,
                    broken: true,
                },
            )),
        }
    }
}
