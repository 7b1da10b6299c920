// The manager of a volume: how it is made and taken apart, what it tells, and which disks it counts as awake.
ghost use Rattle.logger.specs.Lanes.{logger_of};
ghost use Rattle.manager.specs.Accesses.{HasUsedOnce};
ghost use Rattle.manager.specs.Reading.{IsReadThrough};
ghost use Rattle.manager.specs.Seen.{look_of_manager};
ghost use Rattle.manager.specs.Stands.{IsReady, IsHome, Leaves, opened};
ghost use Rattle.manager.specs.Stops.{StopsWith};
ghost use Rattle.std.specs.Prelude.{◌≡◌, ◌<◌, ◌≤◌, [], ℕ, true, None, length, replicate, slice_get, IfSome};
ghost use Rattle.wol_model.specs.History.{Kept};

use crate::Part;
use arrayvec::ArrayVec;
use logger::{Lane, Shared};
use offload_policy::Room;
use redirect_map::Index;
use spin_model::{Spindle, SpindleBase, Spun, give_token, take_token};
use std::sync::Wait;
use turn_lock::{Pass, PassOf};
use wol_disk::Disk;

/// The most loggers of a view.
const LANES: usize = 16;

/// The one who reads and writes a volume, over its home and its segments on the logs of other volumes.
///
/// It stands for what the volume was at its opening and for a list of entries: what was written and read since.
/// After a disk call failed it is down: it tells the part, and answers nothing more until the volume is opened again.
pub struct Manager<D: Disk> {
    // (what each window's turns read comes first, side by side)
    pub(crate) id: u32,
    pub(crate) spindle: PassOf<Spindle, SpindleBase>,
    pub(crate) down: Option<Part>,
    pub(crate) home_up: bool,
    pub(crate) ups: ArrayVec<bool, 16>,
    pub(crate) lanes: Vec<Lane<D>>,
    pub(crate) index: Index,
    pub(crate) home: Spun<D>,
    pub(crate) next: u64,
    pub(crate) most: u32,
    // what each logger answered of its room in the last write
    pub(crate) rooms: ArrayVec<Room, 16>,
}

/// What is left of a manager: home, its pass of home's spindle, and its lanes in view order.
pub struct ManagerParts<D: Disk> {
    pub home: Spun<D>,
    pub spindle: Pass<Spindle>,
    pub lanes: Vec<Lane<D>>,
}

// The notes of so many loggers' rooms before one is asked.
pub(crate) fn unasked(lanes: usize) -> ArrayVec<Room, 16>
    requires { lanes ≤ 16 }
    ensures { result.items ≡ replicate lanes Room.Unknown }
{
    let mut rooms = ArrayVec::from([Room::Unknown; LANES]);
    rooms.truncate(lanes);
    rooms
}

// The same notes before one is asked again.
pub(crate) fn forget(rooms: &mut ArrayVec<Room, 16>)
    ensures { rooms.new.items ≡ replicate (length rooms.old.items) Room.Unknown }
{
    for k in 0..rooms.len() {
        rooms[k] = Room::Unknown;
    }
}

impl<D: Disk> Manager<D> {
    /// The manager of a volume that was opened: its home, its pass of home's spindle, a lane for each logger of its view
    /// in order, the index of the records in the lanes' segments, the next version, and the most blocks of one write.
    /// It counts home and all loggers as awake.
    pub fn new(
        id: u32,
        home: Spun<D>,
        spindle: Pass<Spindle>,
        lanes: Vec<Lane<D>>,
        index: Index,
        next: u64,
        most: u32,
    ) -> Manager<D>
        requires few { length lanes.items ≤ 16 }
        requires ready { IsReady D.state (opened id home spindle lanes index next most) }
        ensures value { result ≡ opened id home spindle lanes index next most }
    {
        let mut ups = ArrayVec::from([true; LANES]);
        ups.truncate(lanes.len());
        let rooms = unasked(lanes.len());
        Manager {
            id,
            home,
            spindle,
            lanes,
            index,
            next,
            most,
            home_up: true,
            ups,
            rooms,
            down: None,
        }
    }

    /// Sets which of home and the view's loggers are awake for this manager. Readers see no change.
    pub fn begin(&mut self, home: bool, ups: &[bool])
        requires ready { IsReady D.state self.old }
        requires flags { length ups.now ≡ length self.old.lanes.items }
        ensures ready { IsReady D.state self.new }
        ensures stands { (pass : ℕ) → Leaves D.tells D.state self.old self.new Kept [] pass }
        ensures unchanged { self.new
            ≡ record self.old { home_up = home; ups = record { items = ups.now } } }
        ensures any_moment { StopsWith D.tells D.state self.old self.new None [] }
    {
        self.home_up = home;
        self.ups.copy_from_slice(ups);
    }

    /// Wakes home: its spindle is needed in one turn and done in the next. Readers see no change.
    pub fn wake_home<R: Wait>(&mut self, rt: &R, shared: &Shared<D>)
        requires ready { IsReady D.state self.old }
        requires at { IsHome shared.now self.old }
        ensures ready { IsReady D.state self.new }
        ensures at { IsHome shared.now self.new }
        ensures stands { (pass : ℕ) → Leaves D.tells D.state self.old self.new Kept [] pass }
        ensures unchanged { self.new
            ≡ record self.old { home_up = true; spindle = self.new.spindle } }
        ensures read { IsReadThrough D.state self.old self.new }
        ensures waking { HasUsedOnce self.old.spindle self.new.spindle }
        ensures any_moment { StopsWith D.tells D.state self.old self.new None [] }
    {
        let lock = &shared.spindles[self.id as usize];
        let token = take_token(rt, lock, &mut self.spindle);
        give_token(rt, lock, &mut self.spindle, token);
        self.home_up = true;
    }

    /// The part at which a disk call failed, where one did. Its count of faults is above 0.
    pub fn down(&self) -> Option<Part>
        ensures { result ≡ self.now.down }
    {
        self.down
    }

    /// The volume's records.
    pub fn index(&self) -> &Index
        ensures { result.now ≡ self.now.index }
    {
        &self.index
    }

    /// Whether home is awake for this manager.
    pub fn home_up(&self) -> bool
        ensures { result ≡ (look_of_manager self.now).home_up }
    {
        self.home_up
    }

    /// Whether each logger of the view, in order, is awake for this manager.
    pub fn ups(&self) -> &[bool]
        ensures { result.now ≡ (look_of_manager self.now).ups }
    {
        &self.ups
    }

    /// The logger of the lane at this place of the view, by its number as a volume.
    pub fn logger(&self, lane: u32) -> u32
        requires { lane < length self.now.lanes.items }
        ensures { IfSome (slice_get self.now.lanes.items lane) (λ l. result ≡ logger_of l) }
    {
        self.lanes[lane as usize].logger()
    }

    /// Takes the manager apart.
    pub fn release(self) -> ManagerParts<D>
        ensures home { result.home ≡ self.home }
        ensures spindle { result.spindle ≡ self.spindle }
        ensures lanes { result.lanes ≡ self.lanes }
    {
        let Manager {
            id: _,
            home,
            spindle,
            lanes,
            index: _,
            next: _,
            most: _,
            home_up: _,
            ups: _,
            rooms: _,
            down: _,
        } = self;
        ManagerParts {
            home,
            spindle,
            lanes,
        }
    }
}
