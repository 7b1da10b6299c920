//! Where a manager places a write: at home or in the log of another volume, and which disk is woken for it.
#![tactic(auto)]

ghost use Rattle.offload_policy.specs.Placing.{step_of, decided_by, is_open, place_of, AreRooms};
ghost use Rattle.std.specs.List.{zip};
ghost use Rattle.std.specs.Prelude.{◌≡◌, ◌<◌, ◌≤◌, ◌^◌, List, Bool, length, position, IfSome, slice_get};
ghost use Rattle.wol_model.specs.Placing.{place as place_in};

/// What is known of a logger's room for a write.
#[derive(Clone, Copy, Debug, Default, PartialEq, Eq)]
pub enum Room {
    /// No held segment has the room, and the pool hasn't been asked for one in this turn.
    #[default]
    Unknown,
    /// A held segment has the room, or the pool gave a segment in this turn.
    Yes,
    /// No held segment has the room, and the pool answered in this turn that it is empty.
    No,
}

/// What to do next with a write. Loggers are named by their place in the volume's view, from 0.
#[derive(Clone, Copy, Debug, PartialEq, Eq)]
pub enum Step {
    /// Write the blocks home, which is awake.
    Home,
    /// Wake home and write the blocks there.
    WakeHome,
    /// Write the blocks to the log of this logger, which is awake.
    Log(u32),
    /// Wake this logger and write the blocks to its log.
    WakeLog(u32),
    /// Ask the pool of this logger for a segment, and place the write again by its answer.
    Ask(u32),
    /// There is no place: some block is covered by a record, and no logger has room.
    Full,
}

// The first logger that may have room, of those that are awake or of those that aren't.
fn first_open(awake: bool, ups: &[bool], rooms: &[Room]) -> Option<usize>
    ensures value { result ≡ position (is_open awake) (zip ups.now rooms.now) }
    ensures within { IfSome result (λ lane. lane < length rooms.now) }
{
    ups.iter()
        .zip(rooms)
        .position(|(up, room)| *up == awake && *room != Room::No)
}

// The logger's room decides: where it isn't known, the pool is asked.
fn decided(rooms: &[Room], lane: usize, known: Step) -> Step
    requires within { lane < length rooms.now }
    requires few { length rooms.now ≤ 2 ^ 32 }
    ensures { result ≡ decided_by (slice_get rooms.now lane) lane known }
{
    match rooms[lane] {
        Room::Unknown => Step::Ask(lane as u32),
        Room::Yes | Room::No => known,
    }
}

/// The rule of placing. Home takes the write where it is awake and no record covers a block of it
/// (`covered`). Otherwise the first awake logger that may have room decides; then home, where no block is
/// covered; then the first sleeping logger that may have room; and else there is no place.
/// `ups` says of each logger in view order whether it is awake, and `rooms` what is known of its room.
///
/// The published design of write off-loading prefers disks that spin already, and wakes home before it wakes
/// a logger.
pub fn place(home_up: bool, covered: bool, ups: &[bool], rooms: &[Room]) -> Step
    requires lists { length ups.now ≡ length rooms.now }
    requires few { length ups.now ≤ 2 ^ 32 }

    ensures value { result ≡ step_of home_up covered ups.now rooms.now }

    // Whatever the rooms turn out to be that aren't known yet, the place is the model's.
    ensures model { (has : List Bool) → AreRooms rooms.now has
        → IfSome (place_of result) (λ p. p ≡ place_in home_up covered ups.now has) }
{
    if home_up && !covered {
        return Step::Home;
    }
    if let Some(lane) = first_open(true, ups, rooms) {
        return decided(rooms, lane, Step::Log(lane as u32));
    }
    if !covered {
        return Step::WakeHome;
    }
    match first_open(false, ups, rooms) {
        Some(lane) => decided(rooms, lane, Step::WakeLog(lane as u32)),
        None => Step::Full,
    }
}
