// Who serves a window, when it reclaims, and what it gives.
use manager::StepFault;
use request_turns::Outcome;

/// When a window reclaims, beside the drains that writes need.
#[derive(Clone, Copy, Debug, PartialEq, Eq)]
pub enum Reclaim {
    Off,
    /// After the requests.
    Between,
    /// Beside the requests where workers serve them, and after them.
    Beside,
}

/// Which windows are served by workers.
#[derive(Clone, Copy, Debug, PartialEq, Eq)]
pub enum Sharing {
    /// Those that have enough requests, of more than one volume, for workers to pay. The caller alone serves the others, and
    /// in mode `Beside` it makes no helper's rounds for them.
    WherePays,
    /// All of them.
    Always,
}

/// Who serves a window.
#[derive(Clone, Copy, Debug, PartialEq, Eq)]
pub struct Workers {
    /// 1 to 64 of them.
    pub count: u32,
    pub sharing: Sharing,
}

/// What a window gives.
#[derive(Drop)]
pub struct Window {
    /// The outcomes of the requests, in their order.
    pub outcomes: Vec<Outcome>,
    /// How many blocks were put home in this window, by drains too. Of a turn in which a disk call failed nothing is counted,
    /// and a count stands still at its type's end.
    pub blocks: u64,
    /// How many records were dropped, by drains too, counted likewise.
    pub records: u64,
    /// The first refused step of reclaim, with its volume. What a drain refuses is its request's outcome.
    pub fault: Option<(u32, StepFault)>,
}
