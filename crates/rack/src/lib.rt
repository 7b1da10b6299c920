//! All volumes of a bay are opened, something is done with them, and they are closed.
//!
//! A rack (`rack_parts`) holds all volumes of a configuration: their shared locks, a station each, and what is here
//! of images, passes and rows. `open_all` (`all.rt`) opens it: images go out (`images.rt`), their heads say who owns
//! what, pools and spindles are issued, the lists have room (`lists.rt`), and then volume after volume
//! (`volumes.rt`) is taken out, opened behind its lock, and has a station, or is put back and has its fault.
//! `close_all` (`closing.rt`) closes stations, pools and spindles, and each image goes back to its bay with all its parts.
//! After want of memory `open_all` closes what it has. `laws.rt` says what holds of racks that are opened over one bay one
//! after the other.
//!
//! `with_open` (`opened.rt`) is the one way of a command to all volumes: it opens a rack, hands it to a work, and
//! closes it. What closing leaves in the bay is promised whatever the work answered; what the work did, by what it
//! says of itself (`Work`, in `work.rt`). `first_closed` (`not_opened.rt`) tells the first volume that isn't open, and
//! `troubles.rt` has what is told of a volume that isn't in order, in the words of a report. `format_missing` (`missing.rt`) makes the
//! image of one volume that has none, where a `survey` of all images (`survey.rt`) finds no segment of its log; `specs/Missing` says what
//! it leaves, `specs/Surveying` what stands in its way.
//!
//! Of `specs/`: `BayRuns` says what a bay is left with whose volumes were all opened and closed, in words of images and
//! entries alone, and `RackRuns` ties it to a rack. `Opens` says what opening promises, `Owners` and `PoolUses` what the images
//! said at entry of a volume and of the pools, `Closes` what closing promises, `Laws` the laws. `Making` says what lists and
//! images are made of, `Opening` the steps of opening, `Locked` what a volume behind its lock is. `Again` says when a rack was
//! opened, and when it has again all that it came with, `Sessions` what opening, a work and closing come to, told of the bay
//! before and behind them, and `NotOpened` which volume is the first that isn't open, and why.
//!
//! Of `proofs/`: `SameRecovered`, `KeptImages` and `SoundBefore` say of any two choices of images when they recover to the same
//! and when the one is sound as the other; `LeftVolumes` and `SoundClosed` come to them from the parts that went back.
//! `ViewsLeft` says of labels and views that they stay, `KeptLogs` of the logs of volumes that weren't opened, `BayRuns` comes to
//! the record. `TakenBack` says what images that go back at once recover to. `RacksAgain` (a rack that a work left can be closed,
//! and began with the same), `Since` (what closing says, told of the bay at entry), `OpenedKept` (where nothing was done, each
//! volume that was opened keeps its records), `FirstClosed`, `AllOut` (where all images are out none is refused), and
//! `ViewsKept` (no label or view is changed, whatever the work did).
#![tactic(auto)]

mod all;
mod closing;
mod images;
mod laws;
mod lists;
mod missing;
mod not_opened;
mod opened;
mod survey;
mod troubles;
mod volumes;
mod work;

pub use all::open_all;
pub use closing::close_all;
pub use laws::{bay_run_laws, reopening_laws, sound_images_laws};
pub use missing::{MissingFault, format_missing};
pub use not_opened::first_closed;
pub use opened::{Closed, with_open};
pub use rack_parts::{Rack, VolumeFault};
pub use troubles::{trouble_of, trouble_of_part};
pub use volume_images::{PartName, RackFault, format};
pub use work::Work;
