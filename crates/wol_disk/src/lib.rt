//! Disks of blocks, and what a crash may leave of them: the trait that all storage of the program stands on, a disk
//! in memory that knows each image it might have left, and a disk that stops in the middle of its work.
//!
//! The trait `Disk`, `MemDisk` and `StopDisk`. `specs/Disk.antt` has the model (`Values` of a block since the last
//! sync, `State`, `put`, `added`, `IsImage`, `IsBlend`, `Passes`, `IsDisk`, `LeavesOnly`); everything is said of
//! blocks of any type, so no proof looks into 512 bytes. `disk.rt` the trait and errors; `memory.rt` `MemDisk`,
//! which keeps a record of its calls (`record.rt`) from which `specs/Record.antt` computes values and images;
//! `plan.rt` the calls that are to fail; `restart.rt` and `touch.rt` the choice of an image; `values.rt` the values
//! of one block, apart from a disk, of which a disk can be made again; `stop.rt` `Fuse` and `StopDisk`.
//! `proofs/Moments.antt` and `Calls.antt` are for the crates above: one line for each disk call carries "each image
//! since the start has P" over it (`started`, `write_goes_on`, `sync_goes_on`, `read_goes_on`, `then_leaves`,
//! `widened`, `now_leaves`). To change what a crash may leave, begin at `AddsSome` and `IsImage`.
#![tactic(auto)]

mod disk;
mod memory;
mod plan;
mod record;
mod restart;
mod stop;
mod touch;
mod values;

pub use disk::{Block, Disk, Failed, NoMemory};
pub use memory::MemDisk;
pub use stop::{Fuse, StopDisk};
pub use values::BlockValues;
