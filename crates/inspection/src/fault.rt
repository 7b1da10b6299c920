// Why a volume's lines weren't made.
ghost use Rattle.inspection.specs.Faults.{refused};
ghost use Rattle.inspection.specs.declared.fault.DumpFault.TheVariants.{NoMemory as no_memory};
ghost use Rattle.std.specs.Prelude.{◌≡◌};

use manager::{Part, ReadRefusal};
use wol_disk::NoMemory;

/// Why a volume's lines weren't made.
#[derive(Clone, Copy, Debug, PartialEq, Eq)]
pub enum DumpFault {
    /// A call of this part failed in this call. The manager is down from now on.
    DiskFault(Part),
    /// The manager is down since a call of this part failed.
    Down(Part),
    /// There was no memory.
    NoMemory,
}

impl From<ReadRefusal> for DumpFault {
    ghost from_gives = { λ why e. e ≡ refused why };

    fn from(why: ReadRefusal) -> DumpFault {
        match why {
            ReadRefusal::DiskFault(part) => DumpFault::DiskFault(part),
            ReadRefusal::Down(part) => DumpFault::Down(part),
        }
    }
}

impl From<NoMemory> for DumpFault {
    ghost from_gives = { λ _ e. e ≡ no_memory };

    fn from(_e: NoMemory) -> DumpFault {
        DumpFault::NoMemory
    }
}
