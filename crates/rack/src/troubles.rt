//! What is told of a volume that isn't in order, in the words of a report.

ghost use Rattle.std.specs.Prelude.{◌≡◌};
ghost use Rattle.rack.specs.Troubles.{trouble_of, trouble_of_part, trouble_of_refusal};

use crate::VolumeFault;
use manager::Part;
use manager_recovery::OpenRefusal;
use report::Trouble;

/// What is told of a part a call of which failed.
pub fn trouble_of_part(part: Part) -> Trouble
    ensures { result ≡ trouble_of_part part }
{
    match part {
        Part::Home { .. } => Trouble::Home,
        Part::Segment { volume, index } => Trouble::Segment {
            logger: volume,
            index,
        },
    }
}

// What is told of a volume that couldn't be opened of its image. No volume is refused for want of memory.
fn trouble_of_refusal(refusal: OpenRefusal) -> Trouble
    ensures { result ≡ trouble_of_refusal refusal }
{
    match refusal {
        OpenRefusal::LabelDiffers => Trouble::LabelDiffers,
        OpenRefusal::Damaged { volume, block } => Trouble::Damaged { volume, block },
        OpenRefusal::LoggerMissing { id } => Trouble::LoggerMissing { id },
        OpenRefusal::OutsideView { logger, segment } => Trouble::OutsideView { logger, segment },
        OpenRefusal::DiskFault(part) => trouble_of_part(part),
        OpenRefusal::NoMemory => Trouble::Bay,
        OpenRefusal::Twins {
            first_volume,
            first,
            second_volume,
            second,
        } => Trouble::Twins {
            first_volume,
            first,
            second_volume,
            second,
        },
    }
}

/// What is told of a volume without a station.
pub fn trouble_of(fault: VolumeFault) -> Trouble
    ensures { result ≡ trouble_of fault }
{
    match fault {
        VolumeFault::Absent => Trouble::Absent,
        VolumeFault::WrongLength { bytes } => Trouble::Length { bytes },
        VolumeFault::Refused(refusal) => trouble_of_refusal(refusal),
        VolumeFault::LabelFault => Trouble::Label,
        VolumeFault::BayFailed => Trouble::Bay,
    }
}
