// Why a volume of a rack has no station.

use manager::Part;
use manager_recovery::OpenRefusal;

/// Why a volume has no station.
#[derive(Clone, Copy, Debug, PartialEq, Eq)]
pub enum VolumeFault {
    /// The bay has no image of its name.
    Absent,
    /// The image has another length than the configured one: so many bytes.
    WrongLength { bytes: u64 },
    /// Its image or its segments refuse it, or a call of one of its parts failed.
    Refused(OpenRefusal),
    /// A call of the part of label and view failed.
    LabelFault,
    /// The bay failed.
    BayFailed,
}
