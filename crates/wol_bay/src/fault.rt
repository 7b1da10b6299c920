// Why an image did not go out.

/// Why an image did not go out.
#[derive(Clone, Copy, Debug, PartialEq, Eq)]
pub enum BayFault {
    /// There is no image of that name.
    Absent,
    /// The image has another length than its parts together: so many bytes.
    WrongLength { bytes: u64 },
    /// The bay failed. It comes only where the bay's count of faults rose in that call.
    Failed,
    /// There was no memory.
    NoMemory,
}
