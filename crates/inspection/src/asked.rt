// What is asked of the volumes.

/// What is printed of a volume in order.
#[derive(Clone, Copy)]
pub enum Asked {
    /// One line with the digest of its array.
    Check,
    /// A line with the number of its records, and a line for each record.
    Dump,
}
