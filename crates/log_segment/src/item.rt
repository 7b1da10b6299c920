// What one record of a group is of.

/// Some blocks of a volume, which become one record.
#[derive(Clone, Copy, Debug, PartialEq, Eq)]
pub struct Item {
    /// The volume's first block in the record.
    pub lbn: u64,
    /// How many blocks of 512 bytes it has: 1 to 128, the last of them below 2^32.
    pub count: u32,
}
