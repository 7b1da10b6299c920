// Why a volume could not be opened.
use manager::Part;

/// Why a volume could not be opened. The first cause that applies is told, in the order in which they stand here, but for
/// want of memory and for a failed call of a disk, which comes in place of what the failed step would have answered.
#[derive(Clone, Copy, Debug, PartialEq, Eq)]
pub enum OpenRefusal {
    /// The image's label isn't the configured one.
    LabelDiffers,
    /// A logger of the view isn't configured, or its image was refused; `id` is the first of these in view order.
    LoggerMissing {
        id: u32,
    },
    /// A segment of this logger, which the view doesn't name, is owned by the volume: the first of these by logger and index.
    OutsideView {
        logger: u32,
        segment: u32,
    },
    /// This block of the image of `volume` is damaged: it is the place of a head in an owned segment and has none, or the head
    /// of a record that passes the volume's end. Segments go by logger and index, and of one segment first come damaged heads.
    Damaged {
        volume: u32,
        block: u64,
    },
    /// Two records that keep blocks have one version, the least of these: the first two of it by logger, index and position,
    /// each by the volume in whose image it lies and the block of its head there.
    Twins {
        first_volume: u32,
        first: u64,
        second_volume: u32,
        second: u64,
    },
    /// A call of this part failed.
    DiskFault(Part),
    /// There was no memory.
    NoMemory,
}
