// How long an image is.
ghost use Rattle.std.specs.Prelude.{◌≡◌, ◌≤◌, ◌*◌, ◌^◌, MatchOption, nat_eq, sum};

pub const BLOCK_BYTES: u64 = 512;

// The length in bytes of an image of parts of so many blocks, where a number can have it.
pub fn bytes_of_parts(sizes: &[u64]) -> Option<u64>
    ensures { MatchOption result (2 ^ 64 ≤ 512 * sum sizes.now)
        (λ bytes. bytes ≡ 512 * sum sizes.now) }
{
    let mut blocks: u64 = 0;
    for size in sizes {
        blocks = blocks.checked_add(*size)?;
    }
    blocks.checked_mul(BLOCK_BYTES)
}

// Whether an image of that length has just these parts.
pub fn is_length(bytes: u64, sizes: &[u64]) -> bool
    ensures { result ≡ nat_eq bytes (512 * sum sizes.now) }
{
    match bytes_of_parts(sizes) {
        Some(whole) => bytes == whole,
        None => false,
    }
}
