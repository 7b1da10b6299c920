// Masks of 128 blocks: bit i of a mask that begins at block `first` is block `first + i`.
ghost use Rattle.block_cells.specs.Masks.{in_mask};
ghost use Rattle.std.specs.Prelude.{◌≡◌, ◌<◌, ◌+◌, ℕ, nat_lt, ◌&&◌};
ghost use Rattle.wol_model.specs.Log.{has_bit};

/// Whether the mask has bit i.
pub fn has(mask: u128, i: u32) -> bool
    requires { i < 128 }
    ensures { result ≡ has_bit mask i }
{
    mask >> i & 1 == 1
}

/// The blocks of a mask that begins at `from`, as a mask that begins at `to`. What lies before `to`, or 128
/// blocks or more behind it, falls out.
pub fn moved(mask: u128, from: u64, to: u64) -> u128
    ensures { (i : ℕ) → has_bit result i ≡ (nat_lt i 128 && in_mask from mask (to + i)) }
{
    if from <= to {
        let down = to - from;
        if down < 128 { mask >> down } else { 0 }
    } else {
        let up = from - to;
        if up < 128 { mask << up } else { 0 }
    }
}
