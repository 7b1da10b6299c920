// What is agreed on.
ghost use Rattle.std.specs.Prelude.{◌≤◌, ◌^◌, length};

/// What a client may agree on: a volume, by its name.
#[derive(Drop)]
pub struct Export<'a> {
    pub name: &'a [u8],
    /// How many blocks of 512 bytes it has.
    pub blocks: u64,
    pub ghost short: { length name.now ≤ 4096 },
    pub ghost small: { blocks ≤ 2 ^ 32 },
}
