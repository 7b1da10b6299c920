// Numbers as if thrown by dice, the same in each run.
ghost use Rattle.std.specs.Prelude.{◌≡◌, ◌<◌, ◌≤◌, ◌^◌};

#[derive(Drop)]
pub struct Dice {
    pub last: u64,
}

// How many blocks a record has, and which of them it keeps.
#[derive(Clone, Copy)]
pub struct Shape {
    pub count: u32,
    pub keep: u128,
}

impl Dice {
    // A number below the bound.
    pub fn below(&mut self, bound: u64) -> u64
        requires { 0 < bound }
        ensures { result < bound }
    {
        self.last = self
            .last
            .wrapping_mul(6364136223846793005)
            .wrapping_add(1442695040888963407);
        (self.last >> 33) % bound
    }

    pub fn shape(&mut self) -> Shape
        ensures some { 1 ≤ result.count }
        ensures count { result.count ≤ 128 }
        ensures keeps { 0 < result.keep }
        ensures keep_within { result.keep < 2 ^ result.count }
    {
        let (count, keep) = match self.below(6) {
            0 => (1, 1),
            1 => (3, 7),
            2 => (3, 5),
            3 => (17, 0x1_8421),
            4 => (128, 0x8000_0000_0000_0000_0000_0000_0001_0001),
            _ => (128, u128::MAX),
        };
        Shape { count, keep }
    }
}
