// The words that a line is made of.
ghost use Rattle.std.specs.Prelude.{◌≡◌, ◌+◌, ℕ};
ghost use Rattle.trace_gen.specs.Generated.{word, words_of};

use rand_xoshiro::SplitMix64;
use rand_xoshiro::rand_core::Rng;

/// The five words of a line, in the order in which they are drawn.
#[derive(Clone, Copy)]
pub struct Words {
    pub volume: u64,
    pub gap: u64,
    pub kind: u64,
    pub offset: u64,
    pub size: u64,
}

impl Words {
    /// Draws the words of the next line.
    pub fn draw(generator: &mut SplitMix64) -> Words
        ensures drawn { result ≡ words_of generator.old 0 }
        ensures rest { (k : ℕ) → word generator.new k ≡ word generator.old (5 + k) }
    {
        Words {
            volume: generator.next_u64(),
            gap: generator.next_u64(),
            kind: generator.next_u64(),
            offset: generator.next_u64(),
            size: generator.next_u64(),
        }
    }
}
