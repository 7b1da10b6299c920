// The generator of a trace's lines.
ghost use Rattle.msr_trace.specs.Lines.{trace_line};
ghost use Rattle.std.specs.Prelude.{◌≡◌, ◌+◌, ◌<◌, ◌^◌, IfOk, OnOk, OnErr};
ghost use Rattle.trace_gen.specs.Generated.{line, targets_of};
ghost use Rattle.wol_config.specs.Configs.{IsValid};

use crate::line::{chosen, gap, line_of};
use crate::words::Words;
use msr_trace::Line;
use rand_xoshiro::SplitMix64;
use rand_xoshiro::rand_core::SeedableRng;
use std::alloc::Global;
use std::marker::Model;
use wol_config::Config;
use wol_disk::NoMemory;

/// The time before the first line, in units of 100 ns.
const START_TIME: u64 = 128_166_372_000_000_000;

/// Gives the lines that a seed generates, one by one. Contracts see the seed and how many lines were given.
#[derive(Drop)]
pub struct Gen {
    seed: u64,
    given: u32,
    words: SplitMix64,
    time: u64,
}

impl Model for Gen {
    ghost use Rattle.trace_gen.specs.Generated.{Generator, IsAt};

    ghost Value = { Generator };

    ghost view = { λ g. record { seed = g.seed; given = g.given } };

    ghost invariant = { λ g. IsAt g.seed g.given g.words g.time };
}

impl Gen {
    /// Begins the trace of a seed.
    pub fn new(seed: u64) -> Gen
        ensures { result ≡ record { seed = seed; given = 0 } }
    {
        Gen {
            seed,
            given: 0,
            words: SplitMix64::from_seed(seed.to_le_bytes()),
            time: START_TIME,
        }
    }

    /// The seed whose lines it gives.
    pub fn seed(&self) -> u64
        ensures { result ≡ self.now.seed }
    {
        self.seed
    }

    /// How many lines it gave.
    pub fn given(&self) -> u32
        ensures { result ≡ self.now.given }
    {
        self.given
    }

    /// The next line, on one of the volumes of a configuration, which may be another one at each call. There are 2^31 lines.
    /// After `NoMemory` the next call gives the same line.
    pub fn next(&mut self, alloc: Global, config: &Config) -> Result<Line, NoMemory>
        requires valid { IsValid config.now }
        requires few { self.old.given < 2 ^ 31 }
        ensures line { IfOk result
            (λ l. trace_line l ≡ line (targets_of config.now) self.old.seed self.old.given) }
        ensures ok { OnOk result (self.new ≡ record self.old { given = self.old.given + 1 }) }
        ensures err { OnErr result (self.new ≡ self.old) }
    {
        let mut generator = self.words.clone()?;
        let words = Words::draw(&mut generator);
        let time = self.time + gap(words.gap);
        let line = line_of(alloc, chosen(config, words.volume), time, words)?;
        self.words = generator;
        self.time = time;
        self.given += 1;
        Ok(line)
    }
}
