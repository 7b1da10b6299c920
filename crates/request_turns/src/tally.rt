// What was reclaimed.
ghost use Rattle.request_turns.specs.Counts.{Counts, CountsMore};
ghost use Rattle.std.specs.Prelude.{◌≡◌, true, false};

/// How many blocks were put home, and how many records were dropped. A count stands still at its type's end.
#[derive(Clone, Copy, Debug, PartialEq, Eq)]
pub struct Tally {
    pub blocks: u64,
    pub records: u64,
}

impl Tally {
    /// Nothing yet.
    pub fn new() -> Tally
        ensures { Counts 0 0 result }
    {
        Tally {
            blocks: 0,
            records: 0,
        }
    }

    /// Adds what another counted.
    pub fn add(&mut self, other: Tally)
        ensures { CountsMore other.blocks other.records self.old self.new }
    {
        self.blocks = self.blocks.saturating_add(other.blocks);
        self.records = self.records.saturating_add(other.records);
    }

    /// Adds what a turn did, unless a disk call failed in it.
    pub(crate) fn add_unless(&mut self, failed: bool, done: Tally)
        ensures done { failed ≡ false → CountsMore done.blocks done.records self.old self.new }
        ensures failed { failed ≡ true → self.new ≡ self.old }
    {
        if !failed {
            self.add(done);
        }
    }

    /// Counts what one step did.
    pub fn count(&mut self, blocks: u32, records: u32)
        ensures { CountsMore blocks records self.old self.new }
    {
        self.add(Tally {
            blocks: u64::from(blocks),
            records: u64::from(records),
        });
    }
}
