// The tokens of a spindle.

/// A spindle that is awake. Only `Spindle::need` makes one, and it has to be given back by `Spindle::done`.
pub struct Awake {
    volume: u32,
}

impl Awake {
    ghost use Rattle.spin_model.specs.Spun.{token_volume};
    ghost use Rattle.std.specs.Prelude.{◌≡◌};

    /// A token of the volume's spindle.
    pub(crate) fn of(volume: u32) -> Awake
        ensures { token_volume result ≡ volume }
    {
        Awake { volume }
    }

    /// The volume whose spindle is awake.
    pub fn volume(&self) -> u32
        ensures { result ≡ token_volume self.now }
    {
        self.volume
    }

    pub(crate) fn spend(self) {
        let Awake { volume: _ } = self;
    }
}
