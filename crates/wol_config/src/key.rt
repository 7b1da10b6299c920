// The keys of a configuration.
ghost use Rattle.std.specs.Prelude.{◌≡◌};
ghost use Rattle.wol_config.specs.Keys.{key_text};

/// A key of the configuration's file, in the order in which keys are looked at.
#[derive(Clone, Copy, Debug, PartialEq, Eq)]
pub enum Key {
    SegmentBlocks,
    TimeoutMs,
    AwakeMw,
    StandbyMw,
    WakeMj,
    WakeMs,
    Volume,
    Name,
    Host,
    Disk,
    HomeBlocks,
    Segments,
    View,
}

impl Key {
    /// The key as it stands in the file.
    pub fn text(self) -> &'static str
        ensures { result.now ≡ key_text self }
    {
        match self {
            Key::SegmentBlocks => "segment_blocks",
            Key::TimeoutMs => "timeout_ms",
            Key::AwakeMw => "awake_mw",
            Key::StandbyMw => "standby_mw",
            Key::WakeMj => "wake_mj",
            Key::WakeMs => "wake_ms",
            Key::Volume => "volume",
            Key::Name => "name",
            Key::Host => "host",
            Key::Disk => "disk",
            Key::HomeBlocks => "home_blocks",
            Key::Segments => "segments",
            Key::View => "view",
        }
    }
}
