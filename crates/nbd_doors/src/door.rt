// A door, through which clients come.
ghost use Rattle.nbd_doors.specs.declared.door.Connection.{Connection};
ghost use Rattle.std.specs.Prelude.{Option};

use wol_io::{Sink, Source};

/// A client: where its bytes come from, and where its replies go to.
#[derive(Drop)]
pub struct Connection<S, K> {
    pub input: S,
    pub output: K,
}

/// Where the clients of a volume come from.
pub trait Door {
    type In: Source + Drop;

    type Out: Sink + Drop;

    /// What a call gave, and the door before and behind it.
    ghost Gave: { Self → Option (Connection Self.In Self.Out) → Self → Type 0 };

    /// The next client, in the order in which they came; it waits for one. `None` where none comes any more.
    fn next(&mut self) -> Option<Connection<Self::In, Self::Out>>
        ensures { Gave self.old result self.new };
}
