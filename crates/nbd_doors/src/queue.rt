// A door in memory.
ghost use Rattle.std.specs.Prelude.{◌≡◌, ◌++◌, ◌∷◌, [], OnErr, OnOk};

use crate::door::{Connection, Door};
use std::alloc::{AllocError, Global};
use std::collections::VecDeque;
use std::marker::Model;
use wol_io::{Sink, Source};

/// A door at which clients stand in line.
#[derive(Drop)]
pub struct MemDoor<S, K> {
    waiting: VecDeque<Connection<S, K>>,
}

impl<S, K> Model for MemDoor<S, K> {
    ghost use Rattle.nbd_doors.specs.declared.door.Connection.{Connection};
    ghost use Rattle.std.specs.Prelude.{List};

    ghost Value = { List (Connection S K) };

    ghost view = { λ d. d.waiting.items };
}

impl<S: Drop, K: Drop> MemDoor<S, K> {
    /// Nobody stands there.
    pub fn new(alloc: Global) -> MemDoor<S, K>
        ensures { result ≡ [] }
    {
        MemDoor {
            waiting: VecDeque::new(alloc),
        }
    }

    /// A client comes, behind all others. Without memory it is let go, and nothing changes.
    pub fn come(&mut self, client: Connection<S, K>) -> Result<(), AllocError>
        ensures came { OnOk result (self.new ≡ self.old ++ client ∷ []) }
        ensures refused { OnErr result (self.new ≡ self.old) }
    {
        match self.waiting.push_back(client) {
            Ok(()) => Ok(()),
            Err(failed) => Err(failed.into()),
        }
    }
}

impl<S: Source + Drop, K: Sink + Drop> Door for MemDoor<S, K> {
    ghost use Rattle.nbd_doors.specs.Queues.{GivesFirst};

    type In = S;

    type Out = K;

    ghost Gave = { GivesFirst };

    fn next(&mut self) -> Option<Connection<S, K>> {
        self.waiting.pop_front()
    }
}
