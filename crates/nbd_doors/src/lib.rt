//! The clients of a volume: they come through a door, one after another, and each has a handshake and a session, whatever
//! it sends and wherever its bytes end.
//!
//! `door.rt` says what a door is (`Door`, `Connection`), `queue.rt` has one in memory (`MemDoor`), and `serve.rt` has
//! `serve_door`, the loop over the clients of a door, at any volume of `nbd_session`. Of `specs/`: `Doors` has what one
//! client comes to, and all of a door; `Queues` what a door in memory gives. In `proofs/`: `Clients` for one client,
//! `Along` (a door's clients at a volume, seen at another).
#![tactic(auto)]

mod door;
mod queue;
mod serve;

pub use door::{Connection, Door};
pub use queue::MemDoor;
pub use serve::serve_door;
