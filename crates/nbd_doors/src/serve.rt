// The clients of a volume, one after another.
ghost use Rattle.nbd_doors.specs.Doors.{ServesClient, ServesDoor, ServesNext};
ghost use Rattle.nbd_session.specs.Turns.{StaysReady};
ghost use Rattle.std.specs.Prelude.{◌≤◌, ◌^◌, length};

use crate::door::{Connection, Door};
use nbd_session::{Export, Shaken, Volume, serve, shake};
use std::alloc::Global;
use std::sync::Wait;
use wol_io::{Sink, Source};

// Serves a client: a handshake, and a session where they agree.
fn serve_client<R: Wait, V: Volume, S: Source, K: Sink>(
    rt: &R,
    alloc: Global,
    name: &[u8],
    volume: &mut V,
    client: &mut Connection<S, K>,
)
    requires ready { V.Ready volume.old }
    requires short { length name.now ≤ 4096 }
    requires small { V.home volume.old ≤ 2 ^ 32 }
    ensures stays { StaysReady V.Ready V.home V.most volume.old volume.new }
    ensures served { ServesClient S.left S.faults K.taken K.faults V.Turned name.now
        (V.home volume.old) (V.most volume.old) volume.old client.old client.new volume.new }
{
    let export = Export {
        name,
        blocks: volume.home(),
    };
    match shake(alloc, &export, &mut client.input, &mut client.output) {
        Ok(Shaken::Agreed) => {
            let _ended = serve(rt, alloc, volume, &mut client.input, &mut client.output);
        }
        Ok(Shaken::Unagreed(_why)) => {}
        Err(_fault) => {}
    }
}

// Serves the next client. Tells whether one came.
fn serve_next<R: Wait, V: Volume, G: Door>(
    rt: &R,
    alloc: Global,
    name: &[u8],
    volume: &mut V,
    door: &mut G,
) -> bool
    requires ready { V.Ready volume.old }
    requires short { length name.now ≤ 4096 }
    requires small { V.home volume.old ≤ 2 ^ 32 }
    ensures stays { StaysReady V.Ready V.home V.most volume.old volume.new }
    ensures served { ServesNext G.In.left G.In.faults G.Out.taken G.Out.faults V.Turned name.now
        (V.home volume.old) (V.most volume.old) G.Gave door.old volume.old door.new volume.new
        result }
{
    match door.next() {
        Some(client) => {
            let mut client = client;
            serve_client(rt, alloc, name, volume, &mut client);
            true
        }
        None => false,
    }
}

/// Serves the clients of a volume one after another, by this name, until its door gives no more. Each is served whatever
/// became of those before it: one whose bytes are no requests, whose source or sink fails, or for whom there is no memory,
/// ends alone. How a client's session ended isn't told.
pub fn serve_door<R: Wait, V: Volume, G: Door>(
    rt: &R,
    alloc: Global,
    name: &[u8],
    volume: &mut V,
    door: &mut G,
)
    requires ready { V.Ready volume.old }
    requires short { length name.now ≤ 4096 }
    requires small { V.home volume.old ≤ 2 ^ 32 }
    ensures stays { StaysReady V.Ready V.home V.most volume.old volume.new }
    ensures served { ServesDoor G.In.left G.In.faults G.Out.taken G.Out.faults V.Turned name.now
        (V.home volume.old) (V.most volume.old) G.Gave door.old volume.old door.new volume.new }
{
    'clients: for _ in rt.forever() {
        if !serve_next(rt, alloc, name, volume, door) {
            return;
        }
    }
    unreachable!()
}
