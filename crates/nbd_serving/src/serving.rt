// All volumes are open: one of them is served.
ghost use Rattle.inspection.specs.Racks.{numbers_of, CanLook};
ghost use Rattle.nbd_serving.specs.Racks.{Begins, ServesStation};
ghost use Rattle.nbd_serving.specs.Wires.{wire};
ghost use Rattle.rack.specs.Again.{IsRackAgain};
ghost use Rattle.std.specs.Prelude.{◌≡◌, ◌<◌, ◌≤◌, Contains, length};
ghost use Rattle.wol_config.specs.Configs.{IsValid, most_of};

use crate::serve_worker;
use crate::stop::{Stop, answer_of};
use inspection::place_of;
use nbd_session::{Ended, Export, NbdFault, Shaken, shake};
use rack::{Rack, Work, first_closed};
use std::alloc::Global;
use std::sync::Wait;
use wol_config::Config;
use wol_disk::Disk;
use wol_io::{Sink, Source};

/// The most blocks of one turn, whatever the segments' length.
const MOST_BLOCKS: u32 = 128;

/// How a session begins.
#[derive(Clone, Copy, Debug, PartialEq, Eq)]
pub enum Beginning {
    /// At once: client and server have agreed before.
    AtOnce,
    /// Behind a handshake, in which they agree on the volume.
    Handshake,
}

// The most blocks of one turn: a record lies in one segment, behind the segment's head and its own.
fn most_of(config: &Config) -> u32
    requires { IsValid config.now }
    ensures most { result ≡ most_of config.now }
    ensures some { 1 ≤ result }
    ensures few { result ≤ 128 }
{
    MOST_BLOCKS.min(config.segment_blocks - 2)
}

// Serves a volume that has a station.
fn serve_open<R: Wait, D: Disk, S: Source, K: Sink>(
    rt: &R,
    alloc: Global,
    rack: &mut Rack<D>,
    config: &Config,
    volume: u32,
    input: &mut S,
    out: &mut K,
) -> Result<Ended, NbdFault>
    requires valid { IsValid config.now }
    requires rack { CanLook config.now rack.old }
    requires there { Contains (numbers_of rack.old.stations.items) volume }
    requires volume { volume < length config.now.volumes.items }
    ensures again { IsRackAgain rack.old rack.new }
    ensures serves { ServesStation D.tells config.now rack.old rack.new volume
        (wire (S.left input.old) (S.faults input.old) (K.taken out.old) (K.faults out.old))
        (wire (S.left input.new) (S.faults input.new) (K.taken out.new) (K.faults out.new))
        result }
{
    let home = config.volumes[volume as usize].home;
    let place = place_of(&rack.stations, volume);
    let station = &mut rack.stations[place];
    serve_worker(
        rt,
        alloc,
        &station.lock,
        &mut station.worker,
        &rack.shared,
        home,
        most_of(config),
        input,
        out,
    )
}

// What comes before the session at a volume.
fn begin<S: Source, K: Sink>(
    alloc: Global,
    config: &Config,
    volume: u32,
    beginning: Beginning,
    input: &mut S,
    out: &mut K,
) -> Result<Shaken, NbdFault>
    requires valid { IsValid config.now }
    requires volume { volume < length config.now.volumes.items }
    ensures { Begins config.now volume beginning
        (wire (S.left input.old) (S.faults input.old) (K.taken out.old) (K.faults out.old))
        (wire (S.left input.new) (S.faults input.new) (K.taken out.new) (K.faults out.new))
        result }
{
    match beginning {
        Beginning::AtOnce => Ok(Shaken::Agreed),
        Beginning::Handshake => {
            let conf = &config.volumes[volume as usize];
            let export = Export {
                name: conf.name.as_bytes(),
                blocks: conf.home,
            };
            shake(alloc, &export, input, out)
        }
    }
}

/// Sees that all volumes are open, and serves one of them.
#[derive(Drop)]
pub(crate) struct Serving {
    pub volume: u32,
    pub beginning: Beginning,
}

impl<R: Wait, D: Disk, S: Source, K: Sink> Work<R, D, S, K> for Serving {
    ghost use Rattle.nbd_serving.specs.Racks.{ServesRack};
    ghost use Rattle.nbd_serving.specs.Wires.{wire};
    ghost use Rattle.std.specs.Prelude.{◌<◌, length};

    type Answer = Result<Ended, Stop>;

    ghost Ready = { λ work config given out. work.volume < length config.volumes.items };

    ghost Did = { λ work config before after given rest out now answer. ServesRack D.tells config work.volume work.beginning before after
        (wire (S.left given) (S.faults given) (K.taken out) (K.faults out))
        (wire (S.left rest) (S.faults rest) (K.taken now) (K.faults now))
        answer };

    fn run(
        self,
        rt: &R,
        alloc: Global,
        config: &Config,
        rack: &mut Rack<D>,
        given: &mut S,
        out: &mut K,
    ) -> Result<Ended, Stop> {
        if let Some(fault) = first_closed(rack.faults.as_slice()) {
            return Err(Stop::Fault(fault));
        }
        match begin(alloc, config, self.volume, self.beginning, given, out) {
            Ok(Shaken::Agreed) => {
                let session = serve_open(rt, alloc, rack, config, self.volume, given, out);
                answer_of(session)
            }
            Ok(Shaken::Unagreed(why)) => Err(Stop::Unagreed(why)),
            Err(fault) => answer_of(Err(fault)),
        }
    }
}
