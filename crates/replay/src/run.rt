// A trace is replayed on all volumes of a bay.
ghost use Rattle.rack.specs.NotOpened.{first_closed};
ghost use Rattle.rack.specs.Opens.{KeepsOthers};
ghost use Rattle.replay.specs.Account.{KeepsAccount};
ghost use Rattle.replay.specs.Completes.{Completes, MayComplete};
ghost use Rattle.replay.specs.Givens.{IsNew, IsWithin, faults_of, borrow_of};
ghost use Rattle.replay.specs.Headlined.{KeepsHeadline};
ghost use Rattle.replay.specs.Replays.{Replayed, status_in};
ghost use Rattle.replay.specs.Runs.{new_session, CanServe, IsFloorOf, ServesFrom, RunsIn};
ghost use Rattle.replay.specs.Sessions.{AreOptions, IsSession};
ghost use Rattle.std.specs.Prelude.{◌≡◌, ◌≤◌, ◌^◌, [], length, None, Err};
ghost use Rattle.volume_images.specs.Left.{IsTold};
ghost use Rattle.volume_images.specs.Volumes.{NoneOut};
ghost use Rattle.window_desks.specs.declared.floor.Floor.{Floor};
ghost use Rattle.wol_bay.specs.Bay.{outs};
ghost use Rattle.wol_config.specs.Configs.{IsValid};
ghost use Rattle.wol_disk.specs.Disk.{Rose};

use crate::counting::Counted;
use crate::given::Given;
use crate::leading::serve_with_workers;
use crate::printing::print_summary;
use crate::session::{Options, Session};
use crate::stop::Stop;
use manager::Manager;
use rack::{Rack, close_all, first_closed, open_all};
use report::Fault;
use request_workers::{Floor, Passes, Station, set_up, take_down};
use std::alloc::Global;
use std::mem;
use std::sync::Wait;
use std::thread::Threads;
use turn_lock::TurnLock;
use wol_bay::Bay;
use wol_config::Config;
use wol_disk::{Disk, NoMemory};
use wol_io::{Gate, Sink, Source};

// The stations come back to their rack, which has none.
fn put_stations<D: Disk>(rack: &mut Rack<D>, stations: Vec<Station<D>>)
    requires none { rack.old.stations.items ≡ [] }
    ensures { rack.new ≡ record rack.old { stations = stations } }
{
    let none = mem::replace(&mut rack.stations, stations);
    none.destroy_empty();
}

// Serves a trace on a floor of these locks and passes, and puts the stations back.
fn replay_on<D: Disk + Send, R: Threads + Wait + Sync, S: Source, K: Sink, G: Gate + Sync>(
    rt: &R,
    alloc: Global,
    config: &Config,
    given: &mut Given<S>,
    options: Options,
    rack: &mut Rack<D>,
    volumes: (Vec<TurnLock<Manager<D>>>, Passes<D>),
    out: &mut K,
    gate: &G,
) -> Result<Counted, Stop>
    requires valid { IsValid config.now }
    requires options { AreOptions options }
    requires new { IsNew given.old }
    requires session { (floor : Floor _) → IsFloorOf volumes.0.items volumes.1 floor
        → IsSession config.now rack.old.shared (new_session floor rack.old.keepers) }
    requires none { rack.old.stations.items ≡ [] }
    ensures served { (floor : Floor _) × IsFloorOf volumes.0.items volumes.1 floor
        × ServesFrom D.tells S.left config.now options given.old given.new rack.old rack.new
        (K.faults out.old) (K.faults out.new) (K.taken out.old) (K.taken out.new) floor result }
    ensures later { K.faults out.old ≤ K.faults out.new }
    ensures source_later { faults_of S.faults given.old ≤ faults_of S.faults given.new }
    ensures source { result ≡ Err (Stop.Fault Fault.TraceSource)
        → Rose (faults_of S.faults given.old) (faults_of S.faults given.new) }
    ensures same_borrow { borrow_of S.borrow given.new ≡ borrow_of S.borrow given.old }
    ensures within { IsWithin given.new }
{
    let (locks, passes) = volumes;
    let floor = Floor::new(locks.as_slice(), passes);
    let keepers = mem::replace(&mut rack.keepers, Vec::new(alloc));
    let mut session = Session::new(floor, keepers);
    let shared = &rack.shared;
    let served = serve_with_workers(
        rt,
        alloc,
        config,
        options,
        shared,
        gate,
        given,
        out,
        &mut session,
    );
    let Session {
        floor,
        keepers,
        totals: _,
        started: _,
    } = session;
    let passes = floor.leave();
    rack.keepers = keepers;
    put_stations(rack, take_down(locks, passes));
    served
}

// Serves a trace on the volumes of a rack, if all of them are open.
fn replay_in<D: Disk + Send, R: Threads + Wait + Sync, S: Source, K: Sink, G: Gate + Sync>(
    rt: &R,
    alloc: Global,
    config: &Config,
    given: &mut Given<S>,
    options: Options,
    rack: &mut Rack<D>,
    out: &mut K,
    gate: &G,
) -> Result<Counted, Stop>
    requires valid { IsValid config.now }
    requires options { AreOptions options }
    requires new { IsNew given.old }
    requires few { length rack.old.faults.items ≤ 2 ^ 32 }
    requires can_serve { first_closed 0 rack.old.faults.items ≡ None
        → CanServe config.now rack.old.shared rack.old.stations.items rack.old.keepers.items }
    ensures runs { RunsIn D.tells S.left config.now options given.old given.new rack.old rack.new
        (K.faults out.old) (K.faults out.new) (K.taken out.old) (K.taken out.new) result }
    ensures later { K.faults out.old ≤ K.faults out.new }
    ensures source_later { faults_of S.faults given.old ≤ faults_of S.faults given.new }
    ensures source { result ≡ Err (Stop.Fault Fault.TraceSource)
        → Rose (faults_of S.faults given.old) (faults_of S.faults given.new) }
    ensures same_borrow { borrow_of S.borrow given.new ≡ borrow_of S.borrow given.old }
    ensures within { IsWithin given.new }
{
    if let Some(fault) = first_closed(rack.faults.as_slice()) {
        return Err(Stop::Fault(fault));
    }
    let stations = mem::replace(&mut rack.stations, Vec::new(alloc));
    match set_up(alloc, stations) {
        Ok(volumes) => replay_on(rt, alloc, config, given, options, rack, volumes, out, gate),
        Err((stations, NoMemory)) => {
            put_stations(rack, stations);
            Err(Stop::Fault(Fault::Memory))
        }
    }
}

/// Replays the lines that are given on the volumes of a bay, and prints a line for each read, where that is asked for, and the
/// summary.
///
/// The first volume, in order, that isn't open ends the run before its first line. A refused request ends it after its window:
/// want of memory comes first, else the first refused request in the order of the trace, else the first refused step of
/// reclaim. All lines before a bad one, before the end of a failed source and before the end of 2^32 lines are run. At each
/// exit every image is back in the bay.
pub fn replay<R: Threads + Wait + Sync, S: Source, K: Sink, B: Bay, G: Gate + Sync>(
    rt: &R,
    alloc: Global,
    config: &Config,
    given: &mut Given<S>,
    options: Options,
    out: &mut K,
    bay: &mut B,
    gate: &G,
) -> Result<(), Stop>
where
    B::Part: Send,
    requires valid { IsValid config.now }
    requires options { AreOptions options }
    requires new { IsNew given.old }
    requires home { NoneOut config.now (B.state bay.old) }
    // The headline, at each exit.
    ensures headline { KeepsHeadline B.Part.tells B.Part.state S.left config.now options.each
        given.old given.new (B.state bay.old) (B.state bay.new) (status_in result) (K.taken out.old)
        (K.taken out.new) }
    // The account of placing, reclaim and the disks' time, at each exit.
    ensures account { KeepsAccount B.Part.tells B.Part.state S.left config.now options.reclaim
        given.old given.new (B.state bay.old) (B.state bay.new) (status_in result) (K.taken out.old)
        (K.taken out.new) }
    // each exit
    ensures home { NoneOut config.now (B.state bay.new) }
    ensures outs { outs (B.state bay.new) ≡ outs (B.state bay.old) }
    ensures others { IsTold (KeepsOthers config.now) (B.state bay.old).told (B.state bay.new).told }
    ensures counts { (B.state bay.old).faults ≤ (B.state bay.new).faults }
    ensures replays { Replayed B.Part.tells B.Part.state S.left config.now options given.old
        given.new (B.state bay.old) (B.state bay.new) (K.faults out.old) (K.faults out.new)
        (K.taken out.old) (K.taken out.new) result }
    ensures later { K.faults out.old ≤ K.faults out.new }
    ensures source_later { faults_of S.faults given.old ≤ faults_of S.faults given.new }
    ensures source { result ≡ Err (Stop.Fault Fault.TraceSource)
        → Rose (faults_of S.faults given.old) (faults_of S.faults given.new) }
    ensures same_borrow { borrow_of S.borrow given.new ≡ borrow_of S.borrow given.old }
    ensures within { IsWithin given.new }
    ensures complete { MayComplete B.Part.tells S.left config.now given.old given.new
        (B.state bay.old) (B.state bay.new) (K.faults out.old) (K.faults out.new)
        (faults_of S.faults given.old) (faults_of S.faults given.new) → Completes result }
{
    let Ok(mut rack) = open_all(alloc, rt, bay, config) else {
        return Err(Stop::Fault(Fault::Memory));
    };
    let served = replay_in(rt, alloc, config, given, options, &mut rack, out, gate);
    let spindles = close_all(rack, bay, config);
    let counted = served?;
    print_summary(alloc, config, &counted, &spindles, out)
}
