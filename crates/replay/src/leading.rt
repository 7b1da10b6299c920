// A trace is served in a session, with workers that live as long.
ghost use Rattle.replay.specs.Counts.{no_totals};
ghost use Rattle.replay.specs.Givens.{IsNew};
ghost use Rattle.replay.specs.Leads.{HasLed};
ghost use Rattle.replay.specs.Sessions.{AreOptions, IsSession};
ghost use Rattle.request_workers.specs.Crews.{AreWaiting, IsCrew, IsOverCrew};
ghost use Rattle.std.specs.Prelude.{◌≡◌, false, length};
ghost use Rattle.wol_config.specs.Configs.{IsValid};

use crate::counting::Counted;
use crate::given::Given;
use crate::session::{Options, Session};
use crate::stop::Stop;
use errands::Worker;
use logger::Shared;
use request_workers::{Crew, Job, Pool, Workers, run_size, threads_for, work_all};
use std::alloc::Global;
use std::sync::Wait;
use std::thread::{Threads, join_mut};
use wol_config::Config;
use wol_disk::Disk;
use wol_io::{Gate, Sink, Source};

// Serves a trace with this crew, and tells its workers that nothing more comes.
fn lead<'e, 'l, D: Disk, R: Wait, S: Source, K: Sink, G: Gate>(
    rt: &R,
    alloc: Global,
    config: &Config,
    options: Options,
    shared: &'l Shared<D>,
    given: &mut Given<S>,
    out: &mut K,
    crew: &mut Crew<'e, 'l, D, G>,
    session: &mut Session<'l, D>,
) -> Result<Counted, Stop>
    requires valid { IsValid config.now }
    requires new { IsNew given.old }
    requires session { IsSession config.now shared.now session.old }
    requires started { session.old.started ≡ false }
    requires totals { session.old.totals ≡ no_totals }
    requires crew { IsCrew crew.old }
    ensures led { HasLed D.tells S.left S.faults S.borrow config.now shared.now options
        given.old given.new session.old session.new result
        (K.faults out.old) (K.faults out.new) (K.taken out.old) (K.taken out.new) }
    ensures over { IsOverCrew crew.new }
{
    crew.gather();
    let served = session.serve_all(rt, alloc, config, given, options, shared, out, crew);
    crew.end();
    served
}

// Serves a trace with this crew, beside its workers.
fn lead_beside<
    'a,
    'e,
    'l,
    D: Disk + Send,
    R: Threads + Wait + Sync,
    S: Source,
    K: Sink,
    G: Gate + Sync,
>(
    rt: &'a R,
    alloc: Global,
    config: &'a Config,
    options: Options,
    shared: &'l Shared<D>,
    workers: &'a mut [Worker<Job<'l, D>>],
    given: &'a mut Given<S>,
    out: &'a mut K,
    crew: &'a mut Crew<'e, 'l, D, G>,
    session: &'a mut Session<'l, D>,
) -> Result<Counted, Stop>
    requires valid { IsValid config.now }
    requires new { IsNew given.old }
    requires session { IsSession config.now shared.now session.old }
    requires started { session.old.started ≡ false }
    requires totals { session.old.totals ≡ no_totals }
    requires crew { IsCrew crew.old }
    requires count { length workers.old ≡ length crew.old.errands.now }
    requires waiting { AreWaiting crew.old.errands.now workers.old }
    ensures { HasLed D.tells S.left S.faults S.borrow config.now shared.now options
        given.old given.new session.old session.new result
        (K.faults out.old) (K.faults out.new) (K.taken out.old) (K.taken out.new) }
{
    let errands = crew.errands();
    let gate = crew.gate();
    let (_, served) = join_mut(
        rt,
        &mut ||
            requires { (length workers.now ≡ length errands.now)
                × AreWaiting errands.now workers.now }
        { work_all(rt, errands, gate, workers) },
        &mut || -> Result<Counted, Stop>
            requires { IsValid config.now × IsNew given.now
                × IsSession config.now shared.now session.now
                × (session.now.started ≡ false) × (session.now.totals ≡ no_totals)
                × IsCrew crew.now }
            ensures { HasLed D.tells S.left S.faults S.borrow config.entry.now shared.entry.now
                options
                given.entry.now given.exit.now session.entry.now session.exit.now result
                (K.faults out.entry.now) (K.faults out.exit.now) (K.taken out.entry.now)
                (K.taken out.exit.now) }
        {
            lead(
                rt, alloc, config, options, shared, given, out, crew, session,
            )
        },
    );
    served
}

/// Serves a trace in a session, with so many workers as the options say. They start once, and end with it.
pub(crate) fn serve_with_workers<
    'l,
    D: Disk + Send,
    R: Threads + Wait + Sync,
    S: Source,
    K: Sink,
    G: Gate + Sync,
>(
    rt: &R,
    alloc: Global,
    config: &Config,
    options: Options,
    shared: &'l Shared<D>,
    gate: &G,
    given: &mut Given<S>,
    out: &mut K,
    session: &mut Session<'l, D>,
) -> Result<Counted, Stop>
    requires valid { IsValid config.now }
    requires options { AreOptions options }
    requires new { IsNew given.old }
    requires session { IsSession config.now shared.now session.old }
    requires started { session.old.started ≡ false }
    requires totals { session.old.totals ≡ no_totals }
    ensures { HasLed D.tells S.left S.faults S.borrow config.now shared.now options
        given.old given.new session.old session.new result
        (K.faults out.old) (K.faults out.new) (K.taken out.old) (K.taken out.new) }
{
    let counts = Workers {
        count: options.workers,
        sharing: options.sharing,
    };
    let size = run_size(counts, session.floor.locks.len());
    let Pool {
        errands,
        seats,
        mut workers,
    } = Pool::new(alloc, threads_for(options.workers, options.reclaim), size);
    let mut crew = Crew::new(errands.as_slice(), seats, counts, gate);
    let workers = workers.as_mut_slice();
    // Without a worker no thread is started: a program of one thread makes its calls of the system faster.
    if workers.is_empty() {
        return lead(
            rt, alloc, config, options, shared, given, out, &mut crew, session,
        );
    }
    lead_beside(
        rt, alloc, config, options, shared, workers, given, out, &mut crew, session,
    )
}
