// A volume's worker, as a session asks it.
ghost use Rattle.nbd_session.specs.Turns.{look_turn, read_turn, write_turn};
ghost use Rattle.nbd_serving.specs.Turns.{AnswersWrite, IsOfWrite, MakesTurn, read_refusal, write_refusal};
ghost use Rattle.request_turns.specs.Full.{FitsVolume};
ghost use Rattle.std.specs.Prelude.{◌≡◌, ◌≤◌, length};
ghost use Rattle.turn_lock.specs.Passes.{pass_lock, IsFree, IsPassOf, IsPassAt};
ghost use Rattle.wol_model.specs.History.{worker};

use logger::Shared;
use manager::{Manager, ReadRefusal, WriteRefusal};
use nbd_session::{Refusal, Volume};
use reclaimer::Fetch;
use request_turns::{Outcome, Tally, look_turn, read_blocks, write_blocks};
use std::sync::Wait;
use turn_lock::{Pass, TurnLock};
use wol_disk::{Block, Disk};

/// The worker of a volume as a volume that is served: each turn is one of its pass at the volume's lock, where the helper and
/// the keeper may have turns of their own meanwhile. A write that no log has room for drains all records within its turn.
#[derive(Drop)]
pub struct WorkerVolume<'a, R, D: Disk> {
    pub rt: &'a R,
    pub lock: &'a TurnLock<Manager<D>>,
    pub worker: &'a mut Pass<Manager<D>>,
    pub shared: &'a Shared<D>,
    /// Room for drains.
    pub fetch: &'a mut Fetch,
    /// How many blocks the volume has.
    pub home: u64,
    /// The most blocks of one turn.
    pub most: u32,
    pub ghost some: { 1 ≤ most },
    pub ghost few: { most ≤ 128 },
}

// How the refusal of a read is told.
fn read_refusal(refusal: ReadRefusal) -> Refusal
    ensures { result ≡ read_refusal refusal }
{
    match refusal {
        ReadRefusal::DiskFault(_) => Refusal::Broke,
        ReadRefusal::Down(_) => Refusal::Down,
    }
}

// How the refusal of a write is told. None is refused as full.
fn write_refusal(refusal: WriteRefusal) -> Refusal
    ensures { result ≡ write_refusal refusal }
{
    match refusal {
        WriteRefusal::DiskFault(_) => Refusal::Broke,
        WriteRefusal::Down(_) => Refusal::Down,
        WriteRefusal::VersionsSpent => Refusal::VersionsSpent,
        WriteRefusal::NoMemory | WriteRefusal::Full => Refusal::NoMemory,
    }
}

// What a write with this outcome answers.
fn write_answer(outcome: Outcome) -> Result<(), Refusal>
    requires { IsOfWrite outcome }
    ensures { AnswersWrite outcome result }
{
    match outcome {
        Outcome::Wrote { .. } => Ok(()),
        Outcome::NoWrite(refusal) => Err(write_refusal(refusal)),
        Outcome::Read { .. } | Outcome::NoRead(_) | Outcome::NotRun => unreachable!(),
    }
}

// Looks at a volume in one turn of its worker.
fn look_at<R: Wait, D: Disk>(
    rt: &R,
    lock: &TurnLock<Manager<D>>,
    pass: &mut Pass<Manager<D>>,
) -> Result<(), Refusal>
    requires own { IsPassOf lock.now pass.old }
    requires free { IsFree pass.old }
    ensures turned { MakesTurn D.tells (look_turn result) pass.old pass.new }
{
    match look_turn(rt, lock, pass) {
        None => Ok(()),
        Some(_) => Err(Refusal::Down),
    }
}

// Reads blocks of a volume in one turn of its worker.
fn read_at<R: Wait, D: Disk>(
    rt: &R,
    lock: &TurnLock<Manager<D>>,
    pass: &mut Pass<Manager<D>>,
    shared: &Shared<D>,
    at: u64,
    out: &mut [Block],
) -> Result<(), Refusal>
    requires pass { IsPassAt lock.now worker pass.old }
    requires blocks { FitsVolume shared.now at (length out.old) (pass_lock pass.old).base }
    ensures turned { MakesTurn D.tells (read_turn at (length out.old) out.new result)
        pass.old pass.new }
{
    let answer = read_blocks(rt, lock, pass, shared, at, out);
    match answer {
        Ok(_) => Ok(()),
        Err(refusal) => Err(read_refusal(refusal)),
    }
}

// Writes blocks of a volume in one turn of its worker.
fn write_at<R: Wait, D: Disk>(
    rt: &R,
    lock: &TurnLock<Manager<D>>,
    pass: &mut Pass<Manager<D>>,
    shared: &Shared<D>,
    at: u64,
    from: &[Block],
    fetch: &mut Fetch,
) -> Result<(), Refusal>
    requires pass { IsPassAt lock.now worker pass.old }
    requires blocks { FitsVolume shared.now at (length from.now) (pass_lock pass.old).base }
    ensures turned { MakesTurn D.tells (write_turn at from.now result) pass.old
        pass.new }
{
    let outcome = write_blocks(rt, lock, pass, shared, at, from, fetch, &mut Tally::new());
    write_answer(outcome)
}

impl<R: Wait, D: Disk> Volume for WorkerVolume<'_, R, D> {
    ghost use Rattle.nbd_serving.specs.Workers.{CanServe};
    ghost use Rattle.nbd_serving.specs.Turns.{MakesTurn};
    ghost use Rattle.std.specs.Prelude.{◌≡◌};

    ghost Turned = { λ turn v w. MakesTurn D.tells turn v.worker.now w.worker.now
        × (w.worker.ghost_name ≡ v.worker.ghost_name) };

    ghost Ready = { λ v. CanServe v.lock.now v.worker.now v.shared.now v.home v.most };

    ghost home = { λ v. v.home };

    ghost most = { λ v. v.most };

    fn home(&self) -> u64 {
        self.home
    }

    fn most(&self) -> u32 {
        self.most
    }

    fn look(&mut self) -> Result<(), Refusal> {
        look_at(self.rt, self.lock, self.worker)
    }

    fn read(&mut self, at: u64, out: &mut [Block]) -> Result<(), Refusal> {
        read_at(self.rt, self.lock, self.worker, self.shared, at, out)
    }

    fn write(&mut self, at: u64, from: &[Block]) -> Result<(), Refusal> {
        write_at(
            self.rt,
            self.lock,
            self.worker,
            self.shared,
            at,
            from,
            self.fetch,
        )
    }
}
