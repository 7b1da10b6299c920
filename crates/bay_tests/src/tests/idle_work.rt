// The smallest command over all volumes: it opens them, does nothing with them, and closes them.
ghost use Rattle.rack.specs.NotOpened.{LeavesBay};
ghost use Rattle.rack.specs.Sessions.{OpensAndCloses};
ghost use Rattle.rack.specs.Opens.{KeepsOthers};
ghost use Rattle.std.specs.Prelude.{◌≡◌, [], Some, IfOk};
ghost use Rattle.volume_images.specs.Left.{IsTold};
ghost use Rattle.volume_images.specs.Volumes.{NoneOut};
ghost use Rattle.wol_bay.specs.Bay.{outs};
ghost use Rattle.wol_bay.specs.MemBay.{mem_bay_state};
ghost use Rattle.wol_config.specs.Configs.{IsValid};

use super::inspected::{FIVE, tries};
use fixtures::{Change, OWNED, SRC0, THREE, USR0, WEB0, put};
use inspection::Asked;
use rack::{Closed, Rack, Work, with_open};
use std::alloc::Global;
use std::process::Abort;
use std::sync::Wait;
use std::test::Fail;
use std::thread::Threads;
use wol_bay::{Bay, MemBay};
use wol_config::{Config, read_config};
use wol_disk::{Disk, NoMemory};

// Does nothing.
#[derive(Drop)]
struct Idle;

impl<R: Wait, D: Disk> Work<R, D, (), ()> for Idle {
    ghost use Rattle.std.specs.Prelude.{◌≡◌};

    type Answer = ();

    ghost Ready = { λ work config given out. Unit {0} };

    ghost Did = { λ work config before after given rest out now answer. after ≡ before };

    fn run(
        self,
        _rt: &R,
        _alloc: Global,
        _config: &Config,
        _rack: &mut Rack<D>,
        _given: &mut (),
        _out: &mut (),
    ) {}
}

// Opens all volumes, and closes them.
fn open_and_close<R: Wait, B: Bay>(
    rt: &R,
    alloc: Global,
    config: &Config,
    bay: &mut B,
) -> Result<Closed<()>, NoMemory>
    requires config { IsValid config.now }
    requires home { NoneOut config.now (B.state bay.old) }
    // none is out
    ensures none_out { NoneOut config.now (B.state bay.new) }
    ensures home { outs (B.state bay.new) ≡ outs (B.state bay.old) }
    // each image recovers to what it did
    ensures leaves { LeavesBay B.Part.tells B.Part.state config.now
        (B.state bay.old) (B.state bay.new) }
    ensures others { IsTold (KeepsOthers config.now) (B.state bay.old).told (B.state bay.new).told }
    // a rack was opened and closed as it was, with a spindle for each volume
    ensures did { IfOk result (λ c. OpensAndCloses B.Part.tells B.Part.state config.now
        (λ before after. after ≡ before) (B.state bay.old) (B.state bay.new) c.spindles.items) }
{
    with_open(rt, alloc, config, bay, Idle, &mut (), &mut ())
}

// The first volume has a record in a log of the second.
const WRITTEN: &[Change<'_>] = &[OWNED, ("web0", 1003, FIVE), ("web0", 1004, b"logged")];

const CHECKED: &[u8] =
    b"usr0 ok sha256 5ef40227a73804d49bd8760062b641442dbc95423fc85b10c73fcbdfdfb367b3 records 1 segments 1
web0 ok sha256 2d4da04b861bb9dbe77c871415931785a18138d6db035f1bbcd0cf8277c6fc23 records 0 segments 0
src0 ok sha256 2d4da04b861bb9dbe77c871415931785a18138d6db035f1bbcd0cf8277c6fc23 records 0 segments 0
";

const DUMPED: &[u8] = b"usr0 records 1
record 5 0 1 on web0 segment 0 block 1 live 00000000000000000000000000000001 home 00000000000000000000000000000000
web0 records 0
src0 records 0
";

// Each volume has what was written to it.
fn keeps_all<R: Abort + Threads + Wait + Sync>(
    rt: &R,
    alloc: Global,
    bay: &mut MemBay,
) -> Result<(), Fail>
    requires { outs (mem_bay_state bay.old) ≡ Some [] }
    ensures { outs (mem_bay_state bay.new) ≡ Some [] }
{
    tries(rt, alloc, Asked::Check, THREE, bay, 0, CHECKED)?;
    tries(rt, alloc, Asked::Dump, THREE, bay, 0, DUMPED)
}

#[test]
fn volumes_that_were_opened_and_closed_are_as_they_were(rt: HostRuntime) -> Result<(), Fail> {
    let alloc = rt.alloc();
    let config = read_config(alloc, THREE.as_bytes())?;
    let mut bay = MemBay::new(alloc);
    put(alloc, &mut bay, &USR0, WRITTEN)?;
    put(alloc, &mut bay, &WEB0, WRITTEN)?;
    put(alloc, &mut bay, &SRC0, WRITTEN)?;
    keeps_all(&rt, alloc, &mut bay)?;
    let closed = open_and_close(&rt, alloc, &config, &mut bay)?;
    assert_eq!(rt; closed.spindles.len(), 3);
    keeps_all(&rt, alloc, &mut bay)
}
