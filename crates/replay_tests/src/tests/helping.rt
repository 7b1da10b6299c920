// A helper that reclaims beside the requests of a window.
use super::gates::Awaiting;
use super::several::{between, stands_in};
use super::volumes::{laid_out, run};
use fixtures::THREE;
use replay::Options;
use request_workers::Reclaim;
use std::sync::Arc;
use std::test::Fail;
use wol_disk::Fuse;

// The write is logged, since the disk of its volume sleeps. The read of another block wakes that disk, and in the next window a
// helper puts the record home beside the last request, which is held back until it does.
const WAKES: &[u8] = b"128166372000000000,web,0,Read,0,512,100
128166372700000000,web,0,Read,0,512,100
128166372710000000,usr,0,Write,0,512,100
128166372720000000,usr,0,Read,1024,512,100
128166372730000000,usr,0,Read,1024,512,100
";

#[test]
fn a_helper_works_beside_the_requests(rt: HostRuntime) -> Result<(), Fail> {
    let alloc = rt.alloc();
    let (config, mut bay) = laid_out(&rt, alloc, THREE)?;
    let fuse = Arc::new(alloc, Fuse::new(u64::MAX))?;
    bay.set_fuse(Some(Arc::try_clone(&fuse)?));
    let gate = Awaiting::new(&fuse);
    let beside = Options {
        reclaim: Reclaim::Beside,
        ..between(3)
    };
    let (status, out) = run(&rt, alloc, &config, &mut bay, WAKES, beside, &gate)?;
    assert_eq!(rt; status, 0);
    assert!(rt; !gate.is_late());
    assert!(rt;
        stands_in(
            out.bytes(),
            b"placed home 0 log 1 drains 0\nreclaimed blocks 1 records 1\n"
        )
    );
    Ok(())
}
