// A write to the log of another volume while the disk of its own is asleep.
use super::making::{apart, resting_rig, sums};
use manager::{Place, Sources};
use std::test::Fail;

#[test]
fn a_write_goes_to_the_log_of_an_awake_logger_and_home_stays_asleep(
    rt: HostRuntime,
) -> Result<(), Fail> {
    let mut rig = resting_rig(&rt, rt.alloc());
    let wrote = rig.write(&rt, 0, &[[7; 512], [8; 512]]);
    let mut out = [[0; 512]; 2];
    let read = rig.read(&rt, 0, &mut out);
    let remains = apart(&rt, rt.alloc(), rig);
    assert!(rt; wrote == Ok(Place::Log { logger: 1 }));
    assert!(rt; read == Ok(Sources { home: 0, logged: 2 }));
    assert!(rt; out == [[7; 512], [8; 512]]);
    assert!(rt; remains.home == sums(0, 1, 100_000_000));
    assert!(rt; remains.logger == sums(0, 0, 0));
    assert!(rt; remains.free.len() == 0);
    Ok(())
}
