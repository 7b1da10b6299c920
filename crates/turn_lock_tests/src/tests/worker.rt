// A worker that lives for many errands.
use crate::counting::counted;
use std::test::Fail;

#[test]
fn a_worker_serves_one_errand_after_another(rt: HostRuntime) -> Result<(), Fail> {
    assert_eq!(rt; counted(&rt, rt.alloc(), 0)?, 0);
    assert_eq!(rt; counted(&rt, rt.alloc(), 10_000)?, 10_000);
    Ok(())
}
