// The rule's worked examples.
use super::same::same;
use offload_policy::{Room, Step, place};

#[test]
fn two_loggers_with_home_awake_and_no_logger_at_all(rt: HostRuntime) {
    let awake = [false, true];
    let roomy = [Room::Yes, Room::Yes];
    same(&rt, &place(false, true, &awake, &roomy), &Step::Log(1));
    same(&rt, &place(true, true, &[], &[]), &Step::Full);
    same(&rt, &place(true, false, &awake, &roomy), &Step::Home);
}
