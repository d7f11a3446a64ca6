use crate::held::{HeldHub, Meeting};
use crate::queue_tests::{are, work_two};
use crate::shared::*;
use session_workers::split_pass;
use std::process::Abort;
use std::test::*;

// Number 1 is a turn that waits for its store, under the locks of its table and of the hub, until number 2 is done.
#[test]
fn a_frame_goes_up_while_a_turn_waits_for_its_store(rt: HostRuntime) -> Result<(), Fail> {
    let alloc = rt.alloc();
    let meeting = Meeting::new();
    let hub = HeldHub::new(memory_hub(alloc, false), &meeting);
    let (shared, mut pass) = open_lns(alloc, None, hub)?;
    assert!(rt; establish(&shared, &mut pass));
    let one = split_pass(&shared, &mut pass);
    let two = split_pass(&shared, &mut pass);
    assert_eq!(rt; put_one(&rt, alloc, &shared, &mut pass, SCCRQ), 0);
    assert_eq!(rt; put_one(&rt, alloc, &shared, &mut pass, IP), 0);
    let (first, second) = work_two(&rt, &shared, one, two, &meeting);
    assert!(rt; meeting.met());
    assert!(rt; are(first, second, (3, 1)));
    Ok(())
}
