// What a region says of states and steps, worked out by hand.

use crate::models::Host;
use circuit::StepFault;
use region::Passed;

#[test]
fn one_latch_judged(rt: HostRuntime) {
    let host = Host::one_latch();
    let region = host.region();
    assert_eq!(rt; region.states(), 2);
    assert_eq!(rt; region.events(), 2);
    assert_eq!(rt; region.answers(), 2);
    assert!(rt; !region.covers(0));
    assert!(rt; region.covers(1));
    assert_eq!(rt; region.step(0, 1, 0), Ok((false, 1)));
    assert_eq!(rt; region.step(1, 1, 0), Ok((true, 1)));
    assert_eq!(rt; region.step(2, 0, 0), Err(StepFault::OutOfRange));
    // Answer 0 sets the latch, from where event 1 forces a bad step.
    assert_eq!(rt; region.passes(0, 1, 0), None);
    assert_eq!(rt; region.passes(0, 1, 1), Some(0));
    assert_eq!(rt; region.passes(0, 1, 2), None);
    assert_eq!(rt;
        region.lowest_passing(0, 1),
        Some(Passed { answer: 1, next: 0 })
    );
    assert_eq!(rt; region.lowest_passing(1, 1), None);
    assert_eq!(rt; region.lowest_passing(2, 0), None);
    assert_eq!(rt; region.lowest_passing(0, 2), None);
}

#[test]
fn free_latch_judged(rt: HostRuntime) {
    let host = Host::free_latch();
    let region = host.region();
    assert!(rt; !region.covers(1));
    assert_eq!(rt; region.passes(0, 0, 1), Some(1));
    assert_eq!(rt;
        region.lowest_passing(1, 1),
        Some(Passed { answer: 0, next: 0 })
    );
}

#[test]
fn nothing_judged(rt: HostRuntime) {
    let host = Host::nothing();
    let region = host.region();
    assert_eq!(rt; region.states(), 1);
    assert_eq!(rt; region.events(), 1);
    assert_eq!(rt; region.answers(), 1);
    assert_eq!(rt;
        region.lowest_passing(0, 0),
        Some(Passed { answer: 0, next: 0 })
    );
}
