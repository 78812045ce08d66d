// What rows and exceptions cover, and the first that does.

use game::{Exception, Pair, Row, forcing_event, is_covered, is_excepted};
use roll::{Covering, first_covering};

// The one row of the host with one latch, whose plug-in forces a bad step where the latch is set.
const SET: Row = Row {
    care: 1,
    value: 1,
    event: 1,
};
// Every state whose bit 1 is clear and bit 2 is set.
const MIDDLE: Row = Row {
    care: 6,
    value: 4,
    event: 3,
};
// Every state.
const ALL: Row = Row {
    care: 0,
    value: 0,
    event: 2,
};

#[test]
fn a_row_covers_what_agrees_on_its_care(rt: HostRuntime) {
    assert!(rt; SET.covers(&1));
    assert!(rt; !SET.covers(&0));
    assert!(rt; MIDDLE.covers(&4));
    assert!(rt; MIDDLE.covers(&5));
    assert!(rt; MIDDLE.covers(&12));
    assert!(rt; !MIDDLE.covers(&6));
    assert!(rt; !MIDDLE.covers(&0));
    assert!(rt; ALL.covers(&0));
    assert!(rt; ALL.covers(&u32::MAX));
}

#[test]
fn an_exception_covers_where_both_agree(rt: HostRuntime) {
    let exception = Exception {
        state_care: 1,
        state_value: 1,
        event_care: 2,
        event_value: 0,
    };
    assert!(rt; exception.covers(&Pair { state: 3, event: 1 }));
    assert!(rt; !exception.covers(&Pair { state: 2, event: 1 }));
    assert!(rt; !exception.covers(&Pair { state: 3, event: 2 }));
}

#[test]
fn the_first_of_several_covers(rt: HostRuntime) {
    let rows = [SET, MIDDLE, ALL];
    assert_eq!(rt; first_covering(&rows, &5), Some(0));
    assert_eq!(rt; first_covering(&rows, &4), Some(1));
    assert_eq!(rt; first_covering(&rows, &0), Some(2));
    assert_eq!(rt; first_covering(&[SET, MIDDLE], &2), None);
    assert_eq!(rt; forcing_event(&rows, 5), Some(1));
    assert_eq!(rt; forcing_event(&rows, 4), Some(3));
    assert_eq!(rt; forcing_event(&[SET, MIDDLE], 2), None);
}

#[test]
fn lists_cover_what_some_element_covers(rt: HostRuntime) {
    assert!(rt; is_covered(&[SET, MIDDLE], 4));
    assert!(rt; !is_covered(&[SET, MIDDLE], 2));
    assert!(rt; !is_covered(&[], 1));
    let exceptions = [Exception {
        state_care: 1,
        state_value: 0,
        event_care: 1,
        event_value: 1,
    }];
    assert!(rt; is_excepted(&exceptions, Pair { state: 0, event: 1 }));
    assert!(rt; !is_excepted(&exceptions, Pair { state: 0, event: 0 }));
    assert!(rt; !is_excepted(&[], Pair { state: 0, event: 1 }));
}
