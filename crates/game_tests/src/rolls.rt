// Rolls at both edges, for numbers, rows and exceptions.

use game::{Exception, Row};
use roll::{Roll, RollFault};
use std::fmt::Debug;
use std::process::Abort;
use std::test::Fail;

#[test]
fn no_places(rt: HostRuntime) {
    let mut places: [u32; 0] = [];
    let mut roll = Roll::new(&mut places);
    assert_eq!(rt; roll.places(), 0);
    assert_eq!(rt; roll.append(5), Err(RollFault::Full));
    assert_eq!(rt; roll.at(0), Err(RollFault::NotUsed));
    assert_eq!(rt; roll.count(), 0);
}

#[test]
fn numbers_fill_up(rt: HostRuntime) {
    let mut places = [9u32, 9];
    let mut roll = Roll::new(&mut places);
    assert_eq!(rt; roll.count(), 0);
    assert_eq!(rt; roll.at(0), Err(RollFault::NotUsed));
    assert_eq!(rt; roll.append(5), Ok(()));
    assert_eq!(rt; roll.at(0), Ok(5));
    assert_eq!(rt; roll.at(1), Err(RollFault::NotUsed));
    assert_eq!(rt; roll.append(6), Ok(()));
    assert_eq!(rt; roll.append(7), Err(RollFault::Full));
    assert_eq!(rt; roll.at(1), Ok(6));
    assert_eq!(rt; roll.count(), 2);
    assert!(rt; roll.items() == [5, 6].as_slice());
}

#[test]
fn clear_blanks_every_place(rt: HostRuntime) {
    let mut places = [9u32, 9, 9];
    let mut roll = Roll::new(&mut places);
    assert_eq!(rt; roll.append(5), Ok(()));
    roll.clear(0);
    assert_eq!(rt; roll.count(), 0);
    assert_eq!(rt; roll.places(), 3);
    assert_eq!(rt; roll.at(0), Err(RollFault::NotUsed));
    assert!(rt; places == [0, 0, 0]);
}

// Fills the one place of a roll, finds it full, and clears it.
fn fills_up<T: Copy + PartialEq + Debug>(rt: &impl Abort, places: &mut [T], first: T, blank: T) {
    let mut roll = Roll::new(places);
    assert_eq!(rt; roll.append(first), Ok(()));
    assert_eq!(rt; roll.append(blank), Err(RollFault::Full));
    assert_eq!(rt; roll.at(0), Ok(first));
    assert_eq!(rt; roll.at(1), Err(RollFault::NotUsed));
    roll.clear(blank);
    assert_eq!(rt; roll.count(), 0);
}

#[test]
fn rows_fill_up(rt: HostRuntime) {
    let first = Row {
        care: 3,
        value: 2,
        event: 1,
    };
    fills_up(&rt, &mut [Row::BLANK], first, Row::BLANK);
}

#[test]
fn exceptions_fill_up(rt: HostRuntime) {
    let first = Exception {
        state_care: 1,
        state_value: 0,
        event_care: 2,
        event_value: 2,
    };
    fills_up(&rt, &mut [Exception::BLANK], first, Exception::BLANK);
}

#[test]
fn blank_elements_are_zeros(rt: HostRuntime) {
    assert_eq!(rt;
        Row::BLANK,
        Row {
            care: 0,
            value: 0,
            event: 0,
        }
    );
    assert_eq!(rt;
        Exception::BLANK,
        Exception {
            state_care: 0,
            state_value: 0,
            event_care: 0,
            event_value: 0,
        }
    );
}

#[test]
fn faults_have_numbers_and_words(rt: HostRuntime) -> Result<(), Fail> {
    assert_eq!(rt; RollFault::Full.number(), 27);
    assert_eq!(rt; RollFault::NotUsed.number(), 28);
    let full = RollFault::Full.to_string(rt.alloc())?;
    assert!(rt; full.as_str() == "every place of the roll is used");
    let not_used = RollFault::NotUsed.to_string(rt.alloc())?;
    assert!(rt; not_used.as_str() == "the place of the roll is not used");
    Ok(())
}
