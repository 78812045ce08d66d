// An exception: pairs of state and event that need no more looking at.

ghost use Rattle.std.specs.Prelude.{◌≡◌};
ghost use Rattle.game.specs.Bits.{ExceptionBits};
ghost use Rattle.game.specs.Rows.{blank_exception, exception_covers};

use crate::mask::agrees_on;
use roll::Covering;

// A state and an event raised in it.
#[derive(Clone, Copy, PartialEq, Eq, Debug)]
pub struct Pair {
    pub state: u32,
    pub event: u32,
}

// It covers the pairs whose state and event agree with the values on the cares; no value has a bit outside its care.
#[derive(Clone, Copy, PartialEq, Eq, Debug)]
pub struct Exception {
    pub state_care: u32,
    pub state_value: u32,
    pub event_care: u32,
    pub event_value: u32,
}

impl Exception {
    // A constant and no Default: an array literal repeats a constant.
    pub const BLANK: Exception = Exception {
        state_care: 0,
        state_value: 0,
        event_care: 0,
        event_value: 0,
    };

    // An exception of zeros. A constant has no contract, so this call says what it is.
    pub fn blank() -> Exception
        ensures { result ≡ blank_exception }
    {
        Exception::BLANK
    }
}

impl Covering for Exception {
    type Point = Pair;

    ghost covering = { λ x p. exception_covers x p.state p.event };

    fn covers(&self, point: &Pair) -> bool
        ensures value { result ≡ exception_covers self.now point.now.state point.now.event }
        ensures bits { ExceptionBits self.now point.now.state point.now.event result }
    {
        agrees_on(self.state_care, self.state_value, point.state)
            && agrees_on(self.event_care, self.event_value, point.event)
    }
}
