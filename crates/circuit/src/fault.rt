// Why a step is refused.

ghost use Rattle.std.specs.Prelude.{◌≡◌, Some};
ghost use Rattle.circuit.specs.Faults.{step_number, step_reason};

use std::fmt;

#[derive(Clone, Copy, PartialEq, Eq, Debug)]
pub enum StepFault {
    OutOfRange,
}

impl StepFault {
    // Numbers as others read them; a cast of discriminants is no plainer.
    pub fn number(self) -> u8
        ensures { result ≡ step_number self }
    {
        match self {
            StepFault::OutOfRange => 12,
        }
    }
}

// The reason in words, by hand since a derived text is promised nowhere.
impl fmt::Display for StepFault {
    ghost output = { λ f. Some (step_reason f) };

    fn fmt<W: fmt::Write>(&self, f: &mut fmt::Formatter<W>) -> fmt::Result {
        match self {
            StepFault::OutOfRange => write!(f, "a state, event or answer number is out of range"),
        }
    }
}
