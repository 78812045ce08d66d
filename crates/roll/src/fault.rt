// Why a roll refuses.

ghost use Rattle.std.specs.Prelude.{◌≡◌, Some};
ghost use Rattle.roll.specs.Faults.{roll_number, roll_reason};

use std::fmt;

#[derive(Clone, Copy, PartialEq, Eq, Debug)]
pub enum RollFault {
    // Every place is used.
    Full,
    // The place asked for is not used.
    NotUsed,
}

impl RollFault {
    // Numbers as others read them; a cast of discriminants is no plainer.
    pub fn number(self) -> u8
        ensures { result ≡ roll_number self }
    {
        match self {
            RollFault::Full => 27,
            RollFault::NotUsed => 28,
        }
    }
}

// By hand, since a derived text is promised nowhere.
impl fmt::Display for RollFault {
    ghost output = { λ f. Some (roll_reason f) };

    fn fmt<W: fmt::Write>(&self, f: &mut fmt::Formatter<W>) -> fmt::Result {
        match self {
            RollFault::Full => f.write_str("every place of the roll is used"),
            RollFault::NotUsed => f.write_str("the place of the roll is not used"),
        }
    }
}
