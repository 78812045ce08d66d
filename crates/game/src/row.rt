// A row: states from which the host cannot keep its rules, and the event that shows it.

ghost use Rattle.std.specs.Prelude.{◌≡◌};
ghost use Rattle.game.specs.Bits.{RowBits};
ghost use Rattle.game.specs.Rows.{blank_row, row_covers};

use crate::mask::agrees_on;
use roll::Covering;

// It covers the states that agree with `value` on the latches of `care`; `value` has no bit outside `care`.
#[derive(Clone, Copy, PartialEq, Eq, Debug)]
pub struct Row {
    pub care: u32,
    pub value: u32,
    pub event: u32,
}

impl Row {
    // A constant and no Default: an array literal repeats a constant.
    pub const BLANK: Row = Row {
        care: 0,
        value: 0,
        event: 0,
    };

    // A row of zeros. A constant has no contract, so this call says what it is.
    pub fn blank() -> Row
        ensures { result ≡ blank_row }
    {
        Row::BLANK
    }
}

impl Covering for Row {
    type Point = u32;

    ghost covering = { λ r s. row_covers r s };

    #[tactic(auto, using(crate::proofs::Bits::row_bits))]
    fn covers(&self, point: &u32) -> bool
        ensures value { result ≡ row_covers self.now point.now }
        ensures bits { RowBits self.now point.now result }
    {
        agrees_on(self.care, self.value, *point)
    }
}
