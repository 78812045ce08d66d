// Why a solver refuses a call.

ghost use Rattle.std.specs.Prelude.{◌≡◌, Some};
ghost use Rattle.sat.specs.Faults.{fault_number};
ghost use Rattle.sat.specs.Texts.{fault_reason};

use std::fmt;

#[derive(Clone, Copy, PartialEq, Eq, Debug)]
pub enum SolverFault {
    VariableOutOfRange,
    TooManyLiterals,
    CellsFull,
    CountExceeded,
    BufferShort,
    SizeUnfit,
    FirstExceeded,
}

impl SolverFault {
    // Numbers as others read them; a cast of discriminants is no plainer.
    pub fn number(self) -> u8
        ensures { result ≡ fault_number self }
    {
        match self {
            SolverFault::VariableOutOfRange => 20,
            SolverFault::TooManyLiterals => 21,
            SolverFault::CellsFull => 22,
            SolverFault::CountExceeded => 23,
            SolverFault::BufferShort => 24,
            SolverFault::SizeUnfit => 25,
            SolverFault::FirstExceeded => 26,
        }
    }
}

// By hand, since a derived text is promised nowhere.
impl fmt::Display for SolverFault {
    ghost output = { λ e. Some (fault_reason e) };

    fn fmt<W: fmt::Write>(&self, f: &mut fmt::Formatter<W>) -> fmt::Result {
        match self {
            SolverFault::VariableOutOfRange => f.write_str(
                "a literal's variable is 0 or too large",
            ),
            SolverFault::TooManyLiterals => f.write_str("more than 64 literals"),
            SolverFault::CellsFull => f.write_str("too few cells are left free"),
            SolverFault::CountExceeded => f.write_str("fewer clauses are held than are to be kept"),
            SolverFault::BufferShort => f.write_str(
                "the buffer for values or for marks is too short",
            ),
            SolverFault::SizeUnfit => f.write_str("too few numbers, or too many variables"),
            SolverFault::FirstExceeded => f.write_str(
                "fewer assumptions than are always to be marked",
            ),
        }
    }
}
