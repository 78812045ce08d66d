// Why a run is refused.

ghost use Rattle.std.specs.Prelude.{◌≡◌, Some};
ghost use Rattle.synthesis.specs.Faults.{refusal_of, run_reason};
ghost use Rattle.synthesis.specs.declared.fault.RunFault.TheVariants.{Solver};

use sat::SolverFault;
use std::fmt;

// A case that comes after rows were made has their count.
#[derive(Clone, Copy, PartialEq, Eq, Debug)]
pub enum RunFault {
    TooManyPlaces,
    CandidateSmall,
    AnswerSmall,
    RowsFull(usize),
    ExceptionsFull(usize),
    WorkShort,
    // A solver's own refusal: the sizes rule it out.
    Solver(SolverFault),
}

impl RunFault {
    // Numbers as others read them; a cast of discriminants is no plainer.
    pub fn number(self) -> u8
        ensures { result ≡ (refusal_of self).number }
    {
        match self {
            RunFault::TooManyPlaces => 30,
            RunFault::CandidateSmall => 31,
            RunFault::AnswerSmall => 32,
            RunFault::RowsFull(_) => 33,
            RunFault::ExceptionsFull(_) => 34,
            RunFault::WorkShort => 35,
            RunFault::Solver(fault) => fault.number(),
        }
    }

    // How many rows there are.
    pub fn place(self) -> usize
        ensures { result ≡ (refusal_of self).place }
    {
        match self {
            RunFault::RowsFull(rows) | RunFault::ExceptionsFull(rows) => rows,
            RunFault::TooManyPlaces
            | RunFault::CandidateSmall
            | RunFault::AnswerSmall
            | RunFault::WorkShort
            | RunFault::Solver(_) => 0,
        }
    }

    fn reason(self) -> &'static str
        ensures { result.now ≡ run_reason self }
    {
        match self {
            RunFault::TooManyPlaces => "more than 1,024 places for rows or 4,096 for exceptions",
            RunFault::CandidateSmall => "the candidate solver has too few variables or cells",
            RunFault::AnswerSmall => "the answer solver has too few variables or cells",
            RunFault::RowsFull(_) => "a row is due and every place is used",
            RunFault::ExceptionsFull(_) => "an exception is due and every place is used",
            RunFault::WorkShort => "the work buffer is too short",
            RunFault::Solver(_) => "a solver refused",
        }
    }
}

// By hand, since a derived conversion does not promise what it gives.
impl From<SolverFault> for RunFault {
    ghost from_gives = { λ f r. r ≡ Solver f };

    fn from(fault: SolverFault) -> RunFault {
        RunFault::Solver(fault)
    }
}

// By hand, since a derived text is promised nowhere.
impl fmt::Display for RunFault {
    ghost output = { λ f. Some (run_reason f) };

    fn fmt<W: fmt::Write>(&self, f: &mut fmt::Formatter<W>) -> fmt::Result {
        f.write_str(self.reason())
    }
}
