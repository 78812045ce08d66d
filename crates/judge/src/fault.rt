// Why a file gets no verdict: the refusal of the lowest layer that refuses, as it is.

ghost use Rattle.std.specs.Prelude.{◌≡◌, Some};
ghost use Rattle.judge.specs.Faults.{refusal_in, reason_of, refusal_text};
ghost use Rattle.judge.specs.declared.fault.JudgeFault.TheVariants.{Read, Solver, Run, Memory};

use aiger::ReadFault;
use sat::SolverFault;
use std::alloc::AllocError;
use std::fmt;
use synthesis::RunFault;

#[derive(Clone, Copy, PartialEq, Eq, Debug)]
pub enum JudgeFault {
    Read(ReadFault),
    Solver(SolverFault),
    Run(RunFault),
    // There is too little memory, which says nothing of the file and has no number.
    Memory,
}

// A refusal's number, and its place: the file's line, the run's row count, and otherwise 0.
#[derive(Clone, Copy, PartialEq, Eq, Debug)]
pub struct Refusal {
    pub number: u8,
    pub place: usize,
}

impl JudgeFault {
    // The refusal, of which want of memory is none.
    pub fn refusal(self) -> Option<Refusal>
        ensures { result ≡ refusal_in self }
    {
        let (number, place) = match self {
            JudgeFault::Read(fault) => (fault.number(), fault.line() as usize),
            JudgeFault::Solver(fault) => (fault.number(), 0),
            JudgeFault::Run(fault) => (fault.number(), fault.place()),
            JudgeFault::Memory => return None,
        };
        Some(Refusal { number, place })
    }
}

// The conversions of `?` are written by hand, since a derive promises nothing of the fault that they make.
impl From<ReadFault> for JudgeFault {
    ghost from_gives = { λ f r. r ≡ Read f };

    fn from(fault: ReadFault) -> JudgeFault {
        JudgeFault::Read(fault)
    }
}

impl From<SolverFault> for JudgeFault {
    ghost from_gives = { λ f r. r ≡ Solver f };

    fn from(fault: SolverFault) -> JudgeFault {
        JudgeFault::Solver(fault)
    }
}

impl From<RunFault> for JudgeFault {
    ghost from_gives = { λ f r. r ≡ Run f };

    fn from(fault: RunFault) -> JudgeFault {
        JudgeFault::Run(fault)
    }
}

impl From<AllocError> for JudgeFault {
    ghost from_gives = { λ _ r. r ≡ Memory };

    fn from(_error: AllocError) -> JudgeFault {
        JudgeFault::Memory
    }
}

// The reason in words, by hand since a derive promises nothing of them.
impl fmt::Display for JudgeFault {
    ghost output = { λ f. Some (reason_of f) };

    fn fmt<W: fmt::Write>(&self, f: &mut fmt::Formatter<W>) -> fmt::Result {
        match self {
            JudgeFault::Read(fault) => write!(f, "{fault}"),
            JudgeFault::Solver(fault) => write!(f, "{fault}"),
            JudgeFault::Run(fault) => write!(f, "{fault}"),
            JudgeFault::Memory => f.write_str("there is too little memory"),
        }
    }
}

// By hand, since a derived text is promised nowhere.
impl fmt::Display for Refusal {
    ghost output = { λ r. Some (refusal_text r) };

    fn fmt<W: fmt::Write>(&self, f: &mut fmt::Formatter<W>) -> fmt::Result {
        let Refusal { number, place } = self;
        write!(f, "refused {number} at {place}")
    }
}
