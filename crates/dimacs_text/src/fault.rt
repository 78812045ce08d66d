// Why a DIMACS text is refused.

ghost use Rattle.std.specs.Prelude.{◌≡◌, Some};
ghost use Rattle.dimacs_text.specs.declared.fault.DimacsFault.TheVariants.{MemoryShort, Refused};
ghost use Rattle.dimacs_text.specs.Faults.{fault_number, fault_reason};

use sat::SolverFault;
use std::alloc::{AllocError, AllocFailed};
use std::fmt;

#[derive(Clone, Copy, PartialEq, Eq, Debug)]
pub enum DimacsFault {
    HeaderMissing,
    HeaderMalformed,
    EntryMalformed,
    ClauseUnfinished,
    CountWrong,
    MemoryShort,
    Refused(SolverFault),
}

impl DimacsFault {
    // Numbers as others read them; a cast of discriminants is no plainer.
    pub fn number(self) -> u8
        ensures { result ≡ fault_number self }
    {
        match self {
            DimacsFault::HeaderMissing => 50,
            DimacsFault::HeaderMalformed => 51,
            DimacsFault::EntryMalformed => 52,
            DimacsFault::ClauseUnfinished => 53,
            DimacsFault::CountWrong => 54,
            DimacsFault::MemoryShort => 55,
            DimacsFault::Refused(fault) => fault.number(),
        }
    }
}

// These conversions are written out, since a contract reads which refusal they give, and a derived one does not say it.
impl From<AllocError> for DimacsFault {
    ghost from_gives = { λ _ r. r ≡ MemoryShort };

    fn from(_error: AllocError) -> DimacsFault {
        DimacsFault::MemoryShort
    }
}

impl<T: Drop> From<AllocFailed<T>> for DimacsFault {
    ghost from_gives = { λ _ r. r ≡ MemoryShort };

    fn from(_error: AllocFailed<T>) -> DimacsFault {
        DimacsFault::MemoryShort
    }
}

impl From<SolverFault> for DimacsFault {
    ghost from_gives = { λ e r. r ≡ Refused e };

    fn from(fault: SolverFault) -> DimacsFault {
        DimacsFault::Refused(fault)
    }
}

// Written out, since a derived `Display` does not say which text it writes.
impl fmt::Display for DimacsFault {
    ghost output = { λ e. Some (fault_reason e) };

    fn fmt<W: fmt::Write>(&self, f: &mut fmt::Formatter<W>) -> fmt::Result {
        match *self {
            DimacsFault::HeaderMissing => f.write_str("there is no line `p cnf VARIABLES CLAUSES`"),
            DimacsFault::HeaderMalformed => f.write_str(
                "the first line that is no comment is not `p cnf VARIABLES CLAUSES`, or a number in it is over 65,535",
            ),
            DimacsFault::EntryMalformed => f.write_str(
                "a word among the clauses is not a literal: a number up to 32,767, with `-` before it for a negation",
            ),
            DimacsFault::ClauseUnfinished => f.write_str("the last clause does not end in 0"),
            DimacsFault::CountWrong => f.write_str(
                "the clauses are not as many as the header says",
            ),
            DimacsFault::MemoryShort => f.write_str("there is too little memory"),
            DimacsFault::Refused(fault) => fault.fmt(f),
        }
    }
}
