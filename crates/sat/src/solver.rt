// What a solver is, and what a narrowing solver does besides.

ghost use Rattle.std.specs.Prelude.{◌≡◌, length, is_ok, if◌then◌else◌};
ghost use Rattle.std.specs.Result.{result_err};
ghost use Rattle.sat.specs.Clauses.{Meaning, free, with_clause, with_first};
ghost use Rattle.sat.specs.Faults.{hold_fault, keep_fault, decide_fault, narrow_fault};
ghost use Rattle.sat.specs.Answers.{Decided, DecidedNarrowly};

use crate::answer::Answer;
use crate::fault::SolverFault;
use literal::Literal;

// A list of clauses over variables 1 to a number, in a number of cells, that can be asked for satisfying values.
// A refusal leaves everything as it was.
pub trait Solver {
    // The clauses, the variables and the cells; no call changes the last two.
    ghost meaning: { Self → Meaning };

    // The largest variable.
    fn variables(&self) -> usize
        ensures { result ≡ (meaning self.now).variables };

    // The cells, held clauses' among them.
    fn cells(&self) -> usize
        ensures { result ≡ (meaning self.now).cells };

    // Puts a clause at the end. A literal's variable is 1 to the largest, a clause has 0 to 64 literals and takes a
    // cell more than it has literals.
    fn hold(&mut self, clause: &[Literal]) -> Result<(), SolverFault>
        ensures refused { result_err result ≡ hold_fault (meaning self.old).variables (free (meaning self.old)) clause.now }
        ensures after { meaning self.new ≡ (if is_ok result then with_clause (meaning self.old) clause.now else meaning self.old) };

    // Leaves the first `kept` clauses.
    fn keep(&mut self, kept: usize) -> Result<(), SolverFault>
        ensures refused { result_err result ≡ keep_fault (length (meaning self.old).clauses) kept }
        ensures after { meaning self.new ≡ (if is_ok result then with_first (meaning self.old) kept else meaning self.old) };

    // Whether some values satisfy every clause and make every assumption true: yes writes such values, a byte for
    // each variable, and no marks assumptions that are enough to rule them out. Which values and which marks is free.
    // Values and marks are bytes of lent buffers.
    fn decide(
        &mut self,
        assumed: &[Literal],
        values: &mut [u8],
        marks: &mut [u8],
    ) -> Result<Answer, SolverFault>
        ensures refused { result_err result ≡ decide_fault (meaning self.old).variables assumed.now (length values.old) (length marks.old) }
        ensures cases { Decided (meaning self.old).variables (meaning self.old).clauses assumed.now values.old marks.old values.new marks.new result }
        ensures same { meaning self.new ≡ meaning self.old };
}

// A solver that can answer no with few assumptions.
pub trait NarrowingSolver: Solver {
    // Decides; on no the first assumptions are marked, no other marked one can be left out alone, and the value bytes
    // are zeroed. Which values and which of the narrow markings is free.
    fn narrow(
        &mut self,
        assumed: &[Literal],
        first: usize,
        values: &mut [u8],
        marks: &mut [u8],
    ) -> Result<Answer, SolverFault>
        ensures refused { result_err result ≡ narrow_fault (Self.Solver.meaning self.old).variables assumed.now first (length values.old) (length marks.old) }
        ensures cases { DecidedNarrowly (Self.Solver.meaning self.old).variables (Self.Solver.meaning self.old).clauses assumed.now first values.old marks.old values.new marks.new result }
        ensures same { Self.Solver.meaning self.new ≡ Self.Solver.meaning self.old };
}
