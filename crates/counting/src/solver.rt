// The counting solver: clauses in lent numbers, of which every one is a cell.

ghost use Rattle.std.specs.Prelude.{◌≡◌, ◌≤◌, true, [], length};
ghost use Rattle.std.specs.Result.{result_err};
ghost use Rattle.literal.specs.Truth.{values_of};
ghost use Rattle.sat.specs.Clauses.{satisfies};
ghost use Rattle.sat.specs.Faults.{all_in_range};
ghost use Rattle.cells.specs.Held.{held, room};
ghost use Rattle.counting.specs.Sizes.{size_fault, granted};

use crate::question::Question;
use cells::Cells;
use literal::Literal;
use sat::{
    Answer, NarrowingSolver, Solver, SolverFault, check_decide, check_hold, check_keep,
    check_narrow, fill_front,
};

pub const MAX_VARIABLES: usize = 20;

// Whether a counting solver can be made over so many numbers for so many variables.
pub fn check(_numbers: usize, variables: usize) -> Result<(), SolverFault>
    ensures { result_err result ≡ size_fault _numbers variables }
{
    if variables <= MAX_VARIABLES {
        Ok(())
    } else {
        Err(SolverFault::SizeUnfit)
    }
}

// Clauses over variables 1 to `variables`.
#[derive(Drop)]
pub struct Counting<'a> {
    cells: Cells<'a>,
    variables: usize,
    ghost ranged: { all_in_range variables (held cells) ≡ true },
    ghost few: { variables ≤ 20 },
}

impl<'a> Counting<'a> {
    // A solver that holds no clause yet. Over what the check turns down it has no variables and no cells.
    pub fn new(numbers: &'a mut [u32], variables: usize) -> Counting<'a>
        ensures clauses { held result.cells ≡ [] }
        ensures variables { result.variables ≡ granted (size_fault (length numbers.old) variables) variables }
        ensures cells { room result.cells ≡ granted (size_fault (length numbers.old) variables) (length numbers.old) }
    {
        let (cells, variables) = match check(numbers.len(), variables) {
            Ok(()) => (numbers.len(), variables),
            Err(_) => (0, 0),
        };
        Counting {
            cells: Cells::new(&mut numbers[..cells]),
            variables,
        }
    }

    // Whether values satisfy every clause.
    pub(crate) fn satisfied(&self, values: &[bool]) -> bool
        ensures { result ≡ satisfies (values_of values.now) (held self.now.cells) }
    {
        self.cells.clauses().all(|clause| clause.holds(values))
    }
}

impl<'a> Solver for Counting<'a> {
    ghost meaning = { λ s. record { clauses = held s.cells; variables = s.variables; cells = room s.cells } };

    fn variables(&self) -> usize {
        self.variables
    }

    fn cells(&self) -> usize {
        self.cells.room()
    }

    // As in the other solver: a check and a call, which a struct under both would only pass on.
    #[tactic(auto, unfolding(sat::specs::Faults::literals_fault, sat::specs::Faults::hold_fault), using(cells::proofs::Ranges::range_push))]
    fn hold(&mut self, clause: &[Literal]) -> Result<(), SolverFault> {
        check_hold(clause, self.variables, self.cells.free())?;
        self.cells.push(clause);
        Ok(())
    }

    #[tactic(auto, using(cells::proofs::Ranges::range_take))]
    fn keep(&mut self, kept: usize) -> Result<(), SolverFault> {
        check_keep(self.cells.count(), kept)?;
        self.cells.cut(kept);
        Ok(())
    }

    #[tactic(auto, unfolding(sat::specs::Faults::literals_fault, sat::specs::Faults::decide_fault))]
    fn decide(
        &mut self,
        assumed: &[Literal],
        values: &mut [u8],
        marks: &mut [u8],
    ) -> Result<Answer, SolverFault> {
        check_decide(assumed, self.variables, values.len(), marks.len())?;
        let question = Question {
            solver: self,
            assumed,
        };
        Ok(question.answer(values, marks))
    }
}

impl<'a> NarrowingSolver for Counting<'a> {
    #[tactic(auto, unfolding(sat::specs::Faults::literals_fault, sat::specs::Faults::narrow_fault))]
    fn narrow(
        &mut self,
        assumed: &[Literal],
        first: usize,
        values: &mut [u8],
        marks: &mut [u8],
    ) -> Result<Answer, SolverFault> {
        check_narrow(assumed, self.variables, first, values.len(), marks.len())?;
        let question = Question {
            solver: self,
            assumed,
        };
        let found = question.answer(values, marks);
        if found == Answer::No {
            question.narrow(first, marks);
            fill_front(values, self.variables + 1, 0);
        }
        Ok(found)
    }
}
