// The solver.

ghost use Rattle.std.specs.Prelude.{◌≡◌, ◌-◌, ◌≤◌, true, [], length};
ghost use Rattle.sat.specs.Faults.{all_in_range};
ghost use Rattle.cells.specs.Held.{held, room};
ghost use Rattle.splitting.specs.Sizes.{variables_over, cells_over};

use crate::lazy::LazyTrail;
use crate::sizes::{Sizes, sizes_over};
use crate::trail::Columns;
use cells::Cells;
use literal::Literal;
use sat::{Answer, Solver, SolverFault, check_decide, check_hold, check_keep};

// Clauses that can be asked.
#[derive(Drop)]
pub struct Splitting<'a> {
    pub(crate) trail: LazyTrail<'a>,
    // By variable, in a lent number: 1 where what is assumed of it counts in a conflict, else 0.
    pub(crate) seen: &'a mut [u32],
    pub(crate) cells: Cells<'a>,
    pub(crate) variables: usize,
    ghost ranged: { all_in_range variables (held cells) ≡ true },
    ghost table: { variables ≤ length trail.value.now - 1 },
    ghost marks: { length seen.now ≡ length trail.value.now },
}

impl<'a> Splitting<'a> {
    // A solver over the numbers that holds no clause. It refuses nothing: over sizes that the check turns down it has no
    // variables and no cells.
    pub fn new(numbers: &'a mut [u32], variables: usize) -> Splitting<'a>
        ensures clauses { held result.cells ≡ [] }
        ensures variables { result.variables ≡ variables_over (length numbers.old) variables }
        ensures cells { room result.cells ≡ cells_over (length numbers.old) variables }
    {
        let Sizes {
            variables,
            column,
            cells,
        } = sizes_over(numbers.len(), variables);
        let (value, rest) = numbers.split_at_mut(column);
        let (literals, rest) = rest.split_at_mut(column);
        let (reasons, rest) = rest.split_at_mut(column);
        let (seen, rest) = rest.split_at_mut(column);
        let (cells, _) = rest.split_at_mut(cells);
        Splitting {
            trail: LazyTrail::new(Columns {
                value,
                literals,
                reasons,
            }),
            seen,
            cells: Cells::new(cells),
            variables,
        }
    }
}

impl<'a> Solver for Splitting<'a> {
    ghost use Rattle.splitting.specs.Held.{meaning_of};

    ghost meaning = { meaning_of };

    fn variables(&self) -> usize {
        self.variables
    }

    fn cells(&self) -> usize {
        self.cells.room()
    }

    // As in the other solver: a check and a call, which a struct under both would only pass on.
    #[tactic(auto, using(cells::proofs::Ranges::range_push, crate::proofs::Refusals::hold_accepts))]
    fn hold(&mut self, clause: &[Literal]) -> Result<(), SolverFault> {
        check_hold(clause, self.variables, self.cells.free())?;
        self.cells.push(clause);
        Ok(())
    }

    #[tactic(auto, using(cells::proofs::Ranges::range_take))]
    fn keep(&mut self, kept: usize) -> Result<(), SolverFault> {
        check_keep(self.cells.count(), kept)?;
        self.cells.cut(kept);
        Ok(())
    }

    // On no the assumptions are marked that some conflict came from.
    #[tactic(auto, using(crate::proofs::Refusals::decide_accepts))]
    fn decide(
        &mut self,
        assumed: &[Literal],
        values: &mut [u8],
        marks: &mut [u8],
    ) -> Result<Answer, SolverFault> {
        check_decide(assumed, self.variables, values.len(), marks.len())?;
        if self.solve(assumed) {
            self.write(values);
            Ok(Answer::Yes)
        } else {
            self.mark(assumed, marks);
            Ok(Answer::No)
        }
    }
}
