// What the layer adds: a no with few assumptions.

use crate::drops::drop_each;
use crate::layer::Narrowing;
use literal::Literal;
use sat::{Answer, NarrowingSolver, Solver, SolverFault, check_narrow, fill_front};

impl<S: Solver> NarrowingSolver for Narrowing<S> {
    #[tactic(auto, unfolding(sat::specs::Faults::literals_fault, sat::specs::Faults::narrow_fault, sat::specs::Faults::decide_fault))]
    fn narrow(
        &mut self,
        assumed: &[Literal],
        first: usize,
        values: &mut [u8],
        marks: &mut [u8],
    ) -> Result<Answer, SolverFault> {
        let variables = self.below.variables();
        check_narrow(assumed, variables, first, values.len(), marks.len())?;
        let answer = self.below.decide(assumed, values, marks)?;
        if answer == Answer::No {
            fill_front(marks, first, 1);
            drop_each(&mut self.below, assumed, first, values, marks)?;
            fill_front(values, variables + 1, 0);
        }
        Ok(answer)
    }
}
