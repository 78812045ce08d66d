// The layer: what is held is held by the solver below, and so is what is asked.

ghost use Rattle.std.specs.Prelude.{◌≡◌};

use literal::Literal;
use sat::{Answer, Solver, SolverFault};

#[derive(Drop)]
pub struct Narrowing<S> {
    pub(crate) below: S,
}

impl<S: Solver> Narrowing<S> {
    // Refuses nothing: the layer means what the solver below means.
    pub fn new(below: S) -> Narrowing<S>
        ensures { result.below ≡ below }
    {
        Narrowing { below }
    }
}

impl<S: Solver> Solver for Narrowing<S> {
    ghost meaning = { λ n. S.Solver.meaning n.below };

    fn variables(&self) -> usize {
        self.below.variables()
    }

    fn cells(&self) -> usize {
        self.below.cells()
    }

    fn hold(&mut self, clause: &[Literal]) -> Result<(), SolverFault> {
        self.below.hold(clause)
    }

    fn keep(&mut self, kept: usize) -> Result<(), SolverFault> {
        self.below.keep(kept)
    }

    fn decide(
        &mut self,
        assumed: &[Literal],
        values: &mut [u8],
        marks: &mut [u8],
    ) -> Result<Answer, SolverFault> {
        self.below.decide(assumed, values, marks)
    }
}
