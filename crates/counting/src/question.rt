// A question to the solver, which was checked.

ghost use Rattle.std.specs.Prelude.{◌≡◌, ◌≤◌, true, length};
ghost use Rattle.sat.specs.Faults.{in_range};

use crate::solver::Counting;
use literal::Literal;

// Assumptions over the solver's variables.
#[derive(Clone, Copy)]
pub struct Question<'q, 'a> {
    pub solver: &'q Counting<'a>,
    pub assumed: &'q [Literal],
    ghost ranged: { in_range solver.now.variables assumed.now ≡ true },
    ghost short: { length assumed.now ≤ 64 },
}
