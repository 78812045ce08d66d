// The search: every number below 2 to the power of the largest variable stands for values.

ghost use Rattle.std.specs.Prelude.{◌≡◌, ◌<◌, true, ◌&&◌, MatchOption, nat_lt};
ghost use Rattle.literal.specs.Truth.{values_of};
ghost use Rattle.sat.specs.Clauses.{all_true, satisfies, Unsatisfiable};
ghost use Rattle.cells.specs.Held.{held};
ghost use Rattle.counting.specs.Numbers.{values_at, table_at};

use crate::question::Question;
use sat::{Solver, all_hold};
use std::array;

// A place for each variable, and for variable 0.
pub const PLACES: usize = 21;

// The value of a variable in a number, whose lowest bit is variable 1.
#[tactic(auto, using(crate::proofs::Numbers::bit_read))]
fn value_of(number: u32, variable: usize) -> bool
    requires { variable < 21 }
    ensures { result ≡ (nat_lt 0 variable && values_at number variable) }
{
    variable > 0 && number >> (variable - 1) & 1 == 1
}

fn values_of(number: u32) -> [bool; PLACES]
    ensures { result ≡ table_at number }
{
    array::from_fn(|variable| value_of(number, variable))
}

impl<'q, 'a> Question<'q, 'a> {
    // Whether values satisfy every clause and make every assumption true.
    fn accepts(&self, values: &[bool]) -> bool
        ensures { result ≡ (satisfies (values_of values.now) (held self.now.solver.now.cells) && all_true (values_of values.now) self.now.assumed.now) }
    {
        self.solver.satisfied(values) && all_hold(self.assumed, values)
    }

    // Such values, if there are any.
    pub fn solve(&self) -> Option<[bool; PLACES]>
        ensures { MatchOption result (Unsatisfiable (held self.now.solver.now.cells) self.now.assumed.now) (λ t. (satisfies (values_of t) (held self.now.solver.now.cells) ≡ true) × (all_true (values_of t) self.now.assumed.now ≡ true)) }
    {
        (0..1u32 << self.solver.variables())
            .map(values_of)
            .find(|values| self.accepts(values))
    }
}
