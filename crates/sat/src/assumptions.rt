// Assumptions: whether all are true, and those of them that are marked.

ghost use Rattle.std.specs.Prelude.{◌≡◌, take};
ghost use Rattle.literal.specs.Truth.{values_of};
ghost use Rattle.sat.specs.Clauses.{all_true, marked as marked_of};

use crate::literals::Literals;
use literal::Literal;

pub fn all_hold(literals: &[Literal], values: &[bool]) -> bool
    ensures { result ≡ all_true (values_of values.now) literals.now }
{
    literals.iter().all(|literal| literal.holds(values))
}

impl Literals {
    // The marked assumptions in order, the first 64 of them.
    pub fn marked(assumed: &[Literal], marks: &[u8]) -> Literals
        ensures { result ≡ take 64 (marked_of assumed.now marks.now) }
    {
        let mut picked = Literals::none();
        for (literal, mark) in assumed.iter().zip(marks) {
            if *mark == 1 {
                picked.push(*literal);
            }
        }
        picked
    }
}
