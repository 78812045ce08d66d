// One clause in the cells.

ghost use Rattle.std.specs.Prelude.{◌≡◌, ℕ, ◌+◌, ◌<◌, ◌≤◌, length};
ghost use Rattle.literal.specs.Truth.{values_of};
ghost use Rattle.sat.specs.Clauses.{any_true};
ghost use Rattle.cells.specs.Cells.{literals, Coded, Small, At, Starts, Reads};

use literal::Literal;

// The codes of a clause's literals.
#[derive(Clone, Copy)]
pub struct HeldClause<'a> {
    codes: &'a [u32],
    ghost small: { Small codes.now },
}

impl<'a> HeldClause<'a> {
    pub(crate) fn of(codes: &'a [u32]) -> HeldClause<'a>
        requires { Small codes.now }
        ensures { result.codes.now ≡ codes.now }
    {
        HeldClause { codes }
    }

    // How many literals the clause has.
    pub fn len(&self) -> usize
        ensures { result ≡ length self.now.codes.now }
    {
        self.codes.len()
    }

    // Whether one of the literals is true under the values of the variables.
    pub fn holds(&self, values: &[bool]) -> bool
        ensures { result ≡ any_true (values_of values.now) (literals self.now.codes.now) }
    {
        self.codes.iter().any(|code| {
            let literal = Literal { code: *code as u16 };
            literal.holds(values)
        })
    }
}

// The clause whose cells begin at `at`.
#[inline]
pub fn clause_at<'a>(cells: &'a [u32], at: usize) -> &'a [u32]
    requires coded { Coded cells.now }
    requires starts { At cells.now at }
    requires inside { at < length cells.now }
    ensures value { (j : ℕ) → Starts cells.now at j → Reads cells.now at j result.now }
    ensures bound { at + 1 + length result.now ≤ length cells.now }
{
    let length = cells[at] as usize;
    &cells[at + 1..at + 1 + length]
}
