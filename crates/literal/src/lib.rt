// A literal of a circuit or of a clause.
#![tactic(auto)]

ghost use Rattle.std.specs.Prelude.{◌≡◌, false, not, cond};
ghost use Rattle.literal.specs.Truth.{Values, variable_of, negated, negation_of, truth, values_of};

// Code 2v is variable v, and 2v + 1 its negation. Variable 0 is false, so code 0 is false and code 1 is true.
#[derive(Clone, Copy, Default, PartialEq, Eq, Debug)]
pub struct Literal {
    pub code: u16,
}

impl Literal {
    pub const FALSE: Literal = Literal { code: 0 };

    pub const TRUE: Literal = Literal { code: 1 };

    // The literal that has a value whatever the variables are.
    pub fn constant(value: bool) -> Literal
        ensures { (v : Values) → v 0 ≡ false → truth v result ≡ value }
    {
        if value { Literal::TRUE } else { Literal::FALSE }
    }

    pub fn variable(self) -> usize
        ensures { result ≡ variable_of self }
    {
        usize::from(self.code / 2)
    }

    pub fn is_negated(self) -> bool
        ensures { result ≡ negated self }
    {
        self.code % 2 == 1
    }

    pub fn negation(self) -> Literal
        ensures value { result ≡ negation_of self }
        ensures flips { (v : Values) → truth v result ≡ not (truth v self) }
    {
        Literal {
            code: self.code ^ 1,
        }
    }

    // The literal's truth where its variable has that value.
    pub fn under(self, value: bool) -> bool
        ensures { result ≡ cond (negated self) (not value) value }
    {
        value != self.is_negated()
    }

    // Whether the literal is true under the values of the variables; a variable past the table is false.
    pub fn holds(self, values: &[bool]) -> bool
        ensures { result ≡ truth (values_of values.now) self }
    {
        let value = values.get(self.variable()).copied().unwrap_or(false);
        self.under(value)
    }
}
