// The variables that clauses have besides the model's, and a model's literals among them.

ghost use Rattle.std.specs.Prelude.{◌≡◌, ◌+◌, ◌*◌, ◌<◌, ◌≤◌};
ghost use Rattle.encoding.specs.Literals.{positive, clause_literal, due_variable, entry_variable};

use circuit::Model;
use literal::Literal;

// The most places that rows may have.
pub const MAX_PLACES: usize = 1024;

// By the largest variable of the model.
#[derive(Clone, Copy)]
pub struct Variables {
    maximum: u16,
    ghost small: { maximum ≤ 4096 },
}

// In `dimacs_text` too, under another bound: one function of both would ask for the smaller.
fn positive(variable: u16) -> Literal
    requires { variable < 32768 }
    ensures { result ≡ positive variable }
{
    Literal { code: 2 * variable }
}

impl Variables {
    #[tactic(auto, using(crate::proofs::Models::maximum_fits))]
    pub fn of(model: &Model<'_>) -> Variables
        ensures { result.maximum ≡ model.now.«record».now.maximum }
    {
        Variables {
            maximum: model.maximum(),
        }
    }

    // The literal of the variable past the largest, which is always true.
    pub fn constant(self) -> Literal
        ensures { result ≡ positive (self.maximum + 1) }
    {
        positive(self.maximum + 1)
    }

    // The literal in a clause.
    pub fn clause_literal(self, literal: Literal) -> Literal
        ensures { result ≡ clause_literal self.maximum literal }
    {
        match literal.code {
            0 => self.constant().negation(),
            1 => self.constant(),
            _ => literal,
        }
    }

    // What is due by the first `place` rows.
    pub fn due(self, place: usize) -> Literal
        requires { place ≤ 1024 }
        ensures { result ≡ positive (due_variable self.maximum place) }
    {
        positive(self.maximum + 2 + 2 * place as u16)
    }

    // A step into the row at `place`.
    pub fn entry(self, place: usize) -> Literal
        requires { place ≤ 1024 }
        ensures { result ≡ positive (entry_variable self.maximum place) }
    {
        positive(self.maximum + 3 + 2 * place as u16)
    }
}
