// The literals of a model's latches, of what they take over and of its inputs.

ghost use Rattle.std.specs.Prelude.{◌≡◌, ◌≤◌, length};
ghost use Rattle.encoding.specs.Literals.{latch_literals, next_literals, side_literals};

use crate::variables::Variables;
use circuit::{Model, Side};
use sat::Literals;

pub fn latches_of(model: &Model<'_>) -> Literals
    ensures value { result ≡ latch_literals model.now.«record».now }
    ensures bound { length result ≤ 32 }
{
    Literals::of(model.used_latches().iter().map(|latch| latch.literal))
}

// What the latches take over, as literals of clauses.
pub fn next_of(model: &Model<'_>) -> Literals
    ensures value { result ≡ next_literals model.now.«record».now }
    ensures bound { length result ≤ 32 }
{
    let variables = Variables::of(model);
    let latches = model.used_latches().iter();
    Literals::of(latches.map(|latch| variables.clause_literal(latch.next)))
}

// The inputs of a side.
pub fn inputs_of(model: &Model<'_>, side: Side) -> Literals
    ensures value { result ≡ side_literals side model.now.«record».now }
    ensures bound { length result ≤ 12 }
{
    let inputs = model.used_inputs().iter();
    let these = inputs.filter(|input| side == input.side);
    Literals::of(these.map(|input| input.literal))
}
