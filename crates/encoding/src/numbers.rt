// The state, the event and the answer that values say. Values are bytes by variable: 1 is true, and past the end is false.

ghost use Rattle.std.specs.Prelude.{◌≡◌, ◌≤◌, length};
ghost use Rattle.literal.specs.Truth.{truth};
ghost use Rattle.sat.specs.Clauses.{byte_values};
ghost use Rattle.encoding.specs.Literals.{number_in, state_in, event_in, answer_in};

use crate::model_literals::{inputs_of, latches_of};
use bits::number;
use circuit::{Model, Side};
use literal::Literal;
use sat::Literals;

pub fn state_in(model: &Model<'_>, values: &[u8]) -> u32
    ensures { result ≡ state_in model.now.«record».now (byte_values values.now) }
{
    number_in(&latches_of(model), values)
}

pub fn event_in(model: &Model<'_>, values: &[u8]) -> u32
    ensures { result ≡ event_in model.now.«record».now (byte_values values.now) }
{
    number_in(&inputs_of(model, Side::Event), values)
}

pub fn answer_in(model: &Model<'_>, values: &[u8]) -> u32
    ensures { result ≡ answer_in model.now.«record».now (byte_values values.now) }
{
    number_in(&inputs_of(model, Side::Answer), values)
}

// The number whose bits are the truths of the literals.
fn number_in(literals: &Literals, values: &[u8]) -> u32
    requires { length literals.now ≤ 32 }
    ensures { result ≡ number_in (byte_values values.now) literals.now }
{
    number(literals.as_slice(), |literal| is_true(*literal, values))
}

fn is_true(literal: Literal, values: &[u8]) -> bool
    ensures { result ≡ truth (byte_values values.now) literal }
{
    let value = values.get(literal.variable());
    literal.under(value.is_some_and(|byte| *byte == 1))
}
