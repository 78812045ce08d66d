// Assumptions that say which the state, the event and the answer are, and that something is due.

ghost use Rattle.std.specs.Prelude.{◌≡◌, min, ◌++◌, take};
ghost use Rattle.encoding.specs.Literals.{state_literals, event_literals, answer_literals, due_literal};

use crate::model_literals::{inputs_of, latches_of};
use crate::picked::push_signed;
use crate::variables::{MAX_PLACES, Variables};
use circuit::{Model, Side};
use literal::Literal;
use sat::Literals;

// Puts the literals of the latches, with the signs of the state's bits.
pub fn push_state(table: &mut Literals, model: &Model<'_>, state: u32)
    ensures { table.new ≡ take 64 (table.old ++ state_literals model.now.«record».now state) }
{
    push_signed(table, &latches_of(model), state);
}

pub fn push_event(table: &mut Literals, model: &Model<'_>, event: u32)
    ensures { table.new ≡ take 64 (table.old ++ event_literals model.now.«record».now event) }
{
    push_signed(table, &inputs_of(model, Side::Event), event);
}

pub fn push_answer(table: &mut Literals, model: &Model<'_>, answer: u32)
    ensures { table.new ≡ take 64 (table.old ++ answer_literals model.now.«record».now answer) }
{
    push_signed(table, &inputs_of(model, Side::Answer), answer);
}

// The literal that something is due by the first `rows` rows, or by 1,024 where there are more.
pub fn due_literal(model: &Model<'_>, rows: usize) -> Literal
    ensures { result ≡ due_literal model.now.«record».now (min rows 1024) }
{
    Variables::of(model).due(rows.min(MAX_PLACES))
}
