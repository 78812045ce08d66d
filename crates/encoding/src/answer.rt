// What the answer solver holds: its satisfying values are the good answers.

ghost use Rattle.std.specs.Prelude.{◌≡◌, [], ◌∷◌, is_ok};
ghost use Rattle.std.specs.Result.{result_err};
ghost use Rattle.encoding.specs.Clauses.{answer_base, answer_row};
ghost use Rattle.encoding.specs.Holding.{Held, Whole};
ghost use Rattle.encoding.specs.Laws.{answer_variables, answer_base_cells, answer_row_cells};

use crate::gates::hold_step;
use crate::model_literals::next_of;
use crate::picked::outside;
use crate::variables::Variables;
use circuit::Model;
use game::Row;
use sat::{Solver, SolverFault};

// Holds that the step is one of the model's, and that it is not bad.
pub fn hold_answer_base<S: Solver>(model: &Model<'_>, solver: &mut S) -> Result<(), SolverFault>
    ensures held { Held (S.Solver.meaning solver.old) (answer_base model.now.«record».now model.now.gates.now) (S.Solver.meaning solver.new) (result_err result) }
    ensures whole { Whole (answer_variables model.now.«record».now) (answer_base_cells model.now.«record».now) (S.Solver.meaning solver.old) (answer_base model.now.«record».now model.now.gates.now) (S.Solver.meaning solver.new) (is_ok result) }
{
    hold_step(solver, model)?;
    let output = Variables::of(model).clause_literal(model.output());
    solver.hold(&[output.negation()])
}

// Holds that the row does not cover the next state.
pub fn hold_answer_row<S: Solver>(
    model: &Model<'_>,
    solver: &mut S,
    row: Row,
) -> Result<(), SolverFault>
    ensures held { Held (S.Solver.meaning solver.old) (answer_row model.now.«record».now row ∷ []) (S.Solver.meaning solver.new) (result_err result) }
    ensures whole { Whole (answer_variables model.now.«record».now) (answer_row_cells model.now.«record».now) (S.Solver.meaning solver.old) (answer_row model.now.«record».now row ∷ []) (S.Solver.meaning solver.new) (is_ok result) }
{
    let clause = outside(&next_of(model), row.care, row.value);
    solver.hold(clause.as_slice())
}
