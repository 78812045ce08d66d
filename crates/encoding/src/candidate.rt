// What the candidate solver holds: its satisfying values are the uncovered states at which something is due.

ghost use Rattle.std.specs.Prelude.{◌≡◌, ◌+◌, ◌<◌, ◌≤◌, [], ◌∷◌, map, is_ok, Some};
ghost use Rattle.std.specs.Result.{result_err};
ghost use Rattle.encoding.specs.Literals.{next_literals, cared};
ghost use Rattle.encoding.specs.Clauses.{implies, outside_clause, candidate_base, candidate_row, exception_clause};
ghost use Rattle.encoding.specs.Holding.{Held, Whole};
ghost use Rattle.encoding.specs.Laws.{answer_variables, candidate_variables, candidate_base_cells, candidate_row_cells, exception_cells};

use crate::gates::hold_step;
use crate::model_literals::{inputs_of, latches_of, next_of};
use crate::picked::{negations, outside, push_cared};
use crate::variables::{MAX_PLACES, Variables};
use circuit::{Model, Side};
use game::{Exception, Row};
use literal::Literal;
use sat::{Literals, Solver, SolverFault};

// Holds that the step is one of the model's, and that it is bad where that is what is due.
pub fn hold_candidate_base<S: Solver>(model: &Model<'_>, solver: &mut S) -> Result<(), SolverFault>
    ensures held { Held (S.Solver.meaning solver.old) (candidate_base model.now.«record».now model.now.gates.now) (S.Solver.meaning solver.new) (result_err result) }
    ensures whole { Whole (candidate_variables model.now.«record».now 0) (candidate_base_cells model.now.«record».now) (S.Solver.meaning solver.old) (candidate_base model.now.«record».now model.now.gates.now) (S.Solver.meaning solver.new) (is_ok result) }
{
    hold_step(solver, model)?;
    let variables = Variables::of(model);
    let output = variables.clause_literal(model.output());
    solver.hold(&[variables.due(0).negation(), output])
}

// Holds that the row at `place` does not cover the state, and that a step into it is due. No run has 1,024 places or more
// before this one.
pub fn hold_candidate_row<S: Solver>(
    model: &Model<'_>,
    solver: &mut S,
    row: Row,
    place: usize,
) -> Result<(), SolverFault>
    ensures held { place < 1024 → Held (S.Solver.meaning solver.old) (candidate_row model.now.«record».now row place) (S.Solver.meaning solver.new) (result_err result) }
    ensures whole { place < 1024 → Whole (candidate_variables model.now.«record».now (place + 1)) (candidate_row_cells model.now.«record».now) (S.Solver.meaning solver.old) (candidate_row model.now.«record».now row place) (S.Solver.meaning solver.new) (is_ok result) }
    ensures beyond { 1024 ≤ place → (result_err result ≡ Some SolverFault.VariableOutOfRange) × (solver.new ≡ solver.old) }
{
    if place >= MAX_PLACES {
        return Err(SolverFault::VariableOutOfRange);
    }
    let variables = Variables::of(model);
    let entry = variables.entry(place);
    hold_outside(model, solver, row)?;
    hold_entries(model, solver, row, entry)?;
    let after = variables.due(place + 1).negation();
    solver.hold(&[after, entry, variables.due(place)])
}

fn hold_outside<S: Solver>(model: &Model<'_>, solver: &mut S, row: Row) -> Result<(), SolverFault>
    ensures { Held (S.Solver.meaning solver.old) (outside_clause model.now.«record».now row ∷ []) (S.Solver.meaning solver.new) (result_err result) }
{
    let clause = outside(&latches_of(model), row.care, row.value);
    solver.hold(clause.as_slice())
}

// Holds that the next state is in the row where the entry is true.
fn hold_entries<S: Solver>(
    model: &Model<'_>,
    solver: &mut S,
    row: Row,
    entry: Literal,
) -> Result<(), SolverFault>
    ensures { Held (S.Solver.meaning solver.old) (map (implies entry) (cared (next_literals model.now.«record».now) row.care row.value)) (S.Solver.meaning solver.new) (result_err result) }
{
    let mut inside = Literals::none();
    push_cared(&mut inside, &next_of(model), row.care, row.value);
    hold_each(solver, entry, inside.as_slice())
}

// Holds that each literal is true where the guard is.
fn hold_each<S: Solver>(
    solver: &mut S,
    guard: Literal,
    literals: &[Literal],
) -> Result<(), SolverFault>
    ensures { Held (S.Solver.meaning solver.old) (map (implies guard) literals.now) (S.Solver.meaning solver.new) (result_err result) }
{
    for literal in literals {
        solver.hold(&[guard.negation(), *literal])?;
    }
    Ok(())
}

// Holds that the exception does not cover the state and the event.
pub fn hold_exception<S: Solver>(
    model: &Model<'_>,
    solver: &mut S,
    exception: Exception,
) -> Result<(), SolverFault>
    ensures held { Held (S.Solver.meaning solver.old) (exception_clause model.now.«record».now exception ∷ []) (S.Solver.meaning solver.new) (result_err result) }
    ensures whole { Whole (candidate_variables model.now.«record».now 0) (exception_cells model.now.«record».now) (S.Solver.meaning solver.old) (exception_clause model.now.«record».now exception ∷ []) (S.Solver.meaning solver.new) (is_ok result) }
{
    let mut inside = Literals::none();
    push_cared(
        &mut inside,
        &latches_of(model),
        exception.state_care,
        exception.state_value,
    );
    push_cared(
        &mut inside,
        &inputs_of(model, Side::Event),
        exception.event_care,
        exception.event_value,
    );
    solver.hold(negations(&inside).as_slice())
}
