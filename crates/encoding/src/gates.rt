// The clauses of a step: every gate's, and the constant's.

ghost use Rattle.std.specs.Prelude.{◌≡◌, [], ◌∷◌};
ghost use Rattle.std.specs.Result.{result_err};
ghost use Rattle.std.specs.List.{flat_map};
ghost use Rattle.encoding.specs.Clauses.{gate_clauses, step_clauses};
ghost use Rattle.encoding.specs.Holding.{Held};

use crate::variables::Variables;
use circuit::{Gate, Model};
use sat::{Solver, SolverFault};

fn hold_gate<S: Solver>(solver: &mut S, variables: Variables, gate: Gate) -> Result<(), SolverFault>
    ensures { Held (S.Solver.meaning solver.old) (gate_clauses variables.maximum gate) (S.Solver.meaning solver.new) (result_err result) }
{
    let output = variables.clause_literal(gate.output);
    let left = variables.clause_literal(gate.left);
    let right = variables.clause_literal(gate.right);
    solver.hold(&[output.negation(), left])?;
    solver.hold(&[output.negation(), right])?;
    solver.hold(&[output, left.negation(), right.negation()])
}

fn hold_gates<S: Solver>(
    solver: &mut S,
    variables: Variables,
    gates: &[Gate],
) -> Result<(), SolverFault>
    ensures { Held (S.Solver.meaning solver.old) (flat_map (gate_clauses variables.maximum) gates.now) (S.Solver.meaning solver.new) (result_err result) }
{
    for gate in gates {
        hold_gate(solver, variables, *gate)?;
    }
    Ok(())
}

pub fn hold_step<S: Solver>(solver: &mut S, model: &Model<'_>) -> Result<(), SolverFault>
    ensures { Held (S.Solver.meaning solver.old) (step_clauses model.now.«record».now model.now.gates.now) (S.Solver.meaning solver.new) (result_err result) }
{
    let variables = Variables::of(model);
    hold_gates(solver, variables, model.used_gates())?;
    solver.hold(&[variables.constant()])
}
