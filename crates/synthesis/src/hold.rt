// What the two solvers hold when a row comes: the exceptions go, and the row's clauses are added.

ghost use Rattle.std.specs.Prelude.{◌≡◌, ◌+◌, ◌<◌, ◌≤◌, ◌++◌, length, take, sum_by, count_ones, None};
ghost use Rattle.std.specs.Result.{result_err};
ghost use Rattle.std.specs.List.{AllByRecursion};
ghost use Rattle.sat.specs.Clauses.{cells_of, with_clause, with_clauses};
ghost use Rattle.encoding.specs.Clauses.{answer_row, candidate_row};
ghost use Rattle.encoding.specs.Laws.{RowFits, answer_variables, candidate_variables, answer_row_cells, candidate_row_cells};
ghost use Rattle.synthesis.specs.Held.{fixed_clauses};

use circuit::Model;
use encoding::{hold_answer_row, hold_candidate_row};
use game::Row;
use sat::{Solver, SolverFault};

// The clauses of rows: two for each, and one for each bit of its care.
fn row_clauses(rows: &[Row]) -> usize
    requires { length rows.now ≤ 1024 }
    ensures { result ≡ sum_by (λ row. count_ones row.care + 2) rows.now }
{
    rows.iter()
        .map(|row| row.care.count_ones() as usize + 2)
        .sum()
}

// How many clauses the candidate solver holds before the exceptions: three for each gate, two, and the rows'.
pub fn fixed_clauses(model: &Model<'_>, rows: &[Row]) -> usize
    requires few { length rows.now ≤ 1024 }
    requires fit { AllByRecursion (RowFits model.now.«record».now) rows.now }
    ensures { result ≡ length (fixed_clauses model.now.«record».now model.now.gates.now rows.now) }
{
    3 * model.gates() + 2 + row_clauses(rows)
}

// Holds the row at `place` in both solvers, the candidate solver after its first `fixed` clauses. A function of the two: a
// method of the search would also have to say that all the rest stays.
#[tactic(auto, using(sat::proofs::Checks::keep_passes))]
pub fn hold_row<C: Solver, A: Solver>(
    model: &Model<'_>,
    candidate: &mut C,
    answer: &mut A,
    row: Row,
    place: usize,
    fixed: usize,
) -> Result<(), SolverFault>
    requires placed { place < 1024 }
    requires kept { fixed ≤ length (C.Solver.meaning candidate.old).clauses }
    requires variables { candidate_variables model.now.«record».now (place + 1) ≤ (C.Solver.meaning candidate.old).variables }
    requires cells { cells_of (take fixed (C.Solver.meaning candidate.old).clauses) + candidate_row_cells model.now.«record».now ≤ (C.Solver.meaning candidate.old).cells }
    requires answer_variables { answer_variables model.now.«record».now ≤ (A.Solver.meaning answer.old).variables }
    requires answer_cells { cells_of (A.Solver.meaning answer.old).clauses + answer_row_cells model.now.«record».now ≤ (A.Solver.meaning answer.old).cells }
    ensures ok { result_err result ≡ None }
    ensures after { C.Solver.meaning candidate.new ≡ with_clauses (C.Solver.meaning candidate.old) (take fixed (C.Solver.meaning candidate.old).clauses ++ candidate_row model.now.«record».now row place) }
    ensures after_answer { A.Solver.meaning answer.new ≡ with_clause (A.Solver.meaning answer.old) (answer_row model.now.«record».now row) }
{
    candidate.keep(fixed)?;
    hold_candidate_row(model, candidate, row, place)?;
    hold_answer_row(model, answer, row)
}
