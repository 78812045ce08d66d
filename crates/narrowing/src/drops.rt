// Dropping assumptions, one after another, by asking the solver below without them. What both functions take stays in
// parameters: methods of a struct that holds the lent buffers would have to promise that it still holds the same ones.

ghost use Rattle.std.specs.Prelude.{◌≡◌, ℕ, ◌+◌, ◌<◌, ◌≤◌, true, length, drop, None, slice_index};
ghost use Rattle.std.specs.Result.{result_err};
ghost use Rattle.sat.specs.Answers.{Narrowed};
ghost use Rattle.sat.specs.Clauses.{Unsatisfiable, marked};
ghost use Rattle.sat.specs.Faults.{in_range};
ghost use Rattle.narrowing.specs.Drops.{Tried};

use crate::sift::sift;
use literal::Literal;
use sat::{Answer, Literals, MAX_LITERALS, Solver, SolverFault};

// Asks without assumption `i`. Where it is not needed it is dropped, with all that the solver below did not mark then.
fn try_without<S: Solver>(
    below: &mut S,
    assumed: &[Literal],
    first: usize,
    i: usize,
    values: &mut [u8],
    marks: &mut [u8],
) -> Result<(), SolverFault>
    requires ranged { in_range (S.Solver.meaning below.old).variables assumed.now ≡ true }
    requires short { length assumed.now ≤ 64 }
    requires within { i < length assumed.now }
    requires past { first ≤ i }
    requires is_marked { slice_index marks.old i ≡ 1 }
    requires values_room { (S.Solver.meaning below.old).variables < length values.old }
    requires marks_room { length assumed.now ≤ length marks.old }
    ensures ok { result_err result ≡ None }
    ensures cases { Tried (S.Solver.meaning below.old).clauses assumed.now first i marks.old marks.new }
    ensures rest { drop ((S.Solver.meaning below.old).variables + 1) values.new ≡ drop ((S.Solver.meaning below.old).variables + 1) values.old }
    ensures same { S.Solver.meaning below.new ≡ S.Solver.meaning below.old }
{
    marks[i] = 0;
    let picked = Literals::marked(assumed, marks);
    let mut again = [0u8; MAX_LITERALS];
    match below.decide(picked.as_slice(), values, &mut again)? {
        Answer::Yes => marks[i] = 1,
        Answer::No => sift(assumed, first, marks, &again),
    }
    Ok(())
}

// Drops assumptions past the first ones until none of those left can be left out alone.
pub fn drop_each<S: Solver>(
    below: &mut S,
    assumed: &[Literal],
    first: usize,
    values: &mut [u8],
    marks: &mut [u8],
) -> Result<(), SolverFault>
    requires ranged { in_range (S.Solver.meaning below.old).variables assumed.now ≡ true }
    requires short { length assumed.now ≤ 64 }
    requires firsts { (k : ℕ) → k < first → slice_index marks.old k ≡ 1 }
    requires bits { (k : ℕ) → k < length assumed.now → slice_index marks.old k ≤ 1 }
    requires none { Unsatisfiable (S.Solver.meaning below.old).clauses (marked assumed.now marks.old) }
    requires values_room { (S.Solver.meaning below.old).variables < length values.old }
    requires marks_room { length assumed.now ≤ length marks.old }
    ensures ok { result_err result ≡ None }
    ensures narrowed { Narrowed (S.Solver.meaning below.old).clauses assumed.now first marks.old marks.new }
    ensures rest { drop ((S.Solver.meaning below.old).variables + 1) values.new ≡ drop ((S.Solver.meaning below.old).variables + 1) values.old }
    ensures same { S.Solver.meaning below.new ≡ S.Solver.meaning below.old }
{
    // By index: a turn may take later marks away too.
    for i in first..assumed.len() {
        if marks[i] == 1 {
            try_without(below, assumed, first, i, values, marks)?;
        }
    }
    Ok(())
}
