// The checks that every solver makes before it works, in the order of the refusals' numbers.

ghost use Rattle.std.specs.Prelude.{◌≡◌, ◌<◌, true, None};
ghost use Rattle.std.specs.Result.{result_err};
ghost use Rattle.sat.specs.Faults.{in_range, literals_fault, hold_fault, keep_fault, decide_fault, narrow_fault};

use crate::fault::SolverFault;
use literal::Literal;

// The most literals of a clause, and the most assumptions.
pub const MAX_LITERALS: usize = 64;

// Whether each literal's variable is one of 1 to `variables`.
fn in_range(literals: &[Literal], variables: usize) -> bool
    ensures { result ≡ in_range variables literals.now }
{
    literals.iter().all(|literal| {
        let variable = literal.variable();
        variable != 0 && variable <= variables
    })
}

#[tactic(auto, unfolding(crate::specs::Faults::literals_fault))]
fn check_literals(literals: &[Literal], variables: usize) -> Result<(), SolverFault>
    ensures { result_err result ≡ literals_fault variables literals.now None }
{
    if !in_range(literals, variables) {
        return Err(SolverFault::VariableOutOfRange);
    }
    if literals.len() > MAX_LITERALS {
        return Err(SolverFault::TooManyLiterals);
    }
    Ok(())
}

// A clause, where so many cells are left free.
#[tactic(auto, unfolding(crate::specs::Faults::literals_fault, crate::specs::Faults::hold_fault))]
pub fn check_hold(clause: &[Literal], variables: usize, free: usize) -> Result<(), SolverFault>
    ensures { result_err result ≡ hold_fault variables free clause.now }
{
    check_literals(clause, variables)?;
    if clause.len() < free {
        Ok(())
    } else {
        Err(SolverFault::CellsFull)
    }
}

// Leaving the first `kept` of `count` clauses.
#[tactic(auto, unfolding(crate::specs::Faults::keep_fault))]
pub fn check_keep(count: usize, kept: usize) -> Result<(), SolverFault>
    ensures { result_err result ≡ keep_fault count kept }
{
    if kept <= count {
        Ok(())
    } else {
        Err(SolverFault::CountExceeded)
    }
}

// Assumptions, and the lengths of the buffers for values and for marks.
#[tactic(auto, unfolding(crate::specs::Faults::literals_fault, crate::specs::Faults::decide_fault))]
pub fn check_decide(
    assumed: &[Literal],
    variables: usize,
    values: usize,
    marks: usize,
) -> Result<(), SolverFault>
    ensures { result_err result ≡ decide_fault variables assumed.now values marks }
{
    check_literals(assumed, variables)?;
    if variables < values && assumed.len() <= marks {
        Ok(())
    } else {
        Err(SolverFault::BufferShort)
    }
}

// The same, and how many assumptions are always to be marked.
// Five numbers of the call, which nothing else takes together.
#[tactic(auto, unfolding(crate::specs::Faults::literals_fault, crate::specs::Faults::decide_fault, crate::specs::Faults::narrow_fault))]
pub fn check_narrow(
    assumed: &[Literal],
    variables: usize,
    first: usize,
    values: usize,
    marks: usize,
) -> Result<(), SolverFault>
    ensures { result_err result ≡ narrow_fault variables assumed.now first values marks }
{
    check_decide(assumed, variables, values, marks)?;
    if first <= assumed.len() {
        Ok(())
    } else {
        Err(SolverFault::FirstExceeded)
    }
}
