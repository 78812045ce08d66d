// What a solver is: its refusals, its answers, the two traits; and what solvers are built from: the checks that each makes
// first, the marked ones of its assumptions, and the front of a buffer.
#![tactic(auto)]

pub mod answer;
pub mod assumptions;
pub mod bytes;
pub mod check;
pub mod fault;
pub mod literals;
pub mod solver;
pub mod worked;

pub use answer::Answer;
pub use assumptions::all_hold;
pub use bytes::fill_front;
pub use check::{MAX_LITERALS, check_decide, check_hold, check_keep, check_narrow};
pub use fault::SolverFault;
pub use literals::Literals;
pub use solver::{NarrowingSolver, Solver};
pub use worked::worked_cases;
