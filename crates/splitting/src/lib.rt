// The splitting solver: unit propagation and backtracking over one borrowed slice of numbers.
#![tactic(auto)]

// Making one: the check of the sizes, and the solver, which implements `sat::Solver`.
mod sizes;
mod solver;

pub use sizes::{MAX_VARIABLES, check};
pub use solver::Splitting;

// The search, from the question down to one literal on the trail.
mod assume;
mod blame;
mod clause;
mod lazy;
mod propagate;
mod reason;
mod search;
mod solve;
mod trail;

// What a decision writes.
mod write;
