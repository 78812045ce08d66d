// A solver that tries all values, for up to 20 variables.
#![tactic(auto)]

mod answer;
mod narrow;
mod question;
mod search;
pub mod solver;

pub use solver::{Counting, MAX_VARIABLES, check};
