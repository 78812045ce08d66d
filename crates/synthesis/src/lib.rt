// The run: which states are lost, by rows that two solvers find.
#![tactic(auto)]

mod add;
mod begin;
pub mod fault;
mod hold;
mod questions;
pub mod search;
pub mod sizes;
mod state;
mod turn;
pub mod verdict;

pub use fault::RunFault;
pub use search::run;
pub use sizes::{Room, Sizes};
pub use verdict::Verdict;
