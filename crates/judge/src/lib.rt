// What the programs do with a model's file: read it, run the synthesis with solvers of one size, and serve calls.
#![tactic(auto)]

pub mod fault;
pub mod judging;
pub mod lines;

pub use fault::{JudgeFault, Refusal};
pub use judging::Judgement;
pub use lines::{RowLine, VerdictLine};
