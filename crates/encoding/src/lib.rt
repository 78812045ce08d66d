// A model's steps, rows and exceptions as clauses: what solvers hold, what satisfying values say, and the code between.
#![tactic(auto)]

pub mod answer;
pub mod assumptions;
pub mod candidate;
mod care;
mod gates;
pub mod laws;
mod model_literals;
pub mod numbers;
mod picked;
mod variables;

pub use answer::{hold_answer_base, hold_answer_row};
pub use assumptions::{due_literal, push_answer, push_event, push_state};
pub use candidate::{hold_candidate_base, hold_candidate_row, hold_exception};
pub use care::care_of;
pub use numbers::{answer_in, event_in, state_in};
