// Clauses held in lent numbers, one after another: each is its length, and then the codes of its literals.
#![tactic(auto)]

mod clause;
mod read;
mod store;
mod walk;

pub use clause::{HeldClause, clause_at};
pub use store::Cells;
pub use walk::Clauses;
