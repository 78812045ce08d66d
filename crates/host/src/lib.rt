// The whole job of a host as one call: find the states from which the rules can be kept for ever, and answer a list of
// calls on a session.
#![tactic(auto)]

pub mod answer;
pub mod exchange;
pub mod serving;

pub use answer::Session;
pub use exchange::{Call, Exchange, Reply};
pub use serving::serve;
