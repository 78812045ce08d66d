// A region: a model with the rows of a kept run. It is all that a session needs to know of the host's rules.
#![tactic(auto)]

pub mod counts;
pub mod judge;
pub mod region;

pub use circuit::{Model, StepFault};
pub use game::Row;
pub use judge::Passed;
pub use region::Region;
