// The host as a game against its plug-ins: which states rows cover, and what follows for how long the host lasts.
#![tactic(auto)]

pub mod arena;
pub mod covers;
pub mod exception;
pub mod laws;
mod mask;
pub mod row;

pub use arena::step;
pub use covers::{forcing_event, is_covered, is_excepted};
pub use exception::{Exception, Pair};
pub use row::Row;
