// Rolls: a lent table of places of which the first some are used, and the search for the first element that covers a point.
#![tactic(auto)]

pub mod covering;
pub mod fault;
pub mod roll;

pub use covering::{Covering, first_covering};
pub use fault::RollFault;
pub use roll::Roll;
