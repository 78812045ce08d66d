// A layer that makes any solver a narrowing one, by dropping assumptions.
#![tactic(auto)]

mod drops;
pub mod layer;
pub mod narrow;
mod sift;

pub use layer::Narrowing;
