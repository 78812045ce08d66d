// A host's rules as a circuit: what a model is made of, a model, its counts, and a step of it.
#![tactic(auto)]

pub mod counts;
pub mod fault;
pub mod model;
pub mod record;
pub mod step;

pub use counts::on_side;
pub use fault::StepFault;
pub use model::Model;
pub use record::{Gate, Input, Latch, Record, Side};
