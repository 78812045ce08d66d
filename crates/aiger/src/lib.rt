// The ASCII form of AIGER: reading a model from a file's bytes, and writing one.
#![tactic(auto)]

pub mod fault;
mod file;
mod line;
mod reader;
mod writer;

pub use fault::{ReadFault, WriteFault};
pub use file::{MAX_FILE, read};
pub use writer::write;
