// The DIMACS form of clauses: a text is read into any solver.
#![tactic(auto)]

mod fault;

pub use fault::DimacsFault;

// The header and the entries of a text.
mod body;
mod head;

pub use body::entries;
pub use head::{Header, read_header};

// The clauses of the entries.
mod clauses;

pub use clauses::load;

// Lines, words, and one entry.
mod entry;
mod lines;
mod words;
