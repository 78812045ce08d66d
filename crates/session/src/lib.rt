// Sessions: a host shows each answer that it wishes to give, and gets one back that keeps its rules keepable.
#![tactic(auto)]

pub mod calls;
pub mod fault;
pub mod stage;
pub mod staged;

pub use calls::open;
pub use fault::SessionFault;
pub use stage::{Raised, Refusal, Settled, Waiting};
pub use staged::Staged;
