//! Sinks of rows, and the fault of a store that reads or writes rows.
#![tactic(auto)]

mod fault;
mod sink;

pub use fault::StoreFault;
pub use sink::{Sink, hand_out};
