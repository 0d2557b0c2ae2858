//! The part of a station that is carried into a new file, and its laws.
#![tactic(auto)]

pub mod laws;
mod waybills;

pub use waybills::{WaybillRow, left_out};
