//! A station in memory that makes the next state beside the old one.
#![tactic(auto)]

mod station;

pub use station::PlainStation;
