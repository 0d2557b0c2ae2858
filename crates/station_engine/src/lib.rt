//! The whole station over any store of its state.
#![tactic(auto)]

mod acting;
mod carrying;
mod station;

pub use station::StoredStation;
