//! Some trees of a store, shown under numbers of their own.
#![tactic(auto)]

mod layout;

pub use layout::Layout;
