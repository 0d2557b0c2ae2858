//! The tables of a station in `sqlite`: their schema, their rows as typed values, the calls that
//! make them, and the test whether a database declares them like a new station.
//!
//! The crates that read and write tables build on this one.
#![tactic(auto)]

mod beside;
mod columns;
mod connection;
mod creation;
pub mod declarations;
mod names;
mod shapes;
mod streaming;
mod tables;

pub use beside::create_beside;
pub use connection::{
    begin, commit, files_lie_in_order, has_station, is_live, memory_lies_in_order, open_memory,
    roll_back, shows_old_station,
};
pub use creation::create_schema;
pub use names::{is_declared, shows_own, takes_name};
pub use streaming::{ReadRow, stream};
