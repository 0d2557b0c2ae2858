//! The state of a station in its tables.
#![tactic(auto)]

mod boarding;
mod changing;
mod counted;
mod expecting;
mod flight_spans;
mod flown;
mod handing;
mod listing;
mod open_lines;
mod opening;
mod span;
mod state;
mod status_spans;
mod waybill_sets;
mod writing;

pub use opening::create;
pub use state::TableState;
