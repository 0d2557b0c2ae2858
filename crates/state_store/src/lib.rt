//! The state of a station in a store, and what is read from it: the views from which commands are
//! planned, and the rows of readers.
#![tactic(auto)]

mod flight_key;
mod flight_order;
mod lines;
mod maps;
mod status;
mod store;
mod telling;
mod viewing;

pub use flight_key::FlightKey;
pub use lines::ExpectedLines;
pub use maps::MapState;
pub use row_sinks::StoreFault;
pub use status::StatusOf;
pub use store::StateStore;
pub use telling::{expected_rows, flight_rows, irregular_rows, shed_rows, waybill_in};
pub use viewing::{WaybillQuery, view};
