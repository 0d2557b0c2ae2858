//! The audits of a station's tables, one for each table: whether its rows mean a lawful part of a
//! state; and the audit of a database that was found: whether it is a station's, and if not, the
//! first bad table.
#![tactic(auto)]

mod balances;
mod book;
mod builds;
mod counts;
mod departures;
mod expected;
mod flight;
mod judge;
mod kept_key;
mod kept_text;
mod laws;
mod lookups;
mod name;
mod old_waybill;
mod outbox;
mod part;
mod posts;
mod rows;
mod state;
mod station;
mod stock;
mod sums;
mod trail;
mod waybill;

pub use laws::{
    flights_listed, lawful_is_station, lawful_tables_mean, station_is_fit, station_is_typed,
};
pub use name::TableName;
pub use rows::Unfit;
pub use state::{FoundState, found_state};
