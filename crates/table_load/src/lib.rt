//! Tables of any `sqlite` database, whatever its schema, and the fourteen tables of a station. Each
//! is found by the names of the table and of its columns, and read by one query, row by row in the
//! order of its keys, as typed rows.
#![tactic(auto)]

mod build;
mod cells;
mod counts;
mod expected;
mod flight;
mod kept_key;
mod kept_text;
mod moves;
mod old_waybill;
mod outbox;
mod part;
mod query;
mod station;
mod stock;
mod tables;
mod trail;
mod upgrade;
mod walk;
mod waybill;

pub use cells::{Cells, RowError, number, words};
pub use expected::ExpectedEntry;
pub use flight::FlightEntry;
pub use kept_key::KeptKeyEntry;
pub use kept_text::KeptTextEntry;
pub use old_waybill::OldWaybillEntry;
pub use part::PartEntry;
pub use query::{TableQuery, table_rows};
pub use station::{FileVersion, StationFound, found_station};
pub use tables::{KeyedRow, fold_rows, found_rows, held_is_old, held_is_typed, held_once};
pub use upgrade::upgrade_tables;
pub use walk::RowFold;
