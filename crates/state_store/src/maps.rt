//! The state of a station in maps and lists in memory.

mod asked;
mod book;
mod flow;
mod keeping;
mod listed;
mod listing;
mod opening;
mod state;
mod stock;
mod stock_orders;
mod stock_runs;
mod store;
mod waybill_flows;
mod writes;

pub use state::MapState;
