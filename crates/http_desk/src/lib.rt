//! The desk of a station over HTTP.
#![tactic(auto)]

mod answer;
mod asking;
mod printout;
mod request;
mod route;
mod serve;
mod wanted;
mod writing;

pub use answer::{history_text, holder_text, waybill_text};
pub use printout::{Printout, rows_path};
pub use request::{Values, number_told, values_of};
pub use route::{Route, routes_law};
pub use serve::{ServeFault, Served, serve_one};
pub use writing::refusal_line;
