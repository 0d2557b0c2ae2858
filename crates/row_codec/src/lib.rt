//! The rows of a station's tables as values and back, and the running counts that tables keep.
//!
//! A row with columns out of range isn't a value: reading it returns `None`. Writing allocates the
//! texts, and fails if memory runs out. The running counts stand in the tables `counts` and `build`.
#![tactic(auto)]

mod building;
mod columns;
mod counting;
mod flights;
mod known;
mod listing;
mod loading;
mod logs;
mod manifests;
mod moves;
mod posting;
mod stock;
mod tally;
mod waybills;

pub use building::load;
pub use columns::{count_of, text};
pub use counting::balances;
pub use flights::{
    awb_key, day_number, flight_text, noted_by, noted_of, outbound_by, outbound_row,
};
pub use known::KnownSums;
pub use listing::{all_balances, kept_by, line_query, move_query};
pub use loading::{aboard, waybills_on};
pub use logs::{line_by, message_by, message_row, trail_row, waybill_of_line};
pub use manifests::{expectation_by, expectation_of, expected_by, expected_row, part_by};
pub use moves::{book_row_by, move_by, move_row, place_code};
pub use posting::post_move;
pub use stock::run_by;
pub use tally::Tally;
pub use waybills::{waybill_by, waybill_row};
