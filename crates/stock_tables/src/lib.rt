//! The stock of waybill numbers in the tables of a station, as rows of runs: looked up, changed and
//! listed, and how rows are joined, parted and rewritten.
#![tactic(auto)]

mod giving;
mod joining;
mod near;
mod orders;
mod row;
mod writing;

pub use giving::{holder, use_up};
pub use joining::{Joined, join_rows, parts_law};
pub use orders::{carry_out_order, lowest_of};
pub use row::{rows_law, runs};
