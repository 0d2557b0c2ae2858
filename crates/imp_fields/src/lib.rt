//! Fields and lines of Cargo-IMP messages (FWB, FFM and FSU), in the profile of this station.
#![tactic(auto)]

mod airport;
mod amount;
mod consignment;
mod fault;
mod field;
mod flight;
mod laws;
mod line;
mod name;
mod normal;
mod quantity;
mod run;

pub use airport::Airport;
pub use amount::{
    BookTenths, MOST_MESSAGE_TENTHS, MOST_PIECES, MOST_TENTHS, PartNumber, Pieces, Quantity,
    ShipmentCode, Tenths, WeightUnit, book_weight, share,
};
pub use consignment::read_consignment;
pub use fault::{TextFault, Why, fault_at};
pub use field::{cut_at_slash, first_field, put_decimal};
pub use flight::Flight;
pub use laws::{flight_law, quantity_law, share_law};
pub use line::{Consignment, Discrepancy, Lines, MessageKind, Token, WaybillSummary};
pub use name::{Goods, Name};
pub use normal::{MOST_BYTES, MOST_LINES, is_head, normal_text};
pub use quantity::{put_quantity, read_quantity, weight_of};
