//! The movement book of a station, and the effect of each command on it.
#![tactic(auto)]

mod acceptance;
mod airline;
mod arrival;
mod command;
mod departure;
mod flight;
mod inbound;
mod irregular;
pub mod laws;
mod moves;
mod notice;
mod outbound;
mod plan_parts;
mod planning;
mod plans;
mod trail;
mod view;

pub use airline::Airline;
pub use command::{
    CargoLine, CargoRef, DeskCommand, DeskRef, InboundLine, InboundLines, InboundPart,
    InboundStatus, PieceCount, ShipmentCommand,
};
pub use flight::{FlightDate, MOST_WAYBILLS};
pub use inbound::day_meant;
pub use moves::{Amount, Balances, Declared, Expected, Move, Outbound, Part, Place};
pub use notice::{Event, ManifestLine, ManifestLines, Notice};
pub use planning::plan;
pub use plans::{Change, Detail, Plan, PlanFault, Refusal};
pub use trail::{TrailLine, TrailLines};
pub use view::{
    DeclarationView, FlightLoad, FlightView, LineView, LineViews, Loads, Rows, RowsKey, View,
    WaybillView,
};
