//! The tables of a station in `sqlite`: a value for each SQL statement.
//!
//! A statement says what it does to typed tables, with no word of SQL. The file of a table has its
//! row and its statements. `TableStore` runs statements, and `Rows` is the implementation over a
//! connection.
#![tactic(auto)]

mod builds;
mod counts;
mod expected;
mod flights;
mod kept;
mod moves;
mod outbox;
mod parts;
mod rows;
mod statements;
mod station;
mod stock;
mod store;
mod trail;
mod waybills;

pub use builds::{BuildOn, BuildRow, BuildsOn, DeleteBuild, InsertBuild, PiecesOn, UpdateBuild};
pub use counts::{AllCounts, CountAt, CountRow, CountsOf, DeleteCount, InsertCount, UpdateCount};
pub use expected::{
    AllExpected, ExpectedOn, ExpectedOnFlight, ExpectedRow, InsertExpected, ListedWaybillRow,
    UpdateExpected,
};
pub use flights::{AllFlights, FlightOn, FlightRow, InsertFlight, NotedFlightRow, UpdateFlight};
pub use kept::{InsertKept, InsertKeptText, KeptRow, KeptTextCount, KeptUnder};
pub use moves::{InsertMove, MoveQuery, MoveRow, MovesFor, MovesOf, MovesWithin};
pub use outbox::{InsertMessage, MessageRow, MessagesAfter};
pub use parts::{InsertPart, PartBody};
pub use row_sinks::StoreFault;
pub use rows::{CreateFault, Rows, crash_leaves_station};
pub use statements::{Listing, Read, Write, files_are_sound, memory_is_sound};
pub use station::{StationRow, TheStation, UpdateConfirmed};
pub use station_schema::open_memory;
pub use stock::{
    AllStock, DeleteStock, InsertStock, LastStockUpTo, StockBetween, StockRow, StockUpTo,
    UpdateStock,
};
pub use store::TableStore;
pub use trail::{InsertTrailLine, LineQuery, LinesFor, TrailRow};
pub use waybills::{AllWaybills, InsertWaybill, UpdateWaybill, WaybillOf, WaybillRow};
