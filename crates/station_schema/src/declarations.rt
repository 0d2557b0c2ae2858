//! The statements that make the tables of a new station, and the index of its moves.

/// The station: its airport, the version of its tables, and the last confirmed message.
pub const STATION: &str =
    "CREATE TABLE station (id INTEGER PRIMARY KEY, airport TEXT NOT NULL, version INTEGER NOT NULL, confirmed INTEGER NOT NULL) STRICT";

/// The waybills of version 1. In version 2 it is empty.
pub const WAYBILL: &str =
    "CREATE TABLE waybill (awb INTEGER PRIMARY KEY, origin TEXT NOT NULL, destination TEXT NOT NULL, pieces INTEGER NOT NULL, tenths INTEGER NOT NULL, goods TEXT NOT NULL, notified INTEGER NOT NULL) STRICT";

/// The stock, as runs of numbers with their holders.
pub const STOCK: &str =
    "CREATE TABLE stock (prefix INTEGER NOT NULL, low INTEGER NOT NULL, high INTEGER NOT NULL, holder INTEGER NOT NULL, agent TEXT NOT NULL, PRIMARY KEY (prefix, low)) STRICT";

/// The noted outbound flights.
pub const FLIGHT: &str =
    "CREATE TABLE flight (flight TEXT NOT NULL, day INTEGER NOT NULL, unload TEXT NOT NULL, closed INTEGER NOT NULL, PRIMARY KEY (flight, day)) STRICT";

/// The movement book.
pub const MOVES: &str =
    "CREATE TABLE moves (number INTEGER PRIMARY KEY, awb INTEGER NOT NULL, src INTEGER NOT NULL, dst INTEGER NOT NULL, pieces INTEGER NOT NULL, tenths INTEGER NOT NULL, flight TEXT NOT NULL, fday INTEGER NOT NULL, day INTEGER NOT NULL, minute INTEGER NOT NULL) STRICT";

/// The index of the movement book by waybill.
pub const MOVES_AWB: &str = "CREATE INDEX moves_awb ON moves (awb)";

/// The expectations on inbound flights.
pub const EXPECTED: &str =
    "CREATE TABLE expected (flight TEXT NOT NULL, day INTEGER NOT NULL, awb INTEGER NOT NULL, pieces INTEGER NOT NULL, tenths INTEGER NOT NULL, checked INTEGER NOT NULL, PRIMARY KEY (flight, day, awb)) STRICT";

/// The parts of manifests that were taken.
pub const PART: &str =
    "CREATE TABLE part (flight TEXT NOT NULL, day INTEGER NOT NULL, airport TEXT NOT NULL, seq INTEGER NOT NULL, body TEXT NOT NULL, PRIMARY KEY (flight, day, airport, seq)) STRICT";

/// The trail.
pub const TRAIL: &str =
    "CREATE TABLE trail (number INTEGER PRIMARY KEY, awb INTEGER NOT NULL, line TEXT NOT NULL) STRICT";

/// The messages sent.
pub const OUTBOX: &str =
    "CREATE TABLE outbox (number INTEGER PRIMARY KEY, body TEXT NOT NULL) STRICT";

/// The commands accepted under their keys, with their counts.
pub const KEPT_KEY: &str =
    "CREATE TABLE kept_key (id TEXT NOT NULL, command TEXT NOT NULL, count INTEGER NOT NULL, PRIMARY KEY (id)) STRICT";

/// The telegrams that were taken, with their counts.
pub const KEPT_TEXT: &str =
    "CREATE TABLE kept_text (body TEXT NOT NULL, count INTEGER NOT NULL, PRIMARY KEY (body)) STRICT";

/// The balances of waybills, by place.
pub const COUNTS: &str =
    "CREATE TABLE counts (awb INTEGER NOT NULL, place INTEGER NOT NULL, pieces INTEGER NOT NULL, tenths INTEGER NOT NULL, PRIMARY KEY (awb, place)) STRICT";

/// The amounts built on flights.
pub const BUILD: &str =
    "CREATE TABLE build (flight TEXT NOT NULL, day INTEGER NOT NULL, awb INTEGER NOT NULL, pieces INTEGER NOT NULL, tenths INTEGER NOT NULL, PRIMARY KEY (flight, day, awb)) STRICT";

/// The waybills, each with the day of its last declaration.
pub const WAYBILL2: &str =
    "CREATE TABLE waybill2 (awb INTEGER PRIMARY KEY, origin TEXT NOT NULL, destination TEXT NOT NULL, pieces INTEGER NOT NULL, tenths INTEGER NOT NULL, goods TEXT NOT NULL, notified INTEGER NOT NULL, since INTEGER NOT NULL) STRICT";

/// All statements, in the order in which they run.
pub(crate) const DECLARATIONS: [&str; 15] = [
    STATION, WAYBILL, STOCK, FLIGHT, MOVES, MOVES_AWB, EXPECTED, PART, TRAIL, OUTBOX, KEPT_KEY,
    KEPT_TEXT, COUNTS, BUILD, WAYBILL2,
];
