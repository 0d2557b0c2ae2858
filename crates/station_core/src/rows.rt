//! The rows that a station's readers hand out.
ghost use Rattle.std.specs.Prelude.{◌≡◌};
ghost use Rattle.station_core.specs.Readers.{begins_after, is_about};

use awb_number::Awb;
use imp_fields::Airport;
use shipment_machine::{Amount, Declared, Expected, FlightDate, Move, Outbound};
use std::marker::Model;

/// A text in a row.
#[derive(Drop)]
pub struct RowText {
    bytes: Vec<u8>,
}

impl Model for RowText {
    ghost use Rattle.std.specs.Prelude.{List, ℕ};

    ghost Value = { List ℕ };

    ghost view = { λ a. a.bytes.items };
}

impl RowText {
    /// Wraps bytes.
    pub fn new(bytes: Vec<u8>) -> RowText
        ensures { result ≡ bytes.items }
    {
        RowText { bytes }
    }

    /// The bytes of the text.
    pub fn as_bytes(&self) -> &[u8]
        ensures { result.now ≡ self.now }
    {
        self.bytes.as_slice()
    }
}

/// The record of a waybill: its declaration and its balances.
#[derive(Clone, Copy, PartialEq, Eq)]
pub struct Waybill {
    pub declared: Declared,
    /// The amount received from a shipper, an agent or an airline.
    pub taken: Amount,
    /// The unannounced amount.
    pub found: Amount,
    /// The amount in store, built for flights or not.
    pub store: Amount,
    pub departed: Amount,
    pub delivered: Amount,
    pub missing: Amount,
    /// The amount handed to other airlines.
    pub transferred: Amount,
}

/// A waybill with missing or found pieces.
#[derive(Clone, Copy)]
pub struct IrregularRow {
    pub awb: Awb,
    pub origin: Airport,
    pub destination: Airport,
    pub missing: Amount,
    pub found: Amount,
}

/// A waybill with pieces in store.
#[derive(Clone, Copy)]
pub struct ShedRow {
    pub awb: Awb,
    pub origin: Airport,
    pub destination: Airport,
    /// The amount that can be built, delivered or transferred.
    pub free: Amount,
    /// The amount built for flights that haven't departed.
    pub built: Amount,
    /// True if the consignee was notified.
    pub notified: bool,
}

/// A declared waybill of which nothing has come in.
#[derive(Clone, Copy)]
pub struct AnnouncedRow {
    pub awb: Awb,
    pub declared: Declared,
}

/// A noted flight: something was built on it.
#[derive(Clone, Copy)]
pub struct NotedFlight {
    pub flight: FlightDate,
    pub outbound: Outbound,
}

/// A noted flight with its load.
#[derive(Clone, Copy)]
pub struct FlightRow {
    pub noted: NotedFlight,
    /// The number of waybills built on the flight.
    pub waybills: u16,
    /// The number of their pieces built on the flight.
    pub pieces: u64,
    /// Their weight in tenths of a kilogram.
    pub tenths: u64,
}

/// The expectation of a waybill on a flight.
#[derive(Clone, Copy)]
pub struct Expectation {
    pub flight: FlightDate,
    pub awb: Awb,
    pub expected: Expected,
}

/// The expectation of a waybill on a flight, with the waybill's route.
#[derive(Clone, Copy)]
pub struct ExpectedRow {
    pub expectation: Expectation,
    pub origin: Airport,
    pub destination: Airport,
}

/// A query of expectations.
#[derive(Clone, Copy)]
pub enum ExpectedQuery {
    /// All expectations.
    All,
    /// Those not checked in yet.
    Open,
    /// Those of a flight, checked in or not.
    On(FlightDate),
}

/// A row of the movement book.
#[derive(Clone, Copy)]
pub struct BookRow {
    /// The position in the book, from 1.
    pub number: u32,
    pub movement: Move,
}

/// A query of the movement book.
#[derive(Clone, Copy)]
pub enum BookQuery {
    /// All movements.
    All,
    /// Those with a greater number.
    After(u32),
    /// The last movements, at most this many.
    Last(u32),
    /// Those of a waybill.
    Of(Awb),
    /// Those of a flight: built on it, offloaded from it, departed with it or received from it.
    On(FlightDate),
}

/// A query of the outbox.
#[derive(Clone, Copy)]
pub enum MessageQuery {
    /// The unconfirmed messages.
    Pending,
    /// The unconfirmed messages with a greater number.
    PendingAfter(u32),
    /// The messages with a greater number, confirmed or not.
    After(u32),
}

impl MessageQuery {
    /// Returns the number after which the queried messages begin.
    pub fn begins_after(&self, confirmed: u32) -> u32
        ensures { result ≡ begins_after self.now confirmed }
    {
        match self {
            MessageQuery::Pending => confirmed,
            MessageQuery::PendingAfter(number) => confirmed.max(*number),
            MessageQuery::After(number) => *number,
        }
    }
}

/// A message of the outbox.
#[derive(Drop)]
pub struct Message {
    /// The position in the outbox, from 1.
    pub number: u32,
    pub text: RowText,
}

impl Message {
    /// Returns whether this is a status message of a waybill.
    pub fn is_about(&self, awb: &Awb) -> bool
        ensures { result ≡ is_about awb.now self.now }
    {
        let text = self.text.as_bytes();
        let number = awb.write();
        text.len() >= 20
            && &text[..8] == b"FSU/12\r\n".as_slice()
            && &text[8..20] == number.as_slice()
    }
}

/// A line of a status message that arrived.
#[derive(Drop)]
pub struct TrailRow {
    /// The position in the trail, from 1.
    pub number: u32,
    pub awb: Awb,
    pub line: RowText,
}

/// A query of the trail.
#[derive(Clone, Copy)]
pub enum TrailQuery {
    /// All lines.
    All,
    /// Those with a greater number.
    After(u32),
    /// The last lines, at most this many.
    Last(u32),
    /// Those of a waybill.
    Of(Awb),
}
