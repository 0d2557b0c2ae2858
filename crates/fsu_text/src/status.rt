//! Status lines.

ghost use Rattle.std.specs.Prelude.{◌<◌, IfSome};
ghost use Rattle.fsu_text.specs.Status.{Day};

use imp_fields::{Airport, Discrepancy, Flight, Name, Quantity, Token};
use station_days::{DayMonth, DayTime};
use std::marker::Model;

/// An event of goods at a station.
#[derive(Clone, Copy, Debug)]
pub enum Handling {
    /// RCS, received from the shipper or an agent.
    ReceivedFromShipper,
    /// NFD, the consignee was notified.
    Notified,
    /// DLV, delivered.
    Delivered,
}

/// An event of goods and a flight.
#[derive(Clone, Copy, Debug)]
pub enum Carriage {
    /// BKD, booked.
    Booked,
    /// MAN, manifested.
    Manifested,
    /// DEP, departed.
    Departed,
}

/// A date without its year, with an optional minute.
#[derive(Clone, Copy, Debug)]
pub struct FlightDay {
    pub date: DayMonth,
    pub minute: Option<u16>,
}

impl Model for FlightDay {
    ghost Value = { Day };

    ghost view = { λ d. record { date = d.date; minute = d.minute } };

    ghost invariant = { λ d. IfSome d.minute (λ m. m < 1440) };

    ghost inverse = { λ d. record { date = d.date; minute = d.minute } };
}

/// A status line of a known layout.
#[derive(Clone, Copy, Debug)]
pub enum Status {
    /// RCS, NFD or DLV. An absent name is empty.
    Handled {
        event: Handling,
        at: DayTime,
        airport: Airport,
        quantity: Quantity,
        name: Name,
    },
    /// RCF, received from a flight.
    ReceivedFromFlight {
        flight: Flight,
        at: DayTime,
        airport: Airport,
        quantity: Quantity,
    },
    /// BKD, MAN or DEP.
    Carried {
        event: Carriage,
        flight: Flight,
        day: FlightDay,
        from: Airport,
        to: Airport,
        quantity: Quantity,
    },
    /// DIS with the code OFLD, MSCA or FDCA.
    Differs {
        flight: Flight,
        day: FlightDay,
        airport: Airport,
        discrepancy: Discrepancy,
        quantity: Quantity,
    },
}

/// A line after the consignment line, unchanged, and read if its layout is known.
#[derive(Clone, Copy)]
pub struct StatusLine<'a> {
    pub text: Token<'a>,
    pub status: Option<Status>,
}
