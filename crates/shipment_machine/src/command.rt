ghost use Rattle.std.specs.Prelude.{◌≡◌, ℕ, ◌≤◌, ◌↔◌, length, IsSome, IfSome};
ghost use Rattle.shipment_machine.specs.Book.{IsCount};
ghost use Rattle.shipment_machine.specs.Effect.{reads};
ghost use Rattle.shipment_machine.specs.Common.{most_lines};

use crate::airline::Airline;
use crate::flight::FlightDate;
use crate::trail::TrailLines;
use crate::view::RowsKey;
use awb_number::Awb;
use imp_fields::{
    Airport, Flight, Goods, MOST_LINES, MOST_PIECES, Name, PartNumber, Pieces, Tenths,
};
use station_days::DayMonth;
use std::marker::Model;

/// A number of counted pieces, 0 to 9999.
#[derive(Clone, Copy, PartialEq, Eq, PartialOrd, Ord)]
pub struct PieceCount {
    number: u32,
}

impl Model for PieceCount {
    ghost use Rattle.std.specs.Prelude.{ℕ};
    ghost use Rattle.shipment_machine.specs.Book.{IsCount};

    ghost Value = { ℕ };

    ghost view = { λ c. c.number };

    ghost invariant = { λ c. IsCount c.number };

    ghost inverse = { λ n. record { number = n } };
}

impl PieceCount {
    /// Returns the count if the number is at most 9999.
    pub fn new(number: u32) -> Option<PieceCount>
        ensures in_range { IsSome result ↔ IsCount number }
        ensures value { IfSome result (λ c. c ≡ number) }
    {
        if number <= MOST_PIECES {
            Some(PieceCount { number })
        } else {
            None
        }
    }

    /// The number, 0 to 9999.
    pub fn number(self) -> u32
        ensures value { result ≡ self }
        ensures in_range { IsCount result }
    {
        self.number
    }
}

/// A consignment line of a telegram. A missing weight is 0.
#[derive(Clone, Copy)]
pub struct CargoLine {
    pub awb: Awb,
    pub origin: Airport,
    pub destination: Airport,
    pub pieces: Pieces,
    pub tenths: Tenths,
    pub total: Option<Pieces>,
    pub goods: Goods,
}

/// A consignment line of a flight manifest, and the airport above it.
#[derive(Clone, Copy)]
pub struct InboundLine {
    pub unload: Airport,
    pub cargo: CargoLine,
}

/// Borrowed lines of a flight manifest, at most 1,000.
#[derive(Drop)]
pub struct InboundLines<'a> {
    lines: &'a [InboundLine],
}

impl<'a> Model for InboundLines<'a> {
    ghost use Rattle.std.specs.Prelude.{List, ◌≤◌, length};
    ghost use Rattle.shipment_machine.specs.declared.command.InboundLine.{InboundLine};
    ghost use Rattle.imp_fields.specs.Fields.{most_lines};

    ghost Value = { List InboundLine };

    ghost view = { λ a. a.lines.now };

    ghost invariant = { λ a. length a.lines.now ≤ most_lines };
}

impl<'a> InboundLines<'a> {
    /// Returns `None` for more than 1,000 lines.
    pub fn new(lines: &'a [InboundLine]) -> Option<InboundLines<'a>>
        ensures in_range { IsSome result ↔ (length lines.now ≤ most_lines) }
        ensures value { IfSome result (λ kept. kept ≡ lines.now) }
    {
        if lines.len() <= MOST_LINES {
            Some(InboundLines { lines })
        } else {
            None
        }
    }

    /// The lines, in order.
    pub fn as_slice(&self) -> &'a [InboundLine]
        ensures value { result.now ≡ self.now }
        ensures in_range { length result.now ≤ most_lines }
    {
        self.lines
    }
}

/// A part of a flight manifest that arrived.
#[derive(Drop)]
pub struct InboundPart<'a> {
    pub number: PartNumber,
    pub flight: Flight,
    pub date: DayMonth,
    /// The airport of loading.
    pub loaded: Airport,
    pub lines: InboundLines<'a>,
}

/// A status message that arrived.
#[derive(Drop)]
pub struct InboundStatus<'a> {
    pub awb: Awb,
    pub lines: TrailLines<'a>,
}

/// A command of the desk.
#[derive(Clone, Copy, PartialEq, Eq)]
pub enum DeskCommand {
    /// Declares a waybill.
    Book {
        awb: Awb,
        origin: Airport,
        destination: Airport,
        pieces: Pieces,
        tenths: Tenths,
        goods: Goods,
    },
    /// Replaces a waybill's declaration.
    Amend {
        awb: Awb,
        origin: Airport,
        destination: Airport,
        pieces: Pieces,
        tenths: Tenths,
        goods: Goods,
    },
    /// Receives pieces from the shipper or an agent.
    Receive {
        awb: Awb,
        pieces: Pieces,
        tenths: Tenths,
        name: Name,
    },
    /// Returns free pieces to the shipper or agent.
    Withdraw {
        awb: Awb,
        pieces: Pieces,
        name: Name,
    },
    /// Builds free pieces for a flight to its airport of unloading.
    Manifest {
        awb: Awb,
        flight: FlightDate,
        unload: Airport,
        pieces: Pieces,
    },
    /// Takes built pieces off a flight.
    Offload {
        awb: Awb,
        flight: FlightDate,
        pieces: Pieces,
    },
    /// Changes the airport of unloading of a noted flight.
    Reroute {
        flight: FlightDate,
        unload: Airport,
    },
    /// Closes a flight: all that is built on it departs.
    Depart {
        flight: FlightDate,
    },
    /// Checks in a waybill from a flight by count.
    CheckIn {
        awb: Awb,
        flight: FlightDate,
        counted: PieceCount,
    },
    /// Reduces what a flight is expected to bring of a waybill.
    Strike {
        awb: Awb,
        flight: FlightDate,
        pieces: Pieces,
    },
    /// Notifies the consignee.
    Notify {
        awb: Awb,
        name: Name,
    },
    /// Hands free pieces to the consignee.
    Deliver {
        awb: Awb,
        pieces: Pieces,
        name: Name,
    },
    /// Hands free pieces to another airline.
    Transfer {
        awb: Awb,
        pieces: Pieces,
        airline: Airline,
    },
    /// Records free pieces as missing, optionally from a flight.
    Missing {
        awb: Awb,
        pieces: Pieces,
        flight: Option<FlightDate>,
    },
    /// Records pieces as found, optionally of a flight: missing ones first.
    Found {
        awb: Awb,
        pieces: Pieces,
        tenths: Tenths,
        flight: Option<FlightDate>,
    },
    /// Confirms the messages up to this number.
    Confirm {
        upto: u32,
    },
}

impl DeskCommand {
    /// Returns the key of the rows that the command reads.
    pub fn reads(&self) -> RowsKey
        ensures { result ≡ reads self.now }
    {
        match self {
            DeskCommand::Book { awb, .. } => RowsKey::Declaration(*awb),
            DeskCommand::Amend { awb, .. } => RowsKey::Waybill(*awb),
            DeskCommand::Receive { awb, .. } => RowsKey::Waybill(*awb),
            DeskCommand::Withdraw { awb, .. } => RowsKey::Waybill(*awb),
            DeskCommand::Manifest { awb, flight, .. } => RowsKey::Manifest(*awb, *flight),
            DeskCommand::Offload { awb, flight, .. } => RowsKey::Offload(*awb, *flight),
            DeskCommand::Reroute { flight, .. } => RowsKey::Departure(*flight),
            DeskCommand::Depart { flight } => RowsKey::Departure(*flight),
            DeskCommand::CheckIn { awb, flight, .. } => RowsKey::CheckIn(*awb, *flight),
            DeskCommand::Strike { awb, flight, .. } => RowsKey::CheckIn(*awb, *flight),
            DeskCommand::Notify { awb, .. } => RowsKey::Waybill(*awb),
            DeskCommand::Deliver { awb, .. } => RowsKey::Waybill(*awb),
            DeskCommand::Transfer { awb, .. } => RowsKey::Waybill(*awb),
            DeskCommand::Missing { awb, .. } => RowsKey::Waybill(*awb),
            DeskCommand::Found { awb, .. } => RowsKey::Waybill(*awb),
            DeskCommand::Confirm { .. } => RowsKey::Messages,
        }
    }
}

/// A borrowed command of the desk.
#[derive(Drop)]
pub struct DeskRef<'a> {
    command: &'a DeskCommand,
}

impl<'a> Model for DeskRef<'a> {
    ghost use Rattle.shipment_machine.specs.declared.command.DeskCommand.{DeskCommand};

    ghost Value = { DeskCommand };

    ghost view = { λ a. a.command.now };
}

impl<'a> DeskRef<'a> {
    /// Wraps a borrowed command.
    pub fn new(command: &'a DeskCommand) -> DeskRef<'a>
        ensures { result ≡ command.now }
    {
        DeskRef { command }
    }

    /// The command.
    pub fn get(&self) -> &'a DeskCommand
        ensures { result.now ≡ self.now }
    {
        self.command
    }
}

/// A borrowed consignment line.
#[derive(Drop)]
pub struct CargoRef<'a> {
    line: &'a CargoLine,
}

impl<'a> Model for CargoRef<'a> {
    ghost use Rattle.shipment_machine.specs.declared.command.CargoLine.{CargoLine};

    ghost Value = { CargoLine };

    ghost view = { λ a. a.line.now };
}

impl<'a> CargoRef<'a> {
    /// Wraps a borrowed line.
    pub fn new(line: &'a CargoLine) -> CargoRef<'a>
        ensures { result ≡ line.now }
    {
        CargoRef { line }
    }

    /// The line.
    pub fn get(&self) -> &'a CargoLine
        ensures { result.now ≡ self.now }
    {
        self.line
    }
}

/// An input that changes the cargo: a command of the desk, or the content of a telegram.
#[derive(Drop)]
pub enum ShipmentCommand<'a> {
    Desk(DeskRef<'a>),
    Fwb(CargoRef<'a>),
    Ffm(InboundPart<'a>),
    Fsu(InboundStatus<'a>),
}
