ghost use Rattle.std.specs.Prelude.{◌≡◌, ◌≤◌, ◌↔◌, length, IsSome, IfSome};
ghost use Rattle.shipment_machine.specs.Common.{most_waybills};

use crate::flight::{FlightDate, MOST_WAYBILLS};
use crate::moves::{Amount, Balances, Declared, Expected, Outbound};
use agent_stock::Holder;
use awb_number::Awb;
use imp_fields::Airport;
use std::marker::Model;

/// The view for declaring a waybill.
#[derive(Clone, Copy)]
pub struct DeclarationView {
    pub declared: Option<Declared>,
    /// True if the book has a move of the waybill. The balances don't show it: pieces may have
    /// become missing and been found again.
    pub has_moves: bool,
    pub holder: Option<Holder>,
}

/// A waybill with its balances.
#[derive(Clone, Copy)]
pub struct WaybillView {
    pub declared: Option<Declared>,
    pub balances: Balances,
}

/// A flight, viewed from a waybill to be built on it.
#[derive(Clone, Copy)]
pub struct FlightView {
    pub outbound: Option<Outbound>,
    /// The number of waybills built on the flight.
    pub waybills: u16,
    /// The amount of this waybill built on the flight.
    pub load: Amount,
}

/// A waybill built on a flight.
#[derive(Clone, Copy)]
pub struct FlightLoad {
    pub awb: Awb,
    pub declared: Declared,
    pub load: Amount,
}

/// All waybills on a flight, in ascending order, at most 500.
#[derive(Drop)]
pub struct Loads {
    loads: Vec<FlightLoad>,
}

impl Model for Loads {
    ghost use Rattle.std.specs.Prelude.{List, ◌≤◌, length};
    ghost use Rattle.shipment_machine.specs.declared.view.FlightLoad.{FlightLoad};
    ghost use Rattle.imp_fields.specs.Fields.{most_waybills};

    ghost Value = { List FlightLoad };

    ghost view = { λ a. a.loads.items };

    ghost invariant = { λ a. length a.loads.items ≤ most_waybills };
}

impl Loads {
    /// Returns `None` for more than 500 waybills.
    pub fn new(loads: Vec<FlightLoad>) -> Option<Loads>
        ensures in_range { IsSome result ↔ (length loads.items ≤ most_waybills) }
        ensures value { IfSome result (λ kept. kept ≡ loads.items) }
    {
        if loads.len() <= MOST_WAYBILLS {
            Some(Loads { loads })
        } else {
            None
        }
    }

    /// The waybills, in order.
    pub fn as_slice(&self) -> &[FlightLoad]
        ensures value { result.now ≡ self.now }
        ensures in_range { length result.now ≤ most_waybills }
    {
        self.loads.as_slice()
    }
}

/// The rows stored for the waybill of a manifest line.
#[derive(Clone, Copy)]
pub struct LineView {
    pub declared: Option<Declared>,
    pub holder: Option<Holder>,
    pub expected: Option<Expected>,
}

/// The stored rows for each line of a manifest, in order.
#[derive(Drop)]
pub struct LineViews {
    rows: Vec<LineView>,
}

impl Model for LineViews {
    ghost use Rattle.std.specs.Prelude.{List};
    ghost use Rattle.shipment_machine.specs.declared.view.LineView.{LineView};

    ghost Value = { List LineView };

    ghost view = { λ a. a.rows.items };
}

impl LineViews {
    /// Wraps rows, in the order of the lines.
    pub fn new(rows: Vec<LineView>) -> LineViews
        ensures { result ≡ rows.items }
    {
        LineViews { rows }
    }

    /// The rows, in the order of the lines.
    pub fn as_slice(&self) -> &[LineView]
        ensures { result.now ≡ self.now }
    {
        self.rows.as_slice()
    }
}

/// The key of the rows that a command of the desk reads.
#[derive(Clone, Copy)]
pub enum RowsKey {
    /// The declaration of a waybill.
    Declaration(Awb),
    /// A waybill with its balances.
    Waybill(Awb),
    /// A waybill, and the flight to build it on.
    Manifest(Awb, FlightDate),
    /// The amount of a waybill built on a flight.
    Offload(Awb, FlightDate),
    /// A flight, and all that is built on it.
    Departure(FlightDate),
    /// A waybill, and its expectation on a flight.
    CheckIn(Awb, FlightDate),
    /// The messages.
    Messages,
}

/// The rows that a command reads, and no others.
#[derive(Drop)]
pub enum Rows {
    /// For a booking or an FWB: the declaration.
    Declaration {
        waybill: DeclarationView,
    },
    /// For the other commands about a waybill: the waybill with its balances.
    Waybill {
        waybill: WaybillView,
    },
    /// For a manifest: the waybill and the flight to build it on.
    Manifest {
        waybill: WaybillView,
        flight: FlightView,
    },
    /// For an offload: the declaration, and the waybill's amount built on the flight.
    Offload {
        declared: Option<Declared>,
        outbound: Option<Outbound>,
        load: Amount,
    },
    /// For a departure or a reroute: the flight, and all that is built on it.
    Departure {
        outbound: Option<Outbound>,
        loads: Loads,
    },
    /// For a check-in or a strike: the waybill, and its expectation on the flight.
    CheckIn {
        waybill: WaybillView,
        expected: Option<Expected>,
    },
    /// For a confirmation: the numbers of the last confirmed message and the last message.
    Messages {
        confirmed: u32,
        last: u32,
    },
    /// For a part of a manifest: whether the part was taken, and the rows of each line for here.
    /// There are no rows if its date isn't an existing day.
    Lines {
        taken: bool,
        lines: LineViews,
    },
    /// For a status update: the declaration of the waybill.
    Status {
        declared: Option<Declared>,
    },
}

/// The view from which a command is planned.
#[derive(Drop)]
pub struct View {
    pub here: Airport,
    pub rows: Rows,
}
