//! The content of a telegram as a command.
//! Queries of expectations.

ghost use Rattle.std.specs.Prelude.{◌≡◌, ℕ, IfOk, Option};
ghost use Rattle.station_core.specs.Step.{shipment_of, waybill_or_nothing};
ghost use Rattle.station_core.specs.Common.{run_of};
ghost use Rattle.shipment_machine.specs.declared.flight.FlightDate as cargo_flight;
ghost use Rattle.shipment_machine.specs.declared.moves.Expected as cargo_line;
ghost use Rattle.station_core.specs.Readers.{AreExpectations, asks_for, expected_for};

use crate::rows::{Expectation, ExpectedQuery};
use agent_stock::Order;
use awb_number::Awb;
use shipment_machine::{
    CargoRef, Detail, InboundLines, InboundPart, InboundStatus, Refusal, ShipmentCommand,
    TrailLines,
};
use std::alloc::{AllocError, Global};
use telegrams::{Content, PartContent, StatusContent};

/// Returns a part of a manifest as a command's argument.
fn inbound_part(part: &PartContent) -> InboundPart<'_>
    ensures { result
        ≡ record {
          number = part.now.sequence;
          flight = part.now.flight;
          date = part.now.date;
          loaded = part.now.loaded;
          lines = part.now.lines;
        } }
{
    InboundPart {
        number: part.sequence,
        flight: part.flight,
        date: part.date,
        loaded: part.loaded,
        lines: InboundLines::new(part.lines.as_slice()).unwrap(),
    }
}

/// Returns a status message as a command's argument.
fn inbound_status<'a>(status: &'a StatusContent<'a>) -> InboundStatus<'a>
    ensures { result ≡ record { awb = status.now.awb; lines = status.now.lines } }
{
    InboundStatus {
        awb: status.awb,
        lines: TrailLines::new(status.lines.as_slice()),
    }
}

/// Returns the content of a telegram as the command that `plan` takes, with its lines borrowed.
pub fn shipment_of<'a>(content: &'a Content<'a>) -> ShipmentCommand<'a>
    ensures { result ≡ shipment_of content.now }
{
    match content {
        Content::Fwb(line) => ShipmentCommand::Fwb(CargoRef::new(line)),
        Content::Ffm(part) => ShipmentCommand::Ffm(inbound_part(part)),
        Content::Fsu(status) => ShipmentCommand::Fsu(inbound_status(status)),
    }
}

/// Returns the refusal of an order, with the lowest waybill number that fails, if there is one.
pub fn refusal_of_order(number: u16, lowest: Option<Awb>) -> Refusal
    ensures { result ≡ record { number = number; detail = waybill_or_nothing lowest } }
{
    match lowest {
        None => Refusal {
            number,
            detail: Detail::Nothing,
        },
        Some(awb) => Refusal {
            number,
            detail: Detail::Waybill(awb),
        },
    }
}

/// Returns the count in the reply to an order: the numbers of its run.
pub fn count_of_order(order: &Order) -> u32
    ensures { result ≡ (run_of order.now).count }
{
    match order {
        Order::TakeIn(run) | Order::Issue(run, _) | Order::GiveBack(run, _) | Order::Void(run) =>
            run.count.number(),
    }
}

impl ExpectedQuery {
    /// Returns whether the query includes an expectation.
    pub fn asks_for(&self, row: &Expectation) -> bool
        ensures { result ≡ asks_for self.now row.now }
    {
        match self {
            ExpectedQuery::All => true,
            ExpectedQuery::Open => !row.expected.checked,
            ExpectedQuery::On(flight) => flight.is_same(&row.flight),
        }
    }
}

/// Returns the expectations that the query includes.
pub fn expectations_for(
    alloc: Global,
    query: ExpectedQuery,
    all: &[Expectation],
) -> Result<Vec<Expectation>, AllocError>
    ensures { (lines : cargo_flight.FlightDate → ℕ → Option cargo_line.Expected)
        → AreExpectations lines all.now
        → IfOk result (λ asked. AreExpectations (expected_for query lines) asked.items) }
{
    let mut asked = Vec::new(alloc);
    for expectation in all {
        if query.asks_for(expectation) {
            asked.push(*expectation)?;
        }
    }
    Ok(asked)
}
