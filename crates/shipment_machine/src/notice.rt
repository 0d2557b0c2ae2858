//! Confirmed messages, and status messages that arrived.

ghost use Rattle.std.specs.Prelude.{◌≡◌, IfOk, IsTrue, map, ◌≤◌, ◌↔◌, length, IsSome, IfSome};
ghost use Rattle.shipment_machine.specs.Common.{list_all, is_line, most_waybills};
ghost use Rattle.shipment_machine.specs.Effect.{decided, confirming, noting_status};
ghost use Rattle.shipment_machine.specs.declared.plans.Change.TheVariants as change;
ghost use Rattle.shipment_machine.specs.Lawful.{IsAnswer};

use crate::command::InboundStatus;
use crate::flight::{FlightDate, MOST_WAYBILLS};
use crate::moves::Declared;
use crate::plan_parts::{PlanContext, blank, refuse_waybill};
use crate::plans::{Change, Detail, Plan, PlanFault, Refusal};
use crate::trail::TrailLine;
use awb_number::Awb;
use imp_fields::{Airport, BookTenths, Discrepancy, Goods, Name, Pieces, WaybillSummary};
use station_days::Moment;
use std::alloc::AllocError;
use std::marker::Model;

/// Returns the rows of a status message: its lines, added to the trail.
fn trail_of<'a>(
    on: &PlanContext,
    awb: Awb,
    lines: &[TrailLine<'a>],
) -> Result<Vec<Change<'a>>, AllocError>
    ensures { IfOk result (λ changes. changes.items
        ≡ map (λ line. change.Trail awb line) lines.now) }
{
    let mut changes = Vec::new(on.alloc);
    for line in lines {
        changes.push(Change::Trail {
            awb,
            line: TrailLine::new(line.as_bytes()),
        })?;
    }
    Ok(changes)
}

/// Adds the lines of a status message to the trail of a waybill.
pub(crate) fn note_status<'a>(
    on: &PlanContext,
    declared: &Option<Declared>,
    status: &InboundStatus<'a>,
) -> Result<Plan<'a>, PlanFault>
    ensures answer { IsAnswer result (decided
        (noting_status declared.now status.now.awb status.now.lines)) }
    ensures printable { IfOk result (λ _. IsTrue (list_all is_line status.now.lines)) }
{
    if declared.is_none() {
        return Err(refuse_waybill(201, status.awb));
    }
    let lines = status.lines.as_slice();
    let mut plan = blank(on.alloc, lines.len() as u32);
    plan.changes = trail_of(on, status.awb, lines)?;
    Ok(plan)
}

/// Confirms the messages up to number `upto`.
pub(crate) fn confirm<'a>(
    on: &PlanContext,
    confirmed: u32,
    last: u32,
    upto: u32,
) -> Result<Plan<'a>, PlanFault>
    ensures { IsAnswer result (decided (confirming confirmed last upto)) }
{
    if upto < confirmed || last < upto {
        return Err(PlanFault::Refused(Refusal {
            number: 401,
            detail: Detail::Messages { confirmed, last },
        }));
    }
    let mut plan = blank(on.alloc, upto - confirmed);
    plan.changes.push(Change::Confirm { upto })?;
    Ok(plan)
}

/// A status event.
#[derive(Clone, Copy)]
pub enum Event {
    /// RCS: received from the shipper or an agent.
    ReceivedFromShipper {
        name: Name,
        at: Moment,
    },
    /// MAN: manifested on a flight to its airport of unloading.
    Manifested {
        flight: FlightDate,
        unload: Airport,
    },
    /// DEP: departed on the flight.
    Departed {
        flight: FlightDate,
        unload: Airport,
    },
    /// RCF: received from a flight.
    ReceivedFromFlight {
        flight: FlightDate,
        at: Moment,
    },
    /// NFD: the consignee was notified.
    Notified {
        name: Name,
        at: Moment,
    },
    /// DLV: delivered.
    Delivered {
        name: Name,
        at: Moment,
    },
    /// DIS: pieces and documents differ.
    Differs {
        flight: FlightDate,
        at: Moment,
        discrepancy: Discrepancy,
    },
}

/// A waybill on a flight manifest, with the amount on the flight.
#[derive(Clone, Copy)]
pub struct ManifestLine {
    pub consigned: WaybillSummary,
    pub pieces: Pieces,
    pub tenths: BookTenths,
    pub goods: Goods,
}

/// The waybills of a flight manifest, at most 500.
#[derive(Drop)]
pub struct ManifestLines {
    lines: Vec<ManifestLine>,
}

impl Model for ManifestLines {
    ghost use Rattle.std.specs.Prelude.{List, ◌≤◌, length};
    ghost use Rattle.shipment_machine.specs.declared.notice.ManifestLine.{ManifestLine};
    ghost use Rattle.imp_fields.specs.Fields.{most_waybills};

    ghost Value = { List ManifestLine };

    ghost view = { λ a. a.lines.items };

    ghost invariant = { λ a. length a.lines.items ≤ most_waybills };
}

impl ManifestLines {
    /// Returns `None` for more than 500 lines.
    pub fn new(lines: Vec<ManifestLine>) -> Option<ManifestLines>
        ensures in_range { IsSome result ↔ (length lines.items ≤ most_waybills) }
        ensures value { IfSome result (λ kept. kept ≡ lines.items) }
    {
        if lines.len() <= MOST_WAYBILLS {
            Some(ManifestLines { lines })
        } else {
            None
        }
    }

    /// The waybills, in order.
    pub fn as_slice(&self) -> &[ManifestLine]
        ensures value { result.now ≡ self.now }
        ensures in_range { length result.now ≤ most_waybills }
    {
        self.lines.as_slice()
    }
}

/// A message to send. Its amounts are within 9,999 pieces and 999,999 tenths of a kilogram.
#[derive(Drop)]
pub enum Notice {
    /// An event for pieces of a waybill at this station.
    Status {
        here: Airport,
        consigned: WaybillSummary,
        event: Event,
        pieces: Pieces,
        tenths: BookTenths,
    },
    /// The manifest of a flight that leaves here.
    Manifest {
        here: Airport,
        flight: FlightDate,
        unload: Airport,
        lines: ManifestLines,
    },
}
