//! Flight departures.
//! Notification of the consignee, delivery, and transfer to another airline.

ghost use Rattle.std.specs.Prelude.{◌≡◌, ◌==◌, false, ◌+◌, ◌*◌, ◌≤◌, ◌<◌, All, IsSome, IfOk, map, length};
ghost use Rattle.shipment_machine.specs.Common.{flat_map, sum_by, most_waybills};
ghost use Rattle.shipment_machine.specs.Effect.{decided, departing, depart_moves, manifest_line, status_of, notifying, delivering, transferring};
ghost use Rattle.shipment_machine.specs.Lawful.{IsAnswer, IsOnBoard};
ghost use Rattle.shipment_machine.specs.declared.notice.Event.TheVariants as event;
ghost use Rattle.shipment_machine.specs.Book.{IsHeld};

use crate::flight::FlightDate;
use crate::moves::{Declared, Move, Outbound, Place, part_of};
use crate::notice::{Event, ManifestLine, ManifestLines, Notice};
use crate::plan_parts::{
    PlanContext, add_move, add_notice, blank, consigned_as, is_same, pieces_of, refuse_flight,
    refuse_free, refuse_waybill, tenths_of,
};
use crate::plans::{Change, Plan, PlanFault};
use crate::view::{FlightLoad, Loads, WaybillView};
use awb_number::Awb;
use imp_fields::{Airport, Name, Pieces};
use std::alloc::AllocError;

/// Returns the moves of a departure: each waybill leaves with all that is built of it.
fn departing_moves(
    on: &PlanContext,
    loads: &[FlightLoad],
    flight: &FlightDate,
) -> Result<Vec<Move>, AllocError>
    requires { All IsOnBoard loads.now }
    ensures { IfOk result (λ moves. moves.items ≡ depart_moves loads.now flight.now on.now.at) }
{
    let mut moves = Vec::new(on.alloc);
    for aboard in loads {
        let built = Place::Built(*flight);
        add_move(
            &mut moves,
            aboard.awb,
            built,
            Place::Departed,
            aboard.load,
            Some(*flight),
            on.at,
        )?;
    }
    Ok(moves)
}

fn departing_notices(
    on: &PlanContext,
    loads: &[FlightLoad],
    flight: &FlightDate,
    unload: Airport,
) -> Result<Vec<Notice>, AllocError>
    requires { All IsOnBoard loads.now }
    ensures { IfOk result (λ notices. notices.items
        ≡ flat_map (λ a. status_of on.now.here a.awb a.declared
        (event.Departed flight.now unload) a.load) loads.now) }
{
    let mut notices = Vec::new(on.alloc);
    for aboard in loads {
        let event = Event::Departed {
            flight: *flight,
            unload,
        };
        add_notice(
            &mut notices,
            on.here,
            aboard.awb,
            &aboard.declared,
            event,
            aboard.load,
        )?;
    }
    Ok(notices)
}

fn line_of(aboard: &FlightLoad) -> ManifestLine
    requires { IsOnBoard aboard.now }
    ensures { result ≡ manifest_line aboard.now }
{
    ManifestLine {
        consigned: consigned_as(aboard.awb, &aboard.declared),
        pieces: pieces_of(aboard.load.pieces),
        tenths: tenths_of(aboard.load.tenths),
        goods: aboard.declared.goods,
    }
}

fn lines_of(on: &PlanContext, loads: &[FlightLoad]) -> Result<ManifestLines, AllocError>
    requires on_board { All IsOnBoard loads.now }
    requires few { length loads.now ≤ most_waybills }
    ensures { IfOk result (λ lines. lines ≡ map manifest_line loads.now) }
{
    let mut lines = Vec::new(on.alloc);
    for aboard in loads {
        lines.push(line_of(aboard))?;
    }
    Ok(ManifestLines::new(lines).unwrap())
}

fn pieces_aboard(loads: &[FlightLoad]) -> u32
    requires on_board { All IsOnBoard loads.now }
    requires few { length loads.now ≤ most_waybills }
    ensures { result ≡ sum_by (λ a. a.load.pieces) loads.now }
{
    let mut pieces = 0;
    for aboard in loads {
        pieces += aboard.load.pieces;
    }
    pieces
}

/// Closes a flight: all that is built on it departs.
pub(crate) fn depart<'a>(
    on: &PlanContext,
    outbound: &Option<Outbound>,
    loads: &Loads,
    flight: &FlightDate,
) -> Result<Plan<'a>, PlanFault>
    requires on_board { All IsOnBoard loads.now }
    requires noted { (length loads.now == 0) ≡ false → IsSome outbound.now }
    ensures { IsAnswer result
        (decided (departing on.now.here outbound.now loads.now flight.now on.now.at)) }
{
    let loads = loads.as_slice();
    if let Some(noted) = outbound
        && noted.closed
    {
        return Err(refuse_flight(208, *flight));
    }
    if loads.is_empty() {
        return Err(refuse_flight(209, *flight));
    }
    let Some(Outbound { unload, .. }) = *outbound else {
        unreachable!()
    };
    let mut plan = blank(on.alloc, pieces_aboard(loads));
    plan.moves = departing_moves(on, loads, flight)?;
    plan.notices = departing_notices(on, loads, flight, unload)?;
    plan.notices.push(Notice::Manifest {
        here: on.here,
        flight: *flight,
        unload,
        lines: lines_of(on, loads)?,
    })?;
    plan.changes.push(Change::NoteFlight {
        flight: *flight,
        outbound: Outbound {
            unload,
            closed: true,
        },
    })?;
    Ok(plan)
}

/// Notifies the consignee of all that is free.
pub(crate) fn notify<'a>(
    on: &PlanContext,
    view: &WaybillView,
    awb: Awb,
    name: Name,
) -> Result<Plan<'a>, PlanFault>
    requires { IsHeld view.now.balances.free }
    ensures { IsAnswer result (decided (notifying on.now.here view.now awb name on.now.at)) }
{
    let Some(declared) = &view.declared else {
        return Err(refuse_waybill(201, awb));
    };
    if !is_same(declared.destination, on.here) {
        return Err(refuse_waybill(204, awb));
    }
    let free = view.balances.free;
    if free.pieces == 0 {
        return Err(refuse_free(free));
    }
    let event = Event::Notified { name, at: on.at };
    let mut plan = blank(on.alloc, free.pieces);
    add_notice(&mut plan.notices, on.here, awb, declared, event, free)?;
    plan.changes.push(Change::Declare {
        awb,
        declared: Declared {
            notified: true,
            ..*declared
        },
    })?;
    Ok(plan)
}

pub(crate) fn deliver<'a>(
    on: &PlanContext,
    view: &WaybillView,
    awb: Awb,
    pieces: Pieces,
    name: Name,
) -> Result<Plan<'a>, PlanFault>
    requires { IsHeld view.now.balances.free }
    ensures { IsAnswer result
        (decided (delivering on.now.here view.now awb pieces name on.now.at)) }
{
    let Some(declared) = &view.declared else {
        return Err(refuse_waybill(201, awb));
    };
    if !is_same(declared.destination, on.here) {
        return Err(refuse_waybill(204, awb));
    }
    if !declared.notified {
        return Err(refuse_waybill(210, awb));
    }
    let free = view.balances.free;
    if free.pieces < pieces.number() {
        return Err(refuse_free(free));
    }
    let part = part_of(free, pieces.number());
    let event = Event::Delivered { name, at: on.at };
    let mut plan = blank(on.alloc, pieces.number());
    add_move(
        &mut plan.moves,
        awb,
        Place::Free,
        Place::Delivered,
        part,
        None,
        on.at,
    )?;
    add_notice(&mut plan.notices, on.here, awb, declared, event, part)?;
    Ok(plan)
}

/// Transfers free pieces to another airline, if the waybill goes on from here.
pub(crate) fn transfer<'a>(
    on: &PlanContext,
    view: &WaybillView,
    awb: Awb,
    pieces: Pieces,
) -> Result<Plan<'a>, PlanFault>
    requires { IsHeld view.now.balances.free }
    ensures { IsAnswer result (decided (transferring on.now.here view.now awb pieces on.now.at)) }
{
    let Some(declared) = &view.declared else {
        return Err(refuse_waybill(201, awb));
    };
    if is_same(declared.destination, on.here) {
        return Err(refuse_waybill(220, awb));
    }
    let free = view.balances.free;
    if free.pieces < pieces.number() {
        return Err(refuse_free(free));
    }
    let mut plan = blank(on.alloc, pieces.number());
    add_move(
        &mut plan.moves,
        awb,
        Place::Free,
        Place::Transferred,
        part_of(free, pieces.number()),
        None,
        on.at,
    )?;
    Ok(plan)
}
