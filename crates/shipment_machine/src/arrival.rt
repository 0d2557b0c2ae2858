//! Checking in a flight.

ghost use Rattle.std.specs.Prelude.{◌≡◌, ◌+◌, ◌-◌, ◌*◌, ◌/◌, ◌≤◌, ◌<◌, ◌^◌, Some, None, IfSome, IfOk, if◌then◌else◌};
ghost use Rattle.shipment_machine.specs.Book.{GoesWith, IsHeld, IsPartOf, amount, plus, fits};
ghost use Rattle.shipment_machine.specs.Effect.{decided, came_in, expected_amount, counted_in, uncounted, counted_more, check_in_moves, check_in_notices, checking_in, struck, striking};
ghost use Rattle.shipment_machine.specs.Lawful.{IsAnswer};
ghost use Rattle.shipment_machine.specs.declared.notice.Event.TheVariants as event;
ghost use Rattle.shipment_machine.specs.Common.{most_pieces};

use crate::command::PieceCount;
use crate::flight::FlightDate;
use crate::moves::{Amount, Balances, Declared, Expected, Move, Place};
use crate::notice::{Event, Notice};
use crate::plan_parts::{
    PlanContext, add_move, add_notice, blank, fits_with, pieces_of, refuse_waybill, tenths_of,
    together, widened,
};
use crate::plans::{Change, Plan, PlanFault};
use crate::view::WaybillView;
use awb_number::Awb;
use imp_fields::{Discrepancy, Pieces, share};
use station_days::Moment;
use std::alloc::AllocError;

/// Returns the counted part of the expected amount.
fn counted_of(whole: Amount, counted: u32) -> Amount
    requires held { IsHeld whole }
    requires some { 1 ≤ whole.pieces }
    ensures value { result ≡ counted_in whole counted }
    ensures part { IsPartOf result whole }
{
    if counted <= whole.pieces {
        Amount {
            pieces: counted,
            tenths: share(whole.pieces, whole.tenths, counted) as u32,
        }
    } else {
        whole
    }
}

/// Returns the part of the expected amount that wasn't counted.
fn rest_of(whole: Amount, counted: u32) -> Amount
    requires held { IsHeld whole }
    requires some { 1 ≤ whole.pieces }
    ensures value { result ≡ uncounted whole counted }
    ensures held { IsHeld result }
{
    let found = counted_of(whole, counted);
    Amount {
        pieces: whole.pieces - found.pieces,
        tenths: whole.tenths - found.tenths,
    }
}

/// Returns the weight of pieces beyond the expected ones.
fn tenths_beyond(whole: Amount, pieces: u32) -> u64
    requires held { IsHeld whole }
    requires some { 1 ≤ whole.pieces }
    requires few { pieces ≤ most_pieces }
    ensures value { result ≡ whole.tenths * pieces / whole.pieces }
    ensures heavy { pieces ≤ result }
    ensures bound { result < 2 ^ 61 }
{
    share(whole.pieces, whole.tenths, pieces)
}

/// Returns the amount counted beyond the expected one, or `None` if the waybill's sums would exceed
/// the bounds.
fn more_of(balances: &Balances, whole: Amount, counted: u32) -> Option<Amount>
    requires held { IsHeld whole }
    requires some { 1 ≤ whole.pieces }
    requires few { counted ≤ most_pieces }
    ensures value { result
        ≡ (if fits (plus (came_in balances.now) (plus whole (counted_more whole counted)))
        then Some (counted_more whole counted) else None) }
    ensures fitting { IfSome result (GoesWith whole) }
{
    let pieces = counted.saturating_sub(whole.pieces);
    let tenths = tenths_beyond(whole, pieces);
    if !fits_with(
        balances,
        widened(whole.pieces) + widened(pieces),
        widened(whole.tenths) + tenths,
    ) {
        return None;
    }
    Some(Amount {
        pieces,
        tenths: tenths as u32,
    })
}

fn differs(flight: &FlightDate, at: Moment, discrepancy: Discrepancy) -> Event
    ensures { result ≡ event.Differs flight.now at discrepancy }
{
    Event::Differs {
        flight: *flight,
        at,
        discrepancy,
    }
}

fn moves_in(
    on: &PlanContext,
    awb: Awb,
    flight: &FlightDate,
    whole: Amount,
    counted: u32,
    more: Amount,
) -> Result<Vec<Move>, AllocError>
    requires held { IsHeld whole }
    requires some { 1 ≤ whole.pieces }
    requires surplus { more ≡ counted_more whole counted }
    requires fitting { GoesWith whole more }
    ensures { IfOk result (λ moves. moves.items
        ≡ check_in_moves awb flight.now whole counted on.now.at) }
{
    let found = counted_of(whole, counted);
    let rest = rest_of(whole, counted);
    let mut moves = Vec::new(on.alloc);
    add_move(
        &mut moves,
        awb,
        Place::Hand,
        Place::Free,
        found,
        Some(*flight),
        on.at,
    )?;
    add_move(
        &mut moves,
        awb,
        Place::Hand,
        Place::Missing,
        rest,
        Some(*flight),
        on.at,
    )?;
    add_move(
        &mut moves,
        awb,
        Place::Surplus,
        Place::Free,
        more,
        Some(*flight),
        on.at,
    )?;
    Ok(moves)
}

/// Returns the status messages of a check-in.
fn notices_in(
    on: &PlanContext,
    declared: &Declared,
    awb: Awb,
    flight: &FlightDate,
    whole: Amount,
    counted: u32,
    more: Amount,
) -> Result<Vec<Notice>, AllocError>
    requires held { IsHeld whole }
    requires some { 1 ≤ whole.pieces }
    requires surplus { more ≡ counted_more whole counted }
    requires fitting { GoesWith whole more }
    ensures { IfOk result (λ notices. notices.items
        ≡ check_in_notices on.now.here awb declared.now flight.now whole counted on.now.at) }
{
    let found = counted_of(whole, counted);
    let rest = rest_of(whole, counted);
    let all = together(found, more);
    let mut notices = Vec::new(on.alloc);
    let event = Event::ReceivedFromFlight {
        flight: *flight,
        at: on.at,
    };
    add_notice(&mut notices, on.here, awb, declared, event, all)?;
    let event = differs(flight, on.at, Discrepancy::Missing);
    add_notice(&mut notices, on.here, awb, declared, event, rest)?;
    let event = differs(flight, on.at, Discrepancy::Found);
    add_notice(&mut notices, on.here, awb, declared, event, more)?;
    Ok(notices)
}

/// Receives the pieces counted of a waybill on a flight.
pub(crate) fn check_in<'a>(
    on: &PlanContext,
    view: &WaybillView,
    expected: &Option<Expected>,
    awb: Awb,
    flight: &FlightDate,
    counted: PieceCount,
) -> Result<Plan<'a>, PlanFault>
    requires { IsHeld (expected_amount expected.now) }
    ensures { IsAnswer result
        (decided (checking_in on.now.here view.now expected.now awb flight.now counted on.now.at)) }
{
    let Some(declared) = &view.declared else {
        return Err(refuse_waybill(201, awb));
    };
    let Some(row) = expected else {
        return Err(refuse_waybill(211, awb));
    };
    if row.checked {
        return Err(refuse_waybill(212, awb));
    }
    let whole = Amount {
        pieces: row.pieces.number(),
        tenths: row.tenths.number(),
    };
    let Some(more) = more_of(&view.balances, whole, counted.number()) else {
        return Err(refuse_waybill(217, awb));
    };
    let mut plan = blank(on.alloc, counted.number());
    plan.moves = moves_in(on, awb, flight, whole, counted.number(), more)?;
    plan.notices = notices_in(on, declared, awb, flight, whole, counted.number(), more)?;
    plan.changes.push(Change::Expect {
        flight: *flight,
        awb,
        expected: Expected {
            checked: true,
            ..*row
        },
    })?;
    Ok(plan)
}

fn struck(row: &Expected, pieces: u32) -> Expected
    requires held { IsHeld (amount row.now.pieces row.now.tenths) }
    requires within { pieces ≤ row.now.pieces }
    ensures { result ≡ struck (amount row.now.pieces row.now.tenths) pieces }
{
    let whole = Amount {
        pieces: row.pieces.number(),
        tenths: row.tenths.number(),
    };
    if pieces >= whole.pieces {
        return Expected {
            checked: true,
            ..*row
        };
    }
    let rest = rest_of(whole, pieces);
    Expected {
        pieces: pieces_of(rest.pieces),
        tenths: tenths_of(rest.tenths),
        checked: false,
    }
}

/// Reduces what a flight is expected to bring of a waybill, without a move.
pub(crate) fn strike<'a>(
    on: &PlanContext,
    declared: &Option<Declared>,
    expected: &Option<Expected>,
    awb: Awb,
    flight: &FlightDate,
    pieces: Pieces,
) -> Result<Plan<'a>, PlanFault>
    requires { IsHeld (expected_amount expected.now) }
    ensures { IsAnswer result
        (decided (striking declared.now expected.now awb flight.now pieces)) }
{
    if declared.is_none() {
        return Err(refuse_waybill(201, awb));
    }
    let Some(row) = expected else {
        return Err(refuse_waybill(211, awb));
    };
    if row.checked {
        return Err(refuse_waybill(212, awb));
    }
    if row.pieces.number() < pieces.number() {
        return Err(refuse_waybill(224, awb));
    }
    let mut plan = blank(on.alloc, pieces.number());
    plan.changes.push(Change::Expect {
        flight: *flight,
        awb,
        expected: struck(row, pieces.number()),
    })?;
    Ok(plan)
}
