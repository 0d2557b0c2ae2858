//! Missing and found pieces.

ghost use Rattle.std.specs.Prelude.{◌≡◌, ◌+◌, ◌≤◌, ◌++◌, OnOk, min};
ghost use Rattle.shipment_machine.specs.Book.{IsHeld, part};
ghost use Rattle.shipment_machine.specs.Effect.{decided, surplus, discrepancy_of, recording_missing, recording_found};
ghost use Rattle.shipment_machine.specs.Lawful.{IsAnswer, AreSound};

use crate::flight::FlightDate;
use crate::moves::{Amount, Declared, Place, part_of};
use crate::notice::{Event, Notice};
use crate::plan_parts::{
    PlanContext, add_move, add_notice, blank, fits_with, refuse_free, refuse_waybill, together,
    widened,
};
use crate::plans::{Plan, PlanFault};
use crate::view::WaybillView;
use awb_number::Awb;
use imp_fields::{Discrepancy, Pieces, Tenths, book_weight};
use std::alloc::AllocError;

/// Returns unannounced pieces, with at least a tenth each.
fn surplus_of(pieces: u32, tenths: u32) -> Amount
    ensures { result ≡ surplus pieces tenths }
{
    if pieces == 0 {
        return Amount {
            pieces: 0,
            tenths: 0,
        };
    }
    Amount {
        pieces,
        tenths: book_weight(pieces, tenths),
    }
}

/// Returns the part of `missing` that comes back when `pieces` are found.
fn returned(missing: Amount, pieces: u32) -> Amount
    requires held { IsHeld missing }
    requires some { 1 ≤ pieces }
    ensures value { result ≡ part missing (min pieces missing.pieces) }
    ensures held { IsHeld result }
    ensures within { result.tenths ≤ missing.tenths }
{
    if missing.pieces == 0 {
        return Amount {
            pieces: 0,
            tenths: 0,
        };
    }
    part_of(missing, pieces.min(missing.pieces))
}

fn add_discrepancy(
    notices: &mut Vec<Notice>,
    on: &PlanContext,
    awb: Awb,
    declared: &Declared,
    flight: &Option<FlightDate>,
    discrepancy: Discrepancy,
    amount: Amount,
) -> Result<(), AllocError>
    requires { IsHeld amount }
    ensures { OnOk result (notices.new.items ≡ notices.old.items
        ++ discrepancy_of on.now.here awb declared.now flight.now discrepancy on.now.at amount) }
{
    let Some(flight) = *flight else {
        return Ok(());
    };
    let event = Event::Differs {
        flight,
        at: on.at,
        discrepancy,
    };
    add_notice(notices, on.here, awb, declared, event, amount)
}

pub(crate) fn record_missing<'a>(
    on: &PlanContext,
    view: &WaybillView,
    awb: Awb,
    pieces: Pieces,
    flight: &Option<FlightDate>,
) -> Result<Plan<'a>, PlanFault>
    requires { IsHeld view.now.balances.free }
    ensures { IsAnswer result
        (decided (recording_missing on.now.here view.now awb pieces flight.now on.now.at)) }
{
    let Some(declared) = &view.declared else {
        return Err(refuse_waybill(201, awb));
    };
    let free = view.balances.free;
    if free.pieces < pieces.number() {
        return Err(refuse_free(free));
    }
    let part = part_of(free, pieces.number());
    let lost = Discrepancy::Missing;
    let mut plan = blank(on.alloc, pieces.number());
    add_move(
        &mut plan.moves,
        awb,
        Place::Free,
        Place::Missing,
        part,
        *flight,
        on.at,
    )?;
    add_discrepancy(&mut plan.notices, on, awb, declared, flight, lost, part)?;
    Ok(plan)
}

/// Records pieces as found: missing ones first, the rest as surplus.
pub(crate) fn record_found<'a>(
    on: &PlanContext,
    view: &WaybillView,
    awb: Awb,
    pieces: Pieces,
    tenths: Tenths,
    flight: &Option<FlightDate>,
) -> Result<Plan<'a>, PlanFault>
    requires { AreSound view.now.balances }
    ensures { IsAnswer result
        (decided (recording_found on.now.here view.now awb pieces tenths flight.now on.now.at)) }
{
    let Some(declared) = &view.declared else {
        return Err(refuse_waybill(201, awb));
    };
    let missing = view.balances.missing;
    let more = surplus_of(
        pieces.number().saturating_sub(missing.pieces),
        tenths.number(),
    );
    if !fits_with(&view.balances, widened(more.pieces), widened(more.tenths)) {
        return Err(refuse_waybill(217, awb));
    }
    let back = returned(missing, pieces.number());
    let both = together(back, more);
    let seen = Discrepancy::Found;
    let mut plan = blank(on.alloc, pieces.number());
    add_move(
        &mut plan.moves,
        awb,
        Place::Missing,
        Place::Free,
        back,
        *flight,
        on.at,
    )?;
    add_move(
        &mut plan.moves,
        awb,
        Place::Surplus,
        Place::Free,
        more,
        *flight,
        on.at,
    )?;
    add_discrepancy(&mut plan.notices, on, awb, declared, flight, seen, both)?;
    Ok(plan)
}
