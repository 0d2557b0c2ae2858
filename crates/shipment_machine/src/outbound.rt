//! Building, offloading and rerouting.

ghost use Rattle.std.specs.Prelude.{◌*◌, ◌<◌};
ghost use Rattle.shipment_machine.specs.Book.{IsHeld};
ghost use Rattle.shipment_machine.specs.Effect.{decided, manifesting, offloading, rerouting};
ghost use Rattle.shipment_machine.specs.Lawful.{IsAnswer};

use crate::flight::{FlightDate, MOST_WAYBILLS};
use crate::moves::{Amount, Declared, Outbound, Place, part_of};
use crate::notice::Event;
use crate::plan_parts::{
    PlanContext, add_move, add_notice, blank, is_same, refuse_flight, refuse_free, refuse_waybill,
};
use crate::plans::{Change, Plan, PlanFault};
use crate::view::{FlightView, Loads, WaybillView};
use awb_number::Awb;
use imp_fields::{Airport, Discrepancy, Pieces};

/// Builds free pieces on a flight, which is noted if it is new.
pub(crate) fn manifest<'a>(
    on: &PlanContext,
    view: &WaybillView,
    beside: &FlightView,
    awb: Awb,
    flight: &FlightDate,
    unload: Airport,
    pieces: Pieces,
) -> Result<Plan<'a>, PlanFault>
    requires { IsHeld view.now.balances.free }
    ensures { IsAnswer result
        (decided (manifesting on.now.here view.now beside.now awb flight.now unload pieces
        on.now.at)) }
{
    let Some(declared) = &view.declared else {
        return Err(refuse_waybill(201, awb));
    };
    if is_same(unload, on.here) {
        return Err(refuse_waybill(204, awb));
    }
    if let Some(outbound) = beside.outbound {
        if outbound.closed {
            return Err(refuse_flight(208, *flight));
        }
        if !is_same(outbound.unload, unload) {
            return Err(refuse_flight(218, *flight));
        }
    }
    let free = view.balances.free;
    if free.pieces < pieces.number() {
        return Err(refuse_free(free));
    }
    if beside.load.pieces == 0 && usize::from(beside.waybills) >= MOST_WAYBILLS {
        return Err(refuse_flight(219, *flight));
    }
    let part = part_of(free, pieces.number());
    let event = Event::Manifested {
        flight: *flight,
        unload,
    };
    let built = Place::Built(*flight);
    let named = Some(*flight);
    let mut plan = blank(on.alloc, pieces.number());
    add_move(&mut plan.moves, awb, Place::Free, built, part, named, on.at)?;
    add_notice(&mut plan.notices, on.here, awb, declared, event, part)?;
    if beside.outbound.is_none() {
        let outbound = Outbound {
            unload,
            closed: false,
        };
        plan.changes.push(Change::NoteFlight {
            flight: *flight,
            outbound,
        })?;
    }
    Ok(plan)
}

/// Takes built pieces off a flight.
pub(crate) fn offload<'a>(
    on: &PlanContext,
    declared: &Option<Declared>,
    outbound: &Option<Outbound>,
    load: Amount,
    awb: Awb,
    flight: &FlightDate,
    pieces: Pieces,
) -> Result<Plan<'a>, PlanFault>
    requires { IsHeld load }
    ensures { IsAnswer result
        (decided (offloading on.now.here declared.now outbound.now load awb flight.now pieces
        on.now.at)) }
{
    let Some(declared) = declared else {
        return Err(refuse_waybill(201, awb));
    };
    if let Some(outbound) = outbound
        && outbound.closed
    {
        return Err(refuse_flight(208, *flight));
    }
    if load.pieces < pieces.number() {
        return Err(refuse_waybill(207, awb));
    }
    let part = part_of(load, pieces.number());
    let event = Event::Differs {
        flight: *flight,
        at: on.at,
        discrepancy: Discrepancy::Offloaded,
    };
    let built = Place::Built(*flight);
    let named = Some(*flight);
    let mut plan = blank(on.alloc, pieces.number());
    add_move(&mut plan.moves, awb, built, Place::Free, part, named, on.at)?;
    add_notice(&mut plan.notices, on.here, awb, declared, event, part)?;
    Ok(plan)
}

/// Changes the airport of unloading of a noted flight on which nothing is built.
pub(crate) fn reroute<'a>(
    on: &PlanContext,
    outbound: &Option<Outbound>,
    loads: &Loads,
    flight: &FlightDate,
    unload: Airport,
) -> Result<Plan<'a>, PlanFault>
    ensures { IsAnswer result
        (decided (rerouting on.now.here outbound.now loads.now flight.now unload)) }
{
    let Some(noted) = *outbound else {
        return Err(refuse_flight(221, *flight));
    };
    if noted.closed {
        return Err(refuse_flight(208, *flight));
    }
    if is_same(unload, on.here) {
        return Err(refuse_flight(204, *flight));
    }
    if !loads.as_slice().is_empty() {
        return Err(refuse_flight(222, *flight));
    }
    let count = if is_same(noted.unload, unload) { 0 } else { 1 };
    let mut plan = blank(on.alloc, count);
    plan.changes.push(Change::NoteFlight {
        flight: *flight,
        outbound: Outbound {
            unload,
            closed: false,
        },
    })?;
    Ok(plan)
}
