//! Declaring, receiving and withdrawing cargo.

ghost use Rattle.std.specs.Prelude.{◌≡◌, ℕ, ◌≤◌, ◌++◌, Some, None, OnOk, if◌then◌else◌};
ghost use Rattle.shipment_machine.specs.Book.{IsHeld, amount, fits};
ghost use Rattle.shipment_machine.specs.Effect.{decided, at_desk_or_void, amending, booked, dated, declare, declared_by, declaring, has_room, receiving, withdrawing, claimed};
ghost use Rattle.shipment_machine.specs.Lawful.{IsAnswer};
ghost use Rattle.shipment_machine.specs.Common.{most_pieces};

use crate::command::CargoLine;
use crate::moves::{Amount, Balances, Declared, Place, is_within, part_of};
use crate::notice::Event;
use crate::plan_parts::{
    PlanContext, add_move, add_notice, blank, fits_with, is_same, pieces_of, refuse_free,
    refuse_waybill, tenths_of, widened,
};
use crate::plans::{Change, Plan, PlanFault};
use crate::view::{DeclarationView, WaybillView};
use agent_stock::Holder;
use awb_number::Awb;
use imp_fields::{Airport, Goods, Name, Pieces, Tenths, book_weight, share};
use station_days::{LocalDay, Moment};
use std::alloc::AllocError;

/// A proposed declaration. Its amounts may exceed the bounds.
#[derive(Clone, Copy)]
pub(crate) struct ProposedDeclaration {
    pub(crate) origin: Airport,
    pub(crate) destination: Airport,
    pub(crate) pieces: u32,
    /// The weight in tenths of a kilogram.
    pub(crate) tenths: u64,
    pub(crate) goods: Goods,
}

pub(crate) fn is_at_desk_or_void(holder: Option<Holder>) -> bool
    ensures { result ≡ at_desk_or_void holder }
{
    match holder {
        Some(Holder::Desk) => true,
        Some(Holder::Void) => true,
        _ => false,
    }
}

/// Adds the rows of a newly declared waybill.
pub(crate) fn add_declaration<'a>(
    changes: &mut Vec<Change<'a>>,
    holder: Option<Holder>,
    awb: Awb,
    declared: Declared,
) -> Result<(), AllocError>
    ensures { OnOk result (changes.new.items ≡ changes.old.items ++ declare holder awb declared) }
{
    changes.push(Change::Declare { awb, declared })?;
    if let Some(Holder::Agent(_)) = holder {
        changes.push(Change::UseUp { awb })?;
    }
    Ok(())
}

fn day_of(at: Moment) -> Option<LocalDay>
    ensures { result ≡ Some at.day }
{
    LocalDay::new(at.day)
}

/// Returns the declaration at a moment, or `None` if its amounts exceed the bounds.
pub(crate) fn declared_as(claim: &ProposedDeclaration, at: Moment) -> Option<Declared>
    requires { 1 ≤ claim.now.pieces }
    ensures { result ≡ (if fits (amount claim.now.pieces claim.now.tenths)
        then Some (dated at.day (claimed claim.now)) else None) }
{
    if !is_within(u64::from(claim.pieces), claim.tenths) {
        return None;
    }
    Some(Declared {
        origin: claim.origin,
        destination: claim.destination,
        pieces: pieces_of(claim.pieces),
        tenths: tenths_of(claim.tenths as u32),
        goods: claim.goods,
        notified: false,
        since: day_of(at),
    })
}

/// Returns what a consignment line declares: its total, if that exceeds its own pieces, at the same
/// weight a piece.
pub(crate) fn claim_of(line: &CargoLine) -> ProposedDeclaration
    ensures value { claimed result ≡ declared_by line.now }
    ensures own { 1 ≤ line.now.pieces }
    ensures some { 1 ≤ result.pieces }
    ensures bound { result.pieces ≤ most_pieces }
{
    let own = line.pieces.number();
    let pieces = match line.total {
        None => own,
        Some(total) => own.max(total.number()),
    };
    ProposedDeclaration {
        origin: line.origin,
        destination: line.destination,
        pieces,
        tenths: share(own, book_weight(own, line.tenths.number()), pieces),
        goods: line.goods,
    }
}

/// Returns what a booking declares: its pieces, with at least a tenth each.
pub(crate) fn booked(
    origin: Airport,
    destination: Airport,
    pieces: Pieces,
    tenths: Tenths,
    goods: Goods,
) -> ProposedDeclaration
    ensures value { claimed result ≡ booked origin destination pieces tenths goods }
    ensures some { 1 ≤ result.pieces }
    ensures own { 1 ≤ pieces }
{
    ProposedDeclaration {
        origin,
        destination,
        pieces: pieces.number(),
        tenths: u64::from(book_weight(pieces.number(), tenths.number())),
        goods,
    }
}

/// Declares a waybill, or declares it again as long as it has no moves.
pub(crate) fn book<'a>(
    on: &PlanContext,
    view: &DeclarationView,
    awb: Awb,
    claim: &ProposedDeclaration,
) -> Result<Plan<'a>, PlanFault>
    requires { 1 ≤ claim.now.pieces }
    ensures { IsAnswer result
        (decided (declaring view.now awb (dated on.now.at.day (claimed claim.now)))) }
{
    let Some(declared) = declared_as(claim, on.at) else {
        return Err(refuse_waybill(217, awb));
    };
    if view.declared.is_some() && view.has_moves {
        return Err(refuse_waybill(202, awb));
    }
    if is_at_desk_or_void(view.holder) {
        return Err(refuse_waybill(203, awb));
    }
    let mut plan = blank(on.alloc, claim.pieces);
    add_declaration(&mut plan.changes, view.holder, awb, declared)?;
    Ok(plan)
}

fn has_room(whole: Amount, part: Amount) -> bool
    ensures { result ≡ has_room whole part }
{
    part.pieces <= whole.pieces
        && widened(part.tenths) + widened(whole.pieces - part.pieces) <= widened(whole.tenths)
}

/// Replaces a waybill's declaration, if all that came in is free and fits in the new one.
pub(crate) fn amend<'a>(
    on: &PlanContext,
    view: &WaybillView,
    awb: Awb,
    claim: &ProposedDeclaration,
) -> Result<Plan<'a>, PlanFault>
    requires { 1 ≤ claim.now.pieces }
    ensures { IsAnswer result (decided
        (amending on.now.here view.now awb (dated on.now.at.day (claimed claim.now)))) }
{
    let Some(old) = &view.declared else {
        return Err(refuse_waybill(201, awb));
    };
    let Balances {
        taken,
        found,
        free,
        ..
    } = view.balances;
    let turns_origin = is_same(old.origin, on.here) != is_same(claim.origin, on.here);
    if taken.pieces > 0 && turns_origin {
        return Err(refuse_waybill(204, awb));
    }
    let Some(declared) = declared_as(claim, on.at) else {
        return Err(refuse_waybill(217, awb));
    };
    if widened(free.pieces) < widened(taken.pieces) + widened(found.pieces) {
        return Err(refuse_waybill(225, awb));
    }
    let whole = Amount {
        pieces: declared.pieces.number(),
        tenths: declared.tenths.number(),
    };
    if !has_room(whole, free) {
        return Err(refuse_waybill(226, awb));
    }
    let mut plan = blank(on.alloc, claim.pieces);
    plan.changes.push(Change::Declare { awb, declared })?;
    Ok(plan)
}

/// Receives pieces from the shipper or an agent.
pub(crate) fn receive<'a>(
    on: &PlanContext,
    view: &WaybillView,
    awb: Awb,
    pieces: Pieces,
    tenths: Tenths,
    name: Name,
) -> Result<Plan<'a>, PlanFault>
    ensures { IsAnswer result
        (decided (receiving on.now.here view.now awb pieces tenths name on.now.at)) }
{
    let Some(declared) = &view.declared else {
        return Err(refuse_waybill(201, awb));
    };
    if !is_same(declared.origin, on.here) {
        return Err(refuse_waybill(204, awb));
    }
    let amount = Amount {
        pieces: pieces.number(),
        tenths: book_weight(pieces.number(), tenths.number()),
    };
    if u64::from(declared.pieces.number())
        < u64::from(view.balances.taken.pieces) + u64::from(amount.pieces)
    {
        return Err(refuse_waybill(205, awb));
    }
    if !fits_with(
        &view.balances,
        u64::from(amount.pieces),
        u64::from(amount.tenths),
    ) {
        return Err(refuse_waybill(217, awb));
    }
    let event = Event::ReceivedFromShipper { name, at: on.at };
    let mut plan = blank(on.alloc, amount.pieces);
    let (hand, free) = (Place::Hand, Place::Free);
    add_move(&mut plan.moves, awb, hand, free, amount, None, on.at)?;
    add_notice(&mut plan.notices, on.here, awb, declared, event, amount)?;
    Ok(plan)
}

/// Returns free pieces to the shipper or agent, at most as many as were received.
pub(crate) fn withdraw<'a>(
    on: &PlanContext,
    view: &WaybillView,
    awb: Awb,
    pieces: Pieces,
) -> Result<Plan<'a>, PlanFault>
    requires { IsHeld view.now.balances.free }
    ensures { IsAnswer result (decided (withdrawing on.now.here view.now awb pieces on.now.at)) }
{
    let Some(declared) = &view.declared else {
        return Err(refuse_waybill(201, awb));
    };
    if !is_same(declared.origin, on.here) {
        return Err(refuse_waybill(204, awb));
    }
    let free = view.balances.free;
    if free.pieces < pieces.number() {
        return Err(refuse_free(free));
    }
    let part = part_of(free, pieces.number());
    let taken = view.balances.taken;
    if taken.pieces < pieces.number() || taken.tenths < part.tenths {
        return Err(refuse_waybill(223, awb));
    }
    let mut plan = blank(on.alloc, pieces.number());
    let (free, hand) = (Place::Free, Place::Hand);
    add_move(&mut plan.moves, awb, free, hand, part, None, on.at)?;
    Ok(plan)
}
