//! Parts of a plan.

ghost use Rattle.std.specs.Prelude.{◌≡◌, ◌<◌, ◌^◌, ◌+◌, ◌≤◌, ◌++◌, [], OnOk};
ghost use Rattle.shipment_machine.specs.Common.{bytes_eq, IsPieces, IsBookTenths, most_pieces, most_tenths};
ghost use Rattle.shipment_machine.specs.Book.{IsHeld, amount, plus, fits};
ghost use Rattle.shipment_machine.specs.Effect.{about as waybill_refusal, only_free as free_refusal, on_flight as flight_refusal, move_of, status_of, consigned, came_in};
ghost use Rattle.shipment_machine.specs.declared.plans.PlanFault.TheVariants as fault;

use crate::flight::FlightDate;
use crate::moves::{Amount, Balances, Declared, Move, Place, is_within};
use crate::notice::{Event, Notice};
use crate::plans::{Detail, Plan, PlanFault, Refusal};
use awb_number::Awb;
use imp_fields::{Airport, BookTenths, Pieces, WaybillSummary};
use station_days::Moment;
use std::alloc::{AllocError, Global};

/// The context of a plan: the allocator, the station and the moment.
#[derive(Clone, Copy)]
pub(crate) struct PlanContext {
    pub(crate) alloc: Global,
    pub(crate) here: Airport,
    pub(crate) at: Moment,
}

pub(crate) fn refuse_waybill(number: u16, awb: Awb) -> PlanFault
    ensures { result ≡ fault.Refused (waybill_refusal number awb) }
{
    PlanFault::Refused(Refusal {
        number,
        detail: Detail::Waybill(awb),
    })
}

pub(crate) fn refuse_flight(number: u16, flight: FlightDate) -> PlanFault
    ensures { result ≡ fault.Refused (flight_refusal number flight) }
{
    PlanFault::Refused(Refusal {
        number,
        detail: Detail::Flight(flight),
    })
}

/// Returns the refusal for too few free pieces.
pub(crate) fn refuse_free(free: Amount) -> PlanFault
    requires { IsHeld free }
    ensures { result ≡ fault.Refused (free_refusal free.pieces) }
{
    PlanFault::Refused(Refusal {
        number: 206,
        detail: Detail::Pieces(free.pieces as u16),
    })
}

pub(crate) fn is_same(a: Airport, b: Airport) -> bool
    ensures { result ≡ bytes_eq a b }
{
    a == b
}

/// Widens a number so that sums can't overflow.
pub(crate) fn widened(number: u32) -> u64
    ensures value { result ≡ number }
    ensures bound { result < 2 ^ 32 }
{
    u64::from(number)
}

/// Returns whether the received and found amounts stay within bounds if these are added.
pub(crate) fn fits_with(balances: &Balances, pieces: u64, tenths: u64) -> bool
    requires few { pieces < 2 ^ 62 }
    requires light { tenths < 2 ^ 62 }
    ensures { result ≡ fits (plus (came_in balances.now) (amount pieces tenths)) }
{
    is_within(
        widened(balances.taken.pieces) + widened(balances.found.pieces) + pieces,
        widened(balances.taken.tenths) + widened(balances.found.tenths) + tenths,
    )
}

pub(crate) fn together(a: Amount, b: Amount) -> Amount
    requires pieces { a.pieces + b.pieces ≤ most_pieces }
    requires tenths { a.tenths + b.tenths ≤ most_tenths }
    ensures { result ≡ plus a b }
{
    Amount {
        pieces: a.pieces + b.pieces,
        tenths: a.tenths + b.tenths,
    }
}

/// Converts a number that is known to be a piece count.
pub(crate) fn pieces_of(number: u32) -> Pieces
    requires { IsPieces number }
    ensures { result ≡ number }
{
    Pieces::new(number).unwrap()
}

/// Converts a number that is known to be a book weight.
pub(crate) fn tenths_of(number: u32) -> BookTenths
    requires { IsBookTenths number }
    ensures { result ≡ number }
{
    BookTenths::new(number).unwrap()
}

pub(crate) fn consigned_as(awb: Awb, declared: &Declared) -> WaybillSummary
    ensures { result ≡ consigned awb declared.now }
{
    WaybillSummary {
        awb,
        origin: declared.origin,
        destination: declared.destination,
        pieces: declared.pieces,
        tenths: declared.tenths,
    }
}

pub(crate) fn blank<'a>(alloc: Global, count: u32) -> Plan<'a>
    ensures moves { result.moves.items ≡ [] }
    ensures notices { result.notices.items ≡ [] }
    ensures changes { result.changes.items ≡ [] }
    ensures count { result.count ≡ count }
{
    Plan {
        moves: Vec::new(alloc),
        notices: Vec::new(alloc),
        changes: Vec::new(alloc),
        count,
    }
}

pub(crate) fn add_move(
    moves: &mut Vec<Move>,
    awb: Awb,
    from: Place,
    to: Place,
    amount: Amount,
    flight: Option<FlightDate>,
    at: Moment,
) -> Result<(), AllocError>
    requires { IsHeld amount }
    ensures { OnOk result (moves.new.items ≡ moves.old.items
        ++ move_of awb from to amount flight at) }
{
    if amount.pieces == 0 {
        return Ok(());
    }
    moves.push(Move {
        awb,
        from,
        to,
        pieces: pieces_of(amount.pieces),
        tenths: tenths_of(amount.tenths),
        flight,
        at,
    })?;
    Ok(())
}

/// Adds a status message, unless the amount has no pieces.
pub(crate) fn add_notice(
    notices: &mut Vec<Notice>,
    here: Airport,
    awb: Awb,
    declared: &Declared,
    event: Event,
    amount: Amount,
) -> Result<(), AllocError>
    requires { IsHeld amount }
    ensures { OnOk result (notices.new.items ≡ notices.old.items
        ++ status_of here awb declared.now event amount) }
{
    if amount.pieces == 0 {
        return Ok(());
    }
    notices.push(Notice::Status {
        here,
        consigned: consigned_as(awb, declared),
        event,
        pieces: pieces_of(amount.pieces),
        tenths: tenths_of(amount.tenths),
    })?;
    Ok(())
}
