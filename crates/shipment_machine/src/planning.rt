//! Planning of each command from a view that a lawful state can have.

ghost use Rattle.std.specs.Prelude.{◌≡◌, ◌↔◌, Ok, IfOk, IfErr, IsTrue, All, length};
ghost use Rattle.shipment_machine.specs.Common.{filter, bytes_eq};
ghost use Rattle.shipment_machine.specs.Book.{IsHeld};
ghost use Rattle.shipment_machine.specs.declared.command.ShipmentCommand.TheVariants as order;
ghost use Rattle.shipment_machine.specs.Cargo.{Cargo};
ghost use Rattle.shipment_machine.specs.Effect.{effect, expected_amount, lines_for, is_day};
ghost use Rattle.shipment_machine.specs.Lawful.{IsProper, AreRowsOf, AreSound, FitsCommand, IsAnswer, IsOnBoard, IsViewOf, RefusesAs, StaysLawful, meant_by, outcome_of, rows_answer};

use crate::acceptance::{amend, book, booked, claim_of, receive, withdraw};
use crate::arrival::{check_in, strike};
use crate::command::{DeskCommand, InboundLine, ShipmentCommand};
use crate::departure::{deliver, depart, notify, transfer};
use crate::inbound::announce;
use crate::irregular::{record_found, record_missing};
use crate::moves::{Amount, Balances, Expected};
use crate::notice::{confirm, note_status};
use crate::outbound::{manifest, offload, reroute};
use crate::plan_parts::PlanContext;
use crate::plans::{Plan, PlanFault};
use crate::view::{FlightLoad, Rows, RowsKey, View};
use imp_fields::{Airport, MOST_PIECES, MOST_TENTHS};
use station_days::{LocalDay, Moment, resolve};
use std::alloc::Global;

/// Returns whether an amount is within bounds, with at least a tenth a piece.
fn is_held(amount: &Amount) -> bool
    ensures { IsTrue result ↔ IsHeld amount.now }
{
    amount.pieces <= MOST_PIECES && amount.tenths <= MOST_TENTHS && amount.pieces <= amount.tenths
}

fn is_expected_held(expected: &Option<Expected>) -> bool
    ensures { IsTrue result ↔ IsHeld (expected_amount expected.now) }
{
    match expected {
        None => true,
        Some(row) => row.pieces.number() <= row.tenths.number(),
    }
}

/// Returns whether a lawful state can have these balances.
fn are_sound(balances: &Balances) -> bool
    ensures { IsTrue result ↔ AreSound balances.now }
{
    let came = u64::from(balances.taken.tenths) + u64::from(balances.found.tenths);
    is_held(&balances.free)
        && is_held(&balances.missing)
        && u64::from(balances.missing.tenths) <= came
}

fn is_on_board(aboard: &FlightLoad) -> bool
    ensures { IsTrue result ↔ IsOnBoard aboard.now }
{
    aboard.load.pieces >= 1 && is_held(&aboard.load)
}

fn are_on_board(loads: &[FlightLoad]) -> bool
    ensures { IsTrue result ↔ All IsOnBoard loads.now }
{
    for aboard in loads {
        if !is_on_board(aboard) {
            return false;
        }
    }
    true
}

fn count_for(here: Airport, lines: &[InboundLine]) -> usize
    ensures { result ≡ length (filter (λ line. bytes_eq line.unload here) lines.now) }
{
    lines.iter().filter(|line| line.unload == here).count()
}

fn lines_for(here: Airport, lines: &[InboundLine]) -> usize
    ensures { result ≡ length (lines_for here lines.now) }
{
    count_for(here, lines)
}

fn are_rows_of(key: RowsKey, rows: &Rows) -> bool
    ensures { IsTrue result ↔ AreRowsOf key rows.now }
{
    match key {
        RowsKey::Declaration(_) => matches!(rows, Rows::Declaration { .. }),
        RowsKey::Waybill(_) => match rows {
            Rows::Waybill { waybill } => are_sound(&waybill.balances),
            _ => false,
        },
        RowsKey::Manifest(_, _) => match rows {
            Rows::Manifest { waybill, .. } => are_sound(&waybill.balances),
            _ => false,
        },
        RowsKey::Offload(_, _) => match rows {
            Rows::Offload { load, .. } => is_held(load),
            _ => false,
        },
        RowsKey::Departure(_) => match rows {
            Rows::Departure { outbound, loads } => {
                are_on_board(loads.as_slice())
                    && (loads.as_slice().is_empty() || outbound.is_some())
            }
            _ => false,
        },
        RowsKey::CheckIn(_, _) => match rows {
            Rows::CheckIn { expected, .. } => is_expected_held(expected),
            _ => false,
        },
        RowsKey::Messages => matches!(rows, Rows::Messages { .. }),
    }
}

/// Returns whether a [`Moment`] can have the day.
fn has_day(meant: Option<u32>) -> bool
    ensures { result ≡ is_day meant }
{
    match meant {
        None => false,
        Some(day) => LocalDay::new(day).is_some(),
    }
}

/// Returns whether a lawful state can have these rows for the command, whose date means the day
/// `meant`.
fn fits(view: &View, command: &ShipmentCommand<'_>, meant: Option<u32>) -> bool
    ensures { IsTrue result ↔ FitsCommand view.now.here view.now.rows command.now meant }
{
    match command {
        ShipmentCommand::Desk(desk) => are_rows_of(desk.get().reads(), &view.rows),
        ShipmentCommand::Fwb(_) => matches!(view.rows, Rows::Declaration { .. }),
        ShipmentCommand::Ffm(part) => match &view.rows {
            Rows::Lines { lines, .. } => {
                !has_day(meant)
                    || lines.as_slice().len() == lines_for(view.here, part.lines.as_slice())
            }
            _ => false,
        },
        ShipmentCommand::Fsu(_) => matches!(view.rows, Rows::Status { .. }),
    }
}

/// Plans a command of the desk from the rows that it reads.
fn plan_desk<'a>(
    on: &PlanContext,
    rows: &Rows,
    command: &DeskCommand,
    meant: Option<u32>,
) -> Result<Plan<'a>, PlanFault>
    requires { FitsCommand on.now.here rows.now (order.Desk command.now) meant }
    ensures answer { IsAnswer result (rows_answer on.now.here rows.now
        (order.Desk command.now) on.now.at meant) }
    ensures proper { IsProper (order.Desk command.now) }
{
    match rows {
        Rows::Declaration { waybill } => match command {
            DeskCommand::Book {
                awb,
                origin,
                destination,
                pieces,
                tenths,
                goods,
            } => {
                let claim = booked(*origin, *destination, *pieces, *tenths, *goods);
                book(on, waybill, *awb, &claim)
            }
            _ => Err(PlanFault::Unfit),
        },
        Rows::Waybill { waybill } => match command {
            DeskCommand::Amend {
                awb,
                origin,
                destination,
                pieces,
                tenths,
                goods,
            } => {
                let claim = booked(*origin, *destination, *pieces, *tenths, *goods);
                amend(on, waybill, *awb, &claim)
            }
            DeskCommand::Receive {
                awb,
                pieces,
                tenths,
                name,
            } => receive(on, waybill, *awb, *pieces, *tenths, *name),
            DeskCommand::Withdraw { awb, pieces, .. } => withdraw(on, waybill, *awb, *pieces),
            DeskCommand::Notify { awb, name } => notify(on, waybill, *awb, *name),
            DeskCommand::Deliver { awb, pieces, name } => {
                deliver(on, waybill, *awb, *pieces, *name)
            }
            DeskCommand::Transfer { awb, pieces, .. } => transfer(on, waybill, *awb, *pieces),
            DeskCommand::Missing {
                awb,
                pieces,
                flight,
            } => record_missing(on, waybill, *awb, *pieces, flight),
            DeskCommand::Found {
                awb,
                pieces,
                tenths,
                flight,
            } => record_found(on, waybill, *awb, *pieces, *tenths, flight),
            _ => Err(PlanFault::Unfit),
        },
        Rows::Manifest {
            waybill,
            flight: beside,
        } => match command {
            DeskCommand::Manifest {
                awb,
                flight,
                unload,
                pieces,
            } => manifest(on, waybill, beside, *awb, flight, *unload, *pieces),
            _ => Err(PlanFault::Unfit),
        },
        Rows::Offload {
            declared,
            outbound,
            load,
        } => match command {
            DeskCommand::Offload {
                awb,
                flight,
                pieces,
            } => offload(on, declared, outbound, *load, *awb, flight, *pieces),
            _ => Err(PlanFault::Unfit),
        },
        Rows::Departure { outbound, loads } => match command {
            DeskCommand::Reroute { flight, unload } => reroute(
                on, outbound, loads, flight, *unload,
            ),
            DeskCommand::Depart { flight } => depart(on, outbound, loads, flight),
            _ => Err(PlanFault::Unfit),
        },
        Rows::CheckIn { waybill, expected } => match command {
            DeskCommand::CheckIn {
                awb,
                flight,
                counted,
            } => check_in(on, waybill, expected, *awb, flight, *counted),
            DeskCommand::Strike {
                awb,
                flight,
                pieces,
            } => strike(on, &waybill.declared, expected, *awb, flight, *pieces),
            _ => Err(PlanFault::Unfit),
        },
        Rows::Messages { confirmed, last } => match command {
            DeskCommand::Confirm { upto } => confirm(on, *confirmed, *last, *upto),
            _ => Err(PlanFault::Unfit),
        },
        Rows::Lines { .. } => Err(PlanFault::Unfit),
        Rows::Status { .. } => Err(PlanFault::Unfit),
    }
}

/// Plans a command from the rows that it reads. `meant` is the day that a manifest's date means.
fn plan_from<'a>(
    on: &PlanContext,
    rows: &Rows,
    command: &ShipmentCommand<'a>,
    meant: Option<u32>,
) -> Result<Plan<'a>, PlanFault>
    requires { FitsCommand on.now.here rows.now command.now meant }
    ensures answer { IsAnswer result
        (rows_answer on.now.here rows.now command.now on.now.at meant) }
    // Guaranteed by the types.
    ensures proper { IfOk result (λ _. IsProper command.now) }
{
    match command {
        ShipmentCommand::Desk(desk) => plan_desk(on, rows, desk.get(), meant),
        ShipmentCommand::Fwb(cargo) => match rows {
            Rows::Declaration { waybill } => {
                book(on, waybill, cargo.get().awb, &claim_of(cargo.get()))
            }
            _ => Err(PlanFault::Unfit),
        },
        ShipmentCommand::Ffm(part) => match rows {
            Rows::Lines { taken, lines } => announce(on, *taken, lines, part, meant),
            _ => Err(PlanFault::Unfit),
        },
        ShipmentCommand::Fsu(status) => match rows {
            Rows::Status { declared } => note_status(on, declared, status),
            _ => Err(PlanFault::Unfit),
        },
    }
}

fn meant_by(command: &ShipmentCommand<'_>, at: Moment) -> Option<u32>
    ensures { result ≡ meant_by command.now at }
{
    match command {
        ShipmentCommand::Ffm(part) => resolve(part.date, at.day),
        ShipmentCommand::Desk(_) => None,
        ShipmentCommand::Fwb(_) => None,
        ShipmentCommand::Fsu(_) => None,
    }
}

/// Returns what a command does at a moment, or its first refusal with its detail. The contract
/// holds for each lawful state that has this view. No line of a telegram is copied, and the time is
/// proportional to the view.
///
/// # Errors
///
/// - [`PlanFault::Refused`]: the first refusal on the command's list.
/// - [`PlanFault::Unfit`]: no lawful state has this view for the command.
/// - [`PlanFault::Memory`]: memory ran out. There is no guarantee about the command.
pub fn plan<'a>(
    alloc: Global,
    view: &View,
    command: &ShipmentCommand<'a>,
    at: Moment,
) -> Result<Plan<'a>, PlanFault>
    ensures planned { (s : Cargo) → IsViewOf s command.now at view.now
        → IfOk result (λ plan. effect s command.now at ≡ Ok (outcome_of plan)) }
    ensures refused { (s : Cargo) → IsViewOf s command.now at view.now
        → IfErr result (RefusesAs (effect s command.now at)) }
    // The text of the noted part is not yet stored.
    ensures stays_lawful { (s : Cargo) → IsViewOf s command.now at view.now
        → IfOk result (StaysLawful s) }
{
    let meant = meant_by(command, at);
    if !fits(view, command, meant) {
        return Err(PlanFault::Unfit);
    }
    let on = PlanContext {
        alloc,
        here: view.here,
        at,
    };
    plan_from(&on, &view.rows, command, meant)
}
