//! The cells of a row: what a report shows of it, as a line and as a JSON object.

ghost use Rattle.std.specs.Prelude.{◌≡◌, ◌++◌, ◌∷◌, ◌<◌, IfOk, OnOk, decimal, length, string_bytes};
ghost use Rattle.reports.specs.Common.{flat_map, compact_text};
ghost use Rattle.reports.specs.Reports.{cell_text, data_of, field_of, label_text, line_of, next_text, in_form};
ghost use Rattle.reports.specs.declared.cells.Cell.TheVariants as cell;

use crate::arrivals::ArrivalState;
use crate::layout::{
    Form, amount_text, day_or_none, flight_column, flight_or_none, goods_or_none, moment_text,
    notified_or_none, number_right, open_or, places_text, program_version, serials_text,
    state_word,
};
use crate::objects::{
    airport_text, amount_members, amount_object, awb_text, flag, flight_members, flight_or_null,
    holder_members, moment_members, place_members, quoted, route_members, serial_members,
    since_text,
};
use agent_stock::{Holder, StockRun};
use awb_number::{Awb, ascii_text};
use imp_fields::{Airport, Goods};
use shipment_machine::{Amount, FlightDate, Place};
use station_days::{LocalDay, Moment};
use std::alloc::{AllocError, Global};

/// The word in front of a sum or a number in a line, which is also the name of its member.
#[derive(Clone, Copy)]
pub(crate) enum Label {
    Built,
    Came,
    Confirmed,
    Departed,
    Files,
    Found,
    Free,
    Messages,
    Missing,
    Moves,
    Surplus,
    Trail,
}

/// A field of a row's line, and the members that say the same in the row's object.
#[derive(Clone, Copy)]
pub(crate) enum Cell {
    /// The airport of a station.
    Airport(Airport),
    /// Pieces and their weight in tenths of a kilogram.
    Amount(u64, u64),
    Awb(Awb),
    /// `true` for an expectation that was checked in.
    Checked(bool),
    /// `true` for a flight that has departed.
    Closed(bool),
    /// The number of waybill numbers of a run.
    Count(u32),
    /// A number of the station.
    Figure(Label, u32),
    Flight(FlightDate),
    Goods(Goods),
    Holder(Holder),
    Moment(Moment),
    /// `true` if the consignee was notified.
    Notified(bool),
    /// The number of a movement.
    Number(u32),
    /// The flight that a movement names.
    OnFlight(Option<FlightDate>),
    /// The places that pieces leave and come to.
    Places(Place, Place),
    /// The version of the program.
    Program,
    /// The airports of origin and destination.
    Route(Airport, Airport),
    /// The first and the last number of a run.
    Serials(StockRun),
    /// The day of a declaration, or since which something has lasted.
    Since(Option<LocalDay>),
    /// What is known of an announced waybill.
    State(ArrivalState),
    /// Pieces in one place.
    Sum(Label, Amount),
    /// The airport where a flight unloads.
    Unload(Airport),
    /// The number of waybills on a flight.
    Waybills(u16),
}

fn label_text(label: Label) -> &'static str
    ensures { result.now ≡ label_text label }
{
    match label {
        Label::Built => "built",
        Label::Came => "came",
        Label::Confirmed => "confirmed",
        Label::Departed => "departed",
        Label::Files => "files",
        Label::Found => "found",
        Label::Free => "free",
        Label::Messages => "messages",
        Label::Missing => "missing",
        Label::Moves => "moves",
        Label::Surplus => "surplus",
        Label::Trail => "trail",
    }
}

/// Returns a word and an amount, with a space between them.
fn sum_text(alloc: Global, label: Label, sum: &Amount) -> Result<String, AllocError>
    ensures { IfOk result (λ text. string_bytes text ≡ field_of (cell.Sum label sum.now)) }
{
    let label = label_text(label);
    let amount = amount_text(alloc, u64::from(sum.pieces), u64::from(sum.tenths))?;
    format!(in alloc; "{label} {amount}")
}

/// Returns a word and a number, with a space between them.
fn figure_text(alloc: Global, label: Label, number: u32) -> Result<String, AllocError>
    ensures { IfOk result (λ text. string_bytes text ≡ field_of (cell.Figure label number)) }
{
    let label = label_text(label);
    format!(in alloc; "{label} {number}")
}

fn program_text(alloc: Global) -> Result<String, AllocError>
    ensures { IfOk result (λ text. string_bytes text ≡ field_of cell.Program) }
{
    let program = program_version();
    format!(in alloc; "program {program}")
}

fn field(alloc: Global, cell: &Cell) -> Result<String, AllocError>
    ensures { IfOk result (λ text. string_bytes text ≡ field_of cell.now) }
{
    match cell {
        Cell::Airport(airport) => airport.to_string(alloc),
        Cell::Amount(pieces, tenths) => amount_text(alloc, *pieces, *tenths),
        Cell::Awb(awb) => awb.to_string(alloc),
        Cell::Checked(checked) => String::from_str(alloc, open_or(*checked, "checked")),
        Cell::Closed(closed) => String::from_str(alloc, open_or(*closed, "closed")),
        Cell::Count(count) => number_right(alloc, u64::from(*count), 8),
        Cell::Figure(label, number) => figure_text(alloc, *label, *number),
        Cell::Flight(flight) => flight_column(alloc, flight),
        Cell::Goods(goods) => String::from_str(alloc, goods_or_none(goods)),
        Cell::Holder(holder) => holder.to_string(alloc),
        Cell::Moment(at) => moment_text(alloc, at),
        Cell::Notified(notified) => String::from_str(alloc, notified_or_none(*notified)),
        Cell::Number(number) => number_right(alloc, u64::from(*number), 8),
        Cell::OnFlight(flight) => flight_or_none(alloc, flight),
        Cell::Places(from, to) => places_text(alloc, from, to),
        Cell::Program => program_text(alloc),
        Cell::Route(origin, destination) => format!(in alloc; "{origin}{destination}"),
        Cell::Serials(run) => serials_text(alloc, run),
        Cell::Since(day) => day_or_none(alloc, *day),
        Cell::State(state) => String::from_str(alloc, state_word(*state)),
        Cell::Sum(label, sum) => sum_text(alloc, *label, sum),
        Cell::Unload(airport) => airport.to_string(alloc),
        Cell::Waybills(waybills) => number_right(alloc, u64::from(*waybills), 4),
    }
}

/// Returns a member, by its name and its value as JSON.
fn member(alloc: Global, name: &str, value: &str) -> Result<String, AllocError>
    ensures { IfOk result (λ text. string_bytes text ≡ 34 ∷ (name.now ++ 34 ∷ 58 ∷ value.now)) }
{
    format!(in alloc; "\"{name}\":{value}")
}

/// Returns a member that is a number.
fn number(alloc: Global, name: &str, value: u32) -> Result<String, AllocError>
    ensures { IfOk result (λ text. string_bytes text ≡ 34 ∷ (name.now ++ 34 ∷ 58 ∷ decimal value)) }
{
    format!(in alloc; "\"{name}\":{value}")
}

/// Returns the members of a cell, with a comma between two.
#[tactic(auto, unfolding(serde_json::proofs::OnLiterals::serde_json_on_literals))]
fn members(alloc: Global, cell: &Cell) -> Result<String, AllocError>
    ensures { IfOk result (λ text. string_bytes text ≡ cell_text cell.now) }
{
    match cell {
        Cell::Airport(airport) => member(alloc, "airport", airport_text(alloc, airport)?.as_str()),
        Cell::Amount(pieces, tenths) => amount_members(alloc, *pieces, *tenths),
        Cell::Awb(awb) => member(alloc, "awb", awb_text(alloc, awb)?.as_str()),
        Cell::Checked(checked) => member(alloc, "checked", flag(*checked)),
        Cell::Closed(closed) => member(alloc, "closed", flag(*closed)),
        Cell::Count(count) => number(alloc, "count", *count),
        Cell::Figure(label, figure) => number(alloc, label_text(*label), *figure),
        Cell::Flight(flight) => flight_members(alloc, flight),
        Cell::Goods(goods) => {
            member(
                alloc,
                "goods",
                quoted(alloc, ascii_text(goods.as_bytes()))?.as_str(),
            )
        }
        Cell::Holder(holder) => holder_members(alloc, holder),
        Cell::Moment(at) => moment_members(alloc, at),
        Cell::Notified(notified) => member(alloc, "notified", flag(*notified)),
        Cell::Number(count) => number(alloc, "number", *count),
        Cell::OnFlight(flight) => member(alloc, "flight", flight_or_null(alloc, flight)?.as_str()),
        Cell::Places(from, to) => place_members(alloc, from, to),
        Cell::Program => member(alloc, "program", quoted(alloc, program_version())?.as_str()),
        Cell::Route(origin, destination) => route_members(alloc, origin, destination),
        Cell::Serials(run) => serial_members(alloc, run),
        Cell::Since(day) => member(alloc, "since", since_text(alloc, *day)?.as_str()),
        Cell::State(state) => {
            member(alloc, "state", quoted(alloc, state_word(*state))?.as_str())
        }
        Cell::Sum(label, sum) => {
            member(
                alloc,
                label_text(*label),
                amount_object(alloc, sum)?.as_str(),
            )
        }
        Cell::Unload(airport) => member(alloc, "unload", airport_text(alloc, airport)?.as_str()),
        Cell::Waybills(waybills) => number(alloc, "waybills", u32::from(*waybills)),
    }
}

/// Appends the field of a cell.
fn put_field(alloc: Global, cell: &Cell, out: &mut Vec<u8>) -> Result<(), AllocError>
    ensures { OnOk result (out.new.items ≡ out.old.items ++ field_of cell.now) }
{
    out.extend_from_slice(field(alloc, cell)?.as_bytes())
}

/// Appends the members of a cell.
fn put_members(alloc: Global, cell: &Cell, out: &mut Vec<u8>) -> Result<(), AllocError>
    ensures { OnOk result (out.new.items ≡ out.old.items ++ cell_text cell.now) }
{
    out.extend_from_slice(members(alloc, cell)?.as_bytes())
}

/// Appends a cell behind the ones before it.
fn put_next(alloc: Global, form: Form, cell: &Cell, out: &mut Vec<u8>) -> Result<(), AllocError>
    ensures { OnOk result (out.new.items ≡ out.old.items ++ next_text form cell.now) }
{
    match form {
        Form::Text => {
            out.push(b' ')?;
            put_field(alloc, cell, out)
        }
        Form::Json => {
            out.push(b',')?;
            put_members(alloc, cell, out)
        }
    }
}

/// Appends cells behind the ones before them.
fn put_rest(alloc: Global, form: Form, cells: &[Cell], out: &mut Vec<u8>) -> Result<(), AllocError>
    ensures { OnOk result (out.new.items ≡ out.old.items ++ flat_map (next_text form) cells.now) }
{
    for cell in cells {
        put_next(alloc, form, cell, out)?;
    }
    Ok(())
}

/// Appends the cells of a row, of which the first is apart, as a line.
#[tactic(auto, using(crate::proofs::CellTexts::line_put))]
fn put_line(alloc: Global, first: &Cell, rest: &[Cell], out: &mut Vec<u8>) -> Result<(), AllocError>
    ensures { OnOk result (out.new.items ≡ out.old.items ++ line_of (first.now ∷ rest.now)) }
{
    put_field(alloc, first, out)?;
    put_rest(alloc, Form::Text, rest, out)?;
    out.extend_from_slice(b"\n")
}

/// Appends them as an object.
#[tactic(auto, using(crate::proofs::CellTexts::object_put))]
fn put_object(
    alloc: Global,
    first: &Cell,
    rest: &[Cell],
    out: &mut Vec<u8>,
) -> Result<(), AllocError>
    ensures { OnOk result (out.new.items ≡ out.old.items ++ compact_text
        (data_of (first.now ∷ rest.now))) }
{
    out.push(b'{')?;
    put_members(alloc, first, out)?;
    put_rest(alloc, Form::Json, rest, out)?;
    out.extend_from_slice(b"}")
}

/// Appends the cells of a row, as a line or as an object.
pub(crate) fn put_cells(
    alloc: Global,
    form: Form,
    cells: &[Cell],
    out: &mut Vec<u8>,
) -> Result<(), AllocError>
    requires { 0 < length cells.now }
    ensures { OnOk result (out.new.items ≡ out.old.items ++ in_form form (line_of cells.now)
        (data_of cells.now)) }
{
    let (first, rest) = (&cells[0], &cells[1..]);
    match form {
        Form::Text => put_line(alloc, first, rest, out),
        Form::Json => put_object(alloc, first, rest, out),
    }
}
