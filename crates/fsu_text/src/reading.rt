//! The reader of status update messages. Each layout has a function of its own in the built
//! program: a single function would be slower.

ghost use Rattle.std.specs.Prelude.{◌≡◌, ℕ, List, [], ◌∷◌, ◌++◌, All, OnOk, IfOk, IfErr, Some, map, option_map, codes};
ghost use Rattle.fsu_text.specs.Common.{fields, line_texts, IsFaultOf};
ghost use Rattle.fsu_text.specs.Status.{day_of, handling_of, carriage_of, discrepancy_of, handled_by, handled_of, received_by, received_of, route_of, carried_by, carried_of, differs_by, differs_of, status_of};
ghost use Rattle.fsu_text.specs.Fsu.{IsFsu, fsu_fault, reading_of, update_of, HasFsuSpans, IsRead, AreRead};

use crate::sent::Fsu;
use crate::status::{Carriage, FlightDay, Handling, Status, StatusLine};
use imp_fields::{
    Airport, Discrepancy, Flight, Lines, Name, TextFault, Token, Why, cut_at_slash, fault_at,
    first_field, is_head, read_consignment, read_quantity,
};
use station_days::{DayMonth, DayTime};
use std::alloc::{AllocError, Global};
use std::slice;

/// Returns the event with code RCS, NFD or DLV.
fn handling(code: &[u8]) -> Option<Handling>
    ensures { result ≡ handling_of code.now }
{
    match code {
        b"RCS" => Some(Handling::ReceivedFromShipper),
        b"NFD" => Some(Handling::Notified),
        b"DLV" => Some(Handling::Delivered),
        _ => None,
    }
}

/// Returns the event with code BKD, MAN or DEP.
fn carriage(code: &[u8]) -> Option<Carriage>
    ensures { result ≡ carriage_of code.now }
{
    match code {
        b"BKD" => Some(Carriage::Booked),
        b"MAN" => Some(Carriage::Manifested),
        b"DEP" => Some(Carriage::Departed),
        _ => None,
    }
}

fn discrepancy(code: &[u8]) -> Option<Discrepancy>
    ensures { result ≡ discrepancy_of code.now }
{
    match code {
        b"OFLD" => Some(Discrepancy::Offloaded),
        b"MSCA" => Some(Discrepancy::Missing),
        b"FDCA" => Some(Discrepancy::Found),
        _ => None,
    }
}

/// Reads a date with an optional time.
fn flight_day(text: &[u8]) -> Option<FlightDay>
    ensures { result ≡ day_of text.now }
{
    if text.len() == 5 {
        let date = DayMonth::read(text)?;
        Some(FlightDay { date, minute: None })
    } else {
        let at = DayTime::read(text)?;
        Some(FlightDay {
            date: at.date,
            minute: Some(at.minute),
        })
    }
}

/// Returns an RCS, NFD or DLV from the fields after its code.
fn handled_by(
    event: Handling,
    at: &[u8],
    airport: &[u8],
    quantity: &[u8],
    name: &[u8],
) -> Option<Status>
    ensures { (code : List ℕ) → handling_of code ≡ Some event
        → option_map reading_of result ≡ handled_by code at.now airport.now quantity.now name.now }
{
    let at = DayTime::read(at)?;
    let airport = Airport::read(airport)?;
    let quantity = read_quantity(quantity)?;
    let name = Name::read(name)?;
    Some(Status::Handled {
        event,
        at,
        airport,
        quantity,
        name,
    })
}

/// Reads the text after the code of RCS, NFD or DLV and its slash.
#[inline(never)]
fn handled(event: Handling, text: &[u8]) -> Option<Status>
    ensures { (code : List ℕ) → handling_of code ≡ Some event
        → option_map reading_of result ≡ handled_of (code ∷ fields text.now) }
{
    let (at, rest) = cut_at_slash(text)?;
    let (airport, rest) = cut_at_slash(rest)?;
    let (quantity, name) = first_field(rest);
    handled_by(event, at, airport, quantity, name)
}

/// Returns an RCF from the fields after its code.
fn received_by(flight: &[u8], at: &[u8], airport: &[u8], quantity: &[u8]) -> Option<Status>
    ensures { option_map reading_of result ≡ received_by (codes "RCF") flight.now at.now airport.now
        quantity.now }
{
    let flight = Flight::read(flight)?;
    let at = DayTime::read(at)?;
    let airport = Airport::read(airport)?;
    let quantity = read_quantity(quantity)?;
    Some(Status::ReceivedFromFlight {
        flight,
        at,
        airport,
        quantity,
    })
}

/// Reads the text after the code of RCF and its slash.
#[inline(never)]
fn received(text: &[u8]) -> Option<Status>
    ensures { option_map reading_of result ≡ received_of (codes "RCF" ∷ fields text.now) }
{
    let flight = cut_at_slash(text)?;
    let at = cut_at_slash(flight.1)?;
    let airport = cut_at_slash(at.1)?;
    match cut_at_slash(airport.1) {
        Some(_) => None,
        None => received_by(flight.0, at.0, airport.0, airport.1),
    }
}

/// Reads the two airports of a route such as `FRAJFK`.
fn route(text: &[u8]) -> Option<(Airport, Airport)>
    ensures { result ≡ route_of text.now }
{
    let (from, to) = text.split_at_checked(3)?;
    let (from, to) = (Airport::read(from)?, Airport::read(to)?);
    Some((from, to))
}

/// Returns a BKD, MAN or DEP from the fields after its code.
fn carried_by(
    event: Carriage,
    flight: &[u8],
    day: &[u8],
    stations: &[u8],
    quantity: &[u8],
) -> Option<Status>
    ensures { (code : List ℕ) → carriage_of code ≡ Some event
        → option_map reading_of result ≡ carried_by code flight.now day.now stations.now
        quantity.now }
{
    let flight = Flight::read(flight)?;
    let day = flight_day(day)?;
    let (from, to) = route(stations)?;
    let quantity = read_quantity(quantity)?;
    Some(Status::Carried {
        event,
        flight,
        day,
        from,
        to,
        quantity,
    })
}

/// Reads the text after the code of BKD, MAN or DEP and its slash. Anything after the quantity is
/// ignored.
#[inline(never)]
fn carried(event: Carriage, text: &[u8]) -> Option<Status>
    ensures { (code : List ℕ) → carriage_of code ≡ Some event
        → option_map reading_of result ≡ carried_of (code ∷ fields text.now) }
{
    let (flight, rest) = cut_at_slash(text)?;
    let (day, rest) = cut_at_slash(rest)?;
    let (stations, rest) = cut_at_slash(rest)?;
    let (quantity, _) = first_field(rest);
    carried_by(event, flight, day, stations, quantity)
}

/// Returns a DIS from the fields after its code.
fn differs_by(
    flight: &[u8],
    day: &[u8],
    airport: &[u8],
    what: &[u8],
    quantity: &[u8],
) -> Option<Status>
    ensures { option_map reading_of result ≡ differs_by (codes "DIS") flight.now day.now airport.now
        what.now quantity.now }
{
    let flight = Flight::read(flight)?;
    let day = flight_day(day)?;
    let airport = Airport::read(airport)?;
    let discrepancy = discrepancy(what)?;
    let quantity = read_quantity(quantity)?;
    Some(Status::Differs {
        flight,
        day,
        airport,
        discrepancy,
        quantity,
    })
}

/// Reads the text after the code of DIS and its slash.
#[inline(never)]
fn differs(text: &[u8]) -> Option<Status>
    ensures { option_map reading_of result ≡ differs_of (codes "DIS" ∷ fields text.now) }
{
    let flight = cut_at_slash(text)?;
    let day = cut_at_slash(flight.1)?;
    let airport = cut_at_slash(day.1)?;
    let what = cut_at_slash(airport.1)?;
    match cut_at_slash(what.1) {
        Some(_) => None,
        None => differs_by(flight.0, day.0, airport.0, what.0, what.1),
    }
}

/// Reads a line of one of these layouts, by its code.
fn status(line: &[u8]) -> Option<Status>
    ensures { option_map reading_of result ≡ status_of line.now }
{
    let (code, rest) = cut_at_slash(line)?;
    if let Some(event) = handling(code) {
        return handled(event, rest);
    }
    if let Some(event) = carriage(code) {
        return carried(event, rest);
    }
    if code == b"RCF".as_slice() {
        return received(rest);
    }
    if code == b"DIS".as_slice() {
        return differs(rest);
    }
    None
}

/// Returns a line of a message for the trail.
fn status_line<'a>(text: &Token<'a>) -> StatusLine<'a>
    ensures text { result.text ≡ text.now }
    ensures read { IsRead result }
{
    StatusLine {
        text: *text,
        status: status(text.text),
    }
}

fn join<'a>(trail: &mut Vec<StatusLine<'a>>, text: &Token<'a>) -> Result<(), AllocError>
    ensures texts { OnOk result
        (map (λ l. l.text) trail.new.items ≡ map (λ l. l.text) trail.old.items ++ text.now ∷ []) }
    ensures read { OnOk result (All IsRead trail.old.items → All IsRead trail.new.items) }
{
    let line = status_line(text);
    trail.extend_from_slice(slice::from_ref(&line))
}

fn trail<'a>(alloc: Global, lines: &[Token<'a>]) -> Result<Vec<StatusLine<'a>>, AllocError>
    ensures texts { IfOk result (λ trail. map (λ l. l.text) trail.items ≡ lines.now) }
    ensures read { IfOk result (λ trail. All IsRead trail.items) }
{
    let mut trail = Vec::with_capacity(alloc, lines.len())?;
    for text in lines {
        join(&mut trail, text)?;
    }
    Ok(trail)
}

/// Reads a message.
///
/// # Errors
///
/// The fault of the first faulty line:
///
/// - `Head`: the first line isn't `FSU/` and one to three digits.
/// - the fault of a consignment line, for the second line.
/// - `Ending`, at the last line: there is no second or no third line.
///
/// `Memory`, line 0, says nothing about the lines.
pub fn read<'a>(alloc: Global, lines: &Lines<'a>) -> Result<Fsu<'a>, TextFault>
    ensures read { IfOk result (λ m. IsFsu (line_texts lines.now) (update_of m)) }
    ensures statuses { IfOk result AreRead }
    ensures fault { IfErr result (IsFaultOf (fsu_fault (line_texts lines.now))) }
    ensures spans { IfOk result (HasFsuSpans lines.now) }
{
    let lines = lines.lines.as_slice();
    if lines.is_empty() {
        return Err(fault_at(0, Why::Ending));
    }
    if !is_head(b"FSU", lines[0].text) {
        return Err(fault_at(1, Why::Head));
    }
    if lines.len() < 2 {
        return Err(fault_at(1, Why::Ending));
    }
    let consignment = match read_consignment(lines[1].text) {
        Ok(consignment) => consignment,
        Err(why) => return Err(fault_at(2, why)),
    };
    if lines.len() < 3 {
        return Err(fault_at(2, Why::Ending));
    }
    let (_, behind) = lines.split_at(2);
    match trail(alloc, behind) {
        Ok(trail) => Ok(Fsu { consignment, trail }),
        Err(_) => Err(fault_at(0, Why::Memory)),
    }
}
