//! The report, or the part of one, that the words of `report` request.
//! The numbers of `serve` and of a report's rows.

ghost use Rattle.std.specs.Prelude.{◌≡◌, IfOk, IfSome, ◌≤◌};
ghost use Rattle.cli_words.specs.Line.{form_of, HasAgent, HasFlight, HasPart, IsAfter, IsFlightDay, IsLast, IsListed, IsOpen, IsOfWaybill, IsNumber};

use crate::fault::{BadValue, ROW};
use crate::read::read_number;
use crate::words::ReportWords;
use agent_stock::AgentCode;
use desk_commands::read_day;
use imp_fields::Flight;
use reports::{Form, Listing, Report};
use shipment_machine::FlightDate;

pub(crate) fn form_of(json: bool) -> Form
    ensures { result ≡ form_of json }
{
    if json { Form::Json } else { Form::Text }
}

fn open_part(report: Report) -> Option<Listing>
    ensures { IfSome result (IsOpen report) }
{
    match report {
        Report::Flights => Some(Listing::OpenFlights),
        Report::Expected => Some(Listing::OpenExpected),
        Report::Irregularities => Some(Listing::OpenIrregularities),
        _ => None,
    }
}

/// Returns an agent's rows of a report.
fn agent_part<'a>(report: Report, name: &'a str, code: &'a str) -> Result<Listing, BadValue<'a>>
    ensures { IfOk result (HasAgent report code.entry.now) }
{
    if report != Report::Stock {
        return Err(BadValue::Part(name));
    }
    let expected = "expected a code: 1 to 11 upper-case letters or digits";
    let bad = BadValue::Invalid("--agent", code, expected);
    Ok(Listing::AgentStock(AgentCode::read(code.as_bytes()).ok_or(bad)?))
}

fn waybill_part<'a>(report: Report, name: &'a str, word: &'a str) -> Result<Listing, BadValue<'a>>
    ensures { IfOk result (IsOfWaybill report word.entry.now) }
{
    let number = read_number(word)?;
    match report {
        Report::Movements => Ok(Listing::Movements(number)),
        Report::Trail => Ok(Listing::Trail(number)),
        Report::Sent => Ok(Listing::Sent(number)),
        _ => Err(BadValue::Part(name)),
    }
}

/// Returns the rows after a number.
fn later_part<'a>(report: Report, name: &'a str, word: &'a str) -> Result<Listing, BadValue<'a>>
    ensures { IfOk result (IsAfter report word.entry.now) }
{
    let number = read_row(word).ok_or(BadValue::Invalid("--after", word, ROW))?;
    match report {
        Report::Movements => Ok(Listing::MovementsAfter(number)),
        Report::Trail => Ok(Listing::TrailAfter(number)),
        Report::Sent => Ok(Listing::SentAfter(number)),
        _ => Err(BadValue::Part(name)),
    }
}

fn last_part<'a>(report: Report, name: &'a str, word: &'a str) -> Result<Listing, BadValue<'a>>
    ensures { IfOk result (IsLast report word.entry.now) }
{
    let number = read_row(word).ok_or(BadValue::Invalid("--last", word, ROW))?;
    match report {
        Report::Movements => Ok(Listing::MovementsLast(number)),
        Report::Trail => Ok(Listing::TrailLast(number)),
        _ => Err(BadValue::Part(name)),
    }
}

fn read_part<'a>(report: Report, words: ReportWords<'a>) -> Result<Listing, BadValue<'a>>
    ensures { IfOk result (HasPart report words.entry) }
{
    match (
        words.flight,
        words.open,
        words.agent,
        words.awb,
        words.after,
        words.last,
    ) {
        (None, false, None, None, None, None) => Ok(Listing::All(report)),
        (None, true, None, None, None, None) => {
            open_part(report).ok_or(BadValue::Part(words.name))
        }
        (None, false, Some(code), None, None, None) => agent_part(report, words.name, code),
        (None, false, None, Some(number), None, None) => waybill_part(report, words.name, number),
        (None, false, None, None, Some(number), None) => later_part(report, words.name, number),
        (None, false, None, None, None, Some(number)) => last_part(report, words.name, number),
        _ => Err(BadValue::Part(words.name)),
    }
}

fn read_flight(text: &str) -> Option<FlightDate>
    ensures { IfSome result (IsFlightDay text.now) }
{
    let (flight, day) = text.split_once("/")?;
    let flight = Flight::read(flight.as_bytes())?;
    let day = read_day(day.as_bytes())?;
    Some(FlightDate { flight, day })
}

/// Returns the flight of rows that need one.
fn read_of_flight<'a>(words: ReportWords<'a>) -> Result<FlightDate, BadValue<'a>>
    ensures { IfOk result (HasFlight words.entry) }
{
    match (
        words.flight,
        words.open,
        words.agent,
        words.awb,
        words.after,
        words.last,
    ) {
        (Some(text), false, None, None, None, None) => {
            let expected = "expected a flight, a slash and its day, such as LH400/2026-01-12";
            read_flight(text).ok_or(BadValue::Invalid("FLIGHT", text, expected))
        }
        (None, _, _, _, _, _) => Err(BadValue::Flightless(words.name)),
        _ => Err(BadValue::Part(words.name)),
    }
}

/// Returns the listing that the words of `report` request.
pub(crate) fn read_listing<'a>(words: ReportWords<'a>) -> Result<Listing, BadValue<'a>>
    ensures { IfOk result (IsListed words.entry) }
{
    if words.name.as_bytes() == b"manifest".as_slice() {
        return Ok(Listing::Manifest(read_of_flight(words)?));
    }
    if words.name.as_bytes() == b"arrivals".as_slice() {
        return Ok(Listing::Arrivals(read_of_flight(words)?));
    }
    let report = Report::read(words.name.as_bytes()).ok_or(BadValue::ReportName(words.name))?;
    read_part(report, words)
}

/// Reads a port: 1 to 65535.
pub(crate) fn read_port(text: &str) -> Option<u16>
    ensures value { IfSome result (IsNumber 16 text.now) }
    ensures least { IfSome result (λ port. 1 ≤ port) }
{
    match text.parse::<u16>() {
        Ok(port) if port >= 1 => Some(port),
        _ => None,
    }
}

/// Reads a count of connections: 1 to 4,294,967,295.
pub(crate) fn read_count(text: &str) -> Option<u32>
    ensures value { IfSome result (IsNumber 32 text.now) }
    ensures least { IfSome result (λ count. 1 ≤ count) }
{
    match text.parse::<u32>() {
        Ok(count) if count >= 1 => Some(count),
        _ => None,
    }
}

/// Reads the number of a row, or a number of rows: 0 to 4,294,967,295.
pub(crate) fn read_row(text: &str) -> Option<u32>
    ensures { IfSome result (IsNumber 32 text.now) }
{
    text.parse::<u32>().ok()
}
