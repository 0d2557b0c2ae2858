//! The paths of rows, as read and as printed.
ghost use Rattle.std.specs.Prelude.{◌≡◌, IfOk, option_map, string_bytes};
ghost use Rattle.http_desk.specs.Common.{result_ok, number_of};
ghost use Rattle.http_desk.specs.Request.{report_path, listing_path, rows_path, agent_code, agent_rows, flight_date, flight_part, flight_rows, in_form, numbered_rows, printout_at, row_number, rows_at, rows_named, rows_part, rows_word, waybill_rows};

use crate::request::number_told;
use crate::route::{key_in, key_segment};
use agent_stock::AgentCode;
use awb_number::Awb;
use desk_commands::read_day;
use imp_fields::Flight;
use reports::{Form, Listing, Report};
use shipment_machine::FlightDate;
use std::alloc::{AllocError, Global};

/// Rows to print, and their form.
#[derive(Clone, Copy)]
pub struct Printout {
    pub listing: Listing,
    pub form: Form,
}

fn read_twelve(bytes: &[u8; 12]) -> Option<Awb>
    ensures { result ≡ result_ok (number_of bytes.now) }
{
    match Awb::read(bytes) {
        Ok(number) => Some(number),
        Err(_) => None,
    }
}

pub(crate) fn number_in(text: &[u8]) -> Option<Awb>
    ensures { result ≡ result_ok (number_of text.now) }
{
    let bytes = <[u8; 12]>::try_from(text).ok()?;
    read_twelve(&bytes)
}

fn row_number(text: &str) -> Option<u32>
    ensures { result ≡ row_number text.now }
{
    match u32::try_from(number_told(text.as_bytes())?) {
        Ok(number) => Some(number),
        Err(_) => None,
    }
}

fn agent_code(text: &str) -> Option<AgentCode>
    ensures { result ≡ agent_code text.now }
{
    AgentCode::read(text.as_bytes())
}

fn flight_date(flight: &str, day: &str) -> Option<FlightDate>
    ensures { result ≡ flight_date flight.now day.now }
{
    let flight = Flight::read(flight.as_bytes())?;
    let day = read_day(day.as_bytes())?;
    Some(FlightDate { flight, day })
}

/// Returns the rows at a path of one segment.
fn rows_word(word: &str) -> Option<Listing>
    ensures { result ≡ rows_word word.now }
{
    match word {
        "outbox" => Some(Listing::All(Report::Pending)),
        "station" => Some(Listing::All(Report::Station)),
        _ => None,
    }
}

/// Returns the rows at a path of two segments.
fn rows_named(kind: &str, name: &str) -> Option<Listing>
    ensures { result ≡ rows_named kind.now name.now }
{
    match kind {
        "reports" => Listing::read(name.as_bytes()),
        "keys" => Some(Listing::Kept(key_in(name)?)),
        _ => None,
    }
}

/// Returns the rows of a part of a flight.
fn flight_part(flight: &str, day: &str, part: &str) -> Option<Listing>
    ensures { result ≡ flight_part flight.now day.now part.now }
{
    match part {
        "arrivals" => Some(Listing::Arrivals(flight_date(flight, day)?)),
        _ => None,
    }
}

/// Returns the rows of a flight, by what follows it in a path: its day, or its day and a part.
#[tactic(auto, unfolding(crate::specs::Request::flight_rows))]
fn flight_rows(flight: &str, rest: &str) -> Option<Listing>
    ensures { result ≡ flight_rows flight.now rest.now }
{
    match rest.split_once('/') {
        Some((day, part)) => flight_part(flight, day, part),
        None => Some(Listing::Manifest(flight_date(flight, rest)?)),
    }
}

fn agent_rows(code: &str, part: &str) -> Option<Listing>
    ensures { result ≡ agent_rows code.now part.now }
{
    match part {
        "stock" => Some(Listing::AgentStock(agent_code(code)?)),
        _ => None,
    }
}

fn waybill_rows(number: Awb, part: &str) -> Option<Listing>
    ensures { result ≡ waybill_rows part.now number }
{
    match part {
        "movements" => Some(Listing::Movements(number)),
        "sent" => Some(Listing::Sent(number)),
        "trail" => Some(Listing::Trail(number)),
        _ => None,
    }
}

/// Returns the rows of a kind after a number, or the last ones.
fn numbered_rows(kind: &str, side: &str, number: u32) -> Option<Listing>
    ensures { result ≡ numbered_rows kind.now side.now number }
{
    match (kind, side) {
        ("movements", "after") => Some(Listing::MovementsAfter(number)),
        ("movements", "last") => Some(Listing::MovementsLast(number)),
        ("outbox", "after") => Some(Listing::PendingAfter(number)),
        ("sent", "after") => Some(Listing::SentAfter(number)),
        ("trail", "after") => Some(Listing::TrailAfter(number)),
        ("trail", "last") => Some(Listing::TrailLast(number)),
        _ => None,
    }
}

/// Returns the rows at a path of three segments.
fn rows_part(kind: &str, second: &str, third: &str) -> Option<Listing>
    ensures { result ≡ rows_part kind.now second.now third.now }
{
    match kind {
        "agents" => agent_rows(second, third),
        "flights" => flight_rows(second, third),
        "waybills" => waybill_rows(number_in(second.as_bytes())?, third),
        _ => numbered_rows(kind, second, row_number(third)?),
    }
}

fn rows_at(path: &str) -> Option<Listing>
    ensures { result ≡ rows_at path.now }
{
    let rest = path.strip_prefix("/v1/")?;
    let Some((first, later)) = rest.split_once('/') else {
        return rows_word(rest);
    };
    match later.split_once('/') {
        Some((second, third)) => rows_part(first, second, third),
        None => rows_named(first, later),
    }
}

fn in_form(listing: Option<Listing>, form: Form) -> Option<Printout>
    ensures { result ≡ option_map (in_form form) listing }
{
    match listing {
        Some(listing) => Some(Printout { listing, form }),
        None => None,
    }
}

/// Returns the rows that a path requests, and their form.
pub(crate) fn printout_at(path: &str) -> Option<Printout>
    ensures { result ≡ printout_at path.now }
{
    match path.strip_suffix(".json") {
        Some(stem) => in_form(rows_at(stem), Form::Json),
        None => in_form(rows_at(path), Form::Text),
    }
}

fn report_path(report: Report) -> &'static str
    ensures { result.now ≡ report_path report }
{
    match report {
        Report::Stock => "/v1/reports/stock",
        Report::Announced => "/v1/reports/announced",
        Report::Shed => "/v1/reports/shed",
        Report::ShedDays => "/v1/reports/shed-days",
        Report::Flights => "/v1/reports/flights",
        Report::Expected => "/v1/reports/expected",
        Report::Irregularities => "/v1/reports/irregularities",
        Report::IrregularityDays => "/v1/reports/irregularity-days",
        Report::Movements => "/v1/reports/movements",
        Report::Trail => "/v1/reports/trail",
        Report::Pending => "/v1/outbox",
        Report::Sent => "/v1/reports/sent",
        Report::Station => "/v1/reports/station",
    }
}

fn listing_path(alloc: Global, listing: &Listing) -> Result<String, AllocError>
    ensures { IfOk result (λ path. string_bytes path ≡ listing_path listing.now) }
{
    match listing {
        Listing::All(report) => String::from_str(alloc, report_path(*report)),
        Listing::OpenFlights => String::from_str(alloc, "/v1/reports/open-flights"),
        Listing::OpenExpected => String::from_str(alloc, "/v1/reports/open-expected"),
        Listing::OpenIrregularities => String::from_str(alloc, "/v1/reports/open-irregularities"),
        Listing::AgentStock(code) => {
            let code = code.as_str();
            format!(in alloc; "/v1/agents/{code}/stock")
        }
        Listing::Movements(number) => format!(in alloc; "/v1/waybills/{number}/movements"),
        Listing::MovementsAfter(row) => format!(in alloc; "/v1/movements/after/{row}"),
        Listing::MovementsLast(rows) => format!(in alloc; "/v1/movements/last/{rows}"),
        Listing::Trail(number) => format!(in alloc; "/v1/waybills/{number}/trail"),
        Listing::TrailAfter(row) => format!(in alloc; "/v1/trail/after/{row}"),
        Listing::TrailLast(rows) => format!(in alloc; "/v1/trail/last/{rows}"),
        Listing::PendingAfter(row) => format!(in alloc; "/v1/outbox/after/{row}"),
        Listing::SentAfter(row) => format!(in alloc; "/v1/sent/after/{row}"),
        Listing::Sent(number) => format!(in alloc; "/v1/waybills/{number}/sent"),
        Listing::Kept(key) => {
            let segment = key_segment(key);
            format!(in alloc; "/v1/keys/{segment}")
        }
        Listing::Manifest(flight) => format!(in alloc; "/v1/flights/{flight}"),
        Listing::Arrivals(flight) => {
            let FlightDate {
                flight: designator,
                day,
            } = *flight;
            format!(in alloc; "/v1/flights/{designator}/{day}/arrivals")
        }
    }
}

/// Returns the path of rows in a form.
pub fn rows_path(alloc: Global, listing: &Listing, form: Form) -> Result<String, AllocError>
    ensures { IfOk result (λ path. string_bytes path ≡ rows_path listing.now form) }
{
    let path = listing_path(alloc, listing)?;
    match form {
        Form::Text => Ok(path),
        Form::Json => format!(in alloc; "{path}.json"),
    }
}
