ghost use Rattle.std.specs.Prelude.{◌≡◌, ◌&&◌, pos, is_some, IsTrue, IfSome, IfOk, Some, string_bytes};
ghost use Rattle.row_codec.specs.Common.{bytes_eq, is_airport, flight_of, flight_text, flight_meant, noted_flight_meant, FlightKey};
ghost use Rattle.row_codec.specs.Flights.{is_number, is_day, is_flag, is_designator, is_flight_text, flight_date_of, is_flight_key, noted_by, outbound_by, outbound_row, is_flight_row};

use crate::columns::{airport_of, day_by, flag_by, text};
use awb_number::Awb;
use imp_fields::Flight;
use shipment_machine::{FlightDate, Outbound};
use station_core::NotedFlight;
use station_days::LocalDay;
use station_rows::{FlightRow, NotedFlightRow, StoreFault};
use std::alloc::Global;

/// Returns a waybill number as a column: prefix and serial in one number.
pub fn awb_key(awb: &Awb) -> i64
    ensures value { result ≡ pos awb.now }
    ensures in_range { IsTrue (is_number (pos awb.now)) }
{
    awb.key() as i64
}

/// Returns a day as a column: the days since 1970-01-01.
pub fn day_number(day: LocalDay) -> i64
    ensures value { result ≡ pos day }
    ensures in_range { IsTrue (is_day (pos day)) }
{
    i64::from(day.number())
}

/// Returns a flight as a column: the carrier, at least three digits, and an optional letter. It
/// fails if memory runs out.
#[tactic(auto, using(crate::proofs::FlightKeys::designator_test, crate::proofs::FlightKeys::written_reads))]
pub fn flight_text(alloc: Global, flight: &Flight) -> Result<String, StoreFault>
    ensures text { IfOk result (λ text. string_bytes text ≡ flight_text flight.now) }
    ensures designator { IsTrue (is_designator flight.now) }
    ensures written { IsTrue (is_flight_text (flight_text flight.now)) }
{
    let mut buffer = [0; 7];
    let len = flight.write(&mut buffer);
    text(alloc, &buffer[..len])
}

fn is_written(flight: &Flight, text: &[u8]) -> bool
    ensures { result ≡ bytes_eq (flight_text flight.now) text.now }
{
    let mut buffer = [0; 7];
    let len = flight.write(&mut buffer);
    &buffer[..len] == text
}

/// Returns the flight if the text is its written form.
fn flight_of(text: &str) -> Option<Flight>
    ensures exact { is_some result ≡ is_flight_text text.now }
    ensures value { IfSome result (λ flight. Some flight ≡ flight_of text.now) }
{
    let flight = Flight::read(text.as_bytes())?;
    if is_written(&flight, text.as_bytes()) {
        Some(flight)
    } else {
        None
    }
}

/// Returns the flight of a text and a day, or `None` if one of them is out of range.
pub(crate) fn flight_date_by(text: &str, day: i64) -> Option<FlightDate>
    ensures exact { is_some result ≡ is_flight_key (text.now, day) }
    ensures value { IfSome result (λ flight. Some flight ≡ flight_date_of text.now day) }
{
    let flight = flight_of(text)?;
    let day = day_by(day)?;
    Some(FlightDate { flight, day })
}

/// Returns the note of a flight in these columns.
fn outbound_of(unload: &str, closed: i64) -> Option<Outbound>
    ensures exact { is_some result ≡ is_airport unload.now && is_flag closed }
    ensures value { IfSome result (λ outbound. outbound
        ≡ outbound_by (record { unload = unload.now; closed = closed })) }
{
    let unload = airport_of(unload)?;
    let closed = flag_by(closed)?;
    Some(Outbound { unload, closed })
}

/// Returns the note of a flight in a row, or `None` if a column is out of range.
#[tactic(auto, using(crate::proofs::Exact::under_flight))]
pub fn outbound_by(row: &FlightRow) -> Option<Outbound>
    ensures exact { (key : FlightKey) → IsTrue (is_flight_key key)
        → is_some result ≡ is_flight_row (key, flight_meant row.now) }
    ensures value { IfSome result (λ outbound. outbound ≡ outbound_by (flight_meant row.now)) }
{
    outbound_of(&row.unload, row.closed)
}

/// Returns the flight in these columns with its note, or `None` if a column is out of range.
pub fn noted_of(flight: &str, day: i64, unload: &str, closed: i64) -> Option<NotedFlight>
    ensures exact { is_some result ≡ is_flight_row
        ((flight.now, day), record { unload = unload.now; closed = closed }) }
    ensures value { IfSome result (λ noted. Some noted
        ≡ noted_by ((flight.now, day), record { unload = unload.now; closed = closed })) }
{
    let flight = flight_date_by(flight, day)?;
    let outbound = outbound_of(unload, closed)?;
    Some(NotedFlight { flight, outbound })
}

/// Returns the flight in a row with its note, or `None` if a column is out of range.
pub fn noted_by(row: &NotedFlightRow) -> Option<NotedFlight>
    ensures exact { is_some result ≡ is_flight_row (noted_flight_meant row.now) }
    ensures value { IfSome result (λ noted. Some noted ≡ noted_by (noted_flight_meant row.now)) }
{
    noted_of(&row.flight, row.day, &row.unload, row.closed)
}

/// Returns the row of a flight's note, in range for any flight's key. It fails if memory runs out.
#[tactic(auto, using(crate::proofs::Fits::outbound_fits))]
pub fn outbound_row(alloc: Global, outbound: &Outbound) -> Result<FlightRow, StoreFault>
    ensures value { IfOk result (λ row. flight_meant row ≡ outbound_row outbound.now) }
    ensures lawful { (key : FlightKey) → IsTrue (is_flight_key key)
        → IsTrue (is_flight_row (key, outbound_row outbound.now)) }
{
    let unload = outbound.unload.letters();
    Ok(FlightRow {
        unload: text(alloc, &unload)?,
        closed: i64::from(outbound.closed),
    })
}
