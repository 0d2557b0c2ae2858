ghost use Rattle.std.specs.Prelude.{◌≡◌, ◌↔◌, map, length, pos, ℕ, ℤ, IsTrue, IsSome, true, List, ◌+◌, ◌++◌, ◌∷◌, [], Bool, IfOk, OnOk};
ghost use Rattle.table_audits.specs.Common.{is_ok, IsBinarySearchResult, IsSearchInRange, has_key, waybill_id, flight_cmp, waybill_meant, declared_in, flight_entry, move_meant, NamesFlight, Place, Tables, Waybill, flight_date_of, are_flight_columns, is_built};
ghost use Rattle.table_audits.specs.Moves.{RisesByNumber, AreBeside, IsSpotFound};
ghost use Rattle.table_audits.specs.Taken.{AreSound, AreSoundOr, AreCounted};

use crate::sums::Spot;
use row_codec::place_code;
use shipment_machine::Place;
use sqlite::{Error, ErrorCode};
use station_rows::{MoveRow, WaybillRow};
use std::cmp::Ordering;
use table_load::FlightEntry;

/// Returns the index of a number's row, or of its place.
fn place_of(waybills: &[WaybillRow], awb: &i64) -> Result<usize, usize>
    ensures { RisesByNumber (map waybill_meant waybills.now)
        → is_ok result ≡ has_key waybill_id (map waybill_meant waybills.now) awb.now }
{
    waybills.binary_search_by_key(awb, |row| row.awb)
}

/// Returns whether the waybill has a row. `waybills` is the whole table `waybill`, in the order of
/// the numbers.
#[tactic(auto, using(crate::proofs::DeclaredLaws::declared_from, crate::proofs::DeclaredLaws::declared_back))]
pub(crate) fn is_declared(waybills: &[WaybillRow], awb: i64) -> bool
    ensures row { RisesByNumber (map waybill_meant waybills.now)
        → result ≡ has_key waybill_id (map waybill_meant waybills.now) awb }
    ensures declared { (w : ℕ) → awb ≡ pos w → RisesByNumber (map waybill_meant waybills.now)
        → (IsTrue result ↔ IsSome (declared_in (map waybill_meant waybills.now) w)) }
{
    place_of(waybills, &awb).is_ok()
}

/// Compares a row of `flight` with a flight and a day.
fn compare_flight(row: &FlightEntry, flight: &str, day: &i64) -> Ordering
    ensures { result ≡ flight_cmp (flight_entry row.now).0 (flight.now, day.now) }
{
    match row.flight.as_str().cmp(flight) {
        Ordering::Less => Ordering::Less,
        Ordering::Equal => row.day.cmp(day),
        Ordering::Greater => Ordering::Greater,
    }
}

/// Returns the index of a flight's row on a day, or of its place.
pub(crate) fn flight_place(flights: &[FlightEntry], flight: &str, day: &i64) -> Result<usize, usize>
    ensures bound { IsSearchInRange result (length flights.now) }
    ensures place { IsBinarySearchResult
        (λ row. flight_cmp (flight_entry row).0 (flight.now, day.now)) flights.now result }
{
    flights.binary_search_by(|row| compare_flight(row, flight, day))
}

fn is_built(place: &Place) -> bool
    ensures { result ≡ is_built place.now }
{
    matches!(place, Place::Built(_))
}

/// Returns the flight of a move's row, by the index of its row in the table.
fn flight_spot(row: &MoveRow, flights: &[FlightEntry]) -> Option<Spot>
    ensures { (t : Tables) (ws : List Waybill) (place : Place)
        → AreBeside t ws (map flight_entry flights.now)
        → are_flight_columns (move_meant row.now).flight row.now.fday ≡ true
        → is_built place ≡ true
        → NamesFlight place (flight_date_of (move_meant row.now).flight row.now.fday)
        → IsSpotFound t place result }
{
    match flight_place(flights, &row.flight, &row.fday) {
        Ok(at) => Some(Spot::OnFlight(at)),
        Err(_) => None,
    }
}

/// Returns a place of a row's move for posting, or `None` if its flight has no row.
pub(crate) fn spot_of(place: &Place, row: &MoveRow, flights: &[FlightEntry]) -> Option<Spot>
    ensures { (t : Tables) (ws : List Waybill) → AreBeside t ws (map flight_entry flights.now)
        → are_flight_columns (move_meant row.now).flight row.now.fday ≡ true
        → NamesFlight place.now (flight_date_of (move_meant row.now).flight row.now.fday)
        → IsSpotFound t place.now result }
{
    if is_built(place) {
        return flight_spot(row, flights);
    }
    Some(Spot::Plain(place_code(place)))
}

/// Returns whether a number follows `count` rows numbered from 1.
pub(crate) fn is_next(number: i64, count: u32) -> bool
    ensures { IsTrue result ↔ (number ≡ pos (count + 1)) }
{
    number == i64::from(count) + 1
}

/// Adds one row. It fails above 4,294,967,295.
pub(crate) fn one_more(count: u32) -> Result<u32, Error>
    ensures { IfOk result (λ more. more ≡ count + 1) }
{
    match count.checked_add(1) {
        Some(more) => Ok(more),
        None => Err(Error::SqliteFailure(ErrorCode::TooBig)),
    }
}

/// Returns the number of rows with the next one, or `None` if that has a wrong number or isn't
/// lawful. It fails above 4,294,967,295.
fn counted(count: u32, number: i64, is_lawful: bool) -> Result<Option<u32>, Error>
    ensures { (rows : List (ℤ × Bool)) → AreSound rows → count ≡ length rows
        → IfOk result (AreSoundOr (rows ++ (number, is_lawful) ∷ [])) }
{
    if !is_lawful {
        return Ok(None);
    }
    if !is_next(number, count) {
        return Ok(None);
    }
    Ok(Some(one_more(count)?))
}

/// The audit of rows that are numbered from 1 and added one after another.
#[derive(Drop)]
pub(crate) struct NumberedRows {
    /// The number of rows, or `None` if one of them has a wrong number or isn't lawful.
    pub(crate) count: Option<u32>,
}

impl NumberedRows {
    /// Starts without rows.
    pub(crate) fn new() -> NumberedRows
        ensures { AreCounted result [] }
    {
        NumberedRows { count: Some(0) }
    }

    /// Adds the next row. It fails above 4,294,967,295.
    pub(crate) fn add(&mut self, number: i64, is_lawful: bool) -> Result<(), Error>
        ensures { (rows : List (ℤ × Bool)) → AreCounted self.old rows
            → OnOk result (AreCounted self.new (rows ++ (number, is_lawful) ∷ [])) }
    {
        if let Some(count) = self.count {
            self.count = counted(count, number, is_lawful)?;
        }
        Ok(())
    }
}
