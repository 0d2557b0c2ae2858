ghost use Rattle.std.specs.Prelude.{◌≡◌, ◌<◌, ◌&&◌, pos, true, is_some, IsTrue, IfSome, IfOk, OnOk, Some, string_bytes};
ghost use Rattle.row_codec.specs.Common.{move_meant};
ghost use Rattle.row_codec.specs.Flights.{flight_date_of, natural, is_count, is_day, is_within};
ghost use Rattle.row_codec.specs.Stored.{place_code, place_of, book_row_by, move_by, flight_column, day_column, move_row, is_move_row, are_flight_columns};

use crate::columns::{awb_by, count_of, pieces_by, tenths_by};
use crate::flights::{awb_key, day_number, flight_date_by, flight_text};
use shipment_machine::{FlightDate, Move, Place};
use station_core::BookRow;
use station_days::Moment;
use station_rows::{MoveRow, StoreFault};
use std::alloc::Global;

#[tactic(auto, using(crate::proofs::Exact::within_moment))]
fn moment_by(day: i64, minute: i64) -> Option<Moment>
    ensures exact { is_some result ≡ is_day day && is_within 0 1439 minute }
    ensures value { IfSome result (λ at. at
        ≡ record { day = natural day; minute = natural minute }) }
{
    Moment::new(u32::try_from(day).ok()?, u16::try_from(minute).ok()?)
}

/// Returns the flight of a text and a day. An empty text and day 0 mean no flight.
fn flight_by(text: &str, day: i64) -> Option<Option<FlightDate>>
    ensures exact { is_some result ≡ are_flight_columns text.now day }
    ensures value { IfSome result (λ flight. flight ≡ flight_date_of text.now day) }
{
    if text.is_empty() && day == 0 {
        return Some(None);
    }
    let flight = flight_date_by(text, day)?;
    Some(Some(flight))
}

fn place_by(code: i64, flight: Option<FlightDate>) -> Option<Place>
    ensures { result ≡ place_of code flight }
{
    match code {
        0 => Some(Place::Hand),
        1 => Some(Place::Surplus),
        2 => Some(Place::Free),
        3 => match flight {
            Some(flight) => Some(Place::Built(flight)),
            None => None,
        },
        4 => Some(Place::Departed),
        5 => Some(Place::Delivered),
        6 => Some(Place::Missing),
        7 => Some(Place::Transferred),
        _ => None,
    }
}

/// Returns the move in a row, or `None` if a column is out of range.
pub fn move_by(row: &MoveRow) -> Option<Move>
    ensures exact { is_some result ≡ is_move_row (move_meant row.now) }
    ensures value { IfSome result (λ movement. movement ≡ move_by (move_meant row.now)) }
{
    let flight = flight_by(&row.flight, row.fday)?;
    Some(Move {
        awb: awb_by(row.awb)?,
        from: place_by(row.src, flight)?,
        to: place_by(row.dst, flight)?,
        pieces: pieces_by(row.pieces)?,
        tenths: tenths_by(row.tenths)?,
        flight,
        at: moment_by(row.day, row.minute)?,
    })
}

/// Returns the move in a row with its number, as readers do, or `None` if a column is out of range.
pub fn book_row_by(row: &MoveRow) -> Option<BookRow>
    ensures exact { is_some result ≡ is_count row.now.number && is_move_row (move_meant row.now) }
    ensures value { IfSome result (λ one. one ≡ book_row_by (move_meant row.now)) }
{
    let number = count_of(row.number)?;
    let movement = move_by(row)?;
    Some(BookRow { number, movement })
}

/// Returns the code of a place in `moves` and `counts`: 0 to 7.
pub fn place_code(place: &Place) -> i64
    ensures { result ≡ pos (place_code place.now) }
{
    match place {
        Place::Hand => 0,
        Place::Surplus => 1,
        Place::Free => 2,
        Place::Built(_) => 3,
        Place::Departed => 4,
        Place::Delivered => 5,
        Place::Missing => 6,
        Place::Transferred => 7,
    }
}

/// Returns whether a place is built on this flight, or isn't built.
#[tactic(auto, using(crate::proofs::MoveRows::built_again))]
fn is_named(place: &Place, flight: &Option<FlightDate>) -> bool
    ensures { result ≡ true → place_of (pos (place_code place.now)) flight.now ≡ Some place.now }
{
    match place {
        Place::Built(on) => match flight {
            Some(flight) => flight.is_same(on),
            None => false,
        },
        Place::Hand => true,
        Place::Surplus => true,
        Place::Free => true,
        Place::Departed => true,
        Place::Delivered => true,
        Place::Missing => true,
        Place::Transferred => true,
    }
}

/// Returns the text and the day of a move's flight, empty and 0 without one. They are read back as
/// the flight. It fails if memory runs out.
fn flight_columns(alloc: Global, flight: &Option<FlightDate>) -> Result<(String, i64), StoreFault>
    ensures text { IfOk result (λ columns. string_bytes columns.0 ≡ flight_column flight.now) }
    ensures day { IfOk result (λ columns. columns.1 ≡ day_column flight.now) }
    ensures again { OnOk result
        (flight_date_of (flight_column flight.now) (day_column flight.now) ≡ flight.now) }
    ensures lawful { OnOk result
        (IsTrue (are_flight_columns (flight_column flight.now) (day_column flight.now))) }
{
    match flight {
        Some(flight) => {
            let text = flight_text(alloc, &flight.flight)?;
            Ok((text, day_number(flight.day)))
        }
        None => Ok((String::new(alloc), 0)),
    }
}

/// Returns the day and the minute of a moment.
#[tactic(auto, using(crate::proofs::Fits::day_fits))]
fn moment_columns(at: Moment) -> (i64, i64)
    ensures day { result.0 ≡ pos at.day }
    ensures minute { result.1 ≡ pos at.minute }
    ensures day_in_range { IsTrue (is_day (pos at.day)) }
    ensures minute_in_range { at.minute < 1440 }
{
    (i64::from(at.day), i64::from(at.minute))
}

/// Returns the row of a move, with its number from 1. It fails if one of its places is built on a
/// flight other than the move's, or if memory runs out.
#[tactic(auto, using(crate::proofs::MoveRows::row_fits, crate::proofs::MoveRows::move_again))]
pub fn move_row(alloc: Global, number: u32, movement: &Move) -> Result<MoveRow, StoreFault>
    ensures value { IfOk result (λ row. move_meant row ≡ move_row number movement.now) }
    ensures lawful { OnOk result (IsTrue (is_move_row (move_row number movement.now))) }
    ensures again { OnOk result (move_by (move_row number movement.now) ≡ movement.now) }
{
    if !is_named(&movement.from, &movement.flight) {
        return Err(StoreFault);
    }
    if !is_named(&movement.to, &movement.flight) {
        return Err(StoreFault);
    }
    let (flight, fday) = flight_columns(alloc, &movement.flight)?;
    let (day, minute) = moment_columns(movement.at);
    Ok(MoveRow {
        number: i64::from(number),
        awb: awb_key(&movement.awb),
        src: place_code(&movement.from),
        dst: place_code(&movement.to),
        pieces: i64::from(movement.pieces.number()),
        tenths: i64::from(movement.tenths.number()),
        flight,
        fday,
        day,
        minute,
    })
}
