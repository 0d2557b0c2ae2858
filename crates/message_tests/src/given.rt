//! Values that the words of a case give.
use awb_number::Awb;
use imp_fields::{Airport, Flight, Pieces};
use shipment_machine::FlightDate;
use station_days::LocalDay;
use std::str::SplitWhitespace;

pub fn next_number(words: &mut SplitWhitespace<'_>) -> Option<u32> {
    words.next()?.parse::<u32>().ok()
}

pub fn next_small_number(words: &mut SplitWhitespace<'_>) -> Option<u16> {
    words.next()?.parse::<u16>().ok()
}

pub fn number(words: &mut SplitWhitespace<'_>) -> Option<Awb> {
    test_kit::number(words.next()?.as_bytes())
}

pub fn airport(words: &mut SplitWhitespace<'_>) -> Option<Airport> {
    Airport::read(words.next()?.as_bytes())
}

pub fn pieces(words: &mut SplitWhitespace<'_>) -> Option<Pieces> {
    Pieces::new(next_number(words)?)
}

/// Reads a flight and its day's number.
pub fn flight_date(words: &mut SplitWhitespace<'_>) -> Option<FlightDate> {
    Some(FlightDate {
        flight: Flight::read(words.next()?.as_bytes())?,
        day: LocalDay::new(next_number(words)?)?,
    })
}
