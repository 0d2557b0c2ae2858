//! First steps with the libraries: a station in memory takes telegrams.
use imp_fields::Airport;
use plain_station::PlainStation;
use station_core::{ActFault, Input, Keeper};
use station_days::Moment;
use std::alloc::Global;
use std::io;
use telegrams::read_telegram;

/// A waybill's data (FWB): ten pieces of 100 kilograms from Frankfurt to New York.
const WAYBILL: &[u8] = b"FWB/16\r\n020-12345675FRAJFK/T10K100\r\n";

/// A line that ends too early.
const DAMAGED: &[u8] = b"FWB/16\r\n020-12345675FRAJFK/T10\r\n";

/// Passes a telegram to a station at a moment, and returns the outcome in words.
fn take(alloc: Global, station: &mut PlainStation, text: &[u8], at: Moment) -> &'static str {
    let Ok(telegram) = read_telegram(alloc, text) else {
        return "it can't be read";
    };
    match station.act(&Input::Wire(telegram), at) {
        Ok(_) => "accepted",
        Err(ActFault::Refused(_)) => "refused",
        Err(_) => "no memory for it",
    }
}

/// Passes a station a waybill's data, the same telegram again and a damaged one, and prints the
/// outcomes. Returns whether the station could be made. It fails if printing fails.
pub fn run(rt: &HostRuntime) -> io::Result<bool> {
    let (Some(here), Some(noon)) = (Airport::read(b"FRA"), Moment::new(20_465, 720)) else {
        return Ok(false);
    };
    let mut station = PlainStation::new(rt.alloc(), here);
    for text in [WAYBILL, WAYBILL, DAMAGED] {
        println!(rt; "{}", take(rt.alloc(), &mut station, text, noon))?;
    }
    Ok(true)
}
