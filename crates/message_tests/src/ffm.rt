//! Flight manifest messages.
use crate::given::number;
use crate::said::{consignment_said, fault_said, token_said};
use ffm_text::{Ffm, Load, read, write_ffm};
use imp_fields::{Airport, BookTenths, Flight, Goods, Pieces, TextFault, normal_text};
use station_days::DayMonth;
use std::alloc::Global;
use test_kit::shown;

pub fn answer(alloc: Global, asked: &str, text: &[u8]) -> Option<String> {
    match (asked, part(alloc, text)) {
        ("head", Ok(part)) => {
            let (number, flight, date) = (part.sequence.number(), part.flight, part.date);
            let (day, month, loaded) = (date.day, date.month, part.loaded);
            format!(in alloc; "{number} {flight} {day} {month} {loaded}").ok()
        }
        ("cargo", Ok(part)) => cargo(alloc, &part),
        ("goods", Ok(part)) => token_said(alloc, &part.cargo.first()?.consignment.goods),
        ("fault", read) => fault_said(alloc, read),
        ("written", _) => written(alloc, shown(text)),
        _ => None,
    }
}

pub fn part<'a>(alloc: Global, text: &'a [u8]) -> Result<Ffm<'a>, TextFault> {
    read(alloc, &normal_text(alloc, text)?)
}

fn cargo(alloc: Global, part: &Ffm<'_>) -> Option<String> {
    let mut said = format!(in alloc; "{}", part.cargo.len()).ok()?;
    for line in &part.cargo {
        let consignment = consignment_said(alloc, &line.consignment)?;
        write!(said, "; {} {consignment}", line.unload).ok()?;
    }
    Some(said)
}

/// Reads a load of 40.0 kg: its number, its pieces, those declared, and optional goods.
pub fn load(text: &str) -> Option<Load> {
    let mut words = text.split_whitespace();
    Some(Load {
        awb: number(&mut words)?,
        origin: Airport::read(b"FRA")?,
        destination: Airport::read(b"JFK")?,
        pieces: Pieces::read(words.next()?.as_bytes())?,
        tenths: BookTenths::new(400)?,
        declared: Pieces::read(words.next()?.as_bytes())?,
        goods: Goods::read(words.next().unwrap_or("").as_bytes())?,
    })
}

/// Appends a manifest from FRA to JFK. Returns whether memory sufficed.
pub fn is_written(out: &mut Vec<u8>, flight: &str, loads: &[Load]) -> Option<bool> {
    let flight = Flight::read(flight.as_bytes())?;
    let (here, unload) = (Airport::read(b"FRA")?, Airport::read(b"JFK")?);
    if loads.len() > 500 {
        return None;
    }
    let date = DayMonth::read(b"12JAN")?;
    Some(write_ffm(out, flight, date, here, unload, loads).is_ok())
}

/// Returns a manifest after a letter X. The text gives the flight and its loads, one a line.
fn written(alloc: Global, text: &str) -> Option<String> {
    let mut lines = text.lines();
    let flight = lines.next()?;
    let mut loads = Vec::new(alloc);
    for line in lines {
        loads.push(load(line)?).ok()?;
    }
    let mut out = b"X".to_vec(alloc).ok()?;
    if is_written(&mut out, flight, &loads)? {
        String::from_utf8(out).ok()
    } else {
        None
    }
}
